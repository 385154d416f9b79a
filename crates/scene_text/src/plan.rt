//! What of a node appears in the text: its label, and the fields that differ from their defaults.

ghost use Rattle.std.specs.Prelude.{◌≡◌, ◌+◌, ◌++◌, ◌<◌, ◌≤◌, IfOk, OnOk, Some, length, map, slice_get};
ghost use Rattle.std.specs.Option.{option_copied};
ghost use Rattle.x3d_values.specs.Ranges.{max_fields};
ghost use Rattle.x3d_values.specs.Tables.{entry};
ghost use Rattle.scene_core.specs.Scene.{label_of, types_of};
ghost use Rattle.scene_text.specs.Tree.{kept_value, present_value, held_value, declared_from, shown_field, shown_from, shown_fields, def_name};
ghost use Rattle.scene_text.specs.Views.{plan_of, shown_of};

use crate::defaults::is_default;
use scene_core::{DeclaredField, Route, Scene};
use std::alloc::{AllocError, Global};
use x3d_values::{Access, Duplicate, Field, FieldType, Fields, NodeType, Text, Value, fields_of};

/// A scene with its routes and what its nodes keep.
#[derive(Clone, Copy)]
pub(crate) struct Plan<'a> {
    pub scene: &'a Scene,
    pub routes: &'a [Route],
    pub state: &'a [Fields],
    /// By node number, whether the first appearance of the node has a DEF.
    pub named: &'a [bool],
}

/// A field that appears in the text.
#[derive(Clone, Copy)]
pub(crate) enum ShownField<'a> {
    /// A field of the node's type, with its present value.
    Plain(&'a str, &'a Value),
    /// A field that the node declares, with what it holds.
    Declared(&'a DeclaredField, Option<&'a Value>),
}

/// Returns the label of a node, which no other node has.
#[tactic(auto, unfolding(scene_core::specs::Scene::label_of))]
pub(crate) fn label(alloc: Global, scene: &Scene, node: u32) -> Result<Text, AllocError>
    ensures { IfOk result (λ name. name ≡ label_of scene.now node) }
{
    match scene.def_name(node) {
        Some(name) => name.duplicate(alloc),
        None => Ok(Text::from_string(format!(in alloc; "N{node}")?)),
    }
}

/// Returns the name that DEF gives the node, if it has a DEF.
pub(crate) fn def_name(
    alloc: Global,
    plan: &Plan<'_>,
    node: u32,
) -> Result<Option<Text>, AllocError>
    ensures { IfOk result (λ name. name ≡ def_name (plan_of plan.now) node) }
{
    match plan.named.get(node as usize) {
        Some(true) => Ok(Some(label(alloc, plan.scene, node)?)),
        _ => Ok(None),
    }
}

/// Returns the fields of a node of type `node_type` that appear in the text.
#[tactic(auto, unfolding(crate::specs::Tree::shown_fields))]
pub(crate) fn shown_fields<'a>(
    alloc: Global,
    plan: &Plan<'a>,
    node: u32,
    node_type: NodeType,
) -> Result<Vec<ShownField<'a>>, AllocError>
    requires { slice_get (types_of plan.now.scene.now) node ≡ Some node_type }
    ensures { IfOk result
        (λ fields. map shown_of fields.items ≡ shown_fields (plan_of plan.now) node node_type) }
{
    let mut shown = Vec::new(alloc);
    let rows = fields_of(node_type);
    push_shown_from(plan, node, 0, rows, &mut shown)?;
    let scene: &'a Scene = plan.scene;
    push_declared(plan, node, rows.len(), scene.declared(node), &mut shown)?;
    Ok(shown)
}

/// Returns what the node keeps of an inputOutput field that holds no nodes.
fn kept_value<'a>(
    plan: &Plan<'a>,
    node: u32,
    number: u16,
    access: Access,
    field_type: FieldType,
) -> Option<&'a Value>
    ensures { option_copied result ≡ kept_value (plan_of plan.now) node number access field_type }
{
    if access.is_kept(field_type) {
        plan.state.get(node as usize)?.value(number)
    } else {
        None
    }
}

/// Returns the present value of a field: what the node keeps, or else what the scene gives.
fn present_value<'a>(
    plan: &Plan<'a>,
    node: u32,
    number: u16,
    access: Access,
    field_type: FieldType,
) -> Option<&'a Value>
    ensures { option_copied result
        ≡ present_value (plan_of plan.now) node number access field_type }
{
    match kept_value(plan, node, number, access, field_type) {
        Some(value) => Some(value),
        None => plan.scene.value(node, number),
    }
}

/// Appends the field, if it appears in the text.
fn push_shown<'a>(
    field: &Field,
    present: Option<&'a Value>,
    out: &mut Vec<ShownField<'a>>,
) -> Result<(), AllocError>
    ensures { OnOk result (map shown_of out.new.items ≡ map shown_of out.old.items
        ++ shown_field field.now.name.now field.now.default (option_copied present.entry)) }
{
    let Some(default) = field.default else {
        return Ok(());
    };
    let Some(value) = present else {
        return Ok(());
    };
    if is_default(&default, value) {
        return Ok(());
    }
    out.push(ShownField::Plain(field.name, value))?;
    Ok(())
}

/// Appends those of the fields that appear in the text. They are numbered from `number` on.
fn push_shown_from<'a>(
    plan: &Plan<'a>,
    node: u32,
    number: u16,
    fields: &[Field],
    out: &mut Vec<ShownField<'a>>,
) -> Result<(), AllocError>
    requires { number + length fields.now < max_fields }
    ensures { OnOk result (map shown_of out.new.items ≡ map shown_of out.old.items
        ++ shown_from (plan_of plan.now) node number (map entry fields.now)) }
{
    match fields {
        [] => Ok(()),
        [field, others @ ..] => {
            let present = present_value(plan, node, number, field.access, field.field_type);
            push_shown(field, present, out)?;
            push_shown_from(plan, node, number + 1, others, out)
        }
    }
}

/// Returns what a declared field holds. inputOnly and outputOnly fields hold nothing.
fn held_value<'a>(
    plan: &Plan<'a>,
    node: u32,
    number: u16,
    field: &DeclaredField,
) -> Option<&'a Value>
    ensures { option_copied result ≡ held_value (plan_of plan.now) node number field.now }
{
    if field.access.is_initial() {
        present_value(plan, node, number, field.access, field.field_type)
    } else {
        None
    }
}

/// Appends the declared fields of a node. They are numbered from `first` on.
#[tactic(auto, using(crate::proofs::DeclaredFields::declaring))]
fn push_declared<'a>(
    plan: &Plan<'a>,
    node: u32,
    first: usize,
    fields: &'a [DeclaredField],
    out: &mut Vec<ShownField<'a>>,
) -> Result<(), AllocError>
    requires { first + length fields.now ≤ max_fields }
    ensures { OnOk result (map shown_of out.new.items ≡ map shown_of out.old.items
        ++ declared_from (plan_of plan.now) node first fields.now) }
{
    for i in 0..fields.len() {
        let held = held_value(plan, node, (first + i) as u16, &fields[i]);
        out.push(ShownField::Declared(&fields[i], held))?;
    }
    Ok(())
}
