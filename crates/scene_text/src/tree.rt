//! The trees of nodes. A node's first appearance is written in full, later ones as USE.

ghost use Rattle.std.specs.Prelude.{◌≡◌, ◌<◌, IfOk, IfSome, Some, length, map, slice_get};
ghost use Rattle.std.specs.Option.{option_copied};
ghost use Rattle.scene_core.specs.Scene.{label_of, types_of};
ghost use Rattle.scene_text.specs.Tree.{new_type, use_tree, each, node_list, value_tree, plain_tree, given_tree, declaration, declared_tree, field_tree, node_tree, def_name};
ghost use Rattle.scene_text.specs.Views.{plan_of, shown_of};
ghost use Rattle.x3d_values.specs.Names.{node_type_name};
ghost use Rattle.classic_tree.specs.declared.tree.NodeText.TheVariants as text;

use crate::plan::{Plan, ShownField, def_name, label, shown_fields};
use crate::raw::plain;
use classic_tree::{BodyItem, Declaration, Given, NodeText, RawValue};
use scene_core::DeclaredField;
use std::alloc::{AllocError, Global};
use x3d_values::{Duplicate, Items, NodeType, Text, Value};

/// Returns the tree of a node, with nodes nested at most `depth` deep.
#[cycle(tree)]
#[tactic(auto, using(crate::proofs::Trees::node_steps))]
pub(crate) fn node_tree(
    alloc: Global,
    plan: &Plan<'_>,
    seen: &mut Vec<bool>,
    depth: u32,
    node: u32,
) -> Result<NodeText, AllocError>
    ensures { IfOk result (λ made. record { seen = seen.new.items; made = made }
        ≡ node_tree depth (plan_of plan.now) seen.old.items node) }
{
    if depth == 0 {
        return Ok(use_tree(alloc, plan, node)?);
    }
    let Some(node_type) = new_type(plan, seen.as_slice(), node) else {
        return Ok(use_tree(alloc, plan, node)?);
    };
    seen[node as usize] = true;
    let shown = shown_fields(alloc, plan, node, node_type)?;
    let items = field_trees(alloc, plan, seen, depth - 1, shown.as_slice())?;
    Ok(full_tree(alloc, plan, node, node_type, items)?)
}

#[cycle(tree)]
pub(crate) fn node_trees(
    alloc: Global,
    plan: &Plan<'_>,
    seen: &mut Vec<bool>,
    depth: u32,
    nodes: &[u32],
) -> Result<Vec<NodeText>, AllocError>
    ensures { IfOk result (λ made. record { seen = seen.new.items; made = made.items }
        ≡ each (node_tree depth (plan_of plan.now)) seen.old.items nodes.now) }
{
    let mut trees = Vec::new(alloc);
    for node in nodes {
        trees.push(node_tree(alloc, plan, seen, depth, *node)?)?;
    }
    Ok(trees)
}

/// Returns the type of a node that has not appeared yet.
fn new_type(plan: &Plan<'_>, seen: &[bool], node: u32) -> Option<NodeType>
    ensures is { result ≡ new_type (plan_of plan.now) seen.now node }
    ensures typed { IfSome result
        (λ t. slice_get (types_of plan.now.scene.now) node ≡ Some t) }
    ensures within { IfSome result (λ t. node < length seen.now) }
{
    match seen.get(node as usize) {
        Some(false) if (node as usize) < plan.scene.node_count() => {
            Some(plan.scene.node_type(node))
        }
        _ => None,
    }
}

fn use_tree(alloc: Global, plan: &Plan<'_>, node: u32) -> Result<NodeText, AllocError>
    ensures { IfOk result (λ made. made ≡ use_tree (plan_of plan.now) node) }
{
    Ok(NodeText::Use(0, label(alloc, plan.scene, node)?))
}

fn full_tree(
    alloc: Global,
    plan: &Plan<'_>,
    node: u32,
    node_type: NodeType,
    items: Vec<BodyItem>,
) -> Result<NodeText, AllocError>
    ensures { IfOk result
        (λ made. made
        ≡ text.Full 0 (def_name (plan_of plan.now) node) (node_type_name node_type) items.items) }
{
    let Ok(word) = Text::from_str(alloc, node_type.name()) else {
        drop(items);
        return Err(AllocError);
    };
    let Ok(name) = def_name(alloc, plan, node) else {
        drop(items);
        return Err(AllocError);
    };
    Ok(NodeText::Full(0, name, word, Items::from_vec(items)))
}

#[cycle(tree)]
fn field_trees(
    alloc: Global,
    plan: &Plan<'_>,
    seen: &mut Vec<bool>,
    depth: u32,
    shown: &[ShownField<'_>],
) -> Result<Vec<BodyItem>, AllocError>
    ensures { IfOk result (λ made. record { seen = seen.new.items; made = made.items }
        ≡ each (field_tree (node_tree depth (plan_of plan.now))) seen.old.items
        (map shown_of shown.now)) }
{
    let mut items = Vec::new(alloc);
    for field in shown {
        items.push(field_tree(alloc, plan, seen, depth, field)?)?;
    }
    Ok(items)
}

#[cycle(tree)]
fn field_tree(
    alloc: Global,
    plan: &Plan<'_>,
    seen: &mut Vec<bool>,
    depth: u32,
    shown: &ShownField<'_>,
) -> Result<BodyItem, AllocError>
    ensures { IfOk result (λ made. record { seen = seen.new.items; made = made }
        ≡ field_tree (node_tree depth (plan_of plan.now)) seen.old.items (shown_of shown.now)) }
{
    match shown {
        ShownField::Plain(name, value) => plain_tree(alloc, plan, seen, depth, name, value),
        ShownField::Declared(field, held) => declared_tree(alloc, plan, seen, depth, field, *held),
    }
}

#[cycle(tree)]
fn plain_tree(
    alloc: Global,
    plan: &Plan<'_>,
    seen: &mut Vec<bool>,
    depth: u32,
    name: &str,
    value: &Value,
) -> Result<BodyItem, AllocError>
    ensures { IfOk result (λ made. record { seen = seen.new.items; made = made }
        ≡ plain_tree name.now
        (value_tree (node_tree depth (plan_of plan.now)) seen.old.items value.now)) }
{
    let name = Text::from_str(alloc, name)?;
    let Ok(value) = value_tree(alloc, plan, seen, depth, value) else {
        drop(name);
        return Err(AllocError);
    };
    Ok(BodyItem::Field(0, name, Given::Value(value)))
}

#[cycle(tree)]
fn declared_tree(
    alloc: Global,
    plan: &Plan<'_>,
    seen: &mut Vec<bool>,
    depth: u32,
    field: &DeclaredField,
    held: Option<&Value>,
) -> Result<BodyItem, AllocError>
    ensures { IfOk result (λ made. record { seen = seen.new.items; made = made }
        ≡ declared_tree field.now
        (given_tree (node_tree depth (plan_of plan.now)) seen.old.items
        (option_copied held.entry))) }
{
    let given = given_tree(alloc, plan, seen, depth, held)?;
    declaration(alloc, field, given)
}

#[cycle(tree)]
fn given_tree(
    alloc: Global,
    plan: &Plan<'_>,
    seen: &mut Vec<bool>,
    depth: u32,
    held: Option<&Value>,
) -> Result<Given<NodeText>, AllocError>
    ensures { IfOk result (λ made. record { seen = seen.new.items; made = made }
        ≡ given_tree (node_tree depth (plan_of plan.now)) seen.old.items
        (option_copied held.entry)) }
{
    match held {
        Some(value) => Ok(Given::Value(value_tree(alloc, plan, seen, depth, value)?)),
        None => Ok(Given::Nothing),
    }
}

fn declaration(
    alloc: Global,
    field: &DeclaredField,
    given: Given<NodeText>,
) -> Result<BodyItem, AllocError>
    ensures { IfOk result (λ made. made ≡ declaration field.now given) }
{
    let Ok(name) = field.name.duplicate(alloc) else {
        drop(given);
        return Err(AllocError);
    };
    Ok(BodyItem::Declaration(Declaration {
        line: 0,
        access: field.access,
        field_type: field.field_type,
        name,
        given,
    }))
}

#[cycle(tree)]
fn value_tree(
    alloc: Global,
    plan: &Plan<'_>,
    seen: &mut Vec<bool>,
    depth: u32,
    value: &Value,
) -> Result<RawValue<NodeText>, AllocError>
    ensures { IfOk result (λ made. record { seen = seen.new.items; made = made }
        ≡ value_tree (node_tree depth (plan_of plan.now)) seen.old.items value.now) }
{
    match value {
        Value::SFNode(Some(node)) => {
            Ok(RawValue::Node(node_tree(alloc, plan, seen, depth, *node)?))
        }
        Value::MFNode(nodes) => node_list(alloc, plan, seen, depth, nodes.as_slice()),
        _ => Ok(plain(alloc, value)?),
    }
}

#[cycle(tree)]
#[tactic(auto, using(crate::proofs::Trees::list_steps))]
fn node_list(
    alloc: Global,
    plan: &Plan<'_>,
    seen: &mut Vec<bool>,
    depth: u32,
    nodes: &[u32],
) -> Result<RawValue<NodeText>, AllocError>
    ensures { IfOk result (λ made. record { seen = seen.new.items; made = made }
        ≡ node_list (node_tree depth (plan_of plan.now)) seen.old.items nodes.now) }
{
    if nodes.is_empty() {
        return Ok(RawValue::EmptyList);
    }
    let trees = node_trees(alloc, plan, seen, depth, nodes)?;
    Ok(RawValue::NodeList(Items::from_vec(trees)))
}
