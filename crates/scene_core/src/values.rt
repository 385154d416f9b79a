//! The values of a node's fields before any event.

ghost use Rattle.std.specs.Prelude.{◌≡◌, ◌+◌, ◌<◌, ◌^◌, IfOk, length, map, slice_get};
ghost use Rattle.std.specs.Option.{option_and_then, option_copied};
ghost use Rattle.x3d_lists.specs.Answers.{Gives};
ghost use Rattle.x3d_values.specs.Defaults.{default_value};
ghost use Rattle.x3d_values.specs.Tables.{entry};
ghost use Rattle.scene_core.specs.Faults.{memory};
ghost use Rattle.scene_core.specs.Typed as spec;

use crate::behind::with_item;
use crate::fault::{SceneFault, SceneFaultKind, fault};
use crate::given::{all_given, given};
use crate::parts::inner_nodes;
use crate::row::numbered_fields;
use classic_tree::Declaration;
use proto_flat::{FlatField, FlatNode};
use scene_values::{ValueFault, checked_rotation, typed};
use std::alloc::{AllocError, Global};
use x3d_lists::Items;
use x3d_values::{
    Access, Field, FieldDefault, FieldType, NodeKind, Value, Vec3, default_value, fields_of,
};

/// The nodes of a document, and their numbers in the scene.
#[derive(Clone, Copy)]
pub struct NumberedNodes<'a> {
    pub nodes: &'a [FlatNode],
    pub numbers: &'a [u32],
}

/// Returns the values of a node's fields: first those of its type in table order, then those that
/// it declares.
#[tactic(auto, unfolding(crate::specs::Typed::values_of))]
pub(crate) fn values_of(
    alloc: Global,
    known: NumberedNodes<'_>,
    node: &FlatNode,
) -> Result<Items<Option<Value>>, SceneFault>
    ensures { Gives memory (λ v. v) result
        (spec.values_of known.entry.nodes.now known.entry.numbers.now node.now) }
{
    let fields = node.fields.as_slice();
    let rows = fields_of(node.node_type);
    let interface = numbered_fields(node.node_type, node.interface.as_slice());
    let room = Items::from_vec(Vec::with_capacity(alloc, rows.len() + interface.len())?);
    let made = push_values(alloc, known, fields, 0, rows, room)?;
    push_declared(alloc, known, fields, rows.len(), interface, made)
}

/// Checks that all these nodes are child nodes. The first that isn't one is the fault.
pub(crate) fn check_children(nodes: &[FlatNode], children: &[u32]) -> Result<(), SceneFault>
    ensures { result ≡ spec.all_children nodes.now children.now }
{
    for n in children {
        check_child(nodes, *n)?;
    }
    Ok(())
}

fn fault_at(line: u32, refused: ValueFault) -> SceneFault
    ensures { result ≡ spec.fault_at line refused }
{
    match refused {
        ValueFault::WrongType => fault(SceneFaultKind::WrongType, line),
        ValueFault::ValueRange => fault(SceneFaultKind::ValueRange, line),
        ValueFault::RotationUnsupported => fault(SceneFaultKind::RotationUnsupported, line),
        ValueFault::Memory => fault(SceneFaultKind::Memory, 0),
    }
}

fn dropped_rotation(row: &Field, field: &FlatField) -> Result<Option<Value>, SceneFault>
    ensures { result ≡ spec.dropped_rotation (entry row.now) field.now }
{
    match checked_rotation(&field.value, row.name == "orientation") {
        Ok(()) => Ok(None),
        Err(refused) => Err(fault_at(field.line, refused)),
    }
}

fn is_negative(size: Vec3) -> bool
    ensures { result ≡ spec.is_negative size }
{
    size.x < 0 || size.y < 0 || size.z < 0
}

/// Checks the ranges of single fields: a cycle is longer than 0, and a Box has no negative size.
fn in_range(name: &str, value: &Value) -> bool
    ensures { result ≡ spec.in_range name.now value.now }
{
    match value {
        Value::SFTime(time) => name != "cycleInterval" || *time > 0,
        Value::SFVec3f(size) => name != "size" || !is_negative(*size),
        _ => true,
    }
}

/// Reports whether the node exists and a field of that kind takes it.
pub fn is_taken(kind: Option<NodeKind>, nodes: &[FlatNode], n: u32) -> bool
    ensures { result ≡ spec.takes kind (slice_get nodes.now n) }
{
    let Some(node) = nodes.get(n as usize) else {
        return false;
    };
    match kind {
        Some(kind) => node.node_type.kind() == kind,
        None => true,
    }
}

fn all_taken(kind: Option<NodeKind>, nodes: &[FlatNode], inner: &[u32]) -> bool
    ensures { result ≡ spec.all_taken kind nodes.now inner.now }
{
    inner.iter().all(|n| is_taken(kind, nodes, *n))
}

/// Accepts a typed value into a field of that access and kind, or returns the fault that prevents
/// it.
fn accepted(
    nodes: &[FlatNode],
    access: Access,
    kind: Option<NodeKind>,
    field: &FlatField,
    value: Value,
) -> Result<Option<Value>, SceneFault>
    ensures { result ≡ spec.accepted nodes.now access kind field.now value }
{
    if !access.is_initial() {
        drop(value);
        return Err(fault(SceneFaultKind::NotInitial, field.line));
    }
    if !all_taken(kind, nodes, inner_nodes(&field.value)) {
        drop(value);
        return Err(fault(SceneFaultKind::BadChild, field.line));
    }
    Ok(Some(value))
}

fn accepted_in_range(
    nodes: &[FlatNode],
    row: &Field,
    field: &FlatField,
    value: Value,
) -> Result<Option<Value>, SceneFault>
    ensures { result ≡ spec.accepted_in_range nodes.now (entry row.now) field.now value }
{
    if !in_range(row.name, &value) {
        drop(value);
        return Err(fault(SceneFaultKind::ValueRange, field.line));
    }
    accepted(nodes, row.access, row.kind, field, value)
}

fn typed_value(
    alloc: Global,
    numbers: &[u32],
    field_type: FieldType,
    field: &FlatField,
) -> Result<Value, SceneFault>
    ensures { Gives memory (λ v. v) result (spec.typed_value numbers.now field_type field.now) }
{
    match typed(alloc, field_type, &field.value, numbers) {
        Ok(value) => Ok(value),
        Err(refused) => Err(fault_at(field.line, refused)),
    }
}

/// Returns what a field of a node type holds that is given a value; `None` for a rotation.
///
/// Fails with WrongType, ValueRange, RotationUnsupported, NotInitial or BadChild, the first in this
/// order, on the field's line; or with Memory if memory runs out.
pub fn given_value(
    alloc: Global,
    known: NumberedNodes<'_>,
    row: &Field,
    field: &FlatField,
) -> Result<Option<Value>, SceneFault>
    ensures { Gives memory (λ v. v) result
        (spec.given_value known.entry.nodes.now known.entry.numbers.now (entry row.now) field.now) }
{
    if row.field_type == FieldType::SFRotation {
        return dropped_rotation(row, field);
    }
    let value = typed_value(alloc, known.numbers, row.field_type, field)?;
    accepted_in_range(known.nodes, row, field, value)
}

fn default_of(alloc: Global, row: &Field) -> Result<Option<Value>, AllocError>
    ensures { IfOk result (λ v. v ≡ spec.default_of (entry row.now)) }
{
    let Some(default) = row.default else {
        return Ok(None);
    };
    default_value(alloc, row.field_type, default)
}

/// Returns what a field holds: the given value, or the default.
#[tactic(auto, unfolding(crate::specs::Typed::field_value))]
fn field_value(
    alloc: Global,
    known: NumberedNodes<'_>,
    row: &Field,
    field: Option<&FlatField>,
) -> Result<Option<Value>, SceneFault>
    ensures { Gives memory (λ v. v) result
        (spec.field_value known.entry.nodes.now known.entry.numbers.now (entry row.now)
        (option_copied field.entry)) }
{
    match field {
        Some(field) => given_value(alloc, known, row, field),
        None => Ok(default_of(alloc, row)?),
    }
}

/// Appends the values of these fields, numbered from `number` on, to `made`.
fn push_values(
    alloc: Global,
    known: NumberedNodes<'_>,
    fields: &[FlatField],
    number: usize,
    rows: &[Field],
    made: Items<Option<Value>>,
) -> Result<Items<Option<Value>>, SceneFault>
    requires { number + length rows.now < 2 ^ 16 }
    ensures { Gives memory (λ v. v) result
        (spec.values_from known.entry.nodes.now known.entry.numbers.now fields.now number
        (map entry rows.now) made) }
{
    match rows {
        [] => Ok(made),
        [row, others @ ..] => {
            let value = field_value(alloc, known, row, given(fields, number));
            let made = with_item(made, value)?;
            push_values(alloc, known, fields, number + 1, others, made)
        }
    }
}

/// Returns what a field that a Script declares holds if it is given a value.
///
/// Fails with WrongType, ValueRange, RotationUnsupported, NotInitial or BadChild, the first in this
/// order, on the field's line, and always for a rotation; or with Memory if memory runs out.
pub fn declared_given(
    alloc: Global,
    known: NumberedNodes<'_>,
    declaration: &Declaration<u32>,
    field: &FlatField,
) -> Result<Option<Value>, SceneFault>
    ensures { Gives memory (λ v. v) result
        (spec.declared_given known.entry.nodes.now known.entry.numbers.now declaration.now
        field.now) }
{
    if declaration.field_type == FieldType::SFRotation {
        return no_rotation(field);
    }
    let value = typed_value(alloc, known.numbers, declaration.field_type, field)?;
    accepted(known.nodes, declaration.access, None, field, value)
}

/// Returns the fault of a declared rotation that is given a value: a Script can't declare
/// rotations.
fn no_rotation(field: &FlatField) -> Result<Option<Value>, SceneFault>
    ensures { result ≡ spec.no_rotation field.now }
{
    match checked_rotation(&field.value, true) {
        Ok(()) => Err(fault(SceneFaultKind::RotationUnsupported, field.line)),
        Err(refused) => Err(fault_at(field.line, refused)),
    }
}

/// Returns what a declared field holds if it is given no value.
fn declared_empty(
    alloc: Global,
    declaration: &Declaration<u32>,
) -> Result<Option<Value>, SceneFault>
    ensures { Gives memory (λ v. v) result (spec.declared_empty declaration.now) }
{
    if declaration.field_type == FieldType::SFRotation {
        return Err(fault(SceneFaultKind::RotationUnsupported, declaration.line));
    }
    if declaration.access.is_initial() {
        Ok(default_value(alloc, declaration.field_type, FieldDefault::Empty)?)
    } else {
        Ok(None)
    }
}

/// Returns what a declared field holds: the given value, or the empty value of its type.
#[tactic(auto, unfolding(crate::specs::Typed::declared_value))]
fn declared_value(
    alloc: Global,
    known: NumberedNodes<'_>,
    declaration: &Declaration<u32>,
    field: Option<&FlatField>,
) -> Result<Option<Value>, SceneFault>
    ensures { Gives memory (λ v. v) result
        (spec.declared_value known.entry.nodes.now known.entry.numbers.now declaration.now
        (option_copied field.entry)) }
{
    match field {
        Some(field) => declared_given(alloc, known, declaration, field),
        None => declared_empty(alloc, declaration),
    }
}

/// Appends the values of the declared fields, numbered from `number` on, to `made`.
fn push_declared(
    alloc: Global,
    known: NumberedNodes<'_>,
    fields: &[FlatField],
    number: usize,
    interface: &[Declaration<u32>],
    mut made: Items<Option<Value>>,
) -> Result<Items<Option<Value>>, SceneFault>
    ensures { Gives memory (λ v. v) result
        (spec.declared_from known.entry.nodes.now known.entry.numbers.now fields.now number
        interface.now made) }
{
    let Ok(given) = all_given(alloc, fields, number, interface.len()) else {
        drop(made);
        return Err(fault(SceneFaultKind::Memory, 0));
    };
    for i in 0..interface.len() {
        made = with_item(made, declared_value(alloc, known, &interface[i], given[i]))?;
    }
    Ok(made)
}

/// Checks that a root or helper is a child node.
#[tactic(auto, unfolding(crate::specs::Typed::child))]
fn check_child(nodes: &[FlatNode], n: u32) -> Result<(), SceneFault>
    ensures { result ≡ spec.child nodes.now n }
{
    let Some(node) = nodes.get(n as usize) else {
        return Err(fault(SceneFaultKind::BadChild, 0));
    };
    if node.node_type.kind() == NodeKind::Child {
        Ok(())
    } else {
        Err(fault(SceneFaultKind::BadChild, node.line))
    }
}
