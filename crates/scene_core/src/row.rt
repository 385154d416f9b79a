//! The fields of nodes: those of a type, followed by those that a Script declares.

ghost use Rattle.std.specs.Prelude.{◌≡◌, ◌+◌, ◌≤◌, ◌++◌, ◌∷◌, [], IfOk, OnOk, length, map, slice_get};
ghost use Rattle.std.specs.Option.{option_map};
ghost use Rattle.x3d_values.specs.Ranges.{max_fields};
ghost use Rattle.x3d_values.specs.Tables.{entry, numbered, row_named};
ghost use Rattle.scene_core.specs.Shape as spec;
ghost use Rattle.scene_core.specs.Shape.{row_entry, rows_of, shape_by};

use classic_tree::Declaration;
use std::alloc::{AllocError, Global};
use x3d_lists::{Duplicate, Items, Text};
use x3d_values::{
    Access, Field, FieldDefault, FieldRow, FieldType, MAX_FIELDS, NodeKind, NodeType, field_of,
    fields_of,
};

/// A field that a Script declares (ISO/IEC 19775-1, Script).
#[derive(Drop)]
pub struct DeclaredField {
    pub name: Text,
    pub access: Access,
    pub field_type: FieldType,
}

/// A field of a node.
#[derive(Clone, Copy)]
pub struct NodeField<'a> {
    pub name: &'a str,
    pub access: Access,
    pub field_type: FieldType,
    /// What the field holds if a scene gives no value. `None` if the field holds no value.
    pub default: Option<FieldDefault>,
    /// The kind of nodes that a node field takes. `None` if it takes any node.
    pub kind: Option<NodeKind>,
}

fn own_row(field: &'static Field) -> NodeField<'static>
    ensures { row_entry result ≡ entry field.now }
{
    NodeField {
        name: field.name,
        access: field.access,
        field_type: field.field_type,
        default: field.default,
        kind: field.kind,
    }
}

fn declared_default(access: Access, field_type: FieldType) -> Option<FieldDefault>
    ensures { result ≡ spec.declared_default access field_type }
{
    if access.is_initial() && field_type != FieldType::SFRotation {
        Some(FieldDefault::Empty)
    } else {
        None
    }
}

fn declared_row(field: &DeclaredField) -> NodeField<'_>
    ensures { row_entry result ≡ spec.declared_entry field.now }
{
    NodeField {
        name: field.name.as_str(),
        access: field.access,
        field_type: field.field_type,
        default: declared_default(field.access, field.field_type),
        kind: None,
    }
}

/// Returns the declared fields of a node that have numbers.
pub(crate) fn numbered_fields<A>(node_type: NodeType, declared: &[A]) -> &[A]
    ensures { result.now ≡ spec.numbered_fields node_type declared.now }
{
    let most = MAX_FIELDS - fields_of(node_type).len();
    &declared[..most.min(declared.len())]
}

/// Returns the field with number `number` of a node with these declared fields.
#[tactic(auto, using(crate::proofs::RowLemmas::by_number))]
pub(crate) fn row_by(
    node_type: NodeType,
    declared: &[DeclaredField],
    number: u16,
) -> Option<NodeField<'_>>
    ensures { option_map row_entry result
        ≡ slice_get (rows_of (shape_by node_type declared.now)) number }
{
    let own = fields_of(node_type);
    let place = number as usize;
    if place < own.len() {
        return Some(own_row(&own[place]));
    }
    let Some(field) = declared.get(place - own.len()) else {
        return None;
    };
    Some(declared_row(field))
}

/// Returns the number of fields of a node with these declared fields.
#[tactic(auto, using(crate::proofs::RowLemmas::by_number))]
pub(crate) fn count_by(node_type: NodeType, declared: &[DeclaredField]) -> u32
    ensures is { result ≡ length (rows_of (shape_by node_type declared.now)) }
    ensures few { result ≤ max_fields }
{
    (fields_of(node_type).len() + numbered_fields(node_type, declared).len()) as u32
}

/// Returns the first of these declared fields with the name. They are numbered from `first` on.
#[tactic(auto, using(crate::proofs::RowLemmas::by_name))]
fn declared_named(first: usize, declared: &[DeclaredField], name: &str) -> Option<FieldRow>
    requires { first + length declared.now ≤ max_fields }
    ensures { result ≡ row_named first name.now (map spec.declared_entry declared.now) }
{
    for i in 0..declared.len() {
        if name == declared[i].name.as_str() {
            return Some(numbered_row(&declared[i], (first + i) as u16));
        }
    }
    None
}

fn numbered_row(field: &DeclaredField, number: u16) -> FieldRow
    ensures { result ≡ numbered number (spec.declared_entry field.now) }
{
    FieldRow {
        number,
        access: field.access,
        field_type: field.field_type,
        default: declared_default(field.access, field.field_type),
        kind: None,
    }
}

/// Returns the first field with the name of a node with these declared fields.
#[tactic(auto, using(crate::proofs::RowLemmas::by_name))]
pub(crate) fn named_by(
    node_type: NodeType,
    declared: &[DeclaredField],
    name: &str,
) -> Option<FieldRow>
    ensures { result ≡ row_named 0 name.now (rows_of (shape_by node_type declared.now)) }
{
    if let Some(row) = field_of(node_type, name) {
        return Some(row);
    }
    let own = fields_of(node_type).len();
    declared_named(own, numbered_fields(node_type, declared), name)
}

/// Appends a declaration of a Script as a field.
fn push_declared(
    alloc: Global,
    declaration: &Declaration<u32>,
    fields: &mut Items<DeclaredField>,
) -> Result<(), AllocError>
    ensures { OnOk result (fields.new ≡ fields.old ++ spec.declared_by declaration.now ∷ []) }
{
    let name = declaration.name.duplicate(alloc)?;
    fields.push(DeclaredField {
        name,
        access: declaration.access,
        field_type: declaration.field_type,
    })
}

/// Returns the declarations of a Script as fields.
pub(crate) fn declared_fields(
    alloc: Global,
    interface: &[Declaration<u32>],
) -> Result<Items<DeclaredField>, AllocError>
    ensures { IfOk result (λ fields. fields ≡ map spec.declared_by interface.now) }
{
    let mut fields = Items::new(alloc);
    for declaration in interface {
        if push_declared(alloc, declaration, &mut fields).is_err() {
            drop(fields);
            return Err(AllocError);
        }
    }
    Ok(fields)
}
