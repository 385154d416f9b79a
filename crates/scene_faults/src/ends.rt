//! The fields that the ends of a route name in an expanded document.

ghost use Rattle.std.specs.Prelude.{◌≡◌, is_some, option_map, slice_get};
ghost use Rattle.x3d_values.specs.Aliases.{changed_alias, set_alias};
ghost use Rattle.scene_faults.specs.Ends as spec;

use classic_tree::Declaration;
use proto_flat::{FlatEnd, FlatNode};
use route_core::RouteFaultKind;
use x3d_values::{Access, FieldType, field_of};

/// A field of a node, as a route sees it.
#[derive(Clone, Copy)]
pub struct NamedField {
    pub access: Access,
    pub field_type: FieldType,
}

/// Why an end of a route is at fault; `turns` if it names a rotation.
#[derive(Clone, Copy)]
pub struct EndFault {
    pub kind: RouteFaultKind,
    pub turns: bool,
}

/// Returns the first declaration of that name.
fn declared(interface: &[Declaration<u32>], name: &str) -> Option<NamedField>
    ensures { result ≡ spec.declared name.now interface.now }
{
    for declaration in interface {
        if declaration.name.as_str() == name {
            return Some(NamedField {
                access: declaration.access,
                field_type: declaration.field_type,
            });
        }
    }
    None
}

/// Returns a field of the node's type, or else one that it declares.
fn field_named(node: &FlatNode, name: &str) -> Option<NamedField>
    ensures { result ≡ spec.field_named node.now name.now }
{
    match field_of(node.node_type, name) {
        Some(row) => Some(NamedField {
            access: row.access,
            field_type: row.field_type,
        }),
        None => declared(node.interface.as_slice(), name),
    }
}

/// Returns the field of that name; a rotation only if rotations are asked for.
fn exact(rotations: bool, node: &FlatNode, name: &str) -> Option<NamedField>
    ensures { result ≡ spec.exact rotations node.now name.now }
{
    let field = field_named(node, name)?;
    if rotations || field.field_type != FieldType::SFRotation {
        return Some(field);
    }
    None
}

/// Returns the inputOutput field of that name.
fn exposed(rotations: bool, node: &FlatNode, name: &str) -> Option<NamedField>
    ensures { result ≡ spec.exposed rotations node.now name.now }
{
    let field = exact(rotations, node, name)?;
    if field.access.is_exposed() {
        return Some(field);
    }
    None
}

/// Returns the inputOutput field whose name follows `set_`.
fn set_alias(rotations: bool, node: &FlatNode, name: &str) -> Option<NamedField>
    ensures { result ≡ set_alias (spec.exposed rotations node.now) name.now }
{
    let name = name.strip_prefix("set_")?;
    exposed(rotations, node, name)
}

/// Returns the inputOutput field whose name precedes `_changed`.
fn changed_alias(rotations: bool, node: &FlatNode, name: &str) -> Option<NamedField>
    ensures { result ≡ changed_alias (spec.exposed rotations node.now) name.now }
{
    let name = name.strip_suffix("_changed")?;
    exposed(rotations, node, name)
}

fn source_field(rotations: bool, node: &FlatNode, name: &str) -> Option<NamedField>
    ensures { result ≡ spec.source_field rotations node.now name.now }
{
    if let Some(field) = exact(rotations, node, name) {
        return Some(field);
    }
    changed_alias(rotations, node, name)
}

fn target_field(rotations: bool, node: &FlatNode, name: &str) -> Option<NamedField>
    ensures { result ≡ spec.target_field rotations node.now name.now }
{
    if let Some(field) = exact(rotations, node, name) {
        return Some(field);
    }
    set_alias(rotations, node, name)
}

fn plain(kind: RouteFaultKind) -> Result<FieldType, EndFault>
    ensures { result ≡ spec.plain kind }
{
    Err(EndFault { kind, turns: false })
}

fn missing(turns: bool) -> Result<FieldType, EndFault>
    ensures { result ≡ spec.missing turns }
{
    Err(EndFault {
        kind: RouteFaultKind::NoSuchField,
        turns,
    })
}

fn output_of(node: Option<&FlatNode>, name: &str) -> Result<FieldType, EndFault>
    ensures { result ≡ spec.output_of name.now (option_map (λ n. n.now) node.entry) }
{
    let Some(node) = node else {
        return plain(RouteFaultKind::NoSuchNode);
    };
    let Some(field) = source_field(false, node, name) else {
        return missing(source_field(true, node, name).is_some());
    };
    if field.access.sends() {
        return Ok(field.field_type);
    }
    plain(RouteFaultKind::NotOutput)
}

fn input_of(node: Option<&FlatNode>, name: &str) -> Result<FieldType, EndFault>
    ensures { result ≡ spec.input_of name.now (option_map (λ n. n.now) node.entry) }
{
    let Some(node) = node else {
        return plain(RouteFaultKind::NoSuchNode);
    };
    let Some(field) = target_field(false, node, name) else {
        return missing(target_field(true, node, name).is_some());
    };
    if field.access.receives() {
        return Ok(field.field_type);
    }
    plain(RouteFaultKind::NotInput)
}

/// Returns the type of the output that a source names.
pub(crate) fn source_of(nodes: &[FlatNode], end: &FlatEnd) -> Result<FieldType, EndFault>
    ensures { result ≡ spec.source_of nodes.now end.now }
{
    match end {
        FlatEnd::At(node, name) => output_of(nodes.get(*node as usize), name.as_str()),
        FlatEnd::NoNode => plain(RouteFaultKind::NoSuchNode),
        FlatEnd::NoField => plain(RouteFaultKind::NoSuchField),
        FlatEnd::WrongWay => plain(RouteFaultKind::NotOutput),
    }
}

/// Returns the type of the input that a destination names.
pub(crate) fn target_of(nodes: &[FlatNode], end: &FlatEnd) -> Result<FieldType, EndFault>
    ensures { result ≡ spec.target_of nodes.now end.now }
{
    match end {
        FlatEnd::At(node, name) => input_of(nodes.get(*node as usize), name.as_str()),
        FlatEnd::NoNode => plain(RouteFaultKind::NoSuchNode),
        FlatEnd::NoField => plain(RouteFaultKind::NoSuchField),
        FlatEnd::WrongWay => plain(RouteFaultKind::NotInput),
    }
}
