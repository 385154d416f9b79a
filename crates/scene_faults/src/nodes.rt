//! Faults of nodes: of their fields, of their declarations, and of roots and helpers.

ghost use Rattle.std.specs.Prelude.{◌≡◌, ◌++◌, OnOk, option_map};
ghost use Rattle.std.specs.List.{flat_map};
ghost use Rattle.scene_faults.specs.Fields as spec;

use crate::blame::{Blame, of_scene};
use crate::values::{push_declared, push_given, push_inner};
use classic_tree::Declaration;
use proto_flat::{Flat, FlatField, FlatNode};
use scene_core::SceneFaultKind;
use std::alloc::{AllocError, Global};
use x3d_lists::Items;
use x3d_values::{FieldType, NodeKind, fields_of};

/// Appends the blame for a field that the node declares, if it is at fault.
fn push_by_declaration(
    alloc: Global,
    nodes: &[FlatNode],
    declaration: Option<&Declaration<u32>>,
    field: &FlatField,
    out: &mut Items<Blame>,
) -> Result<(), AllocError>
    ensures { OnOk result (out.new ≡ out.old
        ++ spec.by_declaration nodes.now (option_map (λ d. d.now) declaration.entry) field.now) }
{
    match declaration {
        None => Ok(()),
        Some(declaration) => push_declared(alloc, nodes, declaration, field, out),
    }
}

/// Appends the blame for a field of a node that is given a value, if it is at fault.
fn push_field(
    alloc: Global,
    nodes: &[FlatNode],
    node: &FlatNode,
    field: &FlatField,
    out: &mut Items<Blame>,
) -> Result<(), AllocError>
    ensures { OnOk result
        (out.new ≡ out.old ++ spec.field_blames nodes.now node.now field.now) }
{
    let rows = fields_of(node.node_type);
    let number = field.number as usize;
    if number < rows.len() {
        return push_given(alloc, nodes, &rows[number], field, out);
    }
    let declaration = node.interface.get(number - rows.len());
    push_by_declaration(alloc, nodes, declaration, field, out)
}

fn push_fields(
    alloc: Global,
    nodes: &[FlatNode],
    node: &FlatNode,
    fields: &[FlatField],
    out: &mut Items<Blame>,
) -> Result<(), AllocError>
    ensures { OnOk result (out.new ≡ out.old
        ++ flat_map (spec.field_blames nodes.now node.now) fields.now) }
{
    for field in fields {
        push_field(alloc, nodes, node, field, out)?;
    }
    Ok(())
}

/// Appends the blame for a declaration, if it is a rotation.
fn push_rotation(declaration: &Declaration<u32>, out: &mut Items<Blame>) -> Result<(), AllocError>
    ensures { OnOk result (out.new ≡ out.old ++ spec.rotation_blames declaration.now) }
{
    if declaration.field_type != FieldType::SFRotation {
        return Ok(());
    }
    out.push(of_scene(SceneFaultKind::RotationUnsupported, declaration.line))
}

fn push_rotations(interface: &[Declaration<u32>], out: &mut Items<Blame>) -> Result<(), AllocError>
    ensures { OnOk result (out.new ≡ out.old ++ flat_map spec.rotation_blames interface.now) }
{
    for declaration in interface {
        push_rotation(declaration, out)?;
    }
    Ok(())
}

fn push_node(
    alloc: Global,
    nodes: &[FlatNode],
    node: &FlatNode,
    out: &mut Items<Blame>,
) -> Result<(), AllocError>
    ensures { OnOk result (out.new ≡ out.old ++ spec.node_blames nodes.now node.now) }
{
    push_fields(alloc, nodes, node, node.fields.as_slice(), out)?;
    push_rotations(node.interface.as_slice(), out)
}

fn push_nodes(alloc: Global, nodes: &[FlatNode], out: &mut Items<Blame>) -> Result<(), AllocError>
    ensures { OnOk result
        (out.new ≡ out.old ++ flat_map (spec.node_blames nodes.now) nodes.now) }
{
    for node in nodes {
        push_node(alloc, nodes, node, out)?;
    }
    Ok(())
}

/// Appends the blame for a root or a helper, if it is no child node.
fn push_child(nodes: &[FlatNode], n: u32, out: &mut Items<Blame>) -> Result<(), AllocError>
    ensures { OnOk result (out.new ≡ out.old ++ spec.child_blames nodes.now n) }
{
    push_inner(nodes, Some(NodeKind::Child), 0, n, out)
}

fn push_children(
    nodes: &[FlatNode],
    children: &[u32],
    out: &mut Items<Blame>,
) -> Result<(), AllocError>
    ensures { OnOk result
        (out.new ≡ out.old ++ flat_map (spec.child_blames nodes.now) children.now) }
{
    for n in children {
        push_child(nodes, *n, out)?;
    }
    Ok(())
}

/// Appends the blames for all faults of fields, declarations, roots and helpers. Fails if memory
/// runs out.
pub(crate) fn push_scene(
    alloc: Global,
    flat: &Flat,
    out: &mut Items<Blame>,
) -> Result<(), AllocError>
    ensures { OnOk result (out.new ≡ out.old ++ spec.scene_blames flat.now) }
{
    let nodes = flat.nodes.as_slice();
    push_nodes(alloc, nodes, out)?;
    push_children(nodes, flat.roots.as_slice(), out)?;
    push_children(nodes, flat.helpers.as_slice(), out)
}
