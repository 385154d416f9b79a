//! A flat document with the lines of instances.

ghost use Rattle.std.specs.Prelude.{◌≡◌, IfOk, OnOk, map, slice_get};
ghost use Rattle.proto_blame.specs.Relined as spec;

use crate::blames::line_in;
use classic_tree::{Declaration, RawValue};
use proto_flat::{Flat, FlatField, FlatNode};
use std::alloc::{AllocError, Global};
use x3d_lists::{Items, Text};

fn name_line(name: &Option<Text>) -> u32
    ensures { result ≡ spec.name_line name.now }
{
    match name {
        Some(name) => line_in(name.as_bytes()),
        None => 0,
    }
}

/// Returns the line that the name of a node says.
fn node_line(nodes: &[FlatNode], number: u32) -> u32
    ensures { result ≡ spec.node_line (slice_get nodes.now number) }
{
    match nodes.get(number as usize) {
        Some(node) => name_line(&node.name),
        None => 0,
    }
}

fn list_line(nodes: &[FlatNode], numbers: &[u32]) -> u32
    ensures { result ≡ spec.list_line nodes.now numbers.now }
{
    match numbers {
        [first, ..] => node_line(nodes, *first),
        [] => 0,
    }
}

/// Returns the line that a value of a blamed document says.
fn value_line(nodes: &[FlatNode], value: &RawValue<u32>) -> u32
    ensures { result ≡ spec.value_line nodes.now value.now }
{
    match value {
        RawValue::String(text) => line_in(text.as_bytes()),
        RawValue::Node(number) => node_line(nodes, *number),
        RawValue::NodeList(numbers) => list_line(nodes, numbers.as_slice()),
        _ => 0,
    }
}

/// Returns the line that a field of a blamed document says, if there is one.
fn field_line(nodes: &[FlatNode], fields: &[FlatField], at: usize) -> u32
    ensures { result ≡ spec.field_line nodes.now (slice_get fields.now at) }
{
    match fields.get(at) {
        Some(field) => value_line(nodes, &field.value),
        None => 0,
    }
}

/// Appends a field with the line that the blamed one at its place says.
fn push_field(
    field: FlatField,
    nodes: &[FlatNode],
    blamed: &[FlatField],
    made: &mut Items<FlatField>,
) -> Result<(), AllocError>
    ensures { OnOk result
        (made.new ≡ spec.with_next (spec.relined_field nodes.now) blamed.now made.old field) }
{
    let line = field_line(nodes, blamed, made.len());
    made.push(FlatField {
        line,
        number: field.number,
        value: field.value,
    })
}

/// Returns fields with the lines that the blamed ones say.
fn relined_fields(
    alloc: Global,
    fields: Items<FlatField>,
    nodes: &[FlatNode],
    blamed: &[FlatField],
) -> Result<Items<FlatField>, AllocError>
    ensures { IfOk result
        (λ r. r ≡ spec.side_by_side (spec.relined_field nodes.now) blamed.now fields) }
{
    let mut made = Items::new(alloc);
    for field in fields.into_vec() {
        push_field(field, nodes, blamed, &mut made)?;
    }
    Ok(made)
}

fn unlined(declaration: Declaration<u32>) -> Declaration<u32>
    ensures { result ≡ spec.unlined declaration }
{
    Declaration {
        line: 0,
        access: declaration.access,
        field_type: declaration.field_type,
        name: declaration.name,
        given: declaration.given,
    }
}

fn unlined_all(
    alloc: Global,
    interface: Items<Declaration<u32>>,
) -> Result<Items<Declaration<u32>>, AllocError>
    ensures { IfOk result (λ r. r ≡ map spec.unlined interface) }
{
    let mut made = Items::new(alloc);
    for declaration in interface.into_vec() {
        made.push(unlined(declaration))?;
    }
    Ok(made)
}

/// Returns the fields of the node at a place of the blamed document.
fn fields_at(nodes: &[FlatNode], at: usize) -> &[FlatField]
    ensures { result.now ≡ spec.fields_of (slice_get nodes.now at) }
{
    match nodes.get(at) {
        Some(node) => node.fields.as_slice(),
        None => &[],
    }
}

/// Returns a node with the lines that the blamed one at a place says.
fn relined_node(
    alloc: Global,
    node: FlatNode,
    nodes: &[FlatNode],
    at: usize,
) -> Result<FlatNode, AllocError>
    ensures { IfOk result
        (λ n. n ≡ spec.relined_node nodes.now (slice_get nodes.now at) node) }
{
    let FlatNode {
        name,
        node_type,
        fields,
        interface,
        ..
    } = node;
    let Ok(fields) = relined_fields(alloc, fields, nodes, fields_at(nodes, at)) else {
        drop(name);
        drop(interface);
        return Err(AllocError);
    };
    let Ok(interface) = unlined_all(alloc, interface) else {
        drop(name);
        drop(fields);
        return Err(AllocError);
    };
    Ok(FlatNode {
        line: 0,
        name,
        node_type,
        fields,
        interface,
    })
}

/// Appends a node with the lines that the blamed one at its place says.
fn push_node(
    alloc: Global,
    node: FlatNode,
    nodes: &[FlatNode],
    made: &mut Items<FlatNode>,
) -> Result<(), AllocError>
    ensures { OnOk result
        (made.new ≡ spec.with_next (spec.relined_node nodes.now) nodes.now made.old node) }
{
    let node = relined_node(alloc, node, nodes, made.len())?;
    made.push(node)
}

fn relined_nodes(
    alloc: Global,
    own: Items<FlatNode>,
    nodes: &[FlatNode],
) -> Result<Items<FlatNode>, AllocError>
    ensures { IfOk result
        (λ r. r ≡ spec.side_by_side (spec.relined_node nodes.now) nodes.now own) }
{
    let mut made = Items::new(alloc);
    for node in own.into_vec() {
        push_node(alloc, node, nodes, &mut made)?;
    }
    Ok(made)
}

/// Returns a flat document with the lines of instances for its own, by the flat document of the
/// blamed document: the line of a field is that of the instance whose braces hold its value, and 0
/// if no instance's do. Fails if memory runs out.
pub(crate) fn relined(alloc: Global, blamed: &Flat, flat: Flat) -> Result<Flat, AllocError>
    ensures { IfOk result (λ f. f ≡ spec.relined blamed.now flat) }
{
    let Flat {
        header,
        nodes,
        roots,
        helpers,
        routes,
    } = flat;
    let Ok(nodes) = relined_nodes(alloc, nodes, blamed.nodes.as_slice()) else {
        drop(header);
        drop(roots);
        drop(helpers);
        drop(routes);
        return Err(AllocError);
    };
    Ok(Flat {
        header,
        nodes,
        roots,
        helpers,
        routes,
    })
}
