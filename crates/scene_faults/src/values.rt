//! Faults of fields that are given a value.

ghost use Rattle.std.specs.Prelude.{◌≡◌, ◌++◌, [], false, OnOk, slice_get};
ghost use Rattle.std.specs.List.{flat_map};
ghost use Rattle.x3d_lists.specs.Answers.{Gives};
ghost use Rattle.x3d_values.specs.Tables.{entry};
ghost use Rattle.scene_core.specs.Faults.{memory};
ghost use Rattle.scene_core.specs.Typed as typed;
ghost use Rattle.scene_faults.specs.Fields as spec;

use crate::blame::{Blame, of_scene};
use classic_tree::Declaration;
use proto_flat::{FlatField, FlatNode};
use scene_core::{
    NumberedNodes, SceneFault, SceneFaultKind, declared_given, given_value, inner_nodes, is_taken,
};
use std::alloc::{AllocError, Global};
use x3d_lists::Items;
use x3d_values::{Field, FieldType, NodeKind, Value};

/// Returns what a field of a node type holds, but for the numbers of its nodes in a scene.
fn value_of(
    alloc: Global,
    nodes: &[FlatNode],
    row: &Field,
    field: &FlatField,
) -> Result<Option<Value>, SceneFault>
    ensures { Gives memory (λ v. v) result
        (typed.given_value nodes.now [] (entry row.now) field.now) }
{
    let known = NumberedNodes {
        nodes,
        numbers: &[],
    };
    given_value(alloc, known, row, field)
}

/// Returns what a declared field holds, but for the numbers of its nodes in a scene; of a rotation
/// the declaration is at fault.
fn declared_value(
    alloc: Global,
    nodes: &[FlatNode],
    declaration: &Declaration<u32>,
    field: &FlatField,
) -> Result<Option<Value>, SceneFault>
    ensures { Gives memory (λ v. v) result
        (spec.declared_value nodes.now declaration.now field.now) }
{
    if declaration.field_type == FieldType::SFRotation {
        return Ok(None);
    }
    let known = NumberedNodes {
        nodes,
        numbers: &[],
    };
    declared_given(alloc, known, declaration, field)
}

fn is_memory(kind: SceneFaultKind) -> bool
    ensures { result ≡ spec.says_memory kind }
{
    matches!(kind, SceneFaultKind::Memory)
}

/// Appends the blame for a fault. Fails if memory runs out, or if that is the fault.
fn push_fault(fault: SceneFault, out: &mut Items<Blame>) -> Result<(), AllocError>
    ensures told { OnOk result (out.new ≡ out.old ++ spec.itself fault) }
    ensures known { OnOk result (spec.says_memory fault.kind ≡ false) }
{
    if is_memory(fault.kind) {
        return Err(AllocError);
    }
    out.push(of_scene(fault.kind, fault.line))
}

fn is_bad_child(kind: SceneFaultKind) -> bool
    ensures { result ≡ spec.is_bad_child kind }
{
    matches!(kind, SceneFaultKind::BadChild)
}

/// Returns the line of a node, or 0 if there is none.
fn line_of(nodes: &[FlatNode], n: u32) -> u32
    ensures { result ≡ typed.line_of (slice_get nodes.now n) }
{
    let Some(node) = nodes.get(n as usize) else {
        return 0;
    };
    node.line
}

/// Appends the blame for a node in the value of a field on that line, if the field doesn't take it.
pub(crate) fn push_inner(
    nodes: &[FlatNode],
    kind: Option<NodeKind>,
    line: u32,
    n: u32,
    out: &mut Items<Blame>,
) -> Result<(), AllocError>
    ensures { OnOk result (out.new ≡ out.old ++ spec.inner_blames nodes.now kind line n) }
{
    if is_taken(kind, nodes, n) {
        return Ok(());
    }
    let at = line.max(line_of(nodes, n));
    out.push(of_scene(SceneFaultKind::BadChild, at))
}

fn push_all_inner(
    nodes: &[FlatNode],
    kind: Option<NodeKind>,
    line: u32,
    inner: &[u32],
    out: &mut Items<Blame>,
) -> Result<(), AllocError>
    ensures { OnOk result
        (out.new ≡ out.old ++ flat_map (spec.inner_blames nodes.now kind line) inner.now) }
{
    for n in inner {
        push_inner(nodes, kind, line, *n, out)?;
    }
    Ok(())
}

/// Appends the blames for the fault of a field that is given a value. Fails if memory runs out, or
/// if that is the fault.
fn push_refused(
    nodes: &[FlatNode],
    kind: Option<NodeKind>,
    field: &FlatField,
    fault: SceneFault,
    out: &mut Items<Blame>,
) -> Result<(), AllocError>
    ensures told { OnOk result
        (out.new ≡ out.old ++ spec.value_blames nodes.now kind field.now fault) }
    ensures known { OnOk result (spec.says_memory fault.kind ≡ false) }
{
    if is_bad_child(fault.kind) {
        return push_all_inner(nodes, kind, field.line, inner_nodes(&field.value), out);
    }
    push_fault(fault, out)
}

/// Appends the blames for the fault of a field of a node type that is given a value, if it has one.
pub(crate) fn push_given(
    alloc: Global,
    nodes: &[FlatNode],
    row: &Field,
    field: &FlatField,
    out: &mut Items<Blame>,
) -> Result<(), AllocError>
    ensures { OnOk result (out.new ≡ out.old
        ++ spec.blames_in (spec.value_blames nodes.now row.now.kind field.now)
        (typed.given_value nodes.now [] (entry row.now) field.now)) }
{
    match value_of(alloc, nodes, row, field) {
        Ok(value) => {
            drop(value);
            Ok(())
        }
        Err(fault) => push_refused(nodes, row.kind, field, fault, out),
    }
}

/// Appends the blame for the fault of a declared field that is given a value, if it has one.
pub(crate) fn push_declared(
    alloc: Global,
    nodes: &[FlatNode],
    declaration: &Declaration<u32>,
    field: &FlatField,
    out: &mut Items<Blame>,
) -> Result<(), AllocError>
    ensures { OnOk result (out.new ≡ out.old
        ++ spec.blames_in spec.itself (spec.declared_value nodes.now declaration.now field.now)) }
{
    match declared_value(alloc, nodes, declaration, field) {
        Ok(value) => {
            drop(value);
            Ok(())
        }
        Err(fault) => push_fault(fault, out),
    }
}
