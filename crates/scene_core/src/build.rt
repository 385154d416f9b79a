//! The parts of a scene.

ghost use Rattle.std.specs.Prelude.{◌≡◌, IfOk, Ok, slice_get};
ghost use Rattle.x3d_lists.specs.Answers.{Gives};
ghost use Rattle.scene_core.specs.Building as spec;
ghost use Rattle.scene_core.specs.Checked.{check, checked_nodes};
ghost use Rattle.scene_core.specs.Faults.{memory};
ghost use Rattle.scene_core.specs.Labels.{is_label, known_of, known_alone};

use crate::at::number_at;
use crate::behind::with_item;
use crate::deep::is_too_deep;
use crate::fault::{SceneFault, SceneFaultKind, fault};
use crate::labels::{Marks, label_of, marked};
use crate::numbering::Numbering;
use crate::places::{has_too_many_places, is_any_crowded};
use crate::row::declared_fields;
use crate::scene::SceneNode;
use crate::values::{NumberedNodes, check_children, values_of};
use crate::wide::is_any_wide;
use proto_flat::{Flat, FlatNode, Header};
use std::alloc::{AllocError, Global};
use x3d_lists::{Duplicate, Items};

/// The parts of a scene other than its nodes and their numbers.
#[derive(Drop)]
pub struct Surroundings {
    pub header: Header,
    pub roots: Items<u32>,
    pub helpers: Items<u32>,
}

/// Returns the header of a document, and the numbers of its roots and helpers in the scene.
pub(crate) fn frame_of(
    alloc: Global,
    flat: &Flat,
    numbers: &[u32],
) -> Result<Surroundings, AllocError>
    ensures { IfOk result (λ frame. frame ≡ record {
      header = flat.now.header;
      roots = spec.called numbers.now flat.now.roots;
      helpers = spec.called numbers.now flat.now.helpers;
    }) }
{
    let roots = called(alloc, numbers, flat.roots.as_slice())?;
    let Ok(helpers) = called(alloc, numbers, flat.helpers.as_slice()) else {
        drop(roots);
        return Err(AllocError);
    };
    let Ok(header) = header_copy(alloc, &flat.header) else {
        drop(roots);
        drop(helpers);
        return Err(AllocError);
    };
    Ok(Surroundings {
        header,
        roots,
        helpers,
    })
}

/// Returns the nodes, if roots and helpers are child nodes and no limit is exceeded.
pub(crate) fn checked_nodes(
    alloc: Global,
    flat: &Flat,
    numbering: &Numbering,
    roots: &[u32],
) -> Result<Items<SceneNode>, SceneFault>
    ensures { Gives memory (λ all. all) result (checked_nodes flat.now numbering.now roots.now) }
{
    let made = nodes_of(alloc, flat.nodes.as_slice(), numbering)?;
    match check(alloc, flat, made.as_slice(), roots) {
        Ok(()) => Ok(made),
        Err(refused) => {
            drop(made);
            Err(refused)
        }
    }
}

/// Checks that roots and helpers are child nodes, and that no limit is exceeded.
fn check(alloc: Global, flat: &Flat, nodes: &[SceneNode], roots: &[u32]) -> Result<(), SceneFault>
    ensures { Gives memory (λ u. u) result (check flat.now nodes.now roots.now) }
{
    check_children(flat.nodes.as_slice(), flat.roots.as_slice())?;
    check_children(flat.nodes.as_slice(), flat.helpers.as_slice())?;
    check_limits(alloc, nodes, roots)
}

/// Returns the nodes in the order of their numbers.
fn nodes_of(
    alloc: Global,
    nodes: &[FlatNode],
    numbering: &Numbering,
) -> Result<Items<SceneNode>, SceneFault>
    ensures { Gives memory (λ all. all) result (spec.nodes_of nodes.now numbering.now) }
{
    let marks = marked(alloc, nodes, numbering.order.as_slice())?;
    let made = nodes_by(alloc, nodes, numbering, &marks);
    drop(marks);
    made
}

/// Checks that no chain is too long, and that there aren't too many places, sensors and fields.
#[tactic(auto, unfolding(crate::specs::Building::limits))]
fn check_limits(alloc: Global, nodes: &[SceneNode], roots: &[u32]) -> Result<(), SceneFault>
    ensures { Gives memory (λ u. u) result (spec.limits nodes.now roots.now) }
{
    if is_too_deep(alloc, nodes)? {
        return Err(fault(SceneFaultKind::TooDeep, 0));
    }
    if has_too_many_places(alloc, nodes, roots)? {
        return Err(fault(SceneFaultKind::TooMany, 0));
    }
    if is_any_crowded(nodes, roots) {
        return Err(fault(SceneFaultKind::TooMany, 0));
    }
    if is_any_wide(nodes) {
        return Err(fault(SceneFaultKind::TooMany, 0));
    }
    Ok(())
}

/// Returns the numbers that nodes have in the scene.
fn called(alloc: Global, numbers: &[u32], nodes: &[u32]) -> Result<Items<u32>, AllocError>
    ensures { IfOk result (λ all. all ≡ spec.called numbers.now nodes.now) }
{
    let all = nodes.iter().map(|n| number_at(numbers, *n)).collect(alloc)?;
    Ok(Items::from_vec(all))
}

fn header_copy(alloc: Global, header: &Header) -> Result<Header, AllocError>
    ensures { IfOk result (λ copy. copy ≡ header.now) }
{
    let profile = header.profile.duplicate(alloc)?;
    let Ok(components) = header.components.duplicate(alloc) else {
        drop(profile);
        return Err(AllocError);
    };
    let Ok(metas) = header.metas.duplicate(alloc) else {
        drop(profile);
        drop(components);
        return Err(AllocError);
    };
    Ok(Header {
        version: header.version,
        profile,
        components,
        metas,
    })
}

/// Returns the node with number `number`.
fn node_of(
    alloc: Global,
    known: NumberedNodes<'_>,
    marks: &Marks<'_>,
    number: usize,
    node: &FlatNode,
) -> Result<SceneNode, SceneFault>
    ensures { Gives memory (λ n. n) result
        (spec.node_of known.entry.nodes.now known.entry.numbers.now
        (is_label (λ name. known_alone (known_of marks.now name)) number) node.now) }
{
    let values = values_of(alloc, known, node)?;
    let Ok(label) = label_of(alloc, marks, number, &node.name) else {
        drop(values);
        return Err(fault(SceneFaultKind::Memory, 0));
    };
    let Ok(declared) = declared_fields(alloc, node.interface.as_slice()) else {
        drop(values);
        drop(label);
        return Err(fault(SceneFaultKind::Memory, 0));
    };
    Ok(SceneNode {
        node_type: node.node_type,
        label,
        declared,
        values,
    })
}

/// Appends the next node to `made`.
fn with_node(
    alloc: Global,
    known: NumberedNodes<'_>,
    marks: &Marks<'_>,
    n: u32,
    made: Items<SceneNode>,
) -> Result<Items<SceneNode>, SceneFault>
    ensures { Gives memory (λ all. all) result
        (spec.with_node known.entry.nodes.now known.entry.numbers.now
        (λ name. known_alone (known_of marks.now name)) (slice_get known.entry.nodes.now n) made) }
{
    let Some(node) = known.nodes.get(n as usize) else {
        return Ok(made);
    };
    let number = made.len();
    with_item(made, node_of(alloc, known, marks, number, node))
}

#[tactic(auto, unfolding(crate::specs::Building::nodes_by))]
fn nodes_by(
    alloc: Global,
    nodes: &[FlatNode],
    numbering: &Numbering,
    marks: &Marks<'_>,
) -> Result<Items<SceneNode>, SceneFault>
    ensures { Gives memory (λ all. all) result
        (spec.nodes_by nodes.now numbering.now (λ name. known_alone (known_of marks.now name))) }
{
    let known = NumberedNodes {
        nodes,
        numbers: numbering.numbers.as_slice(),
    };
    let order = numbering.order.as_slice();
    let mut made = Items::from_vec(Vec::with_capacity(alloc, order.len())?);
    for n in order {
        made = with_node(alloc, known, marks, *n, made)?;
    }
    Ok(made)
}
