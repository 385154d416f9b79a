//! How often nodes appear, and which first appearances need a DEF.

ghost use Rattle.std.specs.Prelude.{◌≡◌, ◌++◌, ◌+◌, ◌^◌, ◌<◌, ◌≤◌, ◌==◌, ℕ, cond, IfOk, OnOk, length, get_or, flat_map};
ghost use Rattle.std.specs.Option.{option_copied};
ghost use Rattle.std.specs.List.{range_with_len};
ghost use Rattle.x3d_values.specs.Ranges.{max_fields};
ghost use Rattle.scene_core.specs.Deep.{linked};
ghost use Rattle.scene_core.specs.Scene.{value_at};
ghost use Rattle.scene_text.specs.Places.{nodes_within, places, ends_of, times, is_named, named};

use scene_core::{Route, Scene};
use std::alloc::{AllocError, Global};
use x3d_values::Value;

/// Returns by node number whether the node's first appearance needs a DEF.
#[tactic(auto, using(crate::proofs::Ranges::ranges), unfolding(crate::specs::Places::named))]
pub(crate) fn named(alloc: Global, scene: &Scene, routes: &[Route]) -> Result<Vec<bool>, AllocError>
    ensures { IfOk result (λ found. found.items ≡ named scene.now routes.now) }
{
    let count = node_count(scene)?;
    let ends = ends(alloc, routes)?;
    let places = places(alloc, scene)?;
    let at_ends = counts(alloc, count, ends.as_slice())?;
    let at_places = counts(alloc, count, places.as_slice())?;
    let mut found = Vec::new(alloc);
    for node in 0..count {
        found.push(is_named(
            scene,
            routes,
            at_ends.as_slice(),
            at_places.as_slice(),
            node,
        ))?;
    }
    Ok(found)
}

fn push_nodes_of(value: Option<&Value>, out: &mut Vec<u32>) -> Result<(), AllocError>
    ensures { OnOk result (out.new.items ≡ out.old.items ++ linked (option_copied value.entry)) }
{
    match value {
        Some(value) => out.extend_from_slice(value.nodes()),
        None => Ok(()),
    }
}

/// Returns the number of nodes of the scene, at most 65,536.
fn node_count(scene: &Scene) -> Result<u32, AllocError>
    ensures { IfOk result (λ count. count ≡ length scene.now.nodes) }
{
    match u32::try_from(scene.node_count()) {
        Ok(count) => Ok(count),
        Err(_) => Err(AllocError),
    }
}

fn push_nodes_at(
    scene: &Scene,
    node: u32,
    number: u32,
    out: &mut Vec<u32>,
) -> Result<(), AllocError>
    requires { number < max_fields }
    ensures { OnOk result
        (out.new.items ≡ out.old.items ++ linked (value_at scene.now node number)) }
{
    push_nodes_of(scene.value(node, number as u16), out)
}

/// Appends the nodes in the fields of a node.
fn push_nodes_within(scene: &Scene, node: u32, out: &mut Vec<u32>) -> Result<(), AllocError>
    ensures { OnOk result (out.new.items ≡ out.old.items ++ nodes_within scene.now node) }
{
    for number in 0..scene.field_count(node) {
        push_nodes_at(scene, node, number, out)?;
    }
    Ok(())
}

/// Returns every appearance of a node in the text.
fn places(alloc: Global, scene: &Scene) -> Result<Vec<u32>, AllocError>
    ensures { IfOk result (λ found. found.items ≡ places scene.now) }
{
    let mut found = Vec::from_slice(alloc, scene.roots())?;
    found.extend_from_slice(scene.helpers())?;
    for node in 0..node_count(scene)? {
        push_nodes_within(scene, node, &mut found)?;
    }
    Ok(found)
}

/// Returns the nodes of every end of a route.
fn ends(alloc: Global, routes: &[Route]) -> Result<Vec<u32>, AllocError>
    ensures { IfOk result (λ found. found.items ≡ flat_map ends_of routes.now) }
{
    let mut found = Vec::new(alloc);
    for route in routes {
        found.extend_from_slice(&[route.source.node, route.target.node])?;
    }
    Ok(found)
}

/// Counts one more of node `node`, if it is in the table.
fn count_one(counts: &mut Vec<usize>, node: u32)
    requires { get_or counts.old.items node 0 + 1 < 2 ^ 64 }
    ensures all { length counts.new.items ≡ length counts.old.items }
    ensures most { (n : ℕ) → get_or counts.new.items n 0 ≤ get_or counts.old.items n 0 + 1 }
    ensures each { (n : ℕ) → n < length counts.old.items → get_or counts.new.items n 0
        ≡ get_or counts.old.items n 0 + cond (node == n) 1 0 }
{
    let place = node as usize;
    if place < counts.len() {
        counts[place] = counts[place] + 1;
    }
}

/// Returns how often each number below `count` appears in the list.
fn counts(alloc: Global, count: u32, nodes: &[u32]) -> Result<Vec<usize>, AllocError>
    ensures all { IfOk result (λ counts. length counts.items ≡ count) }
    ensures each { IfOk result (λ counts. (n : ℕ) → n < count → get_or counts.items n 0
        ≡ times n nodes.now) }
{
    let mut counts = vec![in alloc; 0; count as usize]?;
    for node in nodes {
        count_one(&mut counts, *node);
    }
    Ok(counts)
}

/// Reports whether the first appearance of the node needs a DEF, by how often the node is an end of
/// a route and how often it appears.
fn is_named(
    scene: &Scene,
    routes: &[Route],
    at_ends: &[usize],
    at_places: &[usize],
    node: u32,
) -> bool
    requires ends_within { node < length at_ends.now }
    requires places_within { node < length at_places.now }
    requires ends { get_or at_ends.now node 0 ≡ times node (flat_map ends_of routes.now) }
    requires places { get_or at_places.now node 0 ≡ times node (places scene.now) }
    ensures { result ≡ is_named scene.now routes.now node }
{
    let linked = at_ends[node as usize];
    let shown = at_places[node as usize];
    scene.def_name(node).is_some() || (1 <= linked || 2 <= shown)
}
