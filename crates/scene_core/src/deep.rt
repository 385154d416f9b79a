//! Chains of nodes, where each node is in a node field of the previous one.

ghost use Rattle.std.specs.Prelude.{◌≡◌, IfOk, map, nat_lt};
ghost use Rattle.std.specs.List.{list_any};
ghost use Rattle.x3d_values.specs.Ranges.{max_depth};
ghost use Rattle.scene_core.specs.Deep as spec;

use crate::at::number_at;
use crate::scene::SceneNode;
use std::alloc::{AllocError, Global};
use x3d_values::{MAX_DEPTH, Value};

/// The height of a node from which a chain is too long. That many passes find all heights.
const MOST_HEIGHT: u32 = MAX_DEPTH + 1;

/// Reports whether any chain is too long.
pub(crate) fn is_too_deep(alloc: Global, nodes: &[SceneNode]) -> Result<bool, AllocError>
    ensures { IfOk result (λ deep. deep ≡ spec.too_deep nodes.now) }
{
    let heights = heights_of(alloc, nodes)?;
    Ok(is_any_over(heights.as_slice()))
}

fn is_any_over(heights: &[u32]) -> bool
    ensures { result ≡ list_any (nat_lt max_depth) heights.now }
{
    heights.iter().any(|height| MAX_DEPTH < *height)
}

/// Returns the nodes in a field.
fn linked(value: &Option<Value>) -> &[u32]
    ensures { result.now ≡ spec.linked value.now }
{
    match value {
        Some(value) => value.nodes(),
        None => &[],
    }
}

/// Returns the greatest of a height and the heights of the nodes in a field.
fn raised(heights: &[u32], height: u32, value: &Option<Value>) -> u32
    ensures { result ≡ spec.raised heights.now height value.now }
{
    let mut greatest = height;
    for n in linked(value) {
        greatest = greatest.max(number_at(heights, *n));
    }
    greatest
}

/// Returns the height of a node, by the heights of the nodes in its fields.
fn height(heights: &[u32], node: &SceneNode) -> u32
    ensures { result ≡ spec.height heights.now node.now }
{
    let mut greatest = 0;
    for value in node.values.as_slice() {
        greatest = raised(heights, greatest, value);
    }
    greatest.saturating_add(1).min(MOST_HEIGHT)
}

/// Returns the heights of all nodes, by previous heights.
fn one_higher(alloc: Global, nodes: &[SceneNode], heights: &[u32]) -> Result<Vec<u32>, AllocError>
    ensures { IfOk result (λ higher. higher.items ≡ map (spec.height heights.now) nodes.now) }
{
    nodes
        .iter()
        .map(|node| height(heights, node))
        .collect(alloc)
}

/// Returns heights in one pass. They are right if each node comes after those in its fields.
fn heights_in_order(alloc: Global, nodes: &[SceneNode]) -> Result<Vec<u32>, AllocError> {
    let mut heights = Vec::with_capacity(alloc, nodes.len())?;
    for node in nodes {
        heights.push(height(heights.as_slice(), node))?;
    }
    Ok(heights)
}

/// Returns the height of each node: the length in nodes of the longest chain from it, at most
/// `MOST_HEIGHT`.
fn heights_of(alloc: Global, nodes: &[SceneNode]) -> Result<Vec<u32>, AllocError>
    ensures { IfOk result
        (λ heights. map (nat_lt max_depth) heights.items ≡ spec.deeper_than nodes.now max_depth) }
{
    let mut heights = heights_in_order(alloc, nodes)?;
    for _level in 0..MOST_HEIGHT {
        let higher = one_higher(alloc, nodes, heights.as_slice())?;
        if higher == heights {
            return Ok(heights);
        }
        heights = higher;
    }
    Ok(heights)
}
