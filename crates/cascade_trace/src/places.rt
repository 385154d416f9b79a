//! The places of outputs among the bits of a scene.

ghost use Rattle.std.specs.Prelude.{◌≡◌, ◌≤◌, OnOk, false, length, All};
ghost use Rattle.cascade_trace.specs.Bits.{IsRising, place_of};
ghost use Rattle.cascade_trace.specs.Ends.{same_end};

use scene_core::{End, Scene};
use std::alloc::AllocError;

/// Reports whether two ends are the same.
pub fn same_end(one: End, other: End) -> bool
    ensures { result ≡ same_end one other }
{
    one.node == other.node && one.field == other.field
}

/// Returns the place of an end, or `None` if it has none. `starts` has the start of each node,
/// followed by the end of the last node.
#[tactic(auto, unfolding(crate::specs::Bits::place_of))]
pub fn place_of(starts: &[usize], end: End) -> Option<usize>
    ensures { result ≡ place_of starts.now end }
{
    let node = end.node as usize;
    let start = *starts.get(node)?;
    let next = *starts.get(node + 1)?;
    let field = end.field as usize;
    if field < next.saturating_sub(start) {
        Some(start + field)
    } else {
        None
    }
}

/// Appends `count` unset bits.
fn push_unset(bits: &mut Vec<bool>, count: usize) -> Result<(), AllocError>
    requires unset { All (λ bit. bit ≡ false) bits.old.items }
    ensures unset { OnOk result (All (λ bit. bit ≡ false) bits.new.items) }
    ensures longer { length bits.old.items ≤ length bits.new.items }
{
    for _ in 0..count {
        bits.push(false)?;
    }
    Ok(())
}

/// Appends a node with `fields` fields: it starts after the existing bits and has an unset bit for
/// each field.
fn push_node(fields: usize, starts: &mut Vec<usize>, bits: &mut Vec<bool>) -> Result<(), AllocError>
    requires rising { IsRising starts.old.items (length bits.old.items) }
    requires unset { All (λ bit. bit ≡ false) bits.old.items }
    ensures rising { OnOk result (IsRising starts.new.items (length bits.new.items)) }
    ensures unset { OnOk result (All (λ bit. bit ≡ false) bits.new.items) }
{
    starts.push(bits.len())?;
    push_unset(bits, fields)
}

/// Appends the starts of all nodes, followed by the end of the last node's bits, and an unset bit
/// for each field. Fails with `AllocError` if memory runs out.
pub fn push_starts(
    scene: &Scene,
    starts: &mut Vec<usize>,
    bits: &mut Vec<bool>,
) -> Result<(), AllocError>
    requires rising { IsRising starts.old.items (length bits.old.items) }
    requires unset { All (λ bit. bit ≡ false) bits.old.items }
    ensures rising { OnOk result (IsRising starts.new.items (length bits.new.items)) }
    ensures unset { OnOk result (All (λ bit. bit ≡ false) bits.new.items) }
{
    let count = scene.count()?;
    for node in 0..count {
        push_node(scene.field_count(node) as usize, starts, bits)?;
    }
    starts.push(bits.len())?;
    Ok(())
}
