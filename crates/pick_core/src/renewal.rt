//! The rows of a cache that a change at a node concerns.

ghost use Rattle.std.specs.Prelude.{◌≡◌, ℕ, true, Some, length, map, slice_get, IfOk, OnOk};
ghost use Rattle.pick_core.specs.Ranges.{HasRow, IsInRange};
ghost use Rattle.pick_core.specs.declared.row.BoxRow.{BoxRow as RowOf};
ghost use Rattle.pick_core.specs.Renewal.{AreRangesOf};
ghost use Rattle.pick_core.specs.Runs.{seen_in};
ghost use Rattle.pick_core.specs.Sites.{renewed, touches};
ghost use Rattle.pick_core.specs.Tree.{IsTreeOf};

use crate::ranges::{RowRange, RowRanges, add_row, first_place, no_rows};
use crate::row::{BoxRow, renew_row};
use crate::runs::renew_runs;
use crate::trail::Place;
use crate::tree::Tree;
use scene_core::Scene;
use std::alloc::{AllocError, Global};
use x3d_values::Fields;

/// Returns, for each node, the ranges of rows whose trails lead through the node.
pub(crate) fn ranges_of(alloc: Global, rows: &[BoxRow]) -> Result<RowRanges, AllocError>
    ensures { IfOk result (λ ranges. AreRangesOf ranges rows.now) }
{
    let mut ranges = no_rows(alloc);
    for (at, row) in rows.iter().enumerate() {
        add_at(&mut ranges, at, row)?;
    }
    Ok(ranges)
}

/// Adds the row at a place to the rows of each node on the row's trail.
fn add_at(ranges: &mut RowRanges, at: usize, row: &BoxRow) -> Result<(), AllocError>
    ensures added { OnOk result
        ((n : ℕ) → touches n row.now.trail ≡ true → HasRow ranges.new n at) }
    ensures kept { OnOk result ((n k : ℕ) → HasRow ranges.old n k → HasRow ranges.new n k) }
{
    add_trail(ranges, at, row.trail.as_slice())
}

/// Adds the row at a place to the rows of each node on a trail.
fn add_trail(ranges: &mut RowRanges, at: usize, trail: &[Place]) -> Result<(), AllocError>
    ensures added { OnOk result
        ((n : ℕ) → touches n trail.now ≡ true → HasRow ranges.new n at) }
    ensures kept { OnOk result ((n k : ℕ) → HasRow ranges.old n k → HasRow ranges.new n k) }
{
    for place in trail {
        add_row(ranges, place.node, at)?;
    }
    Ok(())
}

/// Updates the rows that lead through a node to this state, and then the tree around the rows. The
/// ranges have each of these rows.
pub(crate) fn renew_ranges(
    scene: &Scene,
    state: &[Fields],
    node: u32,
    ranges: &RowRanges,
    rows: &mut [BoxRow],
    tree: &mut Tree,
)
    requires ranges { (k : ℕ) (r : RowOf) → slice_get rows.old k ≡ Some r
        → touches node r.trail ≡ true → HasRow ranges.now node k }
    requires tree { IsTreeOf tree.old (seen_in rows.old) }
    ensures rows { rows.new ≡ map (renewed scene.now state.now node) rows.old }
    ensures tree { IsTreeOf tree.new (seen_in rows.new) }
{
    let mut place = first_place(ranges, node);
    let mut left = ranges.ranges.as_slice().len();
    while left > 0 {
        let Some(range) = range_at(ranges, place) else {
            return;
        };
        renew_range(scene, state, node, range, rows);
        renew_runs(rows, range.first, range.last, tree);
        place = range.next;
        left -= 1;
    }
}

fn range_at(ranges: &RowRanges, place: usize) -> Option<RowRange>
    ensures { result ≡ slice_get ranges.now.ranges.items place }
{
    ranges.ranges.get(place).copied()
}

/// Updates the rows of a range that lead through the node to this state. No other row changes.
fn renew_range(scene: &Scene, state: &[Fields], node: u32, range: RowRange, rows: &mut [BoxRow])
    ensures long { length rows.new ≡ length rows.old }
    ensures inside { (k : ℕ) (r : RowOf) → IsInRange range k → slice_get rows.old k ≡ Some r
        → slice_get rows.new k ≡ Some (renewed scene.now state.now node r) }
    ensures outside { (k : ℕ) → (IsInRange range k → ⊥)
        → slice_get rows.new k ≡ slice_get rows.old k }
{
    let mut at = range.first;
    while at < rows.len() {
        if at > range.last {
            return;
        }
        renew_row(scene, state, node, &mut rows[at]);
        at += 1;
    }
}
