//! The ranges of rows of each node.

ghost use Rattle.std.specs.Prelude.{◌≡◌, ◌<◌, ◌≤◌, ℕ, [], true, length, slice_get, Some, OnOk, OnErr};
ghost use Rattle.pick_core.specs.Ranges as spec;

use std::alloc::{AllocError, Global};

/// A place at which there is no range.
const NONE: usize = usize::MAX;

/// The rows from `first` to `last`, inclusive. `next` is the place of another range of the same
/// node. If there is no range at that place, this is the node's last range.
#[derive(Clone, Copy)]
pub struct RowRange {
    pub first: usize,
    pub last: usize,
    pub next: usize,
}

/// The ranges of all nodes in one list, and for each node the place of its first range.
#[derive(Drop)]
pub struct RowRanges {
    pub firsts: Vec<usize>,
    pub ranges: Vec<RowRange>,
}

/// Creates ranges in which no node has a row.
pub fn no_rows(alloc: Global) -> RowRanges
    ensures firsts { result.firsts.items ≡ [] }
    ensures ranges { result.ranges.items ≡ [] }
{
    RowRanges {
        firsts: Vec::new(alloc),
        ranges: Vec::new(alloc),
    }
}

/// Returns the place of the first range of a node. If there is no range at that place, the node has
/// no row.
pub fn first_place(ranges: &RowRanges, node: u32) -> usize
    ensures { (row : ℕ) → spec.HasRow ranges.now node row
        → spec.IsAmong ranges.now.ranges.items (length ranges.now.ranges.items) result row }
{
    match ranges.firsts.get(node as usize) {
        Some(place) => *place,
        None => NONE,
    }
}

/// Adds a row to the rows of a node. Fails if memory runs out.
pub fn add_row(ranges: &mut RowRanges, node: u32, row: usize) -> Result<(), AllocError>
    ensures added { OnOk result (spec.HasRow ranges.new node row) }
    ensures kept { OnOk result
        ((n k : ℕ) → spec.HasRow ranges.old n k → spec.HasRow ranges.new n k) }
{
    make_room(&mut ranges.firsts, node as usize)?;
    let place = ranges.firsts[node as usize];
    if take_next(ranges.ranges.as_mut_slice(), place, row) {
        return Ok(());
    }
    push_range(ranges, node as usize, place, row)
}

/// Extends `firsts` until there is a place for the node.
fn make_room(firsts: &mut Vec<usize>, node: usize) -> Result<(), AllocError>
    ensures room { OnOk result (node < length firsts.new.items) }
    ensures kept { OnOk result (spec.IsLonger firsts.old.items firsts.new.items) }
{
    while firsts.len() <= node {
        firsts.push(NONE)?;
    }
    Ok(())
}

/// Reports whether a row is in a range or directly follows it.
fn is_next(range: RowRange, row: usize) -> bool
    ensures { result ≡ true → range.first ≤ row }
{
    range.first <= row && row <= range.last.saturating_add(1)
}

/// Adds a row to the range at a place if the row is in the range or directly follows it. Reports
/// whether the range has the row.
fn take_next(ranges: &mut [RowRange], place: usize, row: usize) -> bool
    ensures taken { result ≡ true → spec.IsAt ranges.new place row }
    ensures kept { spec.IsGrown ranges.old ranges.new }
    ensures long { length ranges.new ≡ length ranges.old }
{
    if place >= ranges.len() {
        return false;
    }
    let range = ranges[place];
    if !is_next(range, row) {
        return false;
    }
    ranges[place] = RowRange {
        first: range.first,
        last: range.last.max(row),
        next: range.next,
    };
    true
}

/// Adds a range of one row for a node. The range at `place` follows it.
fn push_range(
    ranges: &mut RowRanges,
    node: usize,
    place: usize,
    row: usize,
) -> Result<(), AllocError>
    requires room { node < length ranges.old.firsts.items }
    requires place { slice_get ranges.old.firsts.items node ≡ Some place }
    ensures added { OnOk result (spec.HasRow ranges.new node row) }
    ensures kept { OnOk result
        ((n k : ℕ) → spec.HasRow ranges.old n k → spec.HasRow ranges.new n k) }
{
    let last = ranges.ranges.len();
    ranges.ranges.push(RowRange {
        first: row,
        last: row,
        next: place,
    })?;
    ranges.firsts[node] = last;
    Ok(())
}
