//! The boxes around runs of rows.

ghost use Rattle.std.specs.Prelude.{◌≡◌, ℕ, Option, Some, slice_get, IfOk};
ghost use Rattle.pick_rules.specs.declared.bounds.Bounds.{Bounds as BoundsOf};
ghost use Rattle.pick_core.specs.Tree.{IsIn, IsOf, IsOverBut, IsRenewed, IsTreeOf, IsTreeBut};
ghost use Rattle.pick_core.specs.Runs as spec;

use crate::cover::joined;
use crate::row::BoxRow;
use crate::tree::{Tree, WIDTH, empty_tree, renew_groups};
use pick_rules::Bounds;
use std::alloc::{AllocError, Global};

/// Returns the box of a row, if the row is shown.
fn seen(row: &BoxRow) -> Option<Bounds>
    ensures { result ≡ spec.seen row.now }
{
    if row.shown { Some(row.bounds) } else { None }
}

/// Returns the box around all rows of a run that are shown.
fn box_round(rows: &[BoxRow], run: usize) -> Option<Bounds>
    ensures { (n : ℕ) (b : Option BoundsOf) → slice_get (spec.seen_in rows.now) n ≡ Some b
        → IsOf n run → IsIn b result }
{
    let mut outer = None;
    let mut at = run.saturating_mul(WIDTH);
    let end = at.saturating_add(WIDTH);
    while at < rows.len() {
        if at >= end {
            return outer;
        }
        outer = joined(outer, seen(&rows[at]));
        at += 1;
    }
    outer
}

/// Updates the boxes of the runs after the rows from `first` to `last` have changed.
fn renew_boxes(rows: &[BoxRow], first: usize, last: usize, runs: &mut [Option<Bounds>])
    requires { IsOverBut first last runs.old (spec.seen_in rows.now) }
    ensures { IsRenewed first last runs.old runs.new (spec.seen_in rows.now) }
{
    let mut run = first / WIDTH;
    while run < runs.len() {
        if run > last / WIDTH {
            return;
        }
        runs[run] = box_round(rows, run);
        run += 1;
    }
}

/// Updates the tree after the rows from `first` to `last` have changed.
pub(crate) fn renew_runs(rows: &[BoxRow], first: usize, last: usize, tree: &mut Tree)
    requires { IsTreeBut first last tree.old (spec.seen_in rows.now) }
    ensures { IsTreeOf tree.new (spec.seen_in rows.now) }
{
    renew_boxes(rows, first, last, tree.runs.as_mut_slice());
    renew_groups(
        tree.runs.as_slice(),
        first / WIDTH,
        last / WIDTH,
        tree.groups.as_mut_slice(),
    );
}

/// Returns a tree around the rows.
pub(crate) fn tree_of(alloc: Global, rows: &[BoxRow]) -> Result<Tree, AllocError>
    ensures { IfOk result (λ tree. IsTreeOf tree (spec.seen_in rows.now)) }
{
    let mut tree = empty_tree(alloc, rows.len())?;
    renew_runs(rows, 0, usize::MAX, &mut tree);
    Ok(tree)
}
