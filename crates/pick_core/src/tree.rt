//! Runs of boxes, and groups of runs.

ghost use Rattle.std.specs.Prelude.{◌≡◌, ◌*◌, ◌≤◌, ◌/◌, ℕ, List, Option, length, true, false, Some, slice_get, IfOk};
ghost use Rattle.pick_rules.specs.declared.bounds.Bounds.{Bounds as BoundsOf};
ghost use Rattle.pick_core.specs.Passed.{enters_before as enters};
ghost use Rattle.pick_core.specs.Tree as spec;

use crate::cover::{enters_before, joined};
use pick_rules::{Bounds, Fraction};
use std::alloc::{AllocError, Global};
use x3d_values::Ray;

/// The number of boxes in a run, and of runs in a group.
pub const WIDTH: usize = 16;

/// The number of boxes in a group.
const GROUP: usize = 256;

/// The box around each run of 16 boxes of a list, and around each group of 16 runs; `None` for a
/// run or group that has no box.
#[derive(Drop)]
pub struct Tree {
    pub runs: Vec<Option<Bounds>>,
    pub groups: Vec<Option<Bounds>>,
}

/// Creates a tree with room for the runs of `many` boxes, with no box in it. Fails if memory runs
/// out.
pub fn empty_tree(alloc: Global, many: usize) -> Result<Tree, AllocError>
    ensures runs { IfOk result (λ tree. many ≤ 16 * length tree.runs.items) }
    ensures groups { IfOk result (λ tree. spec.IsOver tree.groups.items tree.runs.items) }
{
    let runs = many / WIDTH + 1;
    let groups = runs / WIDTH + 1;
    Ok(Tree {
        runs: vec![in alloc; None; runs]?,
        groups: vec![in alloc; None; groups]?,
    })
}

/// Returns the box around all boxes of a run.
fn box_round(lower: &[Option<Bounds>], run: usize) -> Option<Bounds>
    ensures { (n : ℕ) (b : Option BoundsOf) → slice_get lower.now n ≡ Some b → spec.IsOf n run
        → spec.IsIn b result }
{
    let mut outer = None;
    let mut at = run.saturating_mul(WIDTH);
    let end = at.saturating_add(WIDTH);
    while at < lower.len() {
        if at >= end {
            return outer;
        }
        outer = joined(outer, lower[at]);
        at += 1;
    }
    outer
}

/// Updates the boxes of the groups after the boxes of the runs from `first` to `last` have changed.
pub fn renew_groups(
    runs: &[Option<Bounds>],
    first: usize,
    last: usize,
    groups: &mut [Option<Bounds>],
)
    requires { spec.IsOverBut first last groups.old runs.now }
    ensures { spec.IsRenewed first last groups.old groups.new runs.now }
{
    let mut group = first / WIDTH;
    while group < groups.len() {
        if group > last / WIDTH {
            return;
        }
        groups[group] = box_round(runs, group);
        group += 1;
    }
}

fn box_at(boxes: &[Option<Bounds>], at: usize) -> Option<Option<Bounds>>
    ensures { result ≡ slice_get boxes.now at }
{
    boxes.get(at).copied()
}

/// Reports whether the list has place `at` and the ray doesn't enter the box there before the best
/// so far. If there is no box at the place, the ray enters none.
fn is_passed(boxes: &[Option<Bounds>], at: usize, ray: Ray, best: Option<Fraction>) -> bool
    ensures { result ≡ true → spec.IsPassed boxes.now at ray best }
{
    let Some(outer) = box_at(boxes, at) else {
        return false;
    };
    !enters_before(outer, ray, best)
}

/// Reports whether a group begins at place `at` that the ray doesn't enter before the best so far.
fn is_group_passed(groups: &[Option<Bounds>], at: usize, ray: Ray, best: Option<Fraction>) -> bool
    ensures { result ≡ true → (at ≡ 256 * (at / 256))
        × spec.IsPassed groups.now (at / 256) ray best }
{
    if at % GROUP != 0 {
        return false;
    }
    is_passed(groups, at / GROUP, ray, best)
}

/// Returns how many boxes, from place `at` on, the ray enters nowhere before the best so far,
/// judged by the boxes of the tree. Returns 0 if the tree doesn't show this.
pub fn passed(tree: &Tree, at: usize, ray: Ray, best: Option<Fraction>) -> usize
    ensures { (boxes : List (Option BoundsOf)) → spec.IsTreeOf tree.now boxes
        → spec.ArePassed boxes at result ray best }
{
    if at % WIDTH != 0 {
        return 0;
    }
    if is_group_passed(tree.groups.as_slice(), at, ray, best) {
        return GROUP;
    }
    if is_passed(tree.runs.as_slice(), at / WIDTH, ray, best) {
        return WIDTH;
    }
    0
}
