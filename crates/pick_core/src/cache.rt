//! The boxes of a scene in a state, stored so that a ray needs no walk of the scene.

ghost use Rattle.std.specs.Prelude.{◌≡◌, ◌<◌, [], ◌∷◌, None, length, take};
ghost use Rattle.std.specs.List.{fold};
ghost use Rattle.pick_core.specs.Picked.{nearer};
ghost use Rattle.pick_core.specs.Runs.{seen_in};
ghost use Rattle.pick_core.specs.Sites as spec;
ghost use Rattle.pick_core.specs.Tree.{IsTreeOf};

use crate::gather::gathered;
use crate::hit::Hit;
use crate::nearest::{fraction_of, keep_nearer};
use crate::ranges::RowRanges;
use crate::renewal::{ranges_of, renew_ranges};
use crate::row::{BoxRow, refresh_all};
use crate::runs::{renew_runs, tree_of};
use crate::tree::{Tree, passed};
use scene_core::Scene;
use std::alloc::{AllocError, Global};
use std::marker::Model;
use x3d_values::{Fields, Ray};

/// The boxes of a scene in a state, for each node the boxes below it, and the boxes around runs of
/// boxes.
#[derive(Drop)]
pub struct BoxCache {
    rows: Vec<BoxRow>,
    ranges: RowRanges,
    tree: Tree,
}

impl Model for BoxCache {
    ghost use Rattle.std.specs.Prelude.{List};
    ghost use Rattle.pick_core.specs.declared.row.BoxRow.{BoxRow};
    ghost use Rattle.pick_core.specs.Renewal.{AreRangesOf};
    ghost use Rattle.pick_core.specs.Runs.{seen_in};
    ghost use Rattle.pick_core.specs.Tree.{IsTreeOf};

    ghost Value = { List BoxRow };

    ghost view = { λ c. c.rows.items };

    ghost invariant = { λ c. AreRangesOf c.ranges c.rows.items
        × IsTreeOf c.tree (seen_in c.rows.items) };
}

impl BoxCache {
    ghost use Rattle.std.specs.Prelude.{◌≡◌, IfOk, List};
    ghost use Rattle.x3d_values.specs.declared.fields.Fields.{Fields as FieldsOf};
    ghost use Rattle.scene_core.specs.Scene.{SceneView};
    ghost use Rattle.pick_core.specs.Boxes.{boxes};
    ghost use Rattle.pick_core.specs.Nearest.{IsPicked};
    ghost use Rattle.pick_core.specs.Picked.{picked};
    ghost use Rattle.pick_core.specs.Sites as spec;

    /// Creates the cache for a scene in a state. `state` has the fields that each node of the scene
    /// keeps, by the node's number. Fails if memory runs out.
    pub fn new(alloc: Global, scene: &Scene, state: &[Fields]) -> Result<BoxCache, AllocError>
        ensures { IfOk result (λ cache. cache ≡ spec.rows_of scene.now state.now) }
    {
        let rows = gathered(alloc, scene, state)?;
        let ranges = ranges_of(alloc, rows.as_slice())?;
        let tree = tree_of(alloc, rows.as_slice())?;
        Ok(BoxCache { rows, ranges, tree })
    }

    /// Returns the nearest box that the ray hits in the state of the cache, or `None` if the ray
    /// hits no box. Allocates nothing.
    pub fn pick(&self, ray: Ray) -> Option<Hit>
        ensures nearest { (scene : SceneView) → (state : List FieldsOf)
            → self.now ≡ spec.rows_of scene state → IsPicked ray (boxes scene state) result }
        ensures value { (scene : SceneView) → (state : List FieldsOf)
            → self.now ≡ spec.rows_of scene state → result ≡ picked ray (boxes scene state) }
    {
        pick_rows(self.rows.as_slice(), &self.tree, ray)
    }

    /// Updates the cache to a state that differs from the cache's state at most at `node`. Looks
    /// only at the boxes below `node`, and allocates nothing.
    pub fn renew(&mut self, scene: &Scene, state: &[Fields], node: u32)
        ensures { (before : List FieldsOf) → self.old ≡ spec.rows_of scene.now before
            → spec.IsSameBut node before state.now → self.new ≡ spec.rows_of scene.now state.now }
    {
        renew_ranges(
            scene,
            state,
            node,
            &self.ranges,
            self.rows.as_mut_slice(),
            &mut self.tree,
        );
    }

    /// Updates the cache to any state of the same scene. Allocates nothing.
    pub fn renew_all(&mut self, scene: &Scene, state: &[Fields])
        ensures { (before : List FieldsOf) → self.old ≡ spec.rows_of scene.now before
            → self.new ≡ spec.rows_of scene.now state.now }
    {
        refresh_all(scene, state, self.rows.as_mut_slice());
        renew_runs(self.rows.as_slice(), 0, usize::MAX, &mut self.tree);
    }
}

fn pick_row(row: &BoxRow, ray: Ray, best: &mut Option<Hit>)
    ensures { best.new ≡ fold (nearer ray) best.old (spec.shown_rows (row.now ∷ [])) }
{
    if row.shown {
        keep_nearer(row.trail.as_slice(), row.bounds, ray, best);
    }
}

/// Skips the rows from `at` on that, according to the tree, are no nearer than the best hit. If the
/// tree shows none, checks the row at `at`. Returns the place of the next row.
fn pick_next(rows: &[BoxRow], tree: &Tree, at: usize, ray: Ray, best: &mut Option<Hit>) -> usize
    requires tree { IsTreeOf tree.now (seen_in rows.now) }
    requires inside { at < length rows.now }
    ensures further { at < result }
    ensures best { best.old ≡ fold (nearer ray) None (spec.shown_rows (take at rows.now))
        → best.new ≡ fold (nearer ray) None (spec.shown_rows (take result rows.now)) }
{
    let many = passed(tree, at, ray, fraction_of(best));
    if many > 0 {
        return at.saturating_add(many);
    }
    pick_row(&rows[at], ray, best);
    at + 1
}

fn pick_rows(rows: &[BoxRow], tree: &Tree, ray: Ray) -> Option<Hit>
    requires { IsTreeOf tree.now (seen_in rows.now) }
    ensures { result ≡ fold (nearer ray) None (spec.shown_rows rows.now) }
{
    let mut best = None;
    let mut at = 0;
    while at < rows.len() {
        at = pick_next(rows, tree, at, ray, &mut best);
    }
    best
}
