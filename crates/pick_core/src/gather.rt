//! The rows of all boxes of a scene, shown or not, in the order of their paths.

ghost use Rattle.std.specs.Prelude.{◌≡◌, [], ◌∷◌, ◌++◌, ◌+◌, ◌<◌, ◌≤◌, length, map, IfOk, OnOk};
ghost use Rattle.x3d_values.specs.Ranges.{max_depth};
ghost use Rattle.pick_core.specs.Sites.{row_at, row_of, rows_of, site_under, sites_in};
ghost use Rattle.pick_core.specs.Spread.{spread};

use crate::look::{Role, kind_of, listed};
use crate::row::{BoxRow, row_of};
use crate::trail::{DEPTH, Place};
use arrayvec::ArrayVec;
use scene_core::Scene;
use std::alloc::{AllocError, Global};
use x3d_values::{Fields, Vec3};

/// Where a walk is, and the rows found so far.
#[derive(Drop)]
struct Gathering {
    trail: ArrayVec<Place, DEPTH>,
    rows: Vec<BoxRow>,
}

/// Returns the rows of all boxes of the scene in a state.
pub(crate) fn gathered(
    alloc: Global,
    scene: &Scene,
    state: &[Fields],
) -> Result<Vec<BoxRow>, AllocError>
    ensures { IfOk result (λ rows. rows.items ≡ rows_of scene.now state.now) }
{
    let mut walk = Gathering {
        trail: ArrayVec::new(),
        rows: Vec::new(alloc),
    };
    gather_all(alloc, scene, state, DEPTH, scene.roots(), &mut walk)?;
    Ok(walk.rows)
}

/// Adds the row of a Shape with a Box of this size at the end of the trail.
fn push_row(
    alloc: Global,
    scene: &Scene,
    state: &[Fields],
    size: Vec3,
    walk: &mut Gathering,
) -> Result<(), AllocError>
    ensures trail { OnOk result (walk.new.trail.items ≡ walk.old.trail.items) }
    ensures rows { OnOk result (walk.new.rows.items
        ≡ walk.old.rows.items ++ row_of scene.now state.now walk.old.trail.items size ∷ []) }
{
    let row = row_of(alloc, scene, state, walk.trail.as_slice(), size)?;
    walk.rows.push(row)?;
    Ok(())
}

#[cycle(gathering)]
fn gather(
    alloc: Global,
    scene: &Scene,
    state: &[Fields],
    depth: usize,
    node: u32,
    walk: &mut Gathering,
) -> Result<(), AllocError>
    requires deep { 0 < depth }
    requires room { length walk.old.trail.items + depth ≤ 65 }
    ensures trail { OnOk result (walk.new.trail.items ≡ walk.old.trail.items) }
    ensures rows { OnOk result (walk.new.rows.items
        ≡ walk.old.rows.items
        ++ map (row_at scene.now state.now walk.old.trail.items) (sites_in scene.now depth node)) }
{
    match kind_of(scene, node) {
        Role::Group | Role::Transform | Role::Switch => {
            gather_all(alloc, scene, state, depth - 1, listed(scene, node), walk)
        }
        Role::Shape(Some(size)) => push_row(alloc, scene, state, size, walk),
        Role::Shape(None) => Ok(()),
        Role::Other => Ok(()),
    }
}

#[cycle(gathering)]
fn gather_place(
    alloc: Global,
    scene: &Scene,
    state: &[Fields],
    depth: usize,
    place: Place,
    walk: &mut Gathering,
) -> Result<(), AllocError>
    requires room { length walk.old.trail.items + depth ≤ max_depth }
    ensures trail { OnOk result (walk.new.trail.items ≡ walk.old.trail.items) }
    ensures rows { OnOk result (walk.new.rows.items
        ≡ walk.old.rows.items
        ++ map (row_at scene.now state.now walk.old.trail.items)
        (map (site_under place.position place.node) (sites_in scene.now depth place.node))) }
{
    if depth == 0 {
        return Ok(());
    }
    walk.trail.push(place);
    gather(alloc, scene, state, depth, place.node, walk)?;
    let _ = walk.trail.pop();
    Ok(())
}

#[cycle(gathering)]
fn gather_all(
    alloc: Global,
    scene: &Scene,
    state: &[Fields],
    depth: usize,
    nodes: &[u32],
    walk: &mut Gathering,
) -> Result<(), AllocError>
    requires room { length walk.old.trail.items + depth ≤ max_depth }
    ensures trail { OnOk result (walk.new.trail.items ≡ walk.old.trail.items) }
    ensures rows { OnOk result (walk.new.rows.items
        ≡ walk.old.rows.items
        ++ map (row_at scene.now state.now walk.old.trail.items)
        (spread site_under (sites_in scene.now depth) 0 nodes.now)) }
{
    for (position, node) in nodes.iter().enumerate() {
        let place = Place {
            position,
            node: *node,
        };
        gather_place(alloc, scene, state, depth, place, walk)?;
    }
    Ok(())
}
