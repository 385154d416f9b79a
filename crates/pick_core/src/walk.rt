//! A walk down a scene in the order of its paths, past all boxes that are shown.

ghost use Rattle.std.specs.Prelude.{◌≡◌, ◌+◌, ◌<◌, ◌≤◌, length, map, None, slice_get};
ghost use Rattle.std.specs.List.{fold};
ghost use Rattle.x3d_values.specs.Ranges.{max_depth};
ghost use Rattle.pick_core.specs.Boxes.{boxes, inside, under, shown_child as shown_child_of};
ghost use Rattle.pick_core.specs.Looks.{listed as listed_in, choice_of as which_of};
ghost use Rattle.pick_core.specs.Motion.{box_of};
ghost use Rattle.pick_core.specs.Nearest.{IsPicked};
ghost use Rattle.pick_core.specs.Picked.{nearer, picked};
ghost use Rattle.pick_core.specs.Spread.{spread};
ghost use Rattle.pick_core.specs.Trail.{carried, positions, raised};

use crate::hit::Hit;
use crate::look::{Role, choice_of, kind_of, listed};
use crate::motion::box_round;
use crate::nearest::keep_nearer;
use crate::trail::{DEPTH, Place, carry};
use arrayvec::ArrayVec;
use scene_core::Scene;
use x3d_values::{Fields, Ray, Vec3};

/// Where a walk is, and the nearest hit so far.
#[derive(Drop)]
struct Walk {
    trail: ArrayVec<Place, DEPTH>,
    best: Option<Hit>,
}

/// Returns the nearest box that the ray hits, or `None` if the ray hits no box. Of the boxes that
/// the ray enters at the same place, returns the one with the least path. `state` has the fields
/// that each node of the scene keeps, by the node's number.
pub fn pick(scene: &Scene, state: &[Fields], ray: Ray) -> Option<Hit>
    ensures nearest { IsPicked ray (boxes scene.now state.now) result }
    ensures value { result ≡ picked ray (boxes scene.now state.now) }
{
    let mut walk = Walk {
        trail: ArrayVec::new(),
        best: None,
    };
    visit_all(scene, state, ray, DEPTH, scene.roots(), &mut walk);
    walk.best
}

/// Keeps the hit of a Shape with a Box of this size at the end of the trail, if the hit is nearer
/// than the best.
fn consider(scene: &Scene, state: &[Fields], ray: Ray, size: Vec3, walk: &mut Walk)
    ensures trail { walk.new.trail.items ≡ walk.old.trail.items }
    ensures best { walk.new.best
        ≡ nearer ray walk.old.best (record {
          path = positions walk.old.trail.items;
          bounds = carried scene.now state.now walk.old.trail.items (box_of size);
        }) }
{
    let bounds = carry(scene, state, walk.trail.as_slice(), box_round(size));
    keep_nearer(walk.trail.as_slice(), bounds, ray, &mut walk.best);
}

/// Returns the child that a Switch with the choice `which` shows.
#[tactic(auto, unfolding(crate::specs::Boxes::shown_child))]
fn shown_child(which: i32, children: &[u32]) -> Option<Place>
    ensures { result ≡ shown_child_of children.now which }
{
    if which < 0 {
        return None;
    }
    let position = which as usize;
    match children.get(position) {
        Some(node) => Some(Place {
            position,
            node: *node,
        }),
        None => None,
    }
}

/// Returns the child that the Switch of that number shows.
#[tactic(auto, using(crate::proofs::Passes::passed))]
fn shown_place(scene: &Scene, state: &[Fields], node: u32) -> Option<Place>
    ensures { result
        ≡ shown_child_of (listed_in scene.now node) (which_of (slice_get state.now node)) }
{
    let which = choice_of(state.get(node as usize));
    shown_child(which, listed(scene, node))
}

#[cycle(walking)]
fn visit(scene: &Scene, state: &[Fields], ray: Ray, depth: usize, node: u32, walk: &mut Walk)
    requires deep { 0 < depth }
    requires room { length walk.old.trail.items + depth ≤ 65 }
    ensures trail { walk.new.trail.items ≡ walk.old.trail.items }
    ensures best { walk.new.best
        ≡ fold (nearer ray) walk.old.best
        (map (raised scene.now state.now walk.old.trail.items)
        (inside scene.now state.now depth node)) }
{
    match kind_of(scene, node) {
        Role::Group | Role::Transform => {
            visit_all(scene, state, ray, depth - 1, listed(scene, node), walk)
        }
        Role::Switch => {
            if let Some(place) = shown_place(scene, state, node) {
                visit_place(scene, state, ray, depth - 1, place, walk);
            }
        }
        Role::Shape(Some(size)) => consider(scene, state, ray, size, walk),
        Role::Shape(None) => {}
        Role::Other => {}
    }
}

#[cycle(walking)]
fn visit_place(
    scene: &Scene,
    state: &[Fields],
    ray: Ray,
    depth: usize,
    place: Place,
    walk: &mut Walk,
)
    requires room { length walk.old.trail.items + depth ≤ max_depth }
    ensures trail { walk.new.trail.items ≡ walk.old.trail.items }
    ensures best { walk.new.best
        ≡ fold (nearer ray) walk.old.best
        (map (raised scene.now state.now walk.old.trail.items)
        (map (under scene.now state.now place.position place.node)
        (inside scene.now state.now depth place.node))) }
{
    if depth == 0 {
        return;
    }
    walk.trail.push(place);
    visit(scene, state, ray, depth, place.node, walk);
    let _ = walk.trail.pop();
}

#[cycle(walking)]
fn visit_all(
    scene: &Scene,
    state: &[Fields],
    ray: Ray,
    depth: usize,
    nodes: &[u32],
    walk: &mut Walk,
)
    requires room { length walk.old.trail.items + depth ≤ max_depth }
    ensures trail { walk.new.trail.items ≡ walk.old.trail.items }
    ensures best { walk.new.best
        ≡ fold (nearer ray) walk.old.best
        (map (raised scene.now state.now walk.old.trail.items)
        (spread (under scene.now state.now) (inside scene.now state.now depth) 0 nodes.now)) }
{
    for (position, node) in nodes.iter().enumerate() {
        let place = Place {
            position,
            node: *node,
        };
        visit_place(scene, state, ray, depth, place, walk);
    }
}
