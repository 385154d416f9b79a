//! A box at its place, as a cache stores it.

ghost use Rattle.std.specs.Prelude.{◌≡◌, ◌≤◌, length, map, slice_get, IfOk};
ghost use Rattle.x3d_values.specs.Ranges.{max_depth};
ghost use Rattle.pick_core.specs.Sites as spec;

use crate::look::choice_of;
use crate::motion::box_round;
use crate::trail::{Place, Trail, carry};
use pick_rules::Bounds;
use scene_core::Scene;
use std::alloc::{AllocError, Global};
use x3d_values::{Fields, NodeType, Vec3};

/// A Box of a size at the end of a trail, shown or not, with its corners in the world.
#[derive(Drop)]
pub struct BoxRow {
    pub(crate) bounds: Bounds,
    pub(crate) shown: bool,
    pub(crate) size: Vec3,
    pub(crate) trail: Trail,
}

/// Returns the row of a Box of this size at the end of a trail.
pub(crate) fn row_of(
    alloc: Global,
    scene: &Scene,
    state: &[Fields],
    trail: &[Place],
    size: Vec3,
) -> Result<BoxRow, AllocError>
    requires { length trail.now ≤ max_depth }
    ensures { IfOk result (λ row. row ≡ spec.row_of scene.now state.now trail.now size) }
{
    Ok(BoxRow {
        bounds: carry(scene, state, trail, box_round(size)),
        shown: is_shown_from_roots(scene, state, trail),
        size,
        trail: Trail::of(alloc, trail)?,
    })
}

/// Reports whether a Switch with the choice `which` shows the child at a position.
fn shows(which: i32, position: usize) -> bool
    ensures { result ≡ spec.shows which position }
{
    which >= 0 && which as usize == position
}

/// Reports whether a node shows its child at a position.
#[tactic(auto, unfolding(crate::specs::Looks::kind_of, crate::specs::Sites::allows))]
fn allows(scene: &Scene, state: &[Fields], node: u32, position: usize) -> bool
    ensures { result ≡ spec.allows scene.now state.now node position }
{
    match scene.type_at(node) {
        Some(NodeType::Switch) => shows(choice_of(state.get(node as usize)), position),
        _ => true,
    }
}

/// Reports whether all nodes of a trail that begins below a node are shown.
#[tactic(auto, unfolding(crate::specs::Sites::is_shown))]
fn is_shown(scene: &Scene, state: &[Fields], node: u32, trail: &[Place]) -> bool
    ensures { result ≡ spec.is_shown scene.now state.now node trail.now }
{
    match trail {
        [] => true,
        [place, rest @ ..] => {
            if allows(scene, state, node, place.position) {
                is_shown(scene, state, place.node, rest)
            } else {
                false
            }
        }
    }
}

/// Reports whether all nodes of a trail from the roots are shown.
fn is_shown_from_roots(scene: &Scene, state: &[Fields], trail: &[Place]) -> bool
    ensures { result ≡ spec.is_shown_from_roots scene.now state.now trail.now }
{
    match trail {
        [] => true,
        [place, rest @ ..] => is_shown(scene, state, place.node, rest),
    }
}

/// Updates a row to this state.
pub(crate) fn refresh(scene: &Scene, state: &[Fields], row: &mut BoxRow)
    ensures { row.new ≡ spec.fresh scene.now state.now row.old }
{
    row.bounds = carry(scene, state, row.trail.as_slice(), box_round(row.size));
    row.shown = is_shown_from_roots(scene, state, row.trail.as_slice());
}

pub(crate) fn refresh_all(scene: &Scene, state: &[Fields], rows: &mut [BoxRow])
    ensures { rows.new ≡ map (spec.fresh scene.now state.now) rows.old }
{
    for row in rows.iter_mut() {
        refresh(scene, state, row);
    }
}

/// Reports whether a trail leads through a node.
fn touches(node: u32, trail: &[Place]) -> bool
    ensures { result ≡ spec.touches node trail.now }
{
    trail.iter().any(|place| place.node == node)
}

/// Updates a row to this state if its trail leads through the node.
pub(crate) fn renew_row(scene: &Scene, state: &[Fields], node: u32, row: &mut BoxRow)
    ensures { row.new ≡ spec.renewed scene.now state.now node row.old }
{
    if touches(node, row.trail.as_slice()) {
        refresh(scene, state, row);
    }
}
