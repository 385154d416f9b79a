//! Points inside and outside a node.

ghost use Rattle.std.specs.Prelude.{◌≡◌};
ghost use Rattle.pick_core.specs.Paths as spec;

use crate::local::moved_back;
use crate::look::motion_of;
use crate::motion::move_point;
use scene_core::Scene;
use x3d_values::{Fields, NodeType, Vec3};

fn is_transform(scene: &Scene, node: u32) -> bool
    ensures { result ≡ spec.is_transform scene.now node }
{
    match scene.type_at(node) {
        Some(NodeType::Transform) => true,
        _ => false,
    }
}

/// Converts a point from the coordinates around a node to those inside it.
#[tactic(auto, unfolding(crate::specs::Paths::inside))]
pub(crate) fn inside(scene: &Scene, state: &[Fields], node: u32, at: Vec3) -> Vec3
    ensures { result ≡ spec.inside scene.now state.now node at }
{
    if !is_transform(scene, node) {
        return at;
    }
    moved_back(motion_of(state.get(node as usize)), at)
}

/// Converts a point from the coordinates inside a node to those around it.
#[tactic(auto, unfolding(crate::specs::Paths::outside))]
pub(crate) fn outside(scene: &Scene, state: &[Fields], node: u32, at: Vec3) -> Vec3
    ensures { result ≡ spec.outside scene.now state.now node at }
{
    if !is_transform(scene, node) {
        return at;
    }
    move_point(motion_of(state.get(node as usize)), at)
}
