//! The path down a scene to one of its lists.

ghost use Rattle.std.specs.Prelude.{◌≡◌, ◌+◌, ◌<◌, None, IfSome};
ghost use Rattle.std.specs.Option.{option_map};
ghost use Rattle.pick_core.specs.Sensors as sensors;
ghost use Rattle.pick_core.specs.Paths as spec;

use crate::sensors::is_held;
use crate::track_motion::{inside, outside};
use scene_core::Scene;
use x3d_values::{Fields, Vec3};

/// Returns the list of the roots, or the children of a node.
#[tactic(auto, unfolding(crate::specs::Looks::listed))]
fn list_of(scene: &Scene, owner: Option<u32>) -> &[u32]
    ensures { result.now ≡ sensors.list_of scene.now owner }
{
    match owner {
        Some(node) => scene.children(node),
        None => scene.roots(),
    }
}

/// Reports whether a list holds a sensor.
fn holds(scene: &Scene, owner: Option<u32>, sensor: u32) -> bool
    ensures { result ≡ spec.holds scene.now owner sensor }
{
    is_held(scene, owner, sensor)
}

/// Converts a point from the coordinates of the list at the end of the path to those of the list at
/// which the path begins. If a position doesn't exist, the path ends before it.
#[tactic(auto, unfolding(crate::specs::Paths::nodes_along, crate::specs::Paths::outward))]
fn outward_from(scene: &Scene, state: &[Fields], owner: Option<u32>, path: &[u32], at: Vec3) -> Vec3
    ensures { result
        ≡ spec.outward scene.now state.now (spec.nodes_along scene.now owner path.now) at }
{
    match path {
        [] => at,
        [position, rest @ ..] => {
            let Some(child) = list_of(scene, owner).get(*position as usize) else {
                return at;
            };
            let inner = outward_from(scene, state, Some(*child), rest, at);
            outside(scene, state, *child, inner)
        }
    }
}

/// Converts a point from the coordinates of the list at which the path begins to those of the list
/// at its end. If a position doesn't exist, the path ends before it.
#[tactic(auto, unfolding(crate::specs::Paths::nodes_along, crate::specs::Paths::inward))]
fn inward_from(scene: &Scene, state: &[Fields], owner: Option<u32>, path: &[u32], at: Vec3) -> Vec3
    ensures { result
        ≡ spec.inward scene.now state.now (spec.nodes_along scene.now owner path.now) at }
{
    match path {
        [] => at,
        [position, rest @ ..] => {
            let Some(child) = list_of(scene, owner).get(*position as usize) else {
                return at;
            };
            let inner = inside(scene, state, *child, at);
            inward_from(scene, state, Some(*child), rest, inner)
        }
    }
}

/// Converts a point from the coordinates of the list at the end of a path to those of the world.
/// Positions are counted from 0, the root's first. If a position doesn't exist, the path ends
/// before it.
pub fn outward(scene: &Scene, state: &[Fields], path: &[u32], at: Vec3) -> Vec3
    ensures { result
        ≡ spec.outward scene.now state.now (spec.nodes_along scene.now None path.now) at }
{
    outward_from(scene, state, None, path, at)
}

/// Converts a point from the coordinates of the world to those of the list at the end of a path. If
/// a position doesn't exist, the path ends before it.
pub fn inward(scene: &Scene, state: &[Fields], path: &[u32], at: Vec3) -> Vec3
    ensures { result
        ≡ spec.inward scene.now state.now (spec.nodes_along scene.now None path.now) at }
{
    inward_from(scene, state, None, path, at)
}

#[tactic(auto, unfolding(crate::specs::Paths::leads_to))]
fn leads_from(scene: &Scene, owner: Option<u32>, path: &[u32], sensor: u32) -> bool
    ensures { result ≡ spec.leads_to scene.now owner path.now sensor }
{
    match path {
        [] => holds(scene, owner, sensor),
        [position, rest @ ..] => {
            let Some(child) = list_of(scene, owner).get(*position as usize) else {
                return false;
            };
            leads_from(scene, Some(*child), rest, sensor)
        }
    }
}

/// Reports whether a path leads from the roots to a list that holds the sensor. The children of a
/// Switch don't count as a list of sensors.
pub fn leads_to(scene: &Scene, path: &[u32], sensor: u32) -> bool
    ensures { result ≡ spec.leads_to scene.now None path.now sensor }
{
    leads_from(scene, None, path, sensor)
}

/// Returns depth 0 if the list holds the sensor, otherwise `None`.
fn if_held(scene: &Scene, owner: Option<u32>, sensor: u32) -> Option<usize>
    ensures { result ≡ spec.if_held scene.now owner sensor }
{
    if holds(scene, owner, sensor) {
        return Some(0);
    }
    None
}

/// Adds 1 to a depth that is below `len`.
fn deeper(depth: Option<usize>, len: usize) -> Option<usize>
    requires { IfSome depth (λ d. d < len) }
    ensures { result ≡ option_map (λ d. d + 1) depth }
{
    match depth {
        Some(depth) => Some(depth + 1),
        None => None,
    }
}

/// Returns how many positions of a path lead to the lowest list along it that holds the sensor, or
/// `None` if there is no such list.
#[tactic(auto, unfolding(crate::specs::Paths::depth_along))]
fn depth_from(scene: &Scene, owner: Option<u32>, path: &[usize], sensor: u32) -> Option<usize>
    ensures { result ≡ spec.depth_along scene.now sensor owner path.now }
{
    match path {
        [] => None,
        [position, rest @ ..] => {
            let Some(child) = list_of(scene, owner).get(*position) else {
                return if_held(scene, owner, sensor);
            };
            let lower = depth_from(scene, Some(*child), rest, sensor);
            let lower = deeper(lower, rest.len());
            if lower.is_some() {
                return lower;
            }
            if_held(scene, owner, sensor)
        }
    }
}

/// Returns how many positions of a hit's path lead to the lowest list along it that holds the
/// sensor, or `None` if there is no such list.
pub fn sensor_depth(scene: &Scene, path: &[usize], sensor: u32) -> Option<usize>
    ensures { result ≡ spec.depth_along scene.now sensor None path.now }
{
    depth_from(scene, None, path, sensor)
}
