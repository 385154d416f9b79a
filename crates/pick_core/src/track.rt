//! Where a ray meets the plane of a drag.

ghost use Rattle.std.specs.Prelude.{◌≡◌};
ghost use Rattle.pick_core.specs.Track as spec;

use crate::local::quotient;
use crate::motion::clamped;
use crate::paths::{inward, outward};
use scene_core::Scene;
use x3d_values::{Fields, Ray, Vec3};

/// Reports whether a ray reaches a height. The ray begins at height `from`, and `along` is its
/// direction along z. If `along` is 0, the ray reaches no height, not even its own.
fn comes_to(from: i64, along: i64, height: i64) -> bool
    ensures { result ≡ spec.comes_to from along height }
{
    if along < 0 {
        return height <= from;
    }
    if along == 0 {
        return false;
    }
    from <= height
}

/// Returns a coordinate of the point where a ray reaches a height.
#[tactic(auto, unfolding(crate::specs::Track::met_on))]
fn met_on(origin: i64, dir: i64, from: i64, along: i64, height: i64) -> i64
    ensures { result ≡ spec.met_on origin dir from along height }
{
    let way = dir as i128 * (height as i128 - from as i128);
    clamped(origin as i128 + quotient(way, along))
}

/// Returns the point where a ray reaches a height.
#[tactic(auto, using(crate::proofs::Passes::passed))]
fn met_at(origin: Vec3, dir: Vec3, height: i64) -> Vec3
    ensures { result ≡ spec.met_at origin dir height }
{
    Vec3 {
        x: met_on(origin.x, dir.x, origin.z, dir.z, height),
        y: met_on(origin.y, dir.y, origin.z, dir.z, height),
        z: height,
    }
}

/// Returns the point where a ray reaches a height, or `None` if the ray doesn't reach it.
#[tactic(auto, using(crate::proofs::Passes::passed), unfolding(crate::specs::Track::met))]
fn met(ray: Ray, height: i64) -> Option<Vec3>
    ensures { result ≡ spec.met ray height }
{
    let (origin, dir) = (ray.origin(), ray.dir());
    if !comes_to(origin.z, dir.z, height) {
        return None;
    }
    Some(met_at(origin, dir, height))
}

/// Returns the point where a ray meets the plane of a drag, or `None` if the ray runs along the
/// plane or away from it. The drag began at `start`, and its plane goes through `start`
/// perpendicular to z. `start` and the result are in the coordinates of the list at the end of the
/// path, in millionths. If a position of the path doesn't exist, the path ends before it.
#[tactic(auto, unfolding(crate::specs::Track::track_of))]
pub fn track_point(
    scene: &Scene,
    state: &[Fields],
    path: &[u32],
    start: Vec3,
    ray: Ray,
) -> Option<Vec3>
    ensures { result ≡ spec.track_of scene.now state.now path.now start ray }
{
    let height = outward(scene, state, path, start).z;
    let Some(world) = met(ray, height) else {
        return None;
    };
    let inside = inward(scene, state, path, world);
    Some(Vec3 {
        x: inside.x,
        y: inside.y,
        z: start.z,
    })
}
