//! The point of a hit in the coordinates of a sensor.

ghost use Rattle.std.specs.Prelude.{◌≡◌, ◌-◌, ◌<◌, ◌==◌, ◌^◌, ◌≤◌, pos, ◌-ℤ◌, ◌*ℤ◌, unsigned_abs, Some, None, if◌then◌else◌};
ghost use Rattle.std.specs.Int.{int_div_euclid};
ghost use Rattle.std.specs.List.{list_any};
ghost use Rattle.pick_core.specs.Local as spec;
ghost use Rattle.pick_core.specs.Sensors.{siblings_in as siblings_of};

use crate::hit::Hit;
use crate::look::{Motion, Role, kind_of, motion_of};
use crate::motion::clamped;
use crate::sensors::{is_held, list_of};
use scene_core::Scene;
use x3d_values::{Fields, Ray, Vec3};

/// Returns the point where the ray hits the box, in millionths, in the coordinates of a sensor of
/// the hit. If no list along the hit's path holds the sensor, returns the point in the world.
#[tactic(auto, unfolding(crate::specs::Local::local_of))]
pub fn local_point(scene: &Scene, state: &[Fields], hit: &Hit, ray: Ray, sensor: u32) -> Vec3
    requires { 0 < hit.now.m }
    ensures { result ≡ spec.local_of scene.now state.now hit.now ray sensor }
{
    let world = point_along(ray, hit.n, hit.m);
    match local_along(scene, state, sensor, None, hit.path.as_slice(), world) {
        Some(point) => point,
        None => world,
    }
}

/// Returns `n / m` of a direction, rounded down.
fn way(dir: i64, n: u64, m: u64) -> i128
    requires { 0 < m }
    ensures value { result ≡ int_div_euclid (pos n *ℤ dir) (pos m) }
    ensures fits { unsigned_abs result ≤ 2 ^ 127 - 2 ^ 63 }
{
    (n as i128 * dir as i128).div_euclid(m as i128)
}

/// Returns a coordinate of a ray at `n / m` of its way, clamped to the limit.
#[tactic(auto, unfolding(crate::specs::Local::reached))]
fn reached(origin: i64, dir: i64, n: u64, m: u64) -> i64
    requires { 0 < m }
    ensures { result ≡ spec.reached origin dir n m }
{
    clamped(origin as i128 + way(dir, n, m))
}

#[tactic(auto, using(crate::proofs::Passes::passed), unfolding(crate::specs::Local::point_along))]
fn point_along(ray: Ray, n: u64, m: u64) -> Vec3
    requires { 0 < m }
    ensures { result ≡ spec.point_along ray n m }
{
    let (origin, dir) = (ray.origin(), ray.dir());
    Vec3 {
        x: reached(origin.x, dir.x, n, m),
        y: reached(origin.y, dir.y, n, m),
        z: reached(origin.z, dir.z, n, m),
    }
}

/// Returns `z / scale`, rounded down, or 0 if the scale is 0. The sum of the quotient and a
/// coordinate fits into an `i128`.
pub fn quotient(z: i128, scale: i64) -> i128
    requires { unsigned_abs z ≤ 2 ^ 127 - 2 ^ 63 }
    ensures value { result ≡ spec.quotient z scale }
    ensures fits { unsigned_abs result ≤ 2 ^ 127 - 2 ^ 63 }
{
    let scale = scale as i128;
    if scale < 0 {
        return (-z).div_euclid(-scale);
    }
    if scale > 0 {
        return z.div_euclid(scale);
    }
    0
}

/// Returns how far a coordinate is from the centre of a Transform, times a million.
fn away(translation: i64, center: i64, at: i64) -> i128
    ensures value { result ≡ (at -ℤ translation -ℤ center) *ℤ pos 1000000 }
    ensures fits { unsigned_abs result ≤ 2 ^ 100 }
{
    (at as i128 - translation as i128 - center as i128) * 1_000_000
}

/// Converts a coordinate from outside a Transform to inside it.
#[tactic(auto, unfolding(crate::specs::Local::back_along))]
fn back_along(translation: i64, scale: i64, center: i64, at: i64) -> i64
    ensures { result ≡ spec.back_along translation scale center at }
{
    let away = away(translation, center, at);
    clamped(center as i128 + quotient(away, scale))
}

/// Converts a point from the coordinates around a Transform to those inside it, in millionths.
/// Quotients are rounded down, and results are clamped to the coordinate limit.
#[tactic(auto, using(crate::proofs::Passes::passed), unfolding(crate::specs::Local::moved_back))]
pub fn moved_back(motion: Motion, at: Vec3) -> Vec3
    ensures { result ≡ spec.moved_back motion at }
{
    let (t, s, c) = (motion.translation, motion.scale, motion.center);
    Vec3 {
        x: back_along(t.x, s.x, c.x, at.x),
        y: back_along(t.y, s.y, c.y, at.y),
        z: back_along(t.z, s.z, c.z, at.z),
    }
}

/// Converts a point from the coordinates around a node to those inside it.
#[tactic(auto, unfolding(crate::specs::Local::entered))]
fn entered(scene: &Scene, state: &[Fields], node: u32, at: Vec3) -> Vec3
    ensures { result ≡ spec.entered scene.now state.now node at }
{
    match kind_of(scene, node) {
        Role::Transform => moved_back(motion_of(state.get(node as usize)), at),
        Role::Group | Role::Switch | Role::Shape(_) | Role::Other => at,
    }
}

/// Returns the point if the list holds the sensor.
fn if_held(scene: &Scene, owner: Option<u32>, sensor: u32, at: Vec3) -> Option<Vec3>
    ensures { result
        ≡ (if list_any (λ n. n == sensor) (siblings_of scene.now owner) then Some at else None) }
{
    if is_held(scene, owner, sensor) {
        return Some(at);
    }
    None
}

/// Converts a point from the coordinates of the list at which a path begins to those of the lowest
/// list along the path that holds the sensor. Returns `None` if there is no such list.
#[tactic(auto, unfolding(crate::specs::Local::local_along))]
fn local_along(
    scene: &Scene,
    state: &[Fields],
    sensor: u32,
    owner: Option<u32>,
    path: &[usize],
    at: Vec3,
) -> Option<Vec3>
    ensures { result ≡ spec.local_along scene.now state.now sensor owner path.now at }
{
    match path {
        [] => None,
        [position, rest @ ..] => {
            let Some(child) = list_of(scene, owner).get(*position) else {
                return if_held(scene, owner, sensor, at);
            };
            let inside = entered(scene, state, *child, at);
            let lower = local_along(scene, state, sensor, Some(*child), rest, inside);
            if lower.is_some() {
                return lower;
            }
            if_held(scene, owner, sensor, at)
        }
    }
}
