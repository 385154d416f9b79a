//! Boxes in the coordinates around Transforms.

ghost use Rattle.std.specs.Prelude.{◌≡◌, ◌^◌, ◌<◌, ◌≤◌, true, pos, ◌-ℤ◌, ◌*ℤ◌, unsigned_abs};
ghost use Rattle.std.specs.Int.{int_div_euclid};
ghost use Rattle.std.specs.Option.{option_copied};
ghost use Rattle.pick_core.specs.Motion.{along_of, clamped, moved_at, moved, moved_box, box_of, sides_along};

use crate::look::{Motion, motion_of};
use pick_rules::Bounds;
use scene_core::Scene;
use x3d_values::{Fields, NodeType, Vec3};

/// The scale that changes nothing, in millionths.
const ONE: i64 = 1_000_000;

/// Numbers with an absolute value below this fit into 64 bits with their sign.
const SHORT: u128 = 1 << 63;

/// The largest absolute value of a coordinate, in millionths.
const LIMIT: i128 = x3d_values::MAX_COORDINATE as i128;

/// Converts a box from the coordinates inside a node to those around it. Only the type is looked
/// up: a Shape's Box doesn't matter here.
#[tactic(auto, unfolding(crate::specs::Looks::kind_of, crate::specs::Motion::moved_at))]
pub(crate) fn move_box(scene: &Scene, state: &[Fields], node: u32, bounds: Bounds) -> Bounds
    ensures { result ≡ moved_at scene.now state.now node bounds }
{
    match scene.type_at(node) {
        Some(NodeType::Transform) => moved_box(motion_of(state.get(node as usize)), bounds),
        _ => bounds,
    }
}

/// Converts a box from the coordinates inside a Transform to those around it.
#[tactic(auto, unfolding(crate::specs::Motion::moved_box))]
fn moved_box(motion: Motion, bounds: Bounds) -> Bounds
    ensures { result ≡ moved_box motion bounds }
{
    bounds_between(
        move_point(motion, bounds.low),
        move_point(motion, bounds.high),
    )
}

/// Converts a coordinate from inside a Transform to around it.
fn along(translation: i64, scale: i64, center: i64, at: i64) -> i64
    ensures { result ≡ along_of translation scale center at }
{
    clamped(translation as i128 + center as i128 + scaled(scale, center, at))
}

/// Returns how far a coordinate is from the centre of a Transform, scaled and rounded down.
fn scaled(scale: i64, center: i64, at: i64) -> i128
    ensures value { result ≡ int_div_euclid (scale *ℤ (at -ℤ center)) (pos 1000000) }
    ensures fits { unsigned_abs result ≤ 2 ^ 108 }
{
    let away = at as i128 - center as i128;
    if scale == ONE {
        return away;
    }
    millionth(scale as i128 * away)
}

/// Reports whether a number fits into 64 bits.
fn is_short(number: i128) -> bool
    ensures { result ≡ true → unsigned_abs number < 2 ^ 63 }
{
    number.unsigned_abs() < SHORT
}

/// Returns a millionth of the number, rounded down. A number that fits into 64 bits is divided as
/// such, which takes no division instruction.
fn millionth(number: i128) -> i128
    ensures { result ≡ int_div_euclid number (pos 1000000) }
{
    if is_short(number) {
        return (number as i64).div_euclid(1_000_000) as i128;
    }
    number.div_euclid(1_000_000)
}

/// Returns the nearest number whose absolute value is at most 10^15.
pub fn clamped(coordinate: i128) -> i64
    ensures { result ≡ clamped coordinate }
{
    coordinate.clamp(-LIMIT, LIMIT) as i64
}

/// Converts a point from the coordinates inside a Transform to those around it, in millionths.
/// Products are rounded down, and results are clamped to the coordinate limit.
pub fn move_point(motion: Motion, at: Vec3) -> Vec3
    ensures { result ≡ moved motion at }
{
    let (t, s, c) = (motion.translation, motion.scale, motion.center);
    Vec3 {
        x: along(t.x, s.x, c.x, at.x),
        y: along(t.y, s.y, c.y, at.y),
        z: along(t.z, s.z, c.z, at.z),
    }
}

/// Returns the box between two opposite corners, in any order.
fn bounds_between(a: Vec3, b: Vec3) -> Bounds
    ensures { result ≡ sides_along a b }
{
    Bounds {
        low: Vec3 {
            x: a.x.min(b.x),
            y: a.y.min(b.y),
            z: a.z.min(b.z),
        },
        high: Vec3 {
            x: a.x.max(b.x),
            y: a.y.max(b.y),
            z: a.z.max(b.z),
        },
    }
}

/// Returns the Box of a size around the origin.
pub(crate) fn box_round(size: Vec3) -> Bounds
    ensures { result ≡ box_of size }
{
    let (x, y, z) = (
        size.x.div_euclid(2),
        size.y.div_euclid(2),
        size.z.div_euclid(2),
    );
    Bounds {
        low: Vec3 {
            x: -x,
            y: -y,
            z: -z,
        },
        high: Vec3 { x, y, z },
    }
}
