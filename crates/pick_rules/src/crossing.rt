//! Where a ray enters a box.

ghost use Rattle.std.specs.Prelude.{◌≡◌, ◌*◌, ◌^◌, ◌<◌, pos, ◌<ℤ◌};
ghost use Rattle.std.specs.Option.{option_and_then};
ghost use Rattle.pick_rules.specs.Entry as spec;

use crate::bounds::{Bounds, Fraction};
use x3d_values::{Ray, Vec3};

/// The part of a ray between two opposite sides of a box: from `near / slope` to `far / slope` of
/// the ray's way.
#[derive(Clone, Copy)]
pub(crate) struct Stretch {
    pub near: u64,
    pub far: u64,
    pub slope: u64,
}

/// The spans of a ray on the three axes.
#[derive(Clone, Copy)]
pub(crate) struct Spans {
    pub x: Stretch,
    pub y: Stretch,
    pub z: Stretch,
}

/// Returns the first fraction at which the ray hits the box, or `None` if the ray misses the box.
#[tactic(auto, unfolding(crate::specs::Entry::entry_of))]
pub fn entry(bounds: Bounds, ray: Ray) -> Option<Fraction>
    ensures { result ≡ spec.entry_of bounds ray }
{
    match spans_of(bounds, ray.origin(), ray.dir()) {
        Some(spans) => first_within(spans),
        None => None,
    }
}

/// Returns the span between two sides at distances `near` and `far` ahead, or `None` if both sides
/// are behind the ray's origin.
#[tactic(auto, unfolding(crate::specs::Entry::span_at))]
fn span_at(near: i128, far: i128, slope: u64) -> Option<Stretch>
    requires near { near <ℤ pos (2 ^ 64) }
    requires far { far <ℤ pos (2 ^ 64) }
    ensures { result ≡ spec.span_at near far slope }
{
    if far < 0 {
        return None;
    }
    let near = if near < 0 { 0 } else { near as u64 };
    Some(Stretch {
        near,
        far: far as u64,
        slope,
    })
}

/// Returns the span between the two sides of one axis.
#[tactic(auto, using(crate::proofs::Wide::passed), unfolding(crate::specs::Entry::span_of))]
fn span_of(low: i64, high: i64, origin: i64, dir: i64) -> Option<Stretch>
    ensures { result ≡ spec.span_of low high origin dir }
{
    let (low, high, origin) = (low as i128, high as i128, origin as i128);
    if dir < 0 {
        span_at(origin - high, origin - low, dir.unsigned_abs())
    } else {
        span_at(low - origin, high - origin, dir.unsigned_abs())
    }
}

fn times(a: u64, b: u64) -> u128
    ensures { result ≡ a * b }
{
    a as u128 * b as u128
}

/// Returns the first fraction, from `from` on, that is not before `near / slope`, or `None` if the
/// ray never gets there.
#[tactic(auto, unfolding(crate::specs::Entry::push_of))]
fn push(from: Fraction, near: u64, slope: u64) -> Option<Fraction>
    ensures { result ≡ spec.push_of from near slope }
{
    if times(from.m, near) <= times(from.n, slope) {
        return Some(from);
    }
    if slope == 0 {
        return None;
    }
    Some(Fraction { n: near, m: slope })
}

/// Reports whether a fraction is not past the far side of a span.
fn is_before(at: Fraction, span: Stretch) -> bool
    ensures { result ≡ spec.is_before at span }
{
    times(at.n, span.slope) <= times(at.m, span.far)
}

/// Returns the spans of the ray in the box, or `None` if both sides of an axis are behind the ray's
/// origin.
#[tactic(auto, unfolding(crate::specs::Entry::spans_of))]
fn spans_of(bounds: Bounds, origin: Vec3, dir: Vec3) -> Option<Spans>
    ensures { result ≡ spec.spans_of bounds (record { origin = origin; dir = dir }) }
{
    let (low, high) = (bounds.low, bounds.high);
    let Some(x) = span_of(low.x, high.x, origin.x, dir.x) else {
        return None;
    };
    let Some(y) = span_of(low.y, high.y, origin.y, dir.y) else {
        return None;
    };
    let Some(z) = span_of(low.z, high.z, origin.z, dir.z) else {
        return None;
    };
    Some(Spans { x, y, z })
}

/// Returns the first fraction that is not before any of the three near sides.
#[tactic(auto, unfolding(crate::specs::Entry::last_pushed))]
fn last_pushed(spans: Spans) -> Option<Fraction>
    ensures { result ≡ spec.last_pushed spans }
{
    let Some(at) = push(Fraction { n: 0, m: 1 }, spans.x.near, spans.x.slope) else {
        return None;
    };
    let Some(at) = push(at, spans.y.near, spans.y.slope) else {
        return None;
    };
    push(at, spans.z.near, spans.z.slope)
}

/// Returns the first fraction within all three spans.
#[tactic(auto, unfolding(crate::specs::Entry::first_within))]
fn first_within(spans: Spans) -> Option<Fraction>
    ensures { result ≡ spec.first_within spans }
{
    let Some(at) = last_pushed(spans) else {
        return None;
    };
    if is_before(at, spans.x) && is_before(at, spans.y) && is_before(at, spans.z) {
        return Some(at);
    }
    None
}

/// Reports whether a fraction is less than another.
pub fn is_less(at: Fraction, other: Fraction) -> bool
    ensures { result ≡ spec.is_less at other }
{
    times(at.n, other.m) < times(other.n, at.m)
}
