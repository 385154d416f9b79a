//! The box around others, and which boxes a ray enters before the best hit so far.

ghost use Rattle.std.specs.Prelude.{◌≡◌};
ghost use Rattle.pick_core.specs.Passed as spec;
ghost use Rattle.pick_core.specs.Tree.{IsIn};

use pick_rules::{Bounds, Fraction, entry, is_less};
use x3d_values::{Ray, Vec3};

fn low_of(a: Vec3, b: Vec3) -> Vec3
    ensures { result ≡ spec.low_of a b }
{
    Vec3 {
        x: a.x.min(b.x),
        y: a.y.min(b.y),
        z: a.z.min(b.z),
    }
}

fn high_of(a: Vec3, b: Vec3) -> Vec3
    ensures { result ≡ spec.high_of a b }
{
    Vec3 {
        x: a.x.max(b.x),
        y: a.y.max(b.y),
        z: a.z.max(b.z),
    }
}

fn round_two(a: Bounds, b: Bounds) -> Bounds
    ensures { result ≡ spec.round_two a b }
{
    Bounds {
        low: low_of(a.low, b.low),
        high: high_of(a.high, b.high),
    }
}

/// Returns the box around two boxes. If there is only one box, returns that box.
pub fn joined(a: Option<Bounds>, b: Option<Bounds>) -> Option<Bounds>
    ensures value { result ≡ spec.joined a b }
    ensures first { IsIn a result }
    ensures second { IsIn b result }
{
    match a {
        None => b,
        Some(a) => match b {
            None => Some(a),
            Some(b) => Some(round_two(a, b)),
        },
    }
}

/// Reports whether a place along a ray is strictly nearer than the best so far. If there is no
/// best, every place is nearer.
pub fn is_before(at: Fraction, best: Option<Fraction>) -> bool
    ensures { result ≡ spec.is_before at best }
{
    match best {
        Some(best) => is_less(at, best),
        None => true,
    }
}

/// Reports whether the ray enters the box at a place strictly nearer than the best so far. Returns
/// false if there is no box.
#[tactic(auto, unfolding(crate::specs::Passed::enters_before))]
pub fn enters_before(cover: Option<Bounds>, ray: Ray, best: Option<Fraction>) -> bool
    ensures { result ≡ spec.enters_before cover ray best }
{
    match cover {
        None => false,
        Some(bounds) => match entry(bounds, ray) {
            Some(at) => is_before(at, best),
            None => false,
        },
    }
}
