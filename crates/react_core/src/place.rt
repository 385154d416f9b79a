//! Where a fraction lies among keys, and the values there.

ghost use Rattle.std.specs.Prelude.{◌≡◌, ◌<◌, ◌≤◌, length, IfSome};
ghost use Rattle.react_core.specs.Interpolation.{place_of, point_way, vector_way};

use crate::keys::step_index;
use crate::part::part_way;
use x3d_values::{Vec2, Vec3};

/// `part` of `whole` of the way from one item to another.
#[derive(Clone, Copy)]
pub struct Between {
    pub from: usize,
    pub to: usize,
    pub part: u64,
    pub whole: u64,
}

fn at_item(item: usize) -> Between
    ensures { result ≡ record { from = item; to = item; part = 0; whole = 1 } }
{
    Between {
        from: item,
        to: item,
        part: 0,
        whole: 1,
    }
}

/// Returns where the fraction lies among the keys. Returns `None` if there are no keys, or if a key
/// is below the previous one.
#[tactic(auto, unfolding(crate::specs::Interpolation::place_of, crate::specs::Keys::step_of))]
pub fn place_of(keys: &[i64], fraction: i64) -> Option<Between>
    ensures value { result ≡ place_of keys.now fraction }
    ensures is_part { IfSome result (λ place. place.part ≤ place.whole) }
    ensures is_whole { IfSome result (λ place. 0 < place.whole) }
    ensures from_within { IfSome result (λ place. place.from < length keys.now) }
    ensures to_within { IfSome result (λ place. place.to < length keys.now) }
{
    let step = step_index(keys, fraction)?;
    let last = keys.len() - 1;
    if fraction <= keys[0] {
        return Some(at_item(0));
    }
    if keys[last] <= fraction {
        return Some(at_item(last));
    }
    Some(Between {
        from: step,
        to: step + 1,
        part: fraction.abs_diff(keys[step]),
        whole: keys[step + 1].abs_diff(keys[step]),
    })
}

/// Returns the point at `place` on the way, each component by itself.
pub fn point_way(place: Between, from: Vec2, to: Vec2) -> Vec2
    requires is_part { place.part ≤ place.whole }
    requires is_whole { 0 < place.whole }
    ensures { result ≡ point_way place from to }
{
    let (part, whole) = (place.part, place.whole);
    Vec2 {
        x: part_way(part, whole, from.x, to.x),
        y: part_way(part, whole, from.y, to.y),
    }
}

/// Returns the vector at `place` on the way, each component by itself.
pub fn vector_way(place: Between, from: Vec3, to: Vec3) -> Vec3
    requires is_part { place.part ≤ place.whole }
    requires is_whole { 0 < place.whole }
    ensures { result ≡ vector_way place from to }
{
    let (part, whole) = (place.part, place.whole);
    Vec3 {
        x: part_way(part, whole, from.x, to.x),
        y: part_way(part, whole, from.y, to.y),
        z: part_way(part, whole, from.z, to.z),
    }
}
