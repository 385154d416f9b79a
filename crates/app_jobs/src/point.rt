//! The lines of a job by which viewers point: `point V D ox oy oz dx dy dz`.

ghost use Rattle.std.specs.Prelude.{◌≡◌, IsTrue};
ghost use Rattle.app_jobs.specs.Points as spec;

use crate::word::number_below;
use share_rules::cut_word;
use x3d_numerals::millionths;
use x3d_values::{MAX_VIEWERS, Pointer, Ray, Vec3, ray_of};

/// Returns the vector of three numerals of units, in millionths.
#[tactic(auto, using(crate::proofs::Passed::passed), unfolding(crate::specs::Points::vector_of))]
pub fn vector_of(x: &[u8], y: &[u8], z: &[u8]) -> Option<Vec3>
    ensures { result ≡ spec.vector_of x.now y.now z.now }
{
    let Ok(x) = millionths(x) else {
        return None;
    };
    let Ok(y) = millionths(y) else {
        return None;
    };
    let Ok(z) = millionths(z) else {
        return None;
    };
    Some(Vec3 { x, y, z })
}

/// Returns the vector of three words, in millionths. The third word is the rest of the text.
pub fn last_vector(text: &[u8]) -> Option<Vec3>
    ensures { result
        ≡ spec.vector_of (spec.word text.now) (spec.word (spec.behind text.now))
        (spec.behind (spec.behind text.now)) }
{
    let (x, rest) = cut_word(text);
    let (y, z) = cut_word(rest);
    vector_of(x, y, z)
}

/// Returns the ray of six words: three for its origin, then three for its direction.
#[tactic(auto, unfolding(crate::specs::Points::sight_of))]
fn sight_of(text: &[u8]) -> Option<Ray>
    ensures { result ≡ spec.sight_of text.now }
{
    let (x, rest) = cut_word(text);
    let (y, rest) = cut_word(rest);
    let (z, rest) = cut_word(rest);
    let Some(origin) = vector_of(x, y, z) else {
        return None;
    };
    let Some(dir) = last_vector(rest) else {
        return None;
    };
    ray_of(origin, dir)
}

/// Returns the pointer that the words after `point ` describe.
#[tactic(auto, unfolding(crate::specs::Points::pointing_of, crate::specs::Points::number_below))]
fn pointing_of(text: &[u8]) -> Option<Pointer>
    ensures { result ≡ spec.pointing_of text.now }
{
    let (who, rest) = cut_word(text);
    let (down, rest) = cut_word(rest);
    let Some(who) = number_below(MAX_VIEWERS, who) else {
        return None;
    };
    let Some(down) = number_below(2, down) else {
        return None;
    };
    let Some(ray) = sight_of(rest) else {
        return None;
    };
    Some(Pointer::new(who, down == 1, ray))
}

/// Returns the pointer of a line `point V D ox oy oz dx dy dz`. Coordinates are numerals of units.
///
/// Returns `None` if the line is something else, V is not below `MAX_VIEWERS`, D is neither 0 nor
/// 1, a coordinate is out of range, or the direction is 0 0 0.
#[tactic(auto, unfolding(crate::specs::Points::pointed))]
pub fn pointed(line: &[u8]) -> Option<Pointer>
    ensures { result ≡ spec.pointed line.now }
{
    match line.strip_prefix(b"point ") {
        Some(words) => pointing_of(words),
        None => None,
    }
}
