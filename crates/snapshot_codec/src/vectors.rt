//! Points and colours as bytes.

ghost use Rattle.std.specs.Prelude.{◌≡◌};
ghost use Rattle.std.specs.Option.{option_map};
ghost use Rattle.byte_codec.specs.Codec.{pair};
ghost use Rattle.snapshot_codec.specs.Values.{number, vector2, vector3, color};

use crate::coded::{Coded, push_many};
use crate::fault::PartFault;
use crate::numbers::within_of;
use std::alloc::{AllocError, Global};
use x3d_values::{Color, MAX_COORDINATE, Vec2, Vec3};

/// Reads a number of a size up to 10^15 millionths.
pub(crate) fn number_of(bytes: &[u8]) -> Option<(i64, &[u8])>
    ensures { option_map (λ x. (x.0, x.1.now)) result ≡ number.read bytes.now }
{
    within_of(MAX_COORDINATE, bytes)
}

/// Reads three numbers.
fn three_of(bytes: &[u8]) -> Option<((i64, i64, i64), &[u8])>
    ensures { option_map (λ x. ((x.0.0, (x.0.1, x.0.2)), x.1.now)) result
        ≡ (pair number (pair number number)).read bytes.now }
{
    let Some((x, rest)) = number_of(bytes) else {
        return None;
    };
    let Some((y, rest)) = number_of(rest) else {
        return None;
    };
    let Some((z, rest)) = number_of(rest) else {
        return None;
    };
    Some(((x, y, z), rest))
}

#[tactic(auto, unfolding(crate::specs::Values::vector2))]
pub(crate) fn vector2_of(bytes: &[u8]) -> Option<(Vec2, &[u8])>
    ensures { option_map (λ x. (x.0, x.1.now)) result ≡ vector2.read bytes.now }
{
    let Some((x, rest)) = number_of(bytes) else {
        return None;
    };
    let Some((y, rest)) = number_of(rest) else {
        return None;
    };
    Some((Vec2 { x, y }, rest))
}

#[tactic(auto, unfolding(crate::specs::Values::vector3))]
pub(crate) fn vector3_of(bytes: &[u8]) -> Option<(Vec3, &[u8])>
    ensures { option_map (λ x. (x.0, x.1.now)) result ≡ vector3.read bytes.now }
{
    let Some(((x, y, z), rest)) = three_of(bytes) else {
        return None;
    };
    Some((Vec3 { x, y, z }, rest))
}

#[tactic(auto, unfolding(crate::specs::Values::color))]
pub(crate) fn color_of(bytes: &[u8]) -> Option<(Color, &[u8])>
    ensures { option_map (λ x. (x.0, x.1.now)) result ≡ color.read bytes.now }
{
    let Some(((red, green, blue), rest)) = three_of(bytes) else {
        return None;
    };
    Some((Color { red, green, blue }, rest))
}

impl Coded for Vec2 {
    ghost codec = { vector2 };

    fn read(_alloc: Global, bytes: &[u8]) -> Result<(Vec2, &[u8]), PartFault> {
        vector2_of(bytes).ok_or(PartFault::NotCanonical)
    }

    #[tactic(auto, unfolding(crate::specs::Values::vector2))]
    fn push_to(&self, out: &mut Vec<u8>) -> Result<(), AllocError> {
        push_many(&[self.x, self.y], out)
    }
}

impl Coded for Vec3 {
    ghost codec = { vector3 };

    fn read(_alloc: Global, bytes: &[u8]) -> Result<(Vec3, &[u8]), PartFault> {
        vector3_of(bytes).ok_or(PartFault::NotCanonical)
    }

    #[tactic(auto, unfolding(crate::specs::Values::vector3))]
    fn push_to(&self, out: &mut Vec<u8>) -> Result<(), AllocError> {
        push_many(&[self.x, self.y, self.z], out)
    }
}

impl Coded for Color {
    ghost codec = { color };

    fn read(_alloc: Global, bytes: &[u8]) -> Result<(Color, &[u8]), PartFault> {
        color_of(bytes).ok_or(PartFault::NotCanonical)
    }

    #[tactic(auto, unfolding(crate::specs::Values::color))]
    fn push_to(&self, out: &mut Vec<u8>) -> Result<(), AllocError> {
        push_many(&[self.red, self.green, self.blue], out)
    }
}
