//! Axis-aligned boxes, and places along a ray.

use x3d_values::Vec3;

/// The corners of an axis-aligned box, in millionths. No coordinate of `low` is above that of
/// `high`.
#[derive(Clone, Copy, PartialEq, Eq)]
pub struct Bounds {
    pub low: Vec3,
    pub high: Vec3,
}

/// The place at `n / m` of the way along a ray's direction.
#[derive(Clone, Copy)]
pub struct Fraction {
    pub n: u64,
    pub m: u64,
}
