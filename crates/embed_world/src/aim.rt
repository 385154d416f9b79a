//! What a viewer points with, as C passes it.

/// What a viewer points with: coordinates in millionths of a unit.
#[derive(Clone, Copy)]
#[repr(C)]
pub struct Aim {
    pub origin_x: i64,
    pub origin_y: i64,
    pub origin_z: i64,
    pub direction_x: i64,
    pub direction_y: i64,
    pub direction_z: i64,
}
