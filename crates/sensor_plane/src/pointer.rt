//! A viewer's pointer at a PlaneSensor.

use crate::path::ListPath;
use x3d_values::Vec3;

/// The point where a pointer is over a sensor's geometry, in the sensor's coordinates in
/// millionths, and the path to the list that holds the sensor.
#[derive(Clone, Copy)]
pub struct Contact {
    pub point: Vec3,
    pub path: ListPath,
}

/// A viewer's pointer: whether its button was down until now, whether the button is down now, and
/// the contact with the sensor's geometry, if the pointer is over it. `tracked` is for the viewer
/// that drags: the point where its ray meets the plane of the drag, in the sensor's coordinates, if
/// it does.
#[derive(Clone, Copy)]
pub struct PlanePointer {
    /// Below `MAX_VIEWERS`.
    pub who: u8,
    pub before: bool,
    pub down: bool,
    pub contact: Option<Contact>,
    pub tracked: Option<Vec3>,
}
