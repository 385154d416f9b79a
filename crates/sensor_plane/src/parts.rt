//! What a PlaneSensor keeps in addition to its fields, in plain numbers, as a snapshot has it.

use crate::drag::Drag;

/// The state of a PlaneSensor: which viewers' pointers are over it, and the drag, if a viewer
/// presses.
#[derive(Clone, Copy, PartialEq, Eq)]
pub struct PlaneParts {
    /// Bit v is 1 if viewer v's pointer is over the sensor.
    pub over: u64,
    pub drag: Option<Drag>,
}
