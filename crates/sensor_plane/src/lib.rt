//! A PlaneSensor: how it responds to the pointers of several viewers, and what it keeps of a drag.
//! Also the pointing state of any node.
//!
//! | Module | Has |
//! |---|---|
//! | `pointing`, `slot` | the pointing state of a sensor or another node, and its storage |
//! | `meeting` | what an enabled sensor does with a pointer |
//! | `plane` | what a PlaneSensor does with a pointer, and when it is disabled |
//! | `drag` | how a drag begins, goes on and ends, and how far it translates |
//! | `pointer`, `path` | a viewer's pointer, and the path to the list that holds the sensor |
//! | `fields` | the node's fields that determine a drag |
//! | `parts` | the state in plain numbers |
//! | `numbers`, `laws` | the numbers of the fields, and laws of drags |
#![tactic(auto)]

mod drag;
mod fields;
mod laws;
mod meeting;
mod numbers;
mod parts;
mod path;
mod plane;
mod pointer;
mod pointing;
mod slot;

pub use drag::Drag;
pub use fields::PlaneFields;
pub use laws::{
    dragged_planes_fit_law, dragging_law, drags_go_by_their_presser_law, kept_drags_law,
    numbers_law, parts_are_planes_law, planes_have_one_parts_law, sent_values_fit_law,
    translations_are_within_law, unmoved_law,
};
pub use meeting::SensorPointer;
pub use numbers::{OFFSET, PLANE_ENABLED};
pub use parts::PlaneParts;
pub use path::{ListPath, MAX_POSITIONS};
pub use plane::PlaneState;
pub use pointer::{Contact, PlanePointer};
pub use pointing::PointingState;
pub use slot::PointingSlot;
