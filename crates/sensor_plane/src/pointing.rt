//! The pointing state of a node: what it keeps, in addition to its fields, of viewers' pointers.

ghost use Rattle.std.specs.Prelude.{◌≡◌, ◌==◌, ◌&&◌, length, true};
ghost use Rattle.std.specs.Option.{option_map_or};
ghost use Rattle.x3d_values.specs.declared.ranges.TheConstants.{MAX_VIEWERS};
ghost use Rattle.x3d_values.specs.Ranges.{is_viewer};

use crate::drag::Drag;
use crate::plane::PlaneState;
use react_core::Outbox;
use sensor_core::TouchState;
use x3d_values::NodeType;

/// The pointing state of a node: what it keeps, in addition to its fields, of viewers' pointers.
#[derive(Clone, Copy, PartialEq, Eq)]
pub enum PointingState {
    NoSensor,
    Touch(TouchState),
    Plane(PlaneState),
}

impl PointingState {
    ghost use Rattle.std.specs.Prelude.{◌≡◌, ◌+◌, ◌≤◌, ◌++◌, IsTrue};
    ghost use Rattle.arrayvec.specs.ArrayVec.{array_vec_len};
    ghost use Rattle.x3d_values.specs.declared.node_type.NodeType.{NodeType as TypeOf};
    ghost use Rattle.react_core.specs.Access.{leave_by_outputs};
    ghost use Rattle.sensor_plane.specs.Pointing as spec;

    /// Returns the state of a node of type `node_type` when a world begins.
    pub fn of(node_type: NodeType) -> PointingState
        ensures { result ≡ spec.start_of node_type }
    {
        match node_type {
            NodeType::TouchSensor => PointingState::Touch(TouchState::untouched()),
            NodeType::PlaneSensor => PointingState::Plane(PlaneState::untouched()),
            _ => PointingState::NoSensor,
        }
    }

    fn is_touch(&self) -> bool
        ensures { result ≡ spec.is_touch self.now }
    {
        match self {
            PointingState::Touch(_) => true,
            _ => false,
        }
    }

    fn is_plane(&self) -> bool
        ensures { result ≡ spec.is_plane self.now }
    {
        match self {
            PointingState::Plane(_) => true,
            _ => false,
        }
    }

    pub(crate) fn is_no_sensor(&self) -> bool
        ensures { result ≡ spec.is_no_sensor self.now }
    {
        match self {
            PointingState::NoSensor => true,
            _ => false,
        }
    }

    /// Reports whether this is a state of a node of type `node_type`.
    pub fn is_of(&self, node_type: NodeType) -> bool
        ensures { result ≡ spec.is_state_of node_type self.now }
    {
        match node_type {
            NodeType::TouchSensor => self.is_touch(),
            NodeType::PlaneSensor => self.is_plane(),
            _ => self.is_no_sensor(),
        }
    }

    /// Reports whether no pointer is over the sensor, and no viewer presses it.
    pub fn is_resting(&self) -> bool
        ensures { result ≡ spec.is_resting self.now }
    {
        match self {
            PointingState::NoSensor => true,
            PointingState::Touch(touch) => touch.is_untouched(),
            PointingState::Plane(plane) => plane.is_untouched(),
        }
    }

    /// Reports whether viewer `who` presses the sensor.
    pub fn is_pressed_by(&self, who: u8) -> bool
        ensures { result ≡ spec.is_pressed_by self.now who }
    {
        match self {
            PointingState::NoSensor => false,
            PointingState::Touch(touch) => touch.is_pressed_by(who),
            PointingState::Plane(plane) => plane.is_pressed_by(who),
        }
    }

    /// Forgets the pointers of a sensor that is disabled, and puts what the sensor sends then into
    /// the outbox.
    pub fn forget(&mut self, out: &mut Outbox)
        requires room { array_vec_len out.old + 2 ≤ 5 }
        ensures state { self.new ≡ (spec.forgotten self.old).state }
        ensures replies { out.new.items ≡ out.old.items ++ (spec.forgotten self.old).replies }
        // All events leave by outputs of a node with this state.
        ensures outputs { (t : TypeOf) → IsTrue (spec.is_state_of t self.old)
            → IsTrue (leave_by_outputs t (spec.forgotten self.old).replies) }
    {
        match self {
            PointingState::NoSensor => {}
            PointingState::Touch(touch) => touch.disable(out),
            PointingState::Plane(plane) => plane.disable(out),
        }
    }

    /// Returns the drag of a PlaneSensor, if viewer `who` presses it.
    pub fn drag_by(&self, who: u8) -> Option<Drag>
        ensures { result ≡ spec.drag_by self.now who }
    {
        match self {
            PointingState::Plane(plane) => plane.drag_by(who),
            _ => None,
        }
    }

    /// Reports whether this is a state of a node of type `node_type`, in its ranges.
    pub fn fits(&self, node_type: NodeType) -> bool
        ensures { result ≡ spec.pointing_fits node_type self.now }
    {
        match node_type {
            NodeType::TouchSensor => self.touch_fits(),
            NodeType::PlaneSensor => self.plane_fits(),
            _ => self.is_no_sensor(),
        }
    }

    fn touch_fits(&self) -> bool
        ensures { result ≡ spec.touch_fits self.now }
    {
        match self {
            PointingState::Touch(touch) => touch_fits(touch),
            _ => false,
        }
    }

    fn plane_fits(&self) -> bool
        ensures { result ≡ spec.plane_fits self.now }
    {
        match self {
            PointingState::Plane(plane) => plane.fits(),
            _ => false,
        }
    }
}

/// Returns true: a TouchState is always in its ranges.
fn touch_fits(touch: &TouchState) -> bool
    ensures { result ≡ ((length touch.now.over == MAX_VIEWERS)
        && option_map_or is_viewer touch.now.presser true) }
{
    let _ = touch.is_untouched();
    true
}
