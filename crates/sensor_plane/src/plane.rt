//! What a PlaneSensor does with the pointers of several viewers.

ghost use Rattle.std.specs.Prelude.{◌≡◌, ◌+◌, ◌≤◌, ◌==◌, ◌&&◌, [], ◌∷◌, ◌++◌, length};
ghost use Rattle.arrayvec.specs.ArrayVec.{array_vec_len};
ghost use Rattle.x3d_values.specs.declared.ranges.TheConstants.{MAX_VIEWERS};
ghost use Rattle.x3d_values.specs.Ranges.{coordinates_fit, is_viewer};
ghost use Rattle.sensor_plane.specs.Paths.{path_fits};
ghost use Rattle.sensor_plane.specs.PlaneParts.{drag_fits};
ghost use Rattle.sensor_core.specs.Touches.{change_replies};
ghost use Rattle.sensor_plane.specs.declared.numbers.TheConstants.{IS_OVER};

use crate::drag::{Drag, drag_on, send};
use crate::fields::PlaneFields;
use crate::numbers::{IS_ACTIVE, IS_OVER};
use crate::parts::PlaneParts;
use crate::path::MAX_POSITIONS;
use crate::pointer::PlanePointer;
use react_core::Outbox;
use sensor_core::{VIEWERS, is_any, number_of, over_of};
use std::marker::Model;
use x3d_values::{MAX_VIEWERS, Value};

/// Which viewers' pointers are over a PlaneSensor, and the drag, if a viewer presses.
#[derive(Clone, Copy, PartialEq, Eq)]
pub struct PlaneState {
    over: [bool; VIEWERS],
    drag: Option<Drag>,
}

impl Model for PlaneState {
    ghost use Rattle.std.specs.Prelude.{IsTrue};
    ghost use Rattle.sensor_plane.specs.Planes.{Plane, is_drag};

    ghost Value = { Plane };

    ghost view = { λ s. record { over = s.over; drag = s.drag } };

    ghost invariant = { λ s. IsTrue (is_drag s.drag) };

    ghost inverse = { λ plane. record { over = plane.over; drag = plane.drag } };
}

impl PlaneState {
    ghost use Rattle.std.specs.Prelude.{◌≡◌, ◌+◌, ◌≤◌, ◌==◌, ◌&&◌, [], ◌++◌, is_none, is_some, length, not, IsTrue, None, if◌then◌else◌};
    ghost use Rattle.arrayvec.specs.ArrayVec.{array_vec_len};
    ghost use Rattle.x3d_values.specs.declared.node_type.NodeType.TheVariants.{PlaneSensor};
    ghost use Rattle.x3d_values.specs.declared.ranges.TheConstants.{MAX_VIEWERS};
    ghost use Rattle.x3d_values.specs.Ranges.{is_viewer};
    ghost use Rattle.react_core.specs.Access.{leave_by_outputs};
    ghost use Rattle.sensor_plane.specs.Planes.{is_drag, untouched, is_over, is_pressed_by, over_after, point, disable};
    ghost use Rattle.sensor_plane.specs.PlaneParts.{drag_fits, parts_of_plane, plane_of_parts};

    /// Returns the state with no pointer over the sensor and no viewer pressing it.
    pub fn untouched() -> PlaneState
        ensures { result ≡ untouched }
    {
        PlaneState {
            over: [false; VIEWERS],
            drag: None,
        }
    }

    /// Does what an enabled PlaneSensor with these fields does with a viewer's pointer, and puts
    /// what the sensor sends into the outbox. A drag that ends may set the offset, which is then
    /// sent.
    #[tactic(auto, unfolding(crate::specs::Planes::point))]
    pub fn point(&mut self, fields: &mut PlaneFields, pointer: &PlanePointer, out: &mut Outbox)
        requires viewer { IsTrue (is_viewer pointer.now.who) }
        requires empty { out.old.items ≡ [] }
        ensures plane { self.new ≡ (point self.old fields.old pointer.now).plane }
        ensures fields { fields.new ≡ (point self.old fields.old pointer.now).fields }
        ensures replies { out.new.items ≡ (point self.old fields.old pointer.now).replies }
        // All events leave by outputs of a PlaneSensor.
        ensures outputs { IsTrue (leave_by_outputs PlaneSensor out.new.items) }
    {
        let was = self.is_over();
        let over = self.over_after(pointer);
        send_over(was, is_any(&over), out);
        let drag = drag_on(fields, &self.drag, pointer, out);
        *self = PlaneState { over, drag };
    }

    /// Forgets the pointers of a PlaneSensor that is disabled, and puts what the sensor sends then
    /// into the outbox. The offset stays.
    #[tactic(auto, unfolding(crate::specs::Planes::disable))]
    pub fn disable(&mut self, out: &mut Outbox)
        requires room { array_vec_len out.old + 2 ≤ 5 }
        ensures plane { self.new ≡ (disable self.old).plane }
        ensures replies { out.new.items ≡ out.old.items ++ (disable self.old).replies }
        // All events leave by outputs of a PlaneSensor.
        ensures outputs { IsTrue (leave_by_outputs PlaneSensor (disable self.old).replies) }
    {
        let plane = *self;
        *self = PlaneState::untouched();
        send_over(plane.is_over(), false, out);
        if plane.drag.is_some() {
            send(IS_ACTIVE, Value::SFBool(false), out);
        }
    }

    /// Reports whether any viewer's pointer is over the sensor.
    pub fn is_over(&self) -> bool
        ensures { result ≡ is_over self.now }
    {
        is_any(&self.over)
    }

    /// Reports whether no pointer is over the sensor, and no viewer presses it.
    pub fn is_untouched(&self) -> bool
        ensures { result ≡ (not (is_over self.now) && is_none self.now.drag) }
    {
        !self.is_over() && self.drag.is_none()
    }

    /// Reports whether viewer `who` presses the sensor.
    pub fn is_pressed_by(&self, who: u8) -> bool
        ensures { result ≡ is_pressed_by self.now who }
    {
        match &self.drag {
            Some(drag) => drag.presser == who,
            None => false,
        }
    }

    /// Returns the drag, if a viewer presses.
    pub fn drag(&self) -> Option<Drag>
        ensures value { result ≡ self.now.drag }
        ensures viewer { IsTrue (is_drag result) }
    {
        self.drag
    }

    /// Returns the drag of viewer `who`, if that viewer presses.
    pub fn drag_by(&self, who: u8) -> Option<Drag>
        ensures { result ≡ (if is_pressed_by self.now who then self.now.drag else None) }
    {
        if !self.is_pressed_by(who) {
            return None;
        }
        self.drag
    }

    /// Reports whether the state is in its ranges. There always is a place for each viewer.
    pub fn fits(&self) -> bool
        ensures { result ≡ ((length self.now.over == MAX_VIEWERS) && drag_fits self.now.drag) }
    {
        has_places(&self.over) && fits(&self.drag)
    }

    /// Returns the state as a snapshot has it.
    #[tactic(auto, unfolding(crate::specs::PlaneParts::parts_of_plane))]
    pub fn parts(&self) -> PlaneParts
        ensures { result ≡ parts_of_plane self.now }
    {
        PlaneParts {
            over: number_of(&self.over),
            drag: self.drag,
        }
    }

    /// Returns the state with these parts. Returns `None` if the presser isn't a viewer, or if the
    /// point where it pressed or the last translation has a coordinate beyond 10^15 millionths.
    #[tactic(auto, unfolding(crate::specs::PlaneParts::plane_of_parts))]
    pub fn from_parts(parts: PlaneParts) -> Option<PlaneState>
        ensures { result ≡ plane_of_parts parts }
    {
        if !fits(&parts.drag) {
            return None;
        }
        Some(PlaneState {
            over: over_of(parts.over),
            drag: parts.drag,
        })
    }

    fn over_after(&self, pointer: &PlanePointer) -> [bool; VIEWERS]
        requires { IsTrue (is_viewer pointer.now.who) }
        ensures { result ≡ over_after self.now pointer.now }
    {
        let mut over = self.over;
        over[pointer.who as usize] = pointer.contact.is_some();
        over
    }
}

/// Reports whether there is a place for each viewer, which is always so.
fn has_places(over: &[bool; VIEWERS]) -> bool
    ensures { result ≡ (length over.now == MAX_VIEWERS) }
{
    over.len() == VIEWERS
}

/// Reports whether a drag's presser is a viewer and its points are in their range.
fn fits(drag: &Option<Drag>) -> bool
    ensures { result ≡ drag_fits drag.now }
{
    let Some(drag) = drag else {
        return true;
    };
    is_known(drag) && are_near(drag)
}

/// Reports whether the presser is a viewer. A path always fits.
fn is_known(drag: &Drag) -> bool
    ensures { result ≡ (is_viewer drag.now.presser && path_fits drag.now.path) }
{
    drag.presser < MAX_VIEWERS && drag.path.as_slice().len() <= MAX_POSITIONS
}

fn are_near(drag: &Drag) -> bool
    ensures { result ≡ (coordinates_fit drag.now.start && coordinates_fit drag.now.last) }
{
    drag.start.fits() && drag.last.fits()
}

/// Sends `isOver` if it changes.
fn send_over(was: bool, is: bool, out: &mut Outbox)
    requires { array_vec_len out.old + 1 ≤ 5 }
    ensures items { out.new.items ≡ out.old.items ++ change_replies IS_OVER was is }
    ensures len { array_vec_len out.new ≤ array_vec_len out.old + 1 }
{
    if was != is {
        send(IS_OVER, Value::SFBool(is), out);
    }
}
