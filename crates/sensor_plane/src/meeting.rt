//! What an enabled pointing sensor does with a viewer's pointer.

ghost use Rattle.std.specs.Prelude.{◌≡◌, [], IsTrue, Some};
ghost use Rattle.x3d_values.specs.Ranges.{is_viewer};
ghost use Rattle.sensor_plane.specs.Meeting.{dragged_by, to_plane, touched};
ghost use Rattle.sensor_plane.specs.PlaneFields.{plane_fields_of};
ghost use Rattle.x3d_values.specs.declared.fields.Fields.{Fields as FieldsView};
ghost use Rattle.sensor_plane.specs.declared.pointing.PointingState.TheVariants.{Plane, Touch};

use crate::fields::PlaneFields;
use crate::plane::PlaneState;
use crate::pointer::{Contact, PlanePointer};
use crate::pointing::PointingState;
use react_core::Outbox;
use sensor_core::{Pointed, TouchState};
use x3d_values::{Fields, Vec3};

/// A viewer's pointer at a pointing sensor: whether its button was down until now, whether the
/// button is down now, and the point inside the sensor's geometry, in the sensor's coordinates in
/// millionths, if the pointer is inside. `contact` is that point with the path to the list that
/// holds the sensor, if that path can be kept. `tracked` is the point where the ray of a viewer
/// that drags the sensor meets the plane of the drag.
#[derive(Clone, Copy)]
pub struct SensorPointer {
    /// Below `MAX_VIEWERS`.
    pub who: u8,
    pub before: bool,
    pub down: bool,
    pub place: Option<Vec3>,
    pub contact: Option<Contact>,
    pub tracked: Option<Vec3>,
}

fn to_plane(pointer: &SensorPointer) -> PlanePointer
    ensures { result ≡ to_plane pointer.now }
{
    PlanePointer {
        who: pointer.who,
        before: pointer.before,
        down: pointer.down,
        contact: pointer.contact,
        tracked: pointer.tracked,
    }
}

/// Applies a pointer to a PlaneSensor with these fields. Does nothing if a field has no value of
/// its type.
fn drag(plane: &mut PlaneState, fields: &mut Fields, pointer: &SensorPointer, out: &mut Outbox)
    requires viewer { IsTrue (is_viewer pointer.now.who) }
    requires empty { out.old.items ≡ [] }
    ensures state { Plane plane.new
        ≡ (dragged_by plane.old fields.old pointer.now (plane_fields_of fields.old)).state }
    ensures fields { fields.new
        ≡ (dragged_by plane.old fields.old pointer.now (plane_fields_of fields.old)).fields }
    ensures replies { out.new.items
        ≡ (dragged_by plane.old fields.old pointer.now (plane_fields_of fields.old)).replies }
{
    let Some(mut values) = PlaneFields::from_fields(fields) else {
        return;
    };
    plane.point(&mut values, &to_plane(pointer), out);
    values.write_offset_to(fields);
}

/// Applies a pointer to a TouchSensor.
fn touch(touch: &mut TouchState, pointer: &SensorPointer, time: i64, out: &mut Outbox)
    requires viewer { IsTrue (is_viewer pointer.now.who) }
    requires empty { out.old.items ≡ [] }
    ensures state { (fields : FieldsView) → Touch touch.new
        ≡ (touched touch.old fields pointer.now time).state }
    ensures replies { (fields : FieldsView) → out.new.items
        ≡ (touched touch.old fields pointer.now time).replies }
{
    let pointed = Pointed {
        who: pointer.who,
        before: pointer.before,
        down: pointer.down,
        inside: pointer.place,
    };
    touch.point(pointed, time, out);
}

impl PointingState {
    ghost use Rattle.std.specs.Prelude.{◌≡◌, [], IsTrue};
    ghost use Rattle.x3d_values.specs.Ranges.{is_viewer};
    ghost use Rattle.sensor_plane.specs.Meeting.{pointed};

    /// Does what an enabled pointing sensor with these fields does with a viewer's pointer, at time
    /// `time` in microseconds, and puts what the sensor sends into the outbox. Changes no field
    /// except the offset.
    #[tactic(auto, unfolding(crate::specs::Meeting::pointed))]
    pub fn point(
        &mut self,
        fields: &mut Fields,
        pointer: &SensorPointer,
        time: i64,
        out: &mut Outbox,
    )
        requires viewer { IsTrue (is_viewer pointer.now.who) }
        requires empty { out.old.items ≡ [] }
        ensures state { self.new ≡ (pointed self.old fields.old pointer.now time).state }
        ensures fields { fields.new ≡ (pointed self.old fields.old pointer.now time).fields }
        ensures replies { out.new.items ≡ (pointed self.old fields.old pointer.now time).replies }
    {
        match self {
            PointingState::NoSensor => {}
            PointingState::Touch(state) => touch(state, pointer, time, out),
            PointingState::Plane(plane) => drag(plane, fields, pointer, out),
        }
    }
}
