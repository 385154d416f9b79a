//! The fields of a PlaneSensor that determine a drag.

ghost use Rattle.std.specs.Prelude.{◌≡◌};
ghost use Rattle.sensor_plane.specs.PlaneFields.{pair_at, triple_at};

use crate::numbers::{AUTO_OFFSET, MAX_POSITION, MIN_POSITION, OFFSET};
use sensor_core::truth_at;
use x3d_values::{Fields, Value, Vec2, Vec3};

/// The values of a PlaneSensor's inputOutput fields that determine a drag, in millionths.
#[derive(Clone, Copy, PartialEq, Eq)]
pub struct PlaneFields {
    pub auto_offset: bool,
    pub max_position: Vec2,
    pub min_position: Vec2,
    pub offset: Vec3,
}

#[tactic(auto, unfolding(crate::specs::PlaneFields::pair_at))]
fn pair_at(fields: &Fields, field: u16) -> Option<Vec2>
    ensures { result ≡ pair_at fields.now field }
{
    match fields.value(field)? {
        Value::SFVec2f(pair) => Some(*pair),
        _ => None,
    }
}

#[tactic(auto, unfolding(crate::specs::PlaneFields::triple_at))]
fn triple_at(fields: &Fields, field: u16) -> Option<Vec3>
    ensures { result ≡ triple_at fields.now field }
{
    match fields.value(field)? {
        Value::SFVec3f(triple) => Some(*triple),
        _ => None,
    }
}

impl PlaneFields {
    ghost use Rattle.std.specs.Prelude.{◌≡◌};
    ghost use Rattle.sensor_plane.specs.PlaneFields.{plane_fields_of, with_offset};

    /// Returns the values of a PlaneSensor's fields. Returns `None` if a value is missing or has
    /// another type.
    #[tactic(auto, unfolding(crate::specs::PlaneFields::plane_fields_of))]
    pub fn from_fields(fields: &Fields) -> Option<PlaneFields>
        ensures { result ≡ plane_fields_of fields.now }
    {
        let Some(auto_offset) = truth_at(fields, AUTO_OFFSET) else {
            return None;
        };
        let Some(max_position) = pair_at(fields, MAX_POSITION) else {
            return None;
        };
        let Some(min_position) = pair_at(fields, MIN_POSITION) else {
            return None;
        };
        let Some(offset) = triple_at(fields, OFFSET) else {
            return None;
        };
        Some(PlaneFields {
            auto_offset,
            max_position,
            min_position,
            offset,
        })
    }

    /// Writes the offset into a PlaneSensor's fields. A drag changes no other field.
    pub fn write_offset_to(&self, fields: &mut Fields)
        ensures { fields.new ≡ with_offset fields.old self.now }
    {
        fields.set(OFFSET, Value::SFVec3f(self.offset));
    }
}
