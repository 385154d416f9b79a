//! The values that a field may hold, and that a node may keep of it.

ghost use Rattle.std.specs.Prelude.{◌≡◌, ◌&&◌};
ghost use Rattle.snapshot_codec.specs.Fields.{is_positive, kept_fits};
ghost use Rattle.snapshot_codec.specs.Parts.{place_fits};
ghost use Rattle.snapshot_codec.specs.Trace.{is_moment, typed_fits};
ghost use Rattle.snapshot_codec.specs.Values.{value_fits};
ghost use Rattle.x3d_values.specs.declared.field_type.FieldType.TheVariants as types;

use crate::kept::KeptField;
use crate::value_ranges::value_fits;
use x3d_values::{FieldType, MAX_TIME, Value};

/// Reports whether `time` is a time of a world: 0 to `MAX_TIME` microseconds.
pub fn is_moment(time: i64) -> bool
    ensures { result ≡ is_moment time }
{
    time >= 0 && time <= MAX_TIME
}

/// Reports whether a sequencer may keep this place of the value that it sent last: `None`, or a
/// place below 2^32 - 1.
pub fn place_fits(place: Option<u32>) -> bool
    ensures { result ≡ place_fits place }
{
    match place {
        Some(place) => place < u32::MAX,
        None => true,
    }
}

/// Reports whether a value is of this field type and in its range. Always false without a type.
pub fn typed_fits(field_type: Option<FieldType>, value: &Value) -> bool
    ensures { result ≡ typed_fits field_type value.now }
{
    match field_type {
        Some(field_type) => value_fits(field_type, value),
        None => false,
    }
}

fn is_positive(value: &Value) -> bool
    ensures { result ≡ is_positive value.now }
{
    match value {
        Value::SFTime(time) => *time > 0,
        _ => false,
    }
}

fn is_interval(value: &Value) -> bool
    ensures { result ≡ value_fits types.SFTime value.now && is_positive value.now }
{
    value_fits(FieldType::SFTime, value) && is_positive(value)
}

/// Reports whether a node may keep this value for a field of which a snapshot holds `kept`.
#[tactic(auto, unfolding(crate::specs::Fields::kept_fits))]
pub fn kept_fits(kept: KeptField, value: &Option<Value>) -> bool
    ensures { result ≡ kept_fits kept value.now }
{
    let Some(value) = value else {
        return kept == KeptField::Absent;
    };
    match kept {
        KeptField::Absent => false,
        KeptField::Interval => is_interval(value),
        KeptField::Typed(field_type) => value_fits(field_type, value),
    }
}
