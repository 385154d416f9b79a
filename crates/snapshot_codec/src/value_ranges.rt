//! The values of fields, by the types of the fields.

ghost use Rattle.std.specs.Prelude.{◌≡◌};
ghost use Rattle.snapshot_codec.specs.Values.{value_fits};
ghost use Rattle.snapshot_codec.specs.Ranges.{is_in_range};

use crate::ranged::{Ranged, list_fits, numbers_fit, time_fits, times_fit};
use x3d_values::{FieldType, Value, coordinate_fits};

/// Reports whether a value is in the range of its type: numbers of sizes up to 10^15 millionths,
/// times of sizes up to 10^18 microseconds, texts and lists shorter than 2^32. A node or a list of
/// nodes is in no range.
#[tactic(auto, unfolding(crate::specs::Values::value_fits))]
fn is_in_range(value: &Value) -> bool
    ensures { result ≡ is_in_range value.now }
{
    match value {
        Value::SFBool(truth) => truth.fits(),
        Value::SFInt32(number) => number.fits(),
        Value::SFFloat(number) => coordinate_fits(*number),
        Value::SFTime(time) => time_fits(*time),
        Value::SFString(text) => text.fits(),
        Value::SFVec2f(vector) => vector.fits(),
        Value::SFVec3f(vector) => Ranged::fits(vector),
        Value::SFColor(color) => color.fits(),
        Value::SFNode(_) => false,
        Value::MFBool(truths) => list_fits(truths.as_slice()),
        Value::MFInt32(numbers) => list_fits(numbers.as_slice()),
        Value::MFFloat(numbers) => numbers_fit(numbers.as_slice()),
        Value::MFTime(times) => times_fit(times.as_slice()),
        Value::MFString(texts) => list_fits(texts.as_slice()),
        Value::MFVec2f(vectors) => list_fits(vectors.as_slice()),
        Value::MFVec3f(vectors) => list_fits(vectors.as_slice()),
        Value::MFColor(colors) => list_fits(colors.as_slice()),
        Value::MFNode(_) => false,
    }
}

/// Reports whether a value is of this field type and in the range of the type.
#[tactic(auto, using(crate::proofs::Typed::by_type))]
pub fn value_fits(field_type: FieldType, value: &Value) -> bool
    ensures { result ≡ value_fits field_type value.now }
{
    field_type == value.field_type() && is_in_range(value)
}
