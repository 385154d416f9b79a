//! Values of one type.

ghost use Rattle.std.specs.Prelude.{◌≡◌};
ghost use Rattle.std.specs.Option.{option_copied};
ghost use Rattle.react_core.specs.Stored.{truth_of, integer_of, number_of, time_of, truths_of, integers_of, numbers_of, points_of, vectors_of};

use x3d_values::{Items, Value, Vec2, Vec3};

/// Returns the truth value of an SFBool.
pub fn truth_of(value: &Value) -> Option<bool>
    ensures { result ≡ truth_of value.now }
{
    match value {
        Value::SFBool(truth) => Some(*truth),
        _ => None,
    }
}

/// Returns the number of an SFInt32.
pub fn integer_of(value: &Value) -> Option<i32>
    ensures { result ≡ integer_of value.now }
{
    match value {
        Value::SFInt32(number) => Some(*number),
        _ => None,
    }
}

/// Returns the number of an SFFloat, in millionths.
pub fn number_of(value: &Value) -> Option<i64>
    ensures { result ≡ number_of value.now }
{
    match value {
        Value::SFFloat(number) => Some(*number),
        _ => None,
    }
}

/// Returns the time of an SFTime, in microseconds.
pub fn time_of(value: &Value) -> Option<i64>
    ensures { result ≡ time_of value.now }
{
    match value {
        Value::SFTime(time) => Some(*time),
        _ => None,
    }
}

/// Returns the truth values of an MFBool.
pub fn truths_of(value: &Value) -> Option<&Items<bool>>
    ensures { option_copied result ≡ truths_of value.now }
{
    match value {
        Value::MFBool(truths) => Some(truths),
        _ => None,
    }
}

/// Returns the numbers of an MFInt32.
pub fn integers_of(value: &Value) -> Option<&Items<i32>>
    ensures { option_copied result ≡ integers_of value.now }
{
    match value {
        Value::MFInt32(numbers) => Some(numbers),
        _ => None,
    }
}

/// Returns the numbers of an MFFloat, in millionths.
pub fn numbers_of(value: &Value) -> Option<&Items<i64>>
    ensures { option_copied result ≡ numbers_of value.now }
{
    match value {
        Value::MFFloat(numbers) => Some(numbers),
        _ => None,
    }
}

/// Returns the points of an MFVec2f.
pub fn points_of(value: &Value) -> Option<&Items<Vec2>>
    ensures { option_copied result ≡ points_of value.now }
{
    match value {
        Value::MFVec2f(points) => Some(points),
        _ => None,
    }
}

/// Returns the vectors of an MFVec3f.
pub fn vectors_of(value: &Value) -> Option<&Items<Vec3>>
    ensures { option_copied result ≡ vectors_of value.now }
{
    match value {
        Value::MFVec3f(vectors) => Some(vectors),
        _ => None,
    }
}
