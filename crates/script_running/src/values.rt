//! Values as the whole numbers that scripts receive and send.

ghost use Rattle.std.specs.Prelude.{◌≡◌};
ghost use Rattle.script_running.specs.Values as spec;

use x3d_values::{FieldType, Value, Vec3};

/// The least 32-bit integer.
const LEAST: i64 = -2_147_483_648;

/// The greatest 32-bit integer.
const GREATEST: i64 = 2_147_483_647;

/// Returns the numbers of a value. A truth value is 0 or 1, an integer is itself, a time is in
/// microseconds, and other numbers are in millionths. Numbers that the type doesn't use are 0. A
/// value of a type that no script takes or sends gives zeros.
pub fn numbers_of(value: &Value) -> [i64; 3]
    ensures { result ≡ spec.numbers_of value.now }
{
    match value {
        Value::SFBool(truth) => [i64::from(*truth), 0, 0],
        Value::SFInt32(number) => [i64::from(*number), 0, 0],
        Value::SFFloat(number) => [*number, 0, 0],
        Value::SFTime(time) => [*time, 0, 0],
        Value::SFVec3f(place) => [place.x, place.y, place.z],
        _ => [0, 0, 0],
    }
}

fn as_integer(number: i64) -> i32
    ensures { result ≡ spec.as_integer number }
{
    number.clamp(LEAST, GREATEST) as i32
}

/// Returns the value of that type with these numbers, or FALSE if no script sends the type. An
/// SFInt32 is clamped to 32 bits.
pub fn value_of(field_type: FieldType, numbers: [i64; 3]) -> Value
    ensures { result ≡ spec.value_of field_type numbers }
{
    let [x, y, z] = numbers;
    match field_type {
        FieldType::SFBool => Value::SFBool(x == 1),
        FieldType::SFInt32 => Value::SFInt32(as_integer(x)),
        FieldType::SFFloat => Value::SFFloat(x),
        FieldType::SFTime => Value::SFTime(x),
        FieldType::SFVec3f => Value::SFVec3f(Vec3 { x, y, z }),
        _ => Value::SFBool(false),
    }
}
