//! The value of a field as bytes.

ghost use Rattle.std.specs.Prelude.{◌≡◌, ◌++◌, Err, IsOkAnd, MatchResult, OnErr, OnOk};
ghost use Rattle.x3d_lists.specs.Extends.{Extends};
ghost use Rattle.snapshot_codec.specs.Reads.{ReadsPart};
ghost use Rattle.snapshot_codec.specs.Values.{list_at, value_codec, value_text};

use crate::coded::{Coded, list_of, list_within, push_list};
use crate::fault::PartFault;
use crate::numbers::within_of;
use crate::vectors::number_of;
use std::alloc::{AllocError, Global};
use x3d_values::{Color, FieldType, MAX_COORDINATE, Text, Value, Vec2, Vec3};

/// The largest size of a time, in microseconds.
pub(crate) const MAX_TIME: u64 = x3d_values::MAX_TIME as u64;

/// Reads the value of a field of this type. An SFBool is a byte 0 or 1, an SFInt32 an i32, a number
/// an i64 of a size up to 10^15 millionths, a time an i64 of a size up to 10^18 microseconds, a
/// string a u32 count and that many bytes of UTF-8, a list a u32 count and that many items. Returns
/// the value with the rest of the bytes. Returns `NotCanonical` if the bytes don't encode one or
/// the type is one of nodes or rotations, and `Memory` if memory runs out.
#[tactic(auto, unfolding(crate::specs::Values::value_at))]
pub fn value_of(
    alloc: Global,
    field_type: FieldType,
    bytes: &[u8],
) -> Result<(Value, &[u8]), PartFault>
    ensures { ReadsPart (λ x. (x.0, x.1.now)) result ((value_codec field_type).read bytes.now) }
{
    match field_type {
        FieldType::SFBool => valued(bool::read(alloc, bytes), Value::SFBool),
        FieldType::SFInt32 => valued(i32::read(alloc, bytes), Value::SFInt32),
        FieldType::SFFloat => valued(
            number_of(bytes).ok_or(PartFault::NotCanonical),
            Value::SFFloat,
        ),
        FieldType::SFTime => valued(
            within_of(MAX_TIME, bytes).ok_or(PartFault::NotCanonical),
            Value::SFTime,
        ),
        FieldType::SFString => valued(Text::read(alloc, bytes), Value::SFString),
        FieldType::SFVec2f => valued(Vec2::read(alloc, bytes), Value::SFVec2f),
        FieldType::SFVec3f => valued(Vec3::read(alloc, bytes), Value::SFVec3f),
        FieldType::SFColor => valued(Color::read(alloc, bytes), Value::SFColor),
        _ => list_value_of(alloc, field_type, bytes),
    }
}

/// Does the same for a field of lists.
#[tactic(auto, unfolding(crate::specs::Values::list_at))]
fn list_value_of(
    alloc: Global,
    field_type: FieldType,
    bytes: &[u8],
) -> Result<(Value, &[u8]), PartFault>
    ensures { ReadsPart (λ x. (x.0, x.1.now)) result (list_at field_type bytes.now) }
{
    match field_type {
        FieldType::MFBool => valued(list_of(alloc, bytes), Value::MFBool),
        FieldType::MFInt32 => valued(list_of(alloc, bytes), Value::MFInt32),
        FieldType::MFFloat => valued(list_within(alloc, MAX_COORDINATE, bytes), Value::MFFloat),
        FieldType::MFTime => valued(list_within(alloc, MAX_TIME, bytes), Value::MFTime),
        FieldType::MFString => valued(list_of(alloc, bytes), Value::MFString),
        FieldType::MFVec2f => valued(list_of(alloc, bytes), Value::MFVec2f),
        FieldType::MFVec3f => valued(list_of(alloc, bytes), Value::MFVec3f),
        FieldType::MFColor => valued(list_of(alloc, bytes), Value::MFColor),
        _ => Err(PartFault::NotCanonical),
    }
}

/// Turns what was read into a value.
fn valued<'a, T: Drop, F: FnOnce(T) -> Value>(
    read: Result<(T, &'a [u8]), PartFault>,
    make: F,
) -> Result<(Value, &'a [u8]), PartFault>
    requires { F.IsAlwaysCallable make }
    ensures { MatchResult read.entry
        (λ x. IsOkAnd result (λ made. F.post make x.0 made.0 × made.1.now ≡ x.1.now))
        (λ fault. result ≡ Err fault) }
{
    match read {
        Ok((part, rest)) => Ok((make(part), rest)),
        Err(fault) => Err(fault),
    }
}

/// Appends the bytes of the value. On `AllocError`, `out` may hold a part of them.
pub(crate) fn push_value_part(value: &Value, out: &mut Vec<u8>) -> Result<(), AllocError>
    ensures ok { OnOk result (out.new.items ≡ out.old.items ++ value_text value.now) }
    ensures kept { Extends out.old.items out.new.items }
{
    match value {
        Value::SFBool(truth) => truth.push_to(out),
        Value::SFInt32(number) => number.push_to(out),
        Value::SFFloat(number) => number.push_to(out),
        Value::SFTime(time) => time.push_to(out),
        Value::SFString(text) => text.push_to(out),
        Value::SFVec2f(vector) => vector.push_to(out),
        Value::SFVec3f(vector) => vector.push_to(out),
        Value::SFColor(color) => color.push_to(out),
        Value::MFBool(truths) => push_list(truths.as_slice(), out),
        Value::MFInt32(numbers) => push_list(numbers.as_slice(), out),
        Value::MFFloat(numbers) => push_list(numbers.as_slice(), out),
        Value::MFTime(times) => push_list(times.as_slice(), out),
        Value::MFString(texts) => push_list(texts.as_slice(), out),
        Value::MFVec2f(vectors) => push_list(vectors.as_slice(), out),
        Value::MFVec3f(vectors) => push_list(vectors.as_slice(), out),
        Value::MFColor(colors) => push_list(colors.as_slice(), out),
        Value::SFNode(_) | Value::MFNode(_) => Ok(()),
    }
}

/// Appends the bytes of the value. `value_of` reads them back if the value is in the range of its
/// type. A node or a list of nodes has no bytes. On `AllocError` the buffer is unchanged.
pub fn push_value(value: &Value, out: &mut Vec<u8>) -> Result<(), AllocError>
    ensures ok { OnOk result (out.new.items ≡ out.old.items ++ value_text value.now) }
    ensures err { OnErr result (out.new.items ≡ out.old.items) }
{
    let len = out.len();
    let pushed = push_value_part(value, out);
    if pushed.is_err() {
        out.truncate(len);
    }
    pushed
}
