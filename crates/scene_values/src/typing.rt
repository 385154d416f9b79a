//! Conversion of a raw value by the type of its field.

ghost use Rattle.x3d_lists.specs.Answers.{Gives};
ghost use Rattle.scene_values.specs.Typing.{typed};

use crate::fault::ValueFault;
use crate::grouping::{color, colors, pair, pairs, vector, vectors};
use crate::plain::{node, nodes, string, strings, truth, truths};
use crate::quantity::Quantity;
use crate::scalars::{integer, integers, scalar, scalars};
use classic_tree::RawValue;
use std::alloc::Global;
use x3d_values::{FieldType, Value};

/// Converts a raw value to a value of type `field_type`. `numbers[n]` is the number that node n of
/// the raw value has in the scene; a node without an entry in `numbers` gets the number 0.
///
/// Fails with the first fault in the order of `ValueFault`, or with `Memory`. `SFRotation` always
/// fails with `WrongType`: rotations are only checked, see `checked_rotation`.
pub fn typed(
    alloc: Global,
    field_type: FieldType,
    raw: &RawValue<u32>,
    numbers: &[u32],
) -> Result<Value, ValueFault>
    ensures { Gives ValueFault.Memory (λ v. v) result (typed field_type raw.now numbers.now) }
{
    match field_type {
        FieldType::SFBool => truth(raw).map(Value::SFBool),
        FieldType::SFInt32 => integer(raw).map(Value::SFInt32),
        FieldType::SFFloat => scalar(Quantity::Number, raw).map(Value::SFFloat),
        FieldType::SFTime => scalar(Quantity::Time, raw).map(Value::SFTime),
        FieldType::SFString => string(alloc, raw).map(Value::SFString),
        FieldType::SFVec2f => pair(raw).map(Value::SFVec2f),
        FieldType::SFVec3f => vector(raw).map(Value::SFVec3f),
        FieldType::SFColor => color(raw).map(Value::SFColor),
        FieldType::SFNode => node(numbers, raw).map(Value::SFNode),
        FieldType::MFBool => truths(alloc, raw).map(Value::MFBool),
        FieldType::MFInt32 => integers(alloc, raw).map(Value::MFInt32),
        FieldType::MFFloat => scalars(alloc, Quantity::Number, raw).map(Value::MFFloat),
        FieldType::MFTime => scalars(alloc, Quantity::Time, raw).map(Value::MFTime),
        FieldType::MFString => strings(alloc, raw).map(Value::MFString),
        FieldType::MFVec2f => pairs(alloc, raw).map(Value::MFVec2f),
        FieldType::MFVec3f => vectors(alloc, raw).map(Value::MFVec3f),
        FieldType::MFColor => colors(alloc, raw).map(Value::MFColor),
        FieldType::MFNode => nodes(alloc, numbers, raw).map(Value::MFNode),
        FieldType::SFRotation => Err(ValueFault::WrongType),
    }
}
