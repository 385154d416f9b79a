//! The kept fields of a node, as bytes.

ghost use Rattle.std.specs.Prelude.{◌≡◌, ◌++◌, OnErr, OnOk};
ghost use Rattle.std.specs.List.{flat_map};
ghost use Rattle.x3d_lists.specs.Extends.{Extends};
ghost use Rattle.byte_codec.specs.Codec.{rows_at};
ghost use Rattle.snapshot_codec.specs.declared.kept.KeptField.TheVariants.{Interval};
ghost use Rattle.snapshot_codec.specs.Reads.{ReadsPart};
ghost use Rattle.snapshot_codec.specs.Fields.{has_bytes, is_interval, kept_field, kept_text, kept_codec, fields_codec};

use crate::fault::PartFault;
use crate::numbers::within_of;
use crate::value::{MAX_TIME, push_value_part, value_of};
use std::alloc::{AllocError, Global};
use x3d_values::{Access, FieldType, Items, NodeType, Value};

/// The number of a TimeSensor's `cycleInterval`.
const CYCLE_INTERVAL: u16 = 1;

/// What a snapshot holds of a field.
#[derive(Clone, Copy, PartialEq, Eq)]
pub enum KeptField {
    /// Nothing: the field keeps no value, or holds nodes or a rotation.
    Absent,
    /// A time above 0.
    Interval,
    /// A value of this type.
    Typed(FieldType),
}

fn has_bytes(field_type: FieldType) -> bool
    ensures { result ≡ has_bytes field_type }
{
    !matches!(
        field_type,
        FieldType::SFNode | FieldType::MFNode | FieldType::SFRotation
    )
}

fn is_interval(node_type: NodeType, number: u16) -> bool
    ensures { result ≡ is_interval node_type number }
{
    match node_type {
        NodeType::TimeSensor => number == CYCLE_INTERVAL,
        _ => false,
    }
}

/// Returns what a snapshot holds of a field, from the type of its node, its number there, its
/// access and its type. A snapshot holds the inputOutput fields, except those of nodes and
/// rotations. For a TimeSensor's `cycleInterval` it holds a time above 0.
pub fn kept_field(
    node_type: NodeType,
    number: u16,
    access: Access,
    field_type: FieldType,
) -> KeptField
    ensures { result ≡ kept_field node_type number access field_type }
{
    match access {
        Access::InputOutput => {
            if is_interval(node_type, number) {
                KeptField::Interval
            } else if has_bytes(field_type) {
                KeptField::Typed(field_type)
            } else {
                KeptField::Absent
            }
        }
        Access::InputOnly | Access::OutputOnly | Access::InitializeOnly => KeptField::Absent,
    }
}

/// Reads a time above 0.
#[tactic(auto, unfolding(crate::specs::Fields::kept_at, crate::specs::Values::value_at))]
fn interval_of(bytes: &[u8]) -> Result<(Option<Value>, &[u8]), PartFault>
    ensures { ReadsPart (λ x. (x.0, x.1.now)) result ((kept_codec Interval).read bytes.now) }
{
    let Some((time, rest)) = within_of(MAX_TIME, bytes) else {
        return Err(PartFault::NotCanonical);
    };
    if time > 0 {
        Ok((Some(Value::SFTime(time)), rest))
    } else {
        Err(PartFault::NotCanonical)
    }
}

/// Reads what a node keeps of one field.
#[tactic(auto, unfolding(crate::specs::Fields::kept_at))]
fn kept_value_of(
    alloc: Global,
    field: KeptField,
    bytes: &[u8],
) -> Result<(Option<Value>, &[u8]), PartFault>
    ensures { ReadsPart (λ x. (x.0, x.1.now)) result ((kept_codec field).read bytes.now) }
{
    match field {
        KeptField::Absent => Ok((None, bytes)),
        KeptField::Interval => interval_of(bytes),
        KeptField::Typed(field_type) => match value_of(alloc, field_type, bytes) {
            Ok((value, rest)) => Ok((Some(value), rest)),
            Err(fault) => Err(fault),
        },
    }
}

/// Reads what a node keeps of its fields: for each field in order its value, and `None` for a field
/// that a snapshot doesn't hold. Returns the values with the rest of the bytes. Returns
/// `NotCanonical` if the bytes aren't values of these fields, and `Memory` if memory runs out.
pub fn kept_fields_of<'a>(
    alloc: Global,
    fields: &[KeptField],
    bytes: &'a [u8],
) -> Result<(Items<Option<Value>>, &'a [u8]), PartFault>
    ensures { ReadsPart (λ x. (x.0, x.1.now)) result ((fields_codec fields.now).read bytes.now) }
{
    let mut values = Items::new(alloc);
    let mut rest = bytes;
    for field in fields {
        let (value, after) = match kept_value_of(alloc, *field, rest) {
            Ok(read) => read,
            Err(fault) => {
                drop(values);
                return Err(fault);
            }
        };
        let Ok(()) = values.push(value) else {
            drop(values);
            return Err(PartFault::Memory);
        };
        rest = after;
    }
    Ok((values, rest))
}

fn push_kept(value: &Option<Value>, out: &mut Vec<u8>) -> Result<(), AllocError>
    ensures ok { OnOk result (out.new.items ≡ out.old.items ++ kept_text value.now) }
    ensures kept { Extends out.old.items out.new.items }
{
    match value {
        Some(value) => push_value_part(value, out),
        None => Ok(()),
    }
}

fn push_all_kept(values: &[Option<Value>], out: &mut Vec<u8>) -> Result<(), AllocError>
    ensures ok { OnOk result (out.new.items ≡ out.old.items ++ flat_map kept_text values.now) }
    ensures kept { Extends out.old.items out.new.items }
{
    for value in values {
        push_kept(value, out)?;
    }
    Ok(())
}

/// Appends the bytes of a node's kept fields. On `AllocError` the buffer is unchanged.
pub fn push_kept_fields(values: &[Option<Value>], out: &mut Vec<u8>) -> Result<(), AllocError>
    ensures ok { OnOk result (out.new.items ≡ out.old.items ++ flat_map kept_text values.now) }
    ensures err { OnErr result (out.new.items ≡ out.old.items) }
{
    let len = out.len();
    let pushed = push_all_kept(values, out);
    if pushed.is_err() {
        out.truncate(len);
    }
    pushed
}
