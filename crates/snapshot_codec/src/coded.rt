//! Values that have their own bytes, and lists of such values.

ghost use Rattle.std.specs.Prelude.{◌≡◌, ◌++◌, OnOk};
ghost use Rattle.std.specs.Int.{w32, w64};
ghost use Rattle.std.specs.List.{flat_map};
ghost use Rattle.x3d_lists.specs.Extends.{Extends};
ghost use Rattle.byte_codec.specs.Codec.{Codec, number, signed, truth, many_at};
ghost use Rattle.snapshot_codec.specs.Reads.{ReadsPart};
ghost use Rattle.snapshot_codec.specs.Values.{text, vector2, vector3, color, list_of, within};

use crate::fault::PartFault;
use crate::numbers::{push_count, push_i32, push_i64, push_u32, within_of};
use byte_codec::{flag_of, i32_of, i64_of, string_of, u32_of};
use std::alloc::{AllocError, Global};
use x3d_lists::{Items, Text};
use x3d_values::{Color, Vec2, Vec3};

/// A value that has its own bytes.
pub(crate) trait Coded: Drop {
    ghost codec: { Codec Self };

    /// Reads the value at the front of the bytes and returns it with the rest.
    fn read(alloc: Global, bytes: &[u8]) -> Result<(Self, &[u8]), PartFault>
        ensures { ReadsPart (λ x. (x.0, x.1.now)) result (codec.read bytes.now) };

    /// Appends the bytes of the value. On `AllocError`, `out` may hold a part of them.
    fn push_to(&self, out: &mut Vec<u8>) -> Result<(), AllocError>
        ensures ok { OnOk result (out.new.items ≡ out.old.items ++ codec.write self.now) }
        ensures kept { Extends out.old.items out.new.items };
}

/// Reads `count` values.
pub(crate) fn many_of<T: Coded>(
    alloc: Global,
    count: u32,
    bytes: &[u8],
) -> Result<(Items<T>, &[u8]), PartFault>
    ensures { ReadsPart (λ x. (x.0, x.1.now)) result (many_at T.codec count bytes.now) }
{
    let mut items = Items::new(alloc);
    let mut rest = bytes;
    for _ in 0..count {
        let (item, after) = match T::read(alloc, rest) {
            Ok(read) => read,
            Err(fault) => {
                drop(items);
                return Err(fault);
            }
        };
        let Ok(()) = items.push(item) else {
            drop(items);
            return Err(PartFault::Memory);
        };
        rest = after;
    }
    Ok((items, rest))
}

/// Reads a u32 count and that many values.
pub(crate) fn list_of<T: Coded>(alloc: Global, bytes: &[u8]) -> Result<(Items<T>, &[u8]), PartFault>
    ensures { ReadsPart (λ x. (x.0, x.1.now)) result ((list_of T.codec).read bytes.now) }
{
    let Some((count, rest)) = u32_of(bytes) else {
        return Err(PartFault::NotCanonical);
    };
    many_of::<T>(alloc, count, rest)
}

/// Reads `count` numbers, each of a size up to `limit`.
pub(crate) fn many_within(
    alloc: Global,
    limit: u64,
    count: u32,
    bytes: &[u8],
) -> Result<(Items<i64>, &[u8]), PartFault>
    ensures { ReadsPart (λ x. (x.0, x.1.now)) result (many_at (within limit) count bytes.now) }
{
    let mut items = Items::new(alloc);
    let mut rest = bytes;
    for _ in 0..count {
        let Some((item, after)) = within_of(limit, rest) else {
            return Err(PartFault::NotCanonical);
        };
        items.push(item)?;
        rest = after;
    }
    Ok((items, rest))
}

/// Reads a u32 count and that many numbers, each of a size up to `limit`.
pub(crate) fn list_within(
    alloc: Global,
    limit: u64,
    bytes: &[u8],
) -> Result<(Items<i64>, &[u8]), PartFault>
    ensures { ReadsPart (λ x. (x.0, x.1.now)) result ((list_of (within limit)).read bytes.now) }
{
    let Some((count, rest)) = u32_of(bytes) else {
        return Err(PartFault::NotCanonical);
    };
    many_within(alloc, limit, count, rest)
}

/// Appends the items. On `AllocError`, `out` may hold a part of them.
pub(crate) fn push_many<T: Coded>(items: &[T], out: &mut Vec<u8>) -> Result<(), AllocError>
    ensures ok { OnOk result (out.new.items ≡ out.old.items ++ flat_map T.codec.write items.now) }
    ensures kept { Extends out.old.items out.new.items }
{
    for item in items {
        item.push_to(out)?;
    }
    Ok(())
}

/// Appends the count and the items. On `AllocError`, `out` may hold a part of them.
pub(crate) fn push_list<T: Coded>(items: &[T], out: &mut Vec<u8>) -> Result<(), AllocError>
    ensures ok { OnOk result (out.new.items ≡ out.old.items ++ (list_of T.codec).write items.now) }
    ensures kept { Extends out.old.items out.new.items }
{
    push_count(items.len(), out)?;
    push_many(items, out)
}

impl Coded for bool {
    ghost codec = { truth };

    fn read(_alloc: Global, bytes: &[u8]) -> Result<(bool, &[u8]), PartFault> {
        flag_of(bytes).ok_or(PartFault::NotCanonical)
    }

    fn push_to(&self, out: &mut Vec<u8>) -> Result<(), AllocError> {
        out.push(u8::from(*self))?;
        Ok(())
    }
}

impl Coded for i32 {
    ghost codec = { signed w32 };

    fn read(_alloc: Global, bytes: &[u8]) -> Result<(i32, &[u8]), PartFault> {
        i32_of(bytes).ok_or(PartFault::NotCanonical)
    }

    fn push_to(&self, out: &mut Vec<u8>) -> Result<(), AllocError> {
        push_i32(*self, out)
    }
}

impl Coded for u32 {
    ghost codec = { number w32 };

    fn read(_alloc: Global, bytes: &[u8]) -> Result<(u32, &[u8]), PartFault> {
        u32_of(bytes).ok_or(PartFault::NotCanonical)
    }

    fn push_to(&self, out: &mut Vec<u8>) -> Result<(), AllocError> {
        push_u32(*self, out)
    }
}

/// Any 64-bit number.
impl Coded for i64 {
    ghost codec = { signed w64 };

    fn read(_alloc: Global, bytes: &[u8]) -> Result<(i64, &[u8]), PartFault> {
        i64_of(bytes).ok_or(PartFault::NotCanonical)
    }

    fn push_to(&self, out: &mut Vec<u8>) -> Result<(), AllocError> {
        push_i64(*self, out)
    }
}

impl Coded for Text {
    ghost codec = { text };

    #[tactic(auto, unfolding(crate::specs::Values::text))]
    fn read(alloc: Global, bytes: &[u8]) -> Result<(Text, &[u8]), PartFault> {
        let Some((front, rest)) = string_of(bytes) else {
            return Err(PartFault::NotCanonical);
        };
        match str::from_utf8(front) {
            Ok(front) => Ok((Text::from_str(alloc, front)?, rest)),
            Err(_) => Err(PartFault::NotCanonical),
        }
    }

    #[tactic(auto, unfolding(crate::specs::Values::text))]
    fn push_to(&self, out: &mut Vec<u8>) -> Result<(), AllocError> {
        let bytes = self.as_bytes();
        push_count(bytes.len(), out)?;
        out.extend_from_slice(bytes)
    }
}
