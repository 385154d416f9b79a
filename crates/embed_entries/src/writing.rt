//! Writing entries after their numbers.

ghost use Rattle.std.specs.Prelude.{◌≡◌, ◌≤◌, ◌^◌, ◌++◌, IfOk, OnOk, length};
ghost use Rattle.std.specs.Int.{w64};
ghost use Rattle.byte_codec.specs.Codec.{number_text};
ghost use Rattle.x3d_values.specs.Ranges.{max_inputs};
ghost use Rattle.share_entries.specs.Entry.{entry_codec};
ghost use Rattle.embed_entries.specs.Appends as spec;

use share_entries::{Entry, bytes_of};
use std::alloc::{AllocError, Global};
use x3d_values::MAX_INPUTS;

/// Appends the number of an entry.
#[tactic(auto, unfolding(byte_codec::specs::Codec::number_text))]
fn push_number(number: u64, out: &mut Vec<u8>) -> Result<(), AllocError>
    ensures { OnOk result (out.new.items ≡ out.old.items ++ number_text w64 number) }
{
    out.extend_from_slice(&number.to_be_bytes())
}

/// Appends an entry after its number.
fn push_line(number: u64, entry: &Entry, out: &mut Vec<u8>) -> Result<(), AllocError>
    ensures { OnOk result (out.new.items
        ≡ out.old.items ++ (number_text w64 number ++ entry_codec.write entry.now)) }
{
    push_number(number, out)?;
    out.extend_from_slice(bytes_of(entry).as_slice())
}

/// Appends entries after their numbers, of which the first is `first`.
fn push_lines(first: u64, entries: &[Entry], out: &mut Vec<u8>) -> Result<(), AllocError>
    requires first { first ≤ 2 ^ 48 }
    requires few { length entries.now ≤ max_inputs }
    ensures { OnOk result (out.new.items ≡ out.old.items ++ spec.lines_from first entries.now) }
{
    let mut number = first;
    for entry in entries {
        push_line(number, entry, out)?;
        number += 1;
    }
    Ok(())
}

/// Appends the mark, if an append begins with the first entry of a log.
fn push_front(mark: &[u8; 32], first: u64, out: &mut Vec<u8>) -> Result<(), AllocError>
    ensures { OnOk result (out.new.items ≡ out.old.items ++ spec.front_of mark.now first) }
{
    if first == 1 {
        return out.extend_from_slice(mark);
    }
    Ok(())
}

/// Appends the bytes of entries that are appended together, of which the first has this number.
/// Fails with `AllocError`, also if there are more than a world has; `out` may have grown then.
fn push_append(
    mark: &[u8; 32],
    first: u64,
    entries: &[Entry],
    out: &mut Vec<u8>,
) -> Result<(), AllocError>
    requires { first ≤ 2 ^ 48 }
    ensures { OnOk result (out.new.items
        ≡ out.old.items ++ spec.append_text mark.now first entries.now) }
{
    if entries.is_empty() {
        return Ok(());
    }
    if entries.len() > MAX_INPUTS as usize {
        return Err(AllocError);
    }
    push_front(mark, first, out)?;
    push_lines(first, entries, out)
}

/// Returns the bytes of entries that are appended together, of which the first has this number.
/// Fails with `AllocError`, also if there are more than a world has.
pub fn append_bytes(
    alloc: Global,
    mark: &[u8; 32],
    first: u64,
    entries: &[Entry],
) -> Result<Vec<u8>, AllocError>
    requires { first ≤ 2 ^ 48 }
    ensures { IfOk result (λ v. v.items ≡ spec.append_text mark.now first entries.now) }
{
    let mut out = Vec::new(alloc);
    push_append(mark, first, entries, &mut out)?;
    Ok(out)
}
