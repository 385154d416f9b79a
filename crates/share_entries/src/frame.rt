//! The payload of entries that were appended together.

ghost use Rattle.std.specs.Prelude.{◌≡◌, ◌+◌, ◌*◌, ◌<◌, ◌≤◌, ◌^◌, ◌++◌, IfOk, IsTrue, List, Ok, OnOk, length};
ghost use Rattle.std.specs.List.{flat_map};
ghost use Rattle.std.specs.Option.{ok_or, option_map};
ghost use Rattle.byte_codec.specs.Codec.{all_fit, many_at};
ghost use Rattle.x3d_lists.specs.Answers.{Gives};
ghost use Rattle.share_entries.specs.declared.frame.FrameFault.TheVariants.{BadEntry, Memory};
ghost use Rattle.share_entries.specs.Entry.{EntryView, entry_codec};
ghost use Rattle.share_entries.specs.Frame.{front_codec, frame_text, frame_fits, entries_of, frame_in};

use crate::chain::{Chain, chain_after};
use crate::entry::Entry;
use crate::reading::entry_of;
use crate::writing::bytes_of;
use byte_codec::{byte_of, u16_of, u64_of};
use std::alloc::{AllocError, AllocFailed, Global};
use x3d_values::push_pieces;

/// The largest number of entries of one frame: they always fit into the 65,535 bytes of a payload.
pub const MAX_ENTRIES: usize = 977;

/// Why a payload isn't the next frame of entries. The checks run in this order, and the first that
/// fails is reported: fewer than 11 bytes; a kind other than 0; another first number than the next;
/// an entry that isn't whole or is out of its range; other bytes after the entries than the chain.
#[derive(Clone, Copy, Debug, PartialEq, Eq)]
pub enum FrameFault {
    Short,
    BadKind,
    BadNumber,
    BadEntry,
    BadChain,
    Memory,
}

impl From<AllocError> for FrameFault {
    ghost from_gives = { λ _ e. e ≡ Memory };

    fn from(_: AllocError) -> Self {
        FrameFault::Memory
    }
}

impl<T: Drop> From<AllocFailed<T>> for FrameFault {
    ghost from_gives = { λ _ e. e ≡ Memory };

    fn from(_: AllocFailed<T>) -> Self {
        FrameFault::Memory
    }
}

#[tactic(auto, unfolding(crate::specs::Frame::front_codec))]
fn front_of(bytes: &[u8]) -> Option<((u8, (u16, u64)), &[u8])>
    ensures { option_map (λ r. (r.0, r.1.now)) result ≡ front_codec.read bytes.now }
{
    let Some((kind, rest)) = byte_of(bytes) else {
        return None;
    };
    let Some((count, rest)) = u16_of(rest) else {
        return None;
    };
    let Some((first, rest)) = u64_of(rest) else {
        return None;
    };
    Some(((kind, (count, first)), rest))
}

/// Reads `count` entries.
fn entries_in(alloc: Global, count: u16, bytes: &[u8]) -> Result<(Vec<Entry>, &[u8]), FrameFault>
    ensures { Gives Memory (λ x. (x.0.items, x.1.now)) result
        (ok_or (many_at entry_codec count bytes.now) BadEntry) }
{
    let mut entries = Vec::new(alloc);
    let mut rest = bytes;
    for _ in 0..count {
        let Some((entry, after)) = entry_of(rest) else {
            return Err(FrameFault::BadEntry);
        };
        entries.push(entry)?;
        rest = after;
    }
    Ok((entries, rest))
}

/// Reads `count` entries and the chain after them.
fn sealed_entries(
    alloc: Global,
    before: &Chain,
    count: u16,
    bytes: &[u8],
) -> Result<Vec<Entry>, FrameFault>
    ensures { Gives Memory (λ v. v.items) result
        (entries_of before.now (many_at entry_codec count bytes.now)) }
{
    let (entries, rest) = entries_in(alloc, count, bytes)?;
    if rest != chain_after(before, &entries).as_slice() {
        return Err(FrameFault::BadChain);
    }
    Ok(entries)
}

#[tactic(auto, unfolding(crate::specs::Frame::frame_in))]
fn frame_in(
    alloc: Global,
    before: &Chain,
    first: u64,
    bytes: &[u8],
) -> Result<Vec<Entry>, FrameFault>
    ensures { Gives Memory (λ v. v.items) result (frame_in before.now first bytes.now) }
{
    let Some(((kind, (count, number)), rest)) = front_of(bytes) else {
        return Err(FrameFault::Short);
    };
    if kind != 0 {
        return Err(FrameFault::BadKind);
    }
    if number != first {
        return Err(FrameFault::BadNumber);
    }
    sealed_entries(alloc, before, count, rest)
}

/// Reads the entries of a payload, of which the first must have this number. The log before it has
/// this chain.
pub fn frame_of(
    alloc: Global,
    before: &Chain,
    first: u64,
    bytes: &[u8],
) -> Result<Vec<Entry>, FrameFault>
    // The entries that were read are in their ranges, and the bytes are their payload.
    ensures found { IfOk result (λ v. (bytes.now ≡ frame_text before.now first v.items)
        × IsTrue (frame_fits first v.items)) }
    // Entries are read from their payload, unless memory is refused.
    ensures only { (entries : List EntryView) → IsTrue (frame_fits first entries)
        → bytes.now ≡ frame_text before.now first entries
        → Gives Memory (λ v. v.items) result (Ok entries) }
    // The exact result, faults included.
    ensures exact { Gives Memory (λ v. v.items) result (frame_in before.now first bytes.now) }
{
    frame_in(alloc, before, first, bytes)
}

fn push_entries(entries: &[Entry], out: &mut Vec<u8>) -> Result<(), AllocError>
    ensures text { OnOk result
        (out.new.items ≡ out.old.items ++ flat_map entry_codec.write entries.now) }
    ensures most { OnOk result
        (length out.new.items ≤ length out.old.items + 67 * length entries.now) }
    ensures fit { OnOk result (IsTrue (all_fit entry_codec entries.now)) }
{
    for entry in entries {
        out.extend_from_slice(bytes_of(entry).as_slice())?;
    }
    Ok(())
}

/// Returns the payload of entries, of which the first has this number, after a log with this
/// chain.
#[tactic(auto, unfolding(crate::specs::Frame::front_codec, byte_codec::specs::Codec::number_text))]
pub fn frame_bytes(
    alloc: Global,
    before: &Chain,
    first: u64,
    entries: &[Entry],
) -> Result<Vec<u8>, AllocError>
    requires { length entries.now ≤ 977 }
    ensures text { IfOk result (λ v. v.items ≡ frame_text before.now first entries.now) }
    // The payload fits into a frame of the log.
    ensures short { IfOk result (λ v. (0 < length v.items) × (length v.items < 2 ^ 16)) }
    // The entries are read from it again.
    ensures again { IfOk result (λ v. frame_in before.now first v.items ≡ Ok entries.now) }
{
    let mut out = Vec::new(alloc);
    let count = entries.len() as u16;
    let pieces: [&[u8]; 3] = [&[0], &count.to_be_bytes(), &first.to_be_bytes()];
    push_pieces(&pieces, &mut out)?;
    push_entries(entries, &mut out)?;
    out.extend_from_slice(&chain_after(before, entries))?;
    Ok(out)
}
