//! Reading the bytes of an append.

ghost use Rattle.std.specs.Prelude.{◌≡◌, ◌≢◌, ◌⊎◌, ◌≤◌, ◌^◌, ◌++◌, List, ℕ, [], IfErr, IfOk, false};
ghost use Rattle.embed_entries.specs.Appends.{append_text};
ghost use Rattle.embed_entries.specs.Appends.{lines_from};
ghost use Rattle.embed_entries.specs.Reading.{begins_with};
ghost use Rattle.embed_logs.specs.Appending.{IsOther, IsOtherAt};
ghost use Rattle.embed_logs.specs.declared.fault.LogFileFault.TheVariants.{Memory, NotEntries};

use crate::fault::LogFileFault;
use embed_entries::{EntriesFault, after_front, entries_from};
use share_entries::Entry;
use std::alloc::Global;

/// Reads entries after their numbers, at least one, of which the first has this number.
fn some_entries(alloc: Global, first: u64, lines: &[u8]) -> Result<Vec<Entry>, LogFileFault>
    requires { first ≤ 2 ^ 48 }
    ensures read { IfOk result (λ v. lines.now ≡ lines_from first v.items) }
    ensures some { IfOk result (λ v. v.items ≢ []) }
    ensures refused { IfErr result (λ fault. (fault ≡ Memory)
        ⊎ ((fault ≡ NotEntries) × IsOther first lines.now)) }
{
    if lines.is_empty() {
        return Err(LogFileFault::NotEntries);
    }
    match entries_from(alloc, first, lines) {
        Ok(entries) => Ok(entries),
        Err(EntriesFault::Gap(_)) => Err(LogFileFault::NotEntries),
        Err(EntriesFault::NotAnEntry(_)) => Err(LogFileFault::NotEntries),
        Err(EntriesFault::Memory) => Err(LogFileFault::Memory),
    }
}

/// Reads the bytes of an append to a log of the scene with this mark. The first entry has this
/// number; no bytes are no entries.
pub(crate) fn entries_in(
    alloc: Global,
    mark: &[u8; 32],
    first: u64,
    bytes: &[u8],
) -> Result<Vec<Entry>, LogFileFault>
    requires { first ≤ 2 ^ 48 }
    ensures read { IfOk result (λ v. bytes.now ≡ append_text mark.now first v.items) }
    ensures refused { IfErr result (λ fault. (fault ≡ Memory)
        ⊎ ((fault ≡ NotEntries) × IsOtherAt mark.now first bytes.now)) }
{
    if bytes.is_empty() {
        return Ok(Vec::new(alloc));
    }
    if first != 1 {
        return some_entries(alloc, first, bytes);
    }
    let Some(lines) = after_front(bytes, mark) else {
        return Err(LogFileFault::NotEntries);
    };
    some_entries(alloc, first, lines)
}
