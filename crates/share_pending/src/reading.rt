//! Entries as bytes, one after another.

ghost use Rattle.std.specs.Prelude.{◌≡◌, ◌++◌, IfErr, IfOk, OnOk};
ghost use Rattle.share_pending.specs.Reading.{WhyUnread, text_of};

use share_entries::{Entry, bytes_of, entry_of};
use share_logged::ResumeFault;
use std::alloc::{AllocError, Global};
use x3d_values::MAX_INPUTS;

/// Reads all of the bytes as entries, one after another.
///
/// Fails with `NotALog` and the number of the first entry that isn't whole, or is out of its range,
/// or is one too many for a world; or with `Memory`.
pub fn entries_of(alloc: Global, bytes: &[u8]) -> Result<Vec<Entry>, ResumeFault>
    ensures read { IfOk result (λ v. bytes.now ≡ text_of v.items) }
    ensures why { IfErr result (λ fault. WhyUnread bytes.now fault) }
{
    let mut entries = Vec::new(alloc);
    let mut rest = bytes;
    for number in 0..MAX_INPUTS {
        if rest.is_empty() {
            return Ok(entries);
        }
        let Some((entry, after)) = entry_of(rest) else {
            return Err(ResumeFault::NotALog(number + 1));
        };
        let Ok(()) = entries.push(entry) else {
            return Err(ResumeFault::Memory);
        };
        rest = after;
    }
    if rest.is_empty() {
        return Ok(entries);
    }
    Err(ResumeFault::NotALog(MAX_INPUTS + 1))
}

/// Returns the bytes of entries, one after another.
pub fn bytes_of_all(alloc: Global, entries: &[Entry]) -> Result<Vec<u8>, AllocError>
    ensures { IfOk result (λ v. v.items ≡ text_of entries.now) }
{
    let mut bytes = Vec::new(alloc);
    for entry in entries {
        bytes.extend_from_slice(bytes_of(entry).as_slice())?;
    }
    Ok(bytes)
}
