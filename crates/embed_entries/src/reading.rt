//! Reading entries after their numbers.

ghost use Rattle.std.specs.Prelude.{◌≡◌, ◌≤◌, ◌^◌, ◌++◌, None, IfErr, IfOk, IfSome, false};
ghost use Rattle.std.specs.Int.{w64};
ghost use Rattle.byte_codec.specs.Codec.{number_text};
ghost use Rattle.embed_entries.specs.Appends.{lines_from};
ghost use Rattle.embed_entries.specs.Reading as spec;

use byte_codec::chunk_of;
use share_entries::{Entry, entry_of};
use std::alloc::Global;
use std::fmt;
use thiserror::Error;
use x3d_values::MAX_INPUTS;

/// Why bytes aren't entries after their numbers. Each has which entry it is, counted from 1 in
/// these bytes.
#[derive(Clone, Copy, Debug, PartialEq, Eq, Error)]
pub enum EntriesFault {
    #[error("where entry {0} should be is another number")]
    Gap(u64),
    #[error("entry {0} is none, or one more than a world has")]
    NotAnEntry(u64),
    #[error("memory was refused")]
    Memory,
}

/// Returns the bytes after `front`, or `None` if they don't begin with it.
pub fn after_front<'a>(bytes: &'a [u8], front: &[u8]) -> Option<&'a [u8]>
    ensures found { IfSome result (λ rest. bytes.now ≡ front.now ++ rest.now) }
    ensures missing { result ≡ None → spec.begins_with front.now bytes.now ≡ false }
{
    let Some((head, rest)) = chunk_of(bytes, front.len()) else {
        return None;
    };
    if head == front {
        return Some(rest);
    }
    None
}

/// Returns the bytes after the number of an entry.
#[tactic(auto, unfolding(byte_codec::specs::Codec::number_text))]
fn after_number(bytes: &[u8], number: u64) -> Option<&[u8]>
    ensures found { IfSome result (λ rest. bytes.now ≡ number_text w64 number ++ rest.now) }
    ensures missing { result ≡ None
        → spec.begins_with (number_text w64 number) bytes.now ≡ false }
{
    after_front(bytes, &number.to_be_bytes())
}

/// Reads all of the bytes as entries after their numbers, from `first` on, at most 2^48 - 1 of them.
/// Fails with the first wrong entry, or `Memory`.
pub fn entries_from(alloc: Global, first: u64, bytes: &[u8]) -> Result<Vec<Entry>, EntriesFault>
    requires { first ≤ 2 ^ 48 }
    ensures read { IfOk result (λ v. bytes.now ≡ lines_from first v.items) }
    ensures why { IfErr result (λ fault. spec.WhyNoEntries first bytes.now fault) }
{
    let mut entries = Vec::new(alloc);
    let mut rest = bytes;
    for number in 0..MAX_INPUTS {
        if rest.is_empty() {
            return Ok(entries);
        }
        let Some(line) = after_number(rest, first + number) else {
            return Err(EntriesFault::Gap(number + 1));
        };
        let Some((entry, behind)) = entry_of(line) else {
            return Err(EntriesFault::NotAnEntry(number + 1));
        };
        let Ok(()) = entries.push(entry) else {
            return Err(EntriesFault::Memory);
        };
        rest = behind;
    }
    if rest.is_empty() {
        return Ok(entries);
    }
    Err(EntriesFault::NotAnEntry(MAX_INPUTS + 1))
}
