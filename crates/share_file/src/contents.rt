//! What the frames of a file are, and what is after them.

ghost use Rattle.std.specs.Prelude.{◌≡◌, ◌<◌, ◌^◌, [], IfOk, Ok};
ghost use Rattle.share_entries.specs.Chain.{chain_after};
ghost use Rattle.share_log.specs.Log.{payloads};
ghost use Rattle.share_entries.specs.Start.{start_of};
ghost use Rattle.share_file.specs.Entries.{base_among, behind_base, entries_among, entries_from, first_number, start_among};
ghost use Rattle.share_file.specs.Contents.{IsFound, based, contents_in, ended, ends_well, has_seats, headed};

use crate::fault::OpenFault;
use crate::known::{Known, entries_of};
use crate::starting::{base_among, behind_base, first_number};
use crate::tail::{begins_shut, hides_frame};
use share_entries::{Base, Head, HeadFault, Start, head_of, start_of};
use std::alloc::{AllocError, Global};

/// What a log is to be of.
#[derive(Clone, Copy, PartialEq, Eq)]
pub struct Expected {
    /// The scene's SHA-256.
    pub mark: [u8; 32],
    /// The number of viewers, or any number.
    pub viewers: Option<u8>,
}

/// A log that was found, and the number of bytes after its last gate.
#[derive(Drop)]
pub(crate) struct Contents {
    pub(crate) head: Head,
    pub(crate) base: Option<Base>,
    pub(crate) known: Known,
    pub(crate) cut: u64,
}

fn has_seats(expected: Option<u8>, viewers: u8) -> bool
    ensures { result ≡ has_seats expected viewers }
{
    match expected {
        None => true,
        Some(number) => number == viewers,
    }
}

/// Reports whether the log ends as an append leaves it. Fails if memory is refused.
fn ends_well(alloc: Global, start: &Start, known: &Known, tail: &[u8]) -> Result<bool, AllocError>
    requires low { start.now.below < 2 ^ 48 }
    requires linked { known.now.chain ≡ chain_after start.now.chain known.now.entries.items }
    ensures { IfOk result (λ well. well ≡ ends_well start.now known.now.entries.items tail.now) }
{
    if !begins_shut(tail) {
        return Ok(false);
    }
    let first = start.below + known.entries.len() as u64 + 1;
    let hides = hides_frame(alloc, &known.chain, first, tail)?;
    Ok(!hides)
}

/// Checks the end of a file that has these entries and `number` frames.
fn ended(
    alloc: Global,
    head: Head,
    base: Option<Base>,
    number: u64,
    tail: &[u8],
    known: Known,
) -> Result<Contents, OpenFault>
    requires { known.chain ≡ chain_after (start_of head base).chain known.entries.items }
    ensures found { IsFound (ended head base number tail.now (Ok known.entries.items)) result }
    ensures head { IfOk result (λ x. x.head ≡ head) }
    ensures base { IfOk result (λ x. x.base ≡ base) }
    ensures known { IfOk result (λ x. x.known ≡ known) }
{
    let start = start_of(&head, &base);
    if !ends_well(alloc, &start, &known, tail)? {
        return Err(OpenFault::LogDamaged(number));
    }
    let cut = (tail.len() as u64).saturating_sub(1);
    Ok(Contents {
        head,
        base,
        known,
        cut,
    })
}

/// Reads the frames after the head and the base, and checks the end of the file.
fn of_frames(
    alloc: Global,
    head: Head,
    base: Option<Base>,
    frames: &[Vec<u8>],
    tail: &[u8],
) -> Result<Contents, OpenFault>
    ensures found { IsFound (based head (payloads frames.now) tail.now (Ok base)) result }
    ensures head { IfOk result (λ x. x.head ≡ head) }
    ensures base { IfOk result (λ x. x.base ≡ base) }
    ensures reads { IfOk result (λ x. entries_from (start_of x.head x.base) []
        (first_number (payloads frames.now)) (behind_base (payloads frames.now))
        ≡ Ok x.known.entries.items) }
    ensures chain { IfOk result (λ x. x.known.chain
        ≡ chain_after (start_of x.head x.base).chain x.known.entries.items) }
{
    let start = start_of(&head, &base);
    let first = first_number(frames);
    let number = frames.len() as u64 + 1;
    match entries_of(alloc, &start, first, behind_base(frames)) {
        Ok(known) => ended(alloc, head, base, number, tail, known),
        Err(fault) => Err(fault),
    }
}

/// Finds the base of the frames after the head, and the log.
fn based(alloc: Global, head: Head, frames: &[Vec<u8>], tail: &[u8]) -> Result<Contents, OpenFault>
    ensures found { IsFound (based head (payloads frames.now) tail.now
        (base_among head (payloads frames.now))) result }
    ensures head { IfOk result (λ x. x.head ≡ head) }
    ensures base { IfOk result (λ x. base_among x.head (payloads frames.now) ≡ Ok x.base) }
    ensures reads { IfOk result (λ x. entries_from (start_of x.head x.base) []
        (first_number (payloads frames.now)) (behind_base (payloads frames.now))
        ≡ Ok x.known.entries.items) }
    ensures chain { IfOk result (λ x. x.known.chain
        ≡ chain_after (start_of x.head x.base).chain x.known.entries.items) }
{
    match base_among(&head, frames) {
        Ok(base) => of_frames(alloc, head, base, frames, tail),
        Err(number) => Err(OpenFault::LogDamaged(number)),
    }
}

/// Finds the log of this head and of the frames after it.
fn headed(
    alloc: Global,
    expected: &Expected,
    head: Head,
    frames: &[Vec<u8>],
    tail: &[u8],
) -> Result<Contents, OpenFault>
    ensures found { IsFound (headed expected.now (payloads frames.now) tail.now head) result }
    ensures head { IfOk result (λ x. x.head ≡ head) }
    ensures base { IfOk result (λ x. base_among x.head (payloads frames.now) ≡ Ok x.base) }
    ensures reads { IfOk result (λ x. entries_from (start_of x.head x.base) []
        (first_number (payloads frames.now)) (behind_base (payloads frames.now))
        ≡ Ok x.known.entries.items) }
    ensures chain { IfOk result (λ x. x.known.chain
        ≡ chain_after (start_of x.head x.base).chain x.known.entries.items) }
{
    if head.mark.as_slice() != expected.mark.as_slice() {
        return Err(OpenFault::WrongScene);
    }
    if !has_seats(expected.viewers, head.viewers) {
        return Err(OpenFault::WrongSeats);
    }
    based(alloc, head, frames, tail)
}

/// Finds the log of these frames and of the bytes after them. Returns the first fault if they are
/// not a log.
pub(crate) fn contents_in(
    alloc: Global,
    expected: &Expected,
    frames: &[Vec<u8>],
    tail: &[u8],
) -> Result<Contents, OpenFault>
    ensures found { IsFound (contents_in expected.now (payloads frames.now) tail.now) result }
    ensures reads { IfOk result (λ x. entries_among (start_of x.head x.base) (payloads frames.now)
        ≡ Ok x.known.entries.items) }
    ensures named { IfOk result (λ x. start_among (payloads frames.now)
        ≡ Ok (start_of x.head x.base)) }
    ensures chain { IfOk result (λ x. x.known.chain
        ≡ chain_after (start_of x.head x.base).chain x.known.entries.items) }
{
    let [first, others @ ..] = frames else {
        return Err(OpenFault::BadHead(HeadFault::Short));
    };
    match head_of(first) {
        Ok(head) => headed(alloc, expected, head, others, tail),
        Err(fault) => Err(OpenFault::BadHead(fault)),
    }
}
