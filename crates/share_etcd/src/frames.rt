//! The frames that an answer has.

ghost use Rattle.std.specs.Prelude.{◌≡◌, List, Some, map};
ghost use Rattle.std.specs.Option.{option_map, ok_or};
ghost use Rattle.x3d_lists.specs.Answers.{Gives};
ghost use Rattle.serde_json.specs.View.{view};
ghost use Rattle.share_etcd.specs.declared.fault.AnswerFault.TheVariants.{Malformed, Memory};
ghost use Rattle.share_etcd.specs.Contents as spec;
ghost use Rattle.share_etcd.specs.Views.{pair_view, frame_view};

use crate::fault::AnswerFault;
use crate::numerals::number_of;
use crate::pairs::{Pair, pair_in};
use serde_json::Value;
use std::alloc::Global;

/// Entries that were appended together.
#[derive(Drop)]
pub struct Frame {
    /// The number of its first entry, as its key has it: at least the one asked for.
    pub first: u64,
    /// Its payload: `frame_of` of share_entries reads it.
    pub bytes: Vec<u8>,
}

/// Returns the number in the key of a frame.
fn first_in(front: &[u8], key: &[u8]) -> Option<u64>
    ensures { result ≡ spec.first_in front.now key.now }
{
    if key.len() < front.len() {
        return None;
    }
    let (start, digits) = key.split_at(front.len());
    if start == front {
        number_of(digits)
    } else {
        None
    }
}

fn frame_by(front: &[u8], pair: Pair) -> Result<Frame, AnswerFault>
    ensures { Gives Memory frame_view result
        (ok_or (spec.frame_by front.now (Some (pair_view pair))) Malformed) }
{
    match first_in(front, &pair.key) {
        Some(first) => Ok(Frame {
            first,
            bytes: pair.value,
        }),
        None => Err(AnswerFault::Malformed),
    }
}

fn frame_in(alloc: Global, front: &[u8], value: &Value) -> Result<Frame, AnswerFault>
    ensures { Gives Memory frame_view result
        (ok_or (spec.frame_by front.now (spec.pair_in (view value.now))) Malformed) }
{
    let pair = pair_in(alloc, value)?;
    frame_by(front, pair)
}

/// Reads a frame of each pair.
fn frames_in(alloc: Global, front: &[u8], pairs: &[Value]) -> Result<Vec<Frame>, AnswerFault>
    ensures { Gives Memory (λ v. map frame_view v.items) result
        (ok_or (spec.frames_in front.now (map view pairs.now)) Malformed) }
{
    let mut frames = Vec::new(alloc);
    for pair in pairs {
        let frame = frame_in(alloc, front, pair)?;
        frames.push(frame)?;
    }
    Ok(frames)
}

fn rises_after(before: u64, frames: &[Frame]) -> bool
    ensures { result ≡ spec.rises_after before (map frame_view frames.now) }
{
    let mut last = before;
    for frame in frames {
        if frame.first <= last {
            return false;
        }
        last = frame.first;
    }
    true
}

fn rises_from(from: u64, frames: &[Frame]) -> bool
    ensures { result ≡ spec.rises_from from (map frame_view frames.now) }
{
    match frames {
        [] => true,
        [first, others @ ..] => from <= first.first && rises_after(first.first, others),
    }
}

fn in_order(from: u64, frames: Vec<Frame>) -> Result<Vec<Frame>, AnswerFault>
    ensures { Gives Memory (λ v. map frame_view v.items) result
        (ok_or (spec.in_order from (Some (map frame_view frames.items))) Malformed) }
{
    if rises_from(from, &frames) {
        Ok(frames)
    } else {
        Err(AnswerFault::Malformed)
    }
}

/// Returns the frames of a range of the log from this number on.
pub(crate) fn log_by(
    alloc: Global,
    front: &[u8],
    from: u64,
    pairs: Option<&[Value]>,
) -> Result<Vec<Frame>, AnswerFault>
    ensures { Gives Memory (λ v. map frame_view v.items) result
        (ok_or (spec.log_by front.now from (option_map (λ vs. map view vs.now) pairs.entry))
        Malformed) }
{
    let Some(pairs) = pairs else {
        return Err(AnswerFault::Malformed);
    };
    let frames = frames_in(alloc, front, pairs)?;
    in_order(from, frames)
}
