//! What an answer to a reading says of a world.

ghost use Rattle.std.specs.Prelude.{◌≡◌, List, Some, map};
ghost use Rattle.std.specs.Option.{ok_or, option_map};
ghost use Rattle.x3d_lists.specs.Answers.{Gives};
ghost use Rattle.serde_json.specs.View.{view};
ghost use Rattle.share_etcd.specs.declared.fault.AnswerFault.TheVariants.{Malformed, Memory};
ghost use Rattle.share_etcd.specs.Answers.{document};
ghost use Rattle.share_etcd.specs.Keys.{text_of, head_key, tail_key, log_front};
ghost use Rattle.share_etcd.specs.Numerals.{number_of as spec_number_of};
ghost use Rattle.share_etcd.specs.Contents as spec;
ghost use Rattle.share_etcd.specs.Views.{value_view, frame_view, contents_view};

use crate::fault::AnswerFault;
use crate::frames::{Frame, log_by};
use crate::keys::{head_key, log_front, tail_key};
use crate::numerals::number_of;
use crate::outcome::{Outcome, document, outcome_in};
use crate::pairs::{Held, pairs_at, single};
use serde_json::Value;
use share_session::WorldName;
use std::alloc::Global;

/// What the keys of a world had at one moment.
#[derive(Drop)]
pub struct Contents {
    /// The value of the head: `head_of` of share_entries reads it, and finds its faults.
    pub head: Vec<u8>,
    /// The revision at which the head was last changed, 1 to 2^63 - 1.
    pub head_revision: u64,
    /// The number of the log's last entry, 0 if it has none.
    pub tail: u64,
    /// The revision at which the tail was last changed, 1 to 2^63 - 1.
    pub tail_revision: u64,
    /// The log's frames from the number on that was asked for, up to 64. Their numbers rise.
    pub frames: Vec<Frame>,
}

fn contents_with(head: Held, tail: Held, frames: Vec<Frame>) -> Result<Contents, AnswerFault>
    ensures { Gives Memory contents_view result
        (ok_or (spec.contents_with (value_view head) (value_view tail) (map frame_view frames.items)
        (spec_number_of tail.bytes.items)) Malformed) }
{
    match number_of(&tail.bytes) {
        Some(number) => Ok(Contents {
            head: head.bytes,
            head_revision: head.revision,
            tail: number,
            tail_revision: tail.revision,
            frames,
        }),
        None => Err(AnswerFault::Malformed),
    }
}

fn contents_by(
    head: Option<Held>,
    tail: Option<Held>,
    frames: Vec<Frame>,
) -> Result<Option<Contents>, AnswerFault>
    ensures { Gives Memory (option_map contents_view) result
        (ok_or (spec.contents_by (option_map value_view head) (option_map value_view tail)
        (map frame_view frames.items)) Malformed) }
{
    match (head, tail) {
        (Some(head), Some(tail)) => Ok(Some(contents_with(head, tail, frames)?)),
        (None, None) => {
            if frames.is_empty() {
                Ok(None)
            } else {
                Err(AnswerFault::Malformed)
            }
        }
        _ => Err(AnswerFault::Malformed),
    }
}

fn head_in(alloc: Global, name: &WorldName, answer: &Value) -> Result<Option<Held>, AnswerFault>
    ensures { Gives Memory (option_map value_view) result
        (ok_or (spec.single (head_key (text_of name.now)) (spec.pairs_at 0 (view answer.now)))
        Malformed) }
{
    let key = head_key(alloc, name)?;
    single(alloc, key.as_slice(), pairs_at(answer, 0))
}

fn tail_in(alloc: Global, name: &WorldName, answer: &Value) -> Result<Option<Held>, AnswerFault>
    ensures { Gives Memory (option_map value_view) result
        (ok_or (spec.single (tail_key (text_of name.now)) (spec.pairs_at 1 (view answer.now)))
        Malformed) }
{
    let key = tail_key(alloc, name)?;
    single(alloc, key.as_slice(), pairs_at(answer, 1))
}

fn log_in(
    alloc: Global,
    name: &WorldName,
    from: u64,
    place: usize,
    answer: &Value,
) -> Result<Vec<Frame>, AnswerFault>
    ensures { Gives Memory (λ v. map frame_view v.items) result
        (ok_or (spec.log_by (log_front (text_of name.now)) from (spec.pairs_at place (view answer.now)))
        Malformed) }
{
    let front = log_front(alloc, name)?;
    log_by(alloc, front.as_slice(), from, pairs_at(answer, place))
}

/// Returns a world's head, its tail and its frames from this number on, which answer the request at
/// this place.
pub(crate) fn contents_over(
    alloc: Global,
    name: &WorldName,
    from: u64,
    place: usize,
    answer: &Value,
) -> Result<Option<Contents>, AnswerFault>
    ensures { Gives Memory (option_map contents_view) result
        (ok_or (spec.contents_over
        (spec.single (head_key (text_of name.now)) (spec.pairs_at 0 (view answer.now)))
        (spec.single (tail_key (text_of name.now)) (spec.pairs_at 1 (view answer.now)))
        (spec.log_by (log_front (text_of name.now)) from (spec.pairs_at place (view answer.now))))
        Malformed) }
{
    let head = head_in(alloc, name, answer)?;
    let tail = tail_in(alloc, name, answer)?;
    let frames = log_in(alloc, name, from, place, answer)?;
    contents_by(head, tail, frames)
}

fn contents_in(
    alloc: Global,
    name: &WorldName,
    from: u64,
    answer: &Value,
) -> Result<Option<Contents>, AnswerFault>
    ensures { Gives Memory (option_map contents_view) result
        (ok_or (spec.contents_in (text_of name.now) from (view answer.now)) Malformed) }
{
    match outcome_in(answer) {
        Outcome::Stored { revision: _ } => contents_over(alloc, name, from, 2, answer),
        Outcome::Refused => Err(AnswerFault::Malformed),
        Outcome::Malformed => Err(AnswerFault::Malformed),
    }
}

/// Reads what an answer to `reading_bytes` says of a world's log from this number on: `None`, if it
/// has neither head nor tail nor frames. A head without a tail, a key of another world, a number
/// that isn't above the one before and whatever else no host puts there is `Malformed`. Fails with
/// `Memory` if memory is refused.
pub fn contents_of(
    alloc: Global,
    name: &WorldName,
    from: u64,
    body: &[u8],
) -> Result<Option<Contents>, AnswerFault>
    ensures { Gives Memory (option_map contents_view) result
        (ok_or (spec.contents_of (text_of name.now) from (document body.now)) Malformed) }
{
    let Some(answer) = document(alloc, body)? else {
        return Err(AnswerFault::Malformed);
    };
    let contents = contents_in(alloc, name, from, &answer);
    drop(answer);
    contents
}
