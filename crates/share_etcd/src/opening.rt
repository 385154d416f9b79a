//! What an answer says of a world that is opened.

ghost use Rattle.std.specs.Prelude.{Some};
ghost use Rattle.std.specs.Option.{ok_or, option_map};
ghost use Rattle.x3d_lists.specs.Answers.{Gives};
ghost use Rattle.serde_json.specs.View.{view};
ghost use Rattle.share_etcd.specs.declared.fault.AnswerFault.TheVariants.{Malformed, Memory};
ghost use Rattle.share_etcd.specs.Answers.{document};
ghost use Rattle.share_etcd.specs.Keys.{text_of, head_key, tail_key, base_key, snapshot_key, log_front};
ghost use Rattle.share_etcd.specs.Contents as spec;
ghost use Rattle.share_etcd.specs.Views.{value_view, contents_view, based_view, opening_view};

use crate::contents::{Contents, contents_over};
use crate::fault::AnswerFault;
use crate::keys::{base_key, snapshot_key};
use crate::outcome::{Outcome, document, outcome_in};
use crate::pairs::{Held, pairs_at, single};
use serde_json::Value;
use share_session::WorldName;
use std::alloc::Global;

/// What stands for the first entries of a log.
#[derive(Drop)]
pub struct Based {
    /// The value of the base: `base_of` of share_entries reads it.
    pub base: Vec<u8>,
    /// The snapshot of the world at the base. The base names its SHA-256.
    pub snapshot: Vec<u8>,
}

/// What the keys of a world had as it was opened.
#[derive(Drop)]
pub struct Opening {
    /// `None`: the log has all its entries.
    pub based: Option<Based>,
    /// Head, tail and the first frames that are there, up to 64.
    pub contents: Contents,
}

/// Returns a base with its snapshot, or neither.
fn based_by(base: Option<Held>, snapshot: Option<Held>) -> Result<Option<Based>, AnswerFault>
    ensures { Gives Memory (option_map based_view) result
        (ok_or (spec.based_by (option_map value_view base) (option_map value_view snapshot))
        Malformed) }
{
    match (base, snapshot) {
        (Some(base), Some(snapshot)) => Ok(Some(Based {
            base: base.bytes,
            snapshot: snapshot.bytes,
        })),
        (None, None) => Ok(None),
        _ => Err(AnswerFault::Malformed),
    }
}

fn base_in(alloc: Global, name: &WorldName, answer: &Value) -> Result<Option<Held>, AnswerFault>
    ensures { Gives Memory (option_map value_view) result
        (ok_or (spec.single (base_key (text_of name.now)) (spec.pairs_at 2 (view answer.now)))
        Malformed) }
{
    let key = base_key(alloc, name)?;
    single(alloc, key.as_slice(), pairs_at(answer, 2))
}

fn snapshot_in(alloc: Global, name: &WorldName, answer: &Value) -> Result<Option<Held>, AnswerFault>
    ensures { Gives Memory (option_map value_view) result
        (ok_or (spec.single (snapshot_key (text_of name.now)) (spec.pairs_at 3 (view answer.now)))
        Malformed) }
{
    let key = snapshot_key(alloc, name)?;
    single(alloc, key.as_slice(), pairs_at(answer, 3))
}

fn based_over(alloc: Global, name: &WorldName, answer: &Value) -> Result<Option<Based>, AnswerFault>
    ensures { Gives Memory (option_map based_view) result
        (ok_or (spec.based_over
        (spec.single (base_key (text_of name.now)) (spec.pairs_at 2 (view answer.now)))
        (spec.single (snapshot_key (text_of name.now)) (spec.pairs_at 3 (view answer.now))))
        Malformed) }
{
    let base = base_in(alloc, name, answer)?;
    let snapshot = snapshot_in(alloc, name, answer)?;
    based_by(base, snapshot)
}

/// Returns what was read of a world. Only one that is there has a base.
fn opening_by(
    contents: Option<Contents>,
    based: Option<Based>,
) -> Result<Option<Opening>, AnswerFault>
    ensures { Gives Memory (option_map opening_view) result
        (ok_or (spec.opening_by (Some (option_map contents_view contents))
        (Some (option_map based_view based))) Malformed) }
{
    match contents {
        Some(contents) => Ok(Some(Opening { based, contents })),
        None => match based {
            Some(_) => Err(AnswerFault::Malformed),
            None => Ok(None),
        },
    }
}

fn opening_over(
    alloc: Global,
    name: &WorldName,
    answer: &Value,
) -> Result<Option<Opening>, AnswerFault>
    ensures { Gives Memory (option_map opening_view) result
        (ok_or (spec.opening_by
        (spec.contents_over
        (spec.single (head_key (text_of name.now)) (spec.pairs_at 0 (view answer.now)))
        (spec.single (tail_key (text_of name.now)) (spec.pairs_at 1 (view answer.now)))
        (spec.log_by (log_front (text_of name.now)) 1 (spec.pairs_at 4 (view answer.now))))
        (spec.based_over
        (spec.single (base_key (text_of name.now)) (spec.pairs_at 2 (view answer.now)))
        (spec.single (snapshot_key (text_of name.now)) (spec.pairs_at 3 (view answer.now)))))
        Malformed) }
{
    let contents = contents_over(alloc, name, 1, 4, answer)?;
    let based = based_over(alloc, name, answer)?;
    opening_by(contents, based)
}

fn opening_in(
    alloc: Global,
    name: &WorldName,
    answer: &Value,
) -> Result<Option<Opening>, AnswerFault>
    ensures { Gives Memory (option_map opening_view) result
        (ok_or (spec.opening_in (text_of name.now) (view answer.now)) Malformed) }
{
    match outcome_in(answer) {
        Outcome::Stored { revision: _ } => opening_over(alloc, name, answer),
        Outcome::Refused => Err(AnswerFault::Malformed),
        Outcome::Malformed => Err(AnswerFault::Malformed),
    }
}

/// Reads what an answer to `opening_bytes` says of a world: `None`, if it has none of head, tail,
/// base, snapshot and frames. A base without a snapshot, a snapshot without a base, a base without
/// a head, and whatever `contents_of` doesn't read is `Malformed`. Fails with `Memory` if memory is
/// refused.
pub fn opening_of(
    alloc: Global,
    name: &WorldName,
    body: &[u8],
) -> Result<Option<Opening>, AnswerFault>
    ensures { Gives Memory (option_map opening_view) result
        (ok_or (spec.opening_of (text_of name.now) (document body.now)) Malformed) }
{
    let Some(answer) = document(alloc, body)? else {
        return Err(AnswerFault::Malformed);
    };
    let opening = opening_in(alloc, name, &answer);
    drop(answer);
    opening
}
