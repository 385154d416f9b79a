//! The pairs of keys and values that an answer has.

ghost use Rattle.std.specs.Prelude.{◌≡◌, ◌∷◌, Some, map};
ghost use Rattle.std.specs.Option.{option_map, ok_or};
ghost use Rattle.x3d_lists.specs.Answers.{Gives};
ghost use Rattle.serde_json.specs.View.{view};
ghost use Rattle.share_etcd.specs.declared.fault.AnswerFault.TheVariants.{Malformed, Memory};
ghost use Rattle.share_etcd.specs.Contents as spec;
ghost use Rattle.share_etcd.specs.Views.{pair_view, value_view};

use crate::fault::AnswerFault;
use crate::outcome::revision_at;
use base64::DecodeAllocError;
use base64::engine::general_purpose::STANDARD;
use serde_json::Value;
use std::alloc::Global;

/// A key and its value.
#[derive(Drop)]
pub(crate) struct Pair {
    pub(crate) key: Vec<u8>,
    pub(crate) value: Vec<u8>,
    /// The revision at which it was last changed.
    pub(crate) revision: u64,
}

/// The value of a key, and the revision at which it was last changed.
#[derive(Drop)]
pub(crate) struct Held {
    pub(crate) bytes: Vec<u8>,
    pub(crate) revision: u64,
}

fn bytes_of(alloc: Global, text: &[u8]) -> Result<Vec<u8>, AnswerFault>
    ensures { Gives Memory (λ v. v.items) result (ok_or (spec.bytes_of text.now) Malformed) }
{
    match STANDARD.decode(alloc, text) {
        Ok(bytes) => Ok(bytes),
        Err(DecodeAllocError::OutOfMemory) => Err(AnswerFault::Memory),
        Err(_) => Err(AnswerFault::Malformed),
    }
}

/// Returns the bytes that a member has in base64.
fn bytes_at(alloc: Global, value: &Value, name: &str) -> Result<Vec<u8>, AnswerFault>
    ensures { Gives Memory (λ v. v.items) result
        (ok_or (spec.bytes_at name.now (view value.now)) Malformed) }
{
    let Some(member) = value.get(name) else {
        return Err(AnswerFault::Malformed);
    };
    let Some(text) = member.as_str() else {
        return Err(AnswerFault::Malformed);
    };
    bytes_of(alloc, text.as_bytes())
}

/// Returns a key and its value.
pub(crate) fn pair_in(alloc: Global, value: &Value) -> Result<Pair, AnswerFault>
    ensures { Gives Memory pair_view result (ok_or (spec.pair_in (view value.now)) Malformed) }
{
    let key = bytes_at(alloc, value, "key")?;
    let bytes = bytes_at(alloc, value, "value")?;
    let Some(revision) = revision_at(value, "mod_revision") else {
        return Err(AnswerFault::Malformed);
    };
    Ok(Pair {
        key,
        value: bytes,
        revision,
    })
}

fn listed(pairs: Option<&Value>) -> Option<&[Value]>
    ensures { option_map (λ vs. map view vs.now) result
        ≡ spec.listed (option_map (λ v. view v.now) pairs.entry) }
{
    match pairs {
        None => Some(&[]),
        Some(pairs) => match pairs.as_array() {
            Some(pairs) => Some(pairs.as_slice()),
            None => None,
        },
    }
}

fn pairs_in(range: &Value) -> Option<&[Value]>
    ensures { option_map (λ vs. map view vs.now) result ≡ spec.pairs_in (view range.now) }
{
    if range.is_object() {
        listed(range.get("kvs"))
    } else {
        None
    }
}

/// Returns the pairs of the range that answers the request at this place.
pub(crate) fn pairs_at(answer: &Value, place: usize) -> Option<&[Value]>
    ensures { option_map (λ vs. map view vs.now) result
        ≡ spec.pairs_at place (view answer.now) }
{
    let Some(responses) = answer.get("responses") else {
        return None;
    };
    let Some(response) = responses.get(place) else {
        return None;
    };
    let Some(range) = response.get("response_range") else {
        return None;
    };
    pairs_in(range)
}

fn value_under(pair: Pair, key: &[u8]) -> Result<Held, AnswerFault>
    ensures { Gives Memory value_view result
        (ok_or (spec.value_under key.now (Some (pair_view pair))) Malformed) }
{
    if pair.key.as_slice() == key {
        Ok(Held {
            bytes: pair.value,
            revision: pair.revision,
        })
    } else {
        Err(AnswerFault::Malformed)
    }
}

/// Returns the value of a pair that must have this key.
fn held_in(alloc: Global, key: &[u8], value: &Value) -> Result<Held, AnswerFault>
    ensures { Gives Memory value_view result
        (ok_or (spec.value_under key.now (spec.pair_in (view value.now))) Malformed) }
{
    let pair = pair_in(alloc, value)?;
    value_under(pair, key)
}

/// Returns the value of the first pair, if there are no others.
fn alone(
    alloc: Global,
    key: &[u8],
    pair: &Value,
    others: &[Value],
) -> Result<Option<Held>, AnswerFault>
    ensures { Gives Memory (option_map value_view) result
        (ok_or (spec.single key.now (Some (view pair.now ∷ map view others.now))) Malformed) }
{
    match others {
        [] => Ok(Some(held_in(alloc, key, pair)?)),
        [_, ..] => Err(AnswerFault::Malformed),
    }
}

fn single_in(alloc: Global, key: &[u8], pairs: &[Value]) -> Result<Option<Held>, AnswerFault>
    ensures { Gives Memory (option_map value_view) result
        (ok_or (spec.single key.now (Some (map view pairs.now))) Malformed) }
{
    match pairs {
        [] => Ok(None),
        [pair, others @ ..] => alone(alloc, key, pair, others),
    }
}

/// Returns what a range of this key alone has: nothing, or its value.
pub(crate) fn single(
    alloc: Global,
    key: &[u8],
    pairs: Option<&[Value]>,
) -> Result<Option<Held>, AnswerFault>
    ensures { Gives Memory (option_map value_view) result
        (ok_or (spec.single key.now (option_map (λ vs. map view vs.now) pairs.entry)) Malformed) }
{
    let Some(pairs) = pairs else {
        return Err(AnswerFault::Malformed);
    };
    single_in(alloc, key, pairs)
}
