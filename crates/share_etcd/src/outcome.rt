//! Whether a transaction was done.

ghost use Rattle.std.specs.Prelude.{◌≡◌, IfOk, Option};
ghost use Rattle.std.specs.Option.{option_map};
ghost use Rattle.serde_json.specs.Data.{Data};
ghost use Rattle.serde_json.specs.View.{view};
ghost use Rattle.share_etcd.specs.Answers as spec;

use crate::numerals::revision_of;
use serde_json::Value;
use std::alloc::{AllocError, Global};

/// What the answer to a making or an append says.
#[derive(Clone, Copy, Debug, PartialEq, Eq)]
pub enum Outcome {
    /// It was done, and the store's revision is this (1 to 2^63 - 1): that at which the keys that
    /// were put were last changed.
    Stored { revision: u64 },
    /// Nothing was done: a compare didn't hold.
    Refused,
    /// It isn't what etcd answers to a transaction. Whether it was done is in doubt.
    Malformed,
}

/// Returns the JSON that a body is.
pub(crate) fn document(alloc: Global, body: &[u8]) -> Result<Option<Value>, AllocError>
    ensures { IfOk result (λ o. option_map view o ≡ spec.document body.now) }
{
    match Value::from_slice(alloc, body) {
        Ok(value) => Ok(Some(value)),
        Err(error) => {
            if error.is_memory() {
                Err(AllocError)
            } else {
                Ok(None)
            }
        }
    }
}

/// Returns the revision that a member names.
pub(crate) fn revision_at(value: &Value, name: &str) -> Option<u64>
    ensures { result ≡ spec.revision_at name.now (view value.now) }
{
    let Some(member) = value.get(name) else {
        return None;
    };
    let Some(text) = member.as_str() else {
        return None;
    };
    revision_of(text)
}

fn store_revision(value: &Value) -> Option<u64>
    ensures { result ≡ spec.store_revision (view value.now) }
{
    let Some(header) = value.get("header") else {
        return None;
    };
    revision_at(header, "revision")
}

fn succeeded(value: &Value) -> Option<bool>
    ensures { result ≡ spec.succeeded (view value.now) }
{
    match value.get("succeeded") {
        Some(said) => said.as_bool(),
        None => Some(false),
    }
}

fn outcome_by(done: Option<bool>, revision: Option<u64>) -> Outcome
    ensures { result ≡ spec.outcome_by done revision }
{
    let Some(done) = done else {
        return Outcome::Malformed;
    };
    let Some(revision) = revision else {
        return Outcome::Malformed;
    };
    if done {
        Outcome::Stored { revision }
    } else {
        Outcome::Refused
    }
}

/// Returns what the JSON of an answer says.
pub(crate) fn outcome_in(value: &Value) -> Outcome
    ensures { result ≡ spec.outcome_by (spec.succeeded (view value.now))
        (spec.store_revision (view value.now)) }
{
    outcome_by(succeeded(value), store_revision(value))
}

/// Returns what the answer to a making or an append says. Fails if memory is refused.
pub fn outcome_of(alloc: Global, body: &[u8]) -> Result<Outcome, AllocError>
    ensures { IfOk result (λ o. o ≡ spec.outcome_of (spec.document body.now)) }
{
    let Some(value) = document(alloc, body)? else {
        return Ok(Outcome::Malformed);
    };
    let outcome = outcome_in(&value);
    drop(value);
    Ok(outcome)
}

/// No answer is `Stored` but one that says that it succeeded.
pub fn stored_is_said()
    ensures { spec.StoredIsSaid }
{}
