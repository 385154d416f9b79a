//! Which worlds have changed in etcd: the revisions of the tails of many worlds by one transaction.
//!
//! What it says is taken as a hint: a world that it names is read, by share_engine.

use base64::engine::general_purpose::STANDARD;
use serde_json::Value;
use share_engine::Engine;
use share_etcd::tail_key;
use share_session::WorldName;
use std::alloc::{AllocError, Global};

/// How many worlds are asked for by one transaction, at most: etcd allows for 128 operations.
pub const MOST_TAILS: usize = 100;

/// Appends an operation: the key of the tail of a world is read, without its value.
fn push_tail(alloc: Global, name: &WorldName, body: &mut Vec<u8>) -> Result<(), AllocError> {
    let key = tail_key(alloc, name)?;
    let key = STANDARD.encode(alloc, key.as_slice())?;
    body.extend_from_slice(b"{\"request_range\":{\"key\":\"")?;
    body.extend_from_slice(key.as_bytes())?;
    body.extend_from_slice(b"\",\"keys_only\":true}}")
}

/// Returns the transaction that reads the tails of worlds.
fn tails_bytes(alloc: Global, names: &[WorldName]) -> Result<Vec<u8>, AllocError> {
    let mut body = Vec::new(alloc);
    body.extend_from_slice(b"{\"success\":[")?;
    for (number, name) in names.iter().enumerate() {
        if number > 0 {
            body.extend_from_slice(b",")?;
        }
        push_tail(alloc, name, &mut body)?;
    }
    body.extend_from_slice(b"]}")?;
    Ok(body)
}

/// Returns the revision of the key that a part of an answer has, or 0 if it has none.
fn revision_in(part: &Value) -> u64 {
    let found = part
        .get("response_range")
        .and_then(|range| range.get("kvs"))
        .and_then(|pairs| pairs.get(0))
        .and_then(|pair| pair.get("mod_revision"))
        .and_then(|text| text.as_str());
    match found {
        Some(text) => text.parse::<u64>().unwrap_or(0),
        None => 0,
    }
}

/// Adds the revisions that an answer has, in order.
fn add_revisions(answer: &Value, into: &mut Vec<u64>) -> Result<(), AllocError> {
    let Some(parts) = answer.get("responses").and_then(|all| all.as_array()) else {
        return Ok(());
    };
    for part in parts.iter() {
        into.push(revision_in(part))?;
    }
    Ok(())
}

/// Returns the revisions in an answer, in order; none if it is something else.
fn revisions_in(alloc: Global, answer: &[u8]) -> Result<Vec<u64>, AllocError> {
    let mut revisions = Vec::new(alloc);
    if let Ok(value) = Value::from_slice(alloc, answer) {
        let added = add_revisions(&value, &mut revisions);
        drop(value);
        added?;
    }
    Ok(revisions)
}

/// Asks for the revisions of the tails of worlds, at most `MOST_TAILS`. Returns them in the order
/// of the names, 0 for a world that isn't there; or none, if no answer came. Fails if memory is
/// refused.
pub fn revisions_of<E: Engine>(
    alloc: Global,
    engine: &mut E,
    names: &[WorldName],
) -> Result<Vec<u64>, AllocError> {
    let body = tails_bytes(alloc, names)?;
    let mut answer = Vec::new(alloc);
    match engine.ask(body.as_slice(), &mut answer) {
        Ok(()) => revisions_in(alloc, answer.as_slice()),
        Err(_) => Ok(Vec::new(alloc)),
    }
}
