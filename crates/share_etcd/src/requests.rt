//! The bodies of requests.

ghost use Rattle.std.specs.Prelude.{◌≡◌, IfOk, IsTrue};
ghost use Rattle.share_entries.specs.Head.{head_text, is_viewer_count};
ghost use Rattle.share_etcd.specs.Keys as keys;
ghost use Rattle.share_etcd.specs.Numerals.{digits_of as spec_digits_of};
ghost use Rattle.share_etcd.specs.Requests as spec;

use crate::keys::{head_key, log_end, log_key, tail_key};
use crate::numerals::digits_of;
use base64::engine::general_purpose::STANDARD;
use itoa::Buffer;
use share_entries::{Head, head_bytes};
use share_session::WorldName;
use std::alloc::{AllocError, Global};
use x3d_values::push_pieces;

const KEY: &[u8] = b"{\"key\":\"";

const IS_ABSENT: &[u8] =
    b"\",\"target\":\"CREATE\",\"result\":\"EQUAL\",\"create_revision\":\"0\"}";

const IS_CHANGED_AT: &[u8] = b"\",\"target\":\"MOD\",\"result\":\"EQUAL\",\"mod_revision\":\"";

const PUT: &[u8] = b"{\"request_put\":{\"key\":\"";

const RANGE: &[u8] = b"{\"request_range\":{\"key\":\"";

/// The revisions at which a world's head and tail were last changed, as this host read them: 1 to
/// 2^63 - 1. After an append that was stored, the head's stays, and the tail's is the revision that
/// the answer named; after a basing it is the other way round.
#[derive(Clone, Copy, Debug, PartialEq, Eq)]
pub struct Revisions {
    pub head: u64,
    pub tail: u64,
}

/// Returns a compare: this key isn't there.
fn absent(alloc: Global, key: Vec<u8>) -> Result<Vec<u8>, AllocError>
    ensures { IfOk result (λ v. v.items ≡ spec.absent key.items) }
{
    let key = STANDARD.encode(alloc, key.as_slice())?;
    let mut out = Vec::new(alloc);
    push_pieces(&[KEY, key.as_bytes(), IS_ABSENT], &mut out)?;
    Ok(out)
}

/// Returns a compare: this key was last changed at this revision.
pub(crate) fn unchanged(alloc: Global, key: Vec<u8>, revision: u64) -> Result<Vec<u8>, AllocError>
    ensures { IfOk result (λ v. v.items ≡ spec.unchanged key.items revision) }
{
    let key = STANDARD.encode(alloc, key.as_slice())?;
    let mut buffer = Buffer::new();
    let revision = buffer.format(revision).as_bytes();
    let mut out = Vec::new(alloc);
    push_pieces(
        &[KEY, key.as_bytes(), IS_CHANGED_AT, revision, b"\"}"],
        &mut out,
    )?;
    Ok(out)
}

/// Returns an operation: this key gets this value.
pub(crate) fn put(alloc: Global, key: Vec<u8>, value: &[u8]) -> Result<Vec<u8>, AllocError>
    ensures { IfOk result (λ v. v.items ≡ spec.put key.items value.now) }
{
    let key = STANDARD.encode(alloc, key.as_slice())?;
    let value = STANDARD.encode(alloc, value)?;
    let mut out = Vec::new(alloc);
    push_pieces(
        &[
            PUT,
            key.as_bytes(),
            b"\",\"value\":\"",
            value.as_bytes(),
            b"\"}}",
        ],
        &mut out,
    )?;
    Ok(out)
}

/// Returns an operation: this key is read.
pub(crate) fn get_one(alloc: Global, key: Vec<u8>) -> Result<Vec<u8>, AllocError>
    ensures { IfOk result (λ v. v.items ≡ spec.get_one key.items) }
{
    let key = STANDARD.encode(alloc, key.as_slice())?;
    let mut out = Vec::new(alloc);
    push_pieces(&[RANGE, key.as_bytes(), b"\"}}"], &mut out)?;
    Ok(out)
}

/// Returns a key and the end of the range from it on.
pub(crate) fn up_to(alloc: Global, key: Vec<u8>, end: Vec<u8>) -> Result<Vec<u8>, AllocError>
    ensures { IfOk result (λ v. v.items ≡ spec.up_to key.items end.items) }
{
    let key = STANDARD.encode(alloc, key.as_slice())?;
    let end = STANDARD.encode(alloc, end.as_slice())?;
    let mut out = Vec::new(alloc);
    push_pieces(
        &[key.as_bytes(), b"\",\"range_end\":\"", end.as_bytes()],
        &mut out,
    )?;
    Ok(out)
}

/// Returns an operation: up to 64 keys from this one on are read, below the end.
pub(crate) fn get_range(alloc: Global, key: Vec<u8>, end: Vec<u8>) -> Result<Vec<u8>, AllocError>
    ensures { IfOk result (λ v. v.items ≡ spec.get_range key.items end.items) }
{
    let range = up_to(alloc, key, end)?;
    let mut out = Vec::new(alloc);
    push_pieces(
        &[RANGE, range.as_slice(), b"\",\"limit\":\"64\"}}"],
        &mut out,
    )?;
    Ok(out)
}

/// Returns both with a comma between them.
pub(crate) fn joined(alloc: Global, this: Vec<u8>, that: Vec<u8>) -> Result<Vec<u8>, AllocError>
    ensures { IfOk result (λ v. v.items ≡ spec.joined this.items that.items) }
{
    let mut out = Vec::new(alloc);
    push_pieces(&[this.as_slice(), b",", that.as_slice()], &mut out)?;
    Ok(out)
}

/// Returns the transaction that does these operations where these compares hold.
fn guarded(alloc: Global, compares: Vec<u8>, operations: Vec<u8>) -> Result<Vec<u8>, AllocError>
    ensures { IfOk result (λ v. v.items ≡ spec.guarded compares.items operations.items) }
{
    let pieces: [&[u8]; 5] = [
        b"{\"compare\":[",
        compares.as_slice(),
        b"],\"success\":[",
        operations.as_slice(),
        b"]}",
    ];
    let mut out = Vec::new(alloc);
    push_pieces(&pieces, &mut out)?;
    Ok(out)
}

/// Returns the transaction that does both operations where both compares hold.
pub(crate) fn transaction(
    alloc: Global,
    this: Vec<u8>,
    that: Vec<u8>,
    first: Vec<u8>,
    second: Vec<u8>,
) -> Result<Vec<u8>, AllocError>
    ensures { IfOk result (λ v. v.items
        ≡ spec.guarded (spec.joined this.items that.items)
        (spec.joined first.items second.items)) }
{
    let compares = joined(alloc, this, that)?;
    let operations = joined(alloc, first, second)?;
    guarded(alloc, compares, operations)
}

/// Returns an operation: the world's head is this.
pub(crate) fn put_head(alloc: Global, name: &WorldName, head: &Head) -> Result<Vec<u8>, AllocError>
    requires { IsTrue (is_viewer_count head.now.viewers) }
    ensures { IfOk result (λ v. v.items
        ≡ spec.put (keys.head_key (keys.text_of name.now)) (head_text head.now)) }
{
    let key = head_key(alloc, name)?;
    let bytes = head_bytes(alloc, head)?;
    put(alloc, key, bytes.as_slice())
}

/// Returns an operation: the number of the log's last entry is this.
fn put_tail(alloc: Global, name: &WorldName, last: u64) -> Result<Vec<u8>, AllocError>
    ensures { IfOk result (λ v. v.items
        ≡ spec.put (keys.tail_key (keys.text_of name.now)) (spec_digits_of last)) }
{
    let key = tail_key(alloc, name)?;
    put(alloc, key, digits_of(last).as_slice())
}

/// Returns the transaction that makes a world: if it has neither head nor tail, it gets this head,
/// and a tail without entries (number 0). Fails if memory is refused.
pub fn making_bytes(alloc: Global, name: &WorldName, head: &Head) -> Result<Vec<u8>, AllocError>
    requires { IsTrue (is_viewer_count head.now.viewers) }
    ensures { IfOk result (λ v. v.items
        ≡ spec.making_text (keys.text_of name.now) (head_text head.now)) }
{
    let no_head = absent(alloc, head_key(alloc, name)?)?;
    let no_tail = absent(alloc, tail_key(alloc, name)?)?;
    let first = put_head(alloc, name, head)?;
    let second = put_tail(alloc, name, 0)?;
    transaction(alloc, no_head, no_tail, first, second)
}

/// Returns the transaction that appends a frame: if head and tail are unchanged, the frame is put
/// under the number of its first entry, and the tail names its last. The frame is that of
/// `frame_bytes` of share_entries for these numbers, counted from 1. Fails if memory is refused.
pub fn append_bytes(
    alloc: Global,
    name: &WorldName,
    known: Revisions,
    first: u64,
    last: u64,
    frame: &[u8],
) -> Result<Vec<u8>, AllocError>
    ensures { IfOk result (λ v. v.items
        ≡ spec.append_text (keys.text_of name.now) known.head known.tail first last frame.now) }
{
    let same_head = unchanged(alloc, head_key(alloc, name)?, known.head)?;
    let same_tail = unchanged(alloc, tail_key(alloc, name)?, known.tail)?;
    let put_frame = put(alloc, log_key(alloc, name, first)?, frame)?;
    let put_last = put_tail(alloc, name, last)?;
    transaction(alloc, same_head, same_tail, put_frame, put_last)
}

/// Returns the transaction of these three operations.
pub(crate) fn three(
    alloc: Global,
    head: Vec<u8>,
    tail: Vec<u8>,
    frames: Vec<u8>,
) -> Result<Vec<u8>, AllocError>
    ensures { IfOk result (λ v. v.items ≡ spec.three head.items tail.items frames.items) }
{
    let pieces: [&[u8]; 7] = [
        b"{\"success\":[",
        head.as_slice(),
        b",",
        tail.as_slice(),
        b",",
        frames.as_slice(),
        b"]}",
    ];
    let mut out = Vec::new(alloc);
    push_pieces(&pieces, &mut out)?;
    Ok(out)
}

/// Returns the transaction that reads a world: its head, its tail, and up to 64 frames from this
/// number on. All are of one revision. If a base stands for this entry, its frame isn't among them,
/// and the world is to be opened again. Fails if memory is refused.
pub fn reading_bytes(alloc: Global, name: &WorldName, first: u64) -> Result<Vec<u8>, AllocError>
    ensures { IfOk result (λ v. v.items ≡ spec.reading_text (keys.text_of name.now) first) }
{
    let head = get_one(alloc, head_key(alloc, name)?)?;
    let tail = get_one(alloc, tail_key(alloc, name)?)?;
    let frames = get_range(alloc, log_key(alloc, name, first)?, log_end(alloc, name)?)?;
    three(alloc, head, tail, frames)
}
