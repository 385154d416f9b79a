//! The bodies of requests about a base: what puts one, and what opens a world.

ghost use Rattle.std.specs.Prelude.{◌≡◌, ◌+◌, IfOk, IsTrue};
ghost use Rattle.share_entries.specs.Base.{base_text};
ghost use Rattle.share_entries.specs.Head.{head_text, is_viewer_count};
ghost use Rattle.share_etcd.specs.Keys as keys;
ghost use Rattle.share_etcd.specs.Requests as spec;

use crate::keys::{base_key, head_key, log_end, log_front, log_key, snapshot_key, tail_key};
use crate::requests::{
    Revisions, get_one, get_range, joined, put, put_head, three, transaction, unchanged, up_to,
};
use share_entries::{Base, Head, base_bytes};
use share_session::WorldName;
use std::alloc::{AllocError, Global};
use x3d_values::push_pieces;

const DELETE: &[u8] = b"{\"request_delete_range\":{\"key\":\"";

/// Returns an operation: the keys from this one on are deleted, below the end.
fn delete_range(alloc: Global, key: Vec<u8>, end: Vec<u8>) -> Result<Vec<u8>, AllocError>
    ensures { IfOk result (λ v. v.items ≡ spec.delete_range key.items end.items) }
{
    let range = up_to(alloc, key, end)?;
    let mut out = Vec::new(alloc);
    push_pieces(&[DELETE, range.as_slice(), b"\"}}"], &mut out)?;
    Ok(out)
}

/// Returns an operation: the world's base is this.
fn put_base(alloc: Global, name: &WorldName, base: &Base) -> Result<Vec<u8>, AllocError>
    ensures { IfOk result (λ v. v.items
        ≡ spec.put (keys.base_key (keys.text_of name.now)) (base_text base.now)) }
{
    let key = base_key(alloc, name)?;
    let bytes = base_bytes(alloc, base)?;
    put(alloc, key, bytes.as_slice())
}

/// Returns an operation: the snapshot at the world's base is this.
fn put_snapshot(alloc: Global, name: &WorldName, snapshot: &[u8]) -> Result<Vec<u8>, AllocError>
    ensures { IfOk result (λ v. v.items
        ≡ spec.put (keys.snapshot_key (keys.text_of name.now)) snapshot.now) }
{
    let key = snapshot_key(alloc, name)?;
    put(alloc, key, snapshot)
}

/// Returns an operation: the frames are deleted whose first entry is one of the base's.
fn delete_frames(alloc: Global, name: &WorldName, base: &Base) -> Result<Vec<u8>, AllocError>
    ensures { IfOk result (λ v. v.items
        ≡ spec.delete_range (keys.log_front (keys.text_of name.now))
        (keys.log_key (keys.text_of name.now) (base.now.number + 1))) }
{
    let front = log_front(alloc, name)?;
    let end = log_key(alloc, name, base.number() + 1)?;
    delete_range(alloc, front, end)
}

/// Returns the operations that put head and base.
fn put_both(
    alloc: Global,
    name: &WorldName,
    head: &Head,
    base: &Base,
) -> Result<Vec<u8>, AllocError>
    requires { IsTrue (is_viewer_count head.now.viewers) }
    ensures { IfOk result (λ v. v.items
        ≡ spec.joined (spec.put (keys.head_key (keys.text_of name.now)) (head_text head.now))
        (spec.put (keys.base_key (keys.text_of name.now)) (base_text base.now))) }
{
    let head_again = put_head(alloc, name, head)?;
    let based = put_base(alloc, name, base)?;
    joined(alloc, head_again, based)
}

/// Returns the operations that put a snapshot, and delete the frames of its base's entries.
fn take_place(
    alloc: Global,
    name: &WorldName,
    base: &Base,
    snapshot: &[u8],
) -> Result<Vec<u8>, AllocError>
    ensures { IfOk result (λ v. v.items
        ≡ spec.joined (spec.put (keys.snapshot_key (keys.text_of name.now)) snapshot.now)
        (spec.delete_range (keys.log_front (keys.text_of name.now))
        (keys.log_key (keys.text_of name.now) (base.now.number + 1)))) }
{
    let there = put_snapshot(alloc, name, snapshot)?;
    let gone = delete_frames(alloc, name, base)?;
    joined(alloc, there, gone)
}

/// Returns the transaction that puts a base instead of a log's first entries: if head and tail are
/// unchanged, the head is put again, so that hosts that read it before are refused until they read
/// on, the base and the snapshot of the world there (bytes of any length) are put, and the frames
/// of the base's entries are deleted. The head is the world's own. The base's number, counted in
/// entries from 1, must be that of the last entry of a frame: a frame whose first entry is one of
/// the base's is deleted whole, and with it the entries after the base. An etcd takes 1.5 MiB
/// unless it was told otherwise. Fails if memory is refused.
pub fn basing_bytes(
    alloc: Global,
    name: &WorldName,
    known: Revisions,
    head: &Head,
    base: &Base,
    snapshot: &[u8],
) -> Result<Vec<u8>, AllocError>
    requires { IsTrue (is_viewer_count head.now.viewers) }
    ensures { IfOk result (λ v. v.items
        ≡ spec.basing_text (keys.text_of name.now) known.head known.tail base.now.number
        (head_text head.now) (base_text base.now) snapshot.now) }
{
    let same_head = unchanged(alloc, head_key(alloc, name)?, known.head)?;
    let same_tail = unchanged(alloc, tail_key(alloc, name)?, known.tail)?;
    let puts = put_both(alloc, name, head, base)?;
    let rest = take_place(alloc, name, base, snapshot)?;
    transaction(alloc, same_head, same_tail, puts, rest)
}

/// Returns the operations that read a world's head and its tail.
fn get_ends(alloc: Global, name: &WorldName) -> Result<Vec<u8>, AllocError>
    ensures { IfOk result (λ v. v.items
        ≡ spec.joined (spec.get_one (keys.head_key (keys.text_of name.now)))
        (spec.get_one (keys.tail_key (keys.text_of name.now)))) }
{
    let head = get_one(alloc, head_key(alloc, name)?)?;
    let tail = get_one(alloc, tail_key(alloc, name)?)?;
    joined(alloc, head, tail)
}

/// Returns the operations that read a world's base and the snapshot there.
fn get_based(alloc: Global, name: &WorldName) -> Result<Vec<u8>, AllocError>
    ensures { IfOk result (λ v. v.items
        ≡ spec.joined (spec.get_one (keys.base_key (keys.text_of name.now)))
        (spec.get_one (keys.snapshot_key (keys.text_of name.now)))) }
{
    let base = get_one(alloc, base_key(alloc, name)?)?;
    let snapshot = get_one(alloc, snapshot_key(alloc, name)?)?;
    joined(alloc, base, snapshot)
}

/// Returns the transaction that opens a world: it reads its head, its tail, its base, the snapshot
/// there, and its first 64 frames. All are of one revision. Fails if memory is refused.
pub fn opening_bytes(alloc: Global, name: &WorldName) -> Result<Vec<u8>, AllocError>
    ensures { IfOk result (λ v. v.items ≡ spec.opening_text (keys.text_of name.now)) }
{
    let ends = get_ends(alloc, name)?;
    let based = get_based(alloc, name)?;
    let frames = get_range(alloc, log_key(alloc, name, 1)?, log_end(alloc, name)?)?;
    three(alloc, ends, based, frames)
}
