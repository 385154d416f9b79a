//! The keys of a world.

ghost use Rattle.std.specs.Prelude.{◌≡◌, ◌++◌, IfOk, codes};
ghost use Rattle.share_etcd.specs.Keys as spec;

use crate::numerals::digits_of;
use share_session::WorldName;
use std::alloc::{AllocError, Global};
use x3d_values::push_pieces;

/// Returns `x3d/`, the name and the rest.
fn key_of(alloc: Global, name: &WorldName, rest: &[u8]) -> Result<Vec<u8>, AllocError>
    ensures { IfOk result (λ v. v.items ≡ codes "x3d/" ++ spec.text_of name.now ++ rest.now) }
{
    let mut key = Vec::new(alloc);
    push_pieces(&[b"x3d/", name.text(), rest], &mut key)?;
    Ok(key)
}

/// Returns the key of a world's head. Fails if memory is refused, as the others here do.
pub fn head_key(alloc: Global, name: &WorldName) -> Result<Vec<u8>, AllocError>
    ensures { IfOk result (λ v. v.items ≡ spec.head_key (spec.text_of name.now)) }
{
    key_of(alloc, name, b"/head")
}

/// Returns the key of a world's tail.
pub fn tail_key(alloc: Global, name: &WorldName) -> Result<Vec<u8>, AllocError>
    ensures { IfOk result (λ v. v.items ≡ spec.tail_key (spec.text_of name.now)) }
{
    key_of(alloc, name, b"/tail")
}

/// Returns the key of a world's base, which is there once its first entries were dropped.
pub fn base_key(alloc: Global, name: &WorldName) -> Result<Vec<u8>, AllocError>
    ensures { IfOk result (λ v. v.items ≡ spec.base_key (spec.text_of name.now)) }
{
    key_of(alloc, name, b"/base")
}

/// Returns the key of the snapshot of a world at its base.
pub fn snapshot_key(alloc: Global, name: &WorldName) -> Result<Vec<u8>, AllocError>
    ensures { IfOk result (λ v. v.items ≡ spec.snapshot_key (spec.text_of name.now)) }
{
    key_of(alloc, name, b"/snapshot")
}

/// Returns what the keys of all frames of a world begin with.
pub(crate) fn log_front(alloc: Global, name: &WorldName) -> Result<Vec<u8>, AllocError>
    ensures { IfOk result (λ v. v.items ≡ spec.log_front (spec.text_of name.now)) }
{
    key_of(alloc, name, b"/log/")
}

/// Returns the key of the frame whose first entry has this number.
pub fn log_key(alloc: Global, name: &WorldName, first: u64) -> Result<Vec<u8>, AllocError>
    ensures { IfOk result (λ v. v.items ≡ spec.log_key (spec.text_of name.now) first) }
{
    let mut key = log_front(alloc, name)?;
    key.extend_from_slice(digits_of(first).as_slice())?;
    Ok(key)
}

/// Returns the end of the range of all frames: it is above their keys, and below all others that
/// are above them.
pub fn log_end(alloc: Global, name: &WorldName) -> Result<Vec<u8>, AllocError>
    ensures { IfOk result (λ v. v.items ≡ spec.log_end (spec.text_of name.now)) }
{
    key_of(alloc, name, b"/log0")
}
