//! The head of a log: its first payload.

ghost use Rattle.std.specs.Prelude.{◌≡◌, ◌≤◌, IfOk, IfSome, IsTrue, Ok, length};
ghost use Rattle.std.specs.Option.{option_map};
ghost use Rattle.share_entries.specs.declared.head.Head.{Head as AHead};
ghost use Rattle.share_entries.specs.Head.{head_fields, head_text, head_in, head_fits, is_viewer_count, has_viewers, sum_of};

use byte_codec::{byte_of, chunk_of};
use sha2::{Digest, Sha256};
use std::alloc::{AllocError, Global};
use x3d_values::{MAX_VIEWERS, push_pieces};

const MAGIC: &[u8; 4] = b"X3DL";

/// What a log is of.
#[derive(Clone, Copy, PartialEq, Eq)]
pub struct Head {
    /// The number of viewers, 1 to `MAX_VIEWERS`.
    pub viewers: u8,
    /// The scene's SHA-256.
    pub mark: [u8; 32],
    /// What names this log: the chain before its first entry.
    pub run: [u8; 16],
}

/// Why bytes are no head of a log. The checks run in this order, and the first that fails is
/// reported: fewer than 56 bytes; another magic; another version; another sum than that of the 56
/// bytes, or more bytes; a number of viewers out of its range, or bytes after it that aren't 0.
#[derive(Clone, Copy, Debug, PartialEq, Eq)]
pub enum HeadFault {
    Short,
    BadMagic,
    BadVersion,
    BadSum,
    BadViewers,
}

/// Reports whether a world may have this number of viewers.
pub fn is_viewer_count(viewers: u8) -> bool
    ensures { result ≡ is_viewer_count viewers }
{
    viewers >= 1 && viewers <= MAX_VIEWERS
}

pub(crate) fn sum_of(bytes: &[u8]) -> [u8; 8]
    ensures { result ≡ sum_of bytes.now }
{
    let digest = Sha256::digest(bytes);
    let mut sum = [0; 8];
    sum.copy_from_slice(&digest[..8]);
    sum
}

type HeadParts<'a> = (&'a [u8], (u8, (u8, (&'a [u8], (&'a [u8], &'a [u8])))));

#[tactic(auto, unfolding(crate::specs::Head::head_fields))]
fn first_parts(bytes: &[u8]) -> Option<(HeadParts<'_>, &[u8])>
    ensures value { option_map (λ r. (
      (r.0.0.now, (r.0.1.0, (r.0.1.1.0, (let p = r.0.1.1.1 in (p.0.now, (p.1.0.now, p.1.1.now)))))),
      r.1.now,
    )) result
        ≡ head_fields.read bytes.now }
    ensures mark { IfSome result (λ r. length r.0.1.1.1.1.0.now ≡ 32) }
    ensures run { IfSome result (λ r. length r.0.1.1.1.1.1.now ≡ 16) }
{
    let Some((magic, rest)) = chunk_of(bytes, 4) else {
        return None;
    };
    let Some((version, rest)) = byte_of(rest) else {
        return None;
    };
    let Some((viewers, rest)) = byte_of(rest) else {
        return None;
    };
    let Some((pad, rest)) = chunk_of(rest, 2) else {
        return None;
    };
    let Some((mark, rest)) = chunk_of(rest, 32) else {
        return None;
    };
    let Some((run, rest)) = chunk_of(rest, 16) else {
        return None;
    };
    Some(((magic, (version, (viewers, (pad, (mark, run))))), rest))
}

/// The same, with the length that the parts take.
fn parts_of(bytes: &[u8]) -> Option<(HeadParts<'_>, &[u8])>
    ensures value { option_map (λ r. (
      (r.0.0.now, (r.0.1.0, (r.0.1.1.0, (let p = r.0.1.1.1 in (p.0.now, (p.1.0.now, p.1.1.now)))))),
      r.1.now,
    )) result
        ≡ head_fields.read bytes.now }
    ensures mark { IfSome result (λ r. length r.0.1.1.1.1.0.now ≡ 32) }
    ensures run { IfSome result (λ r. length r.0.1.1.1.1.1.now ≡ 16) }
    ensures long { IfSome result (λ r. 56 ≤ length bytes.now) }
{
    first_parts(bytes)
}

#[tactic(auto, unfolding(crate::specs::Head::head_in))]
fn head_in(bytes: &[u8]) -> Result<Head, HeadFault>
    ensures { result ≡ head_in bytes.now }
{
    let Some(((magic, (version, (viewers, (pad, (front, name))))), sum)) = parts_of(bytes) else {
        return Err(HeadFault::Short);
    };
    if magic != MAGIC.as_slice() {
        return Err(HeadFault::BadMagic);
    }
    if version != 1 {
        return Err(HeadFault::BadVersion);
    }
    if sum != sum_of(&bytes[..56]).as_slice() {
        return Err(HeadFault::BadSum);
    }
    if !is_viewer_count(viewers) || pad != [0, 0].as_slice() {
        return Err(HeadFault::BadViewers);
    }
    let mut mark = [0; 32];
    mark.copy_from_slice(front);
    let mut run = [0; 16];
    run.copy_from_slice(name);
    Ok(Head { viewers, mark, run })
}

/// Reads a head. Returns the first fault if the bytes are not those of a head.
pub fn head_of(bytes: &[u8]) -> Result<Head, HeadFault>
    // The bytes are those of the head that was read.
    ensures found { IfOk result (λ h. (bytes.now ≡ head_text h) × IsTrue (head_fits h)) }
    // Each head is read from its bytes.
    ensures only { (h : AHead) → IsTrue (head_fits h) → bytes.now ≡ head_text h → result ≡ Ok h }
    // The exact result, faults included.
    ensures exact { result ≡ head_in bytes.now }
{
    head_in(bytes)
}

/// Returns the bytes of a head. Its number of viewers must pass `is_viewer_count`.
#[tactic(auto, unfolding(crate::specs::Head::head_fields))]
pub fn head_bytes(alloc: Global, head: &Head) -> Result<Vec<u8>, AllocError>
    requires { IsTrue (is_viewer_count head.now.viewers) }
    ensures text { IfOk result (λ v. v.items ≡ head_text head.now) }
    ensures len { IfOk result (λ v. length v.items ≡ 64) }
    // The head is read from them again.
    ensures again { IfOk result (λ v. head_in v.items ≡ Ok head.now) }
{
    let mut out = Vec::new(alloc);
    let pieces: [&[u8]; 4] = [MAGIC, &[1, head.viewers, 0, 0], &head.mark, &head.run];
    push_pieces(&pieces, &mut out)?;
    let sum = sum_of(&out);
    out.extend_from_slice(&sum)?;
    Ok(out)
}
