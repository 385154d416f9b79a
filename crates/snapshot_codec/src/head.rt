//! The head of a snapshot, and the digest at its end.

ghost use Rattle.std.specs.Prelude.{◌≡◌, ◌++◌, ◌+◌, ◌-◌, ◌≤◌, Ok, IfOk, IfNone, ℕ, List, codes, drop, length, nat_eq, OnErr, OnOk};
ghost use Rattle.std.specs.Cmp.Lexicographic.{pointwise};
ghost use Rattle.std.specs.Option.{option_map};
ghost use Rattle.std.specs.Result.{result_map_both};
ghost use Rattle.sha2.specs.Sha256.{sha256};
ghost use Rattle.snapshot_codec.specs.Head.{progress_codec, front, unsealed, snapshot, head_fault, opened};

use crate::input_number::{Numbers, applied_of};
use crate::numbers::{low_32_bytes, signed_bytes};
use crate::trace::moment_of;
use byte_codec::u32_of;
use sha2::{Digest, Sha256};
use std::alloc::AllocError;
use thiserror::Error;
use x3d_values::push_pieces;

/// The first bytes of each snapshot.
const MAGIC: &[u8; 4] = b"X3DW";

/// The least length of a snapshot: the head of 53 bytes and the digest of 32.
const LEAST: usize = 85;

/// Why the head or the digest of a snapshot was rejected. The checks run in this order, and the
/// first that fails is reported: fewer than 85 bytes; another magic; another version; another
/// scene's mark; a digest at the end that isn't that of the bytes before it.
#[derive(Clone, Copy, Debug, PartialEq, Eq, Error)]
pub enum HeadFault {
    #[error("the bytes are too few for a snapshot")]
    Short,
    #[error("the bytes do not begin as a snapshot does")]
    BadMagic,
    #[error("the version of the snapshot is another one")]
    BadVersion,
    #[error("the snapshot is of another scene")]
    WrongScene,
    #[error("the digest of the snapshot is not that of its bytes")]
    BadDigest,
}

/// Which start of a viewer a snapshot is from, and how far the world had advanced.
#[derive(Clone, Copy, PartialEq, Eq)]
pub struct Progress {
    /// The number of the viewer's start.
    pub boot: u32,
    /// The number of inputs applied, up to 2^48 - 1.
    pub applied: u64,
    /// The time of the last input in microseconds, 0 to 10^18.
    pub last_time: i64,
}

/// Returns the mark of a scene: the SHA-256 of its text.
pub fn scene_mark(text: &[u8]) -> [u8; 32]
    ensures { result ≡ sha256 text.now }
{
    Sha256::digest(text)
}

/// Reports whether the last 32 bytes are the digest of those before them.
fn is_sealed(bytes: &[u8]) -> bool
    requires { 32 ≤ length bytes.now }
    ensures { result
        ≡ pointwise nat_eq (drop (length bytes.now - 32) bytes.now) (sha256 (unsealed bytes.now)) }
{
    let (body, digest) = bytes.split_at(bytes.len() - 32);
    digest == Sha256::digest(body).as_slice()
}

/// Returns the first fault of the head or the digest, if there is one.
fn head_fault(version: u8, mark: &[u8; 32], bytes: &[u8]) -> Option<HeadFault>
    ensures value { result ≡ head_fault version mark.now bytes.now }
    ensures long { IfNone result (85 ≤ length bytes.now) }
{
    if bytes.len() < LEAST {
        return Some(HeadFault::Short);
    }
    if &bytes[..4] != MAGIC.as_slice() {
        return Some(HeadFault::BadMagic);
    }
    if bytes[4] != version {
        return Some(HeadFault::BadVersion);
    }
    if &bytes[5..37] != mark.as_slice() {
        return Some(HeadFault::WrongScene);
    }
    if !is_sealed(bytes) {
        return Some(HeadFault::BadDigest);
    }
    None
}

fn opened<'a>(version: u8, mark: &[u8; 32], bytes: &'a [u8]) -> Result<&'a [u8], HeadFault>
    ensures { result_map_both (λ body. body.now) (λ fault. fault) result
        ≡ opened version mark.now bytes.now }
{
    match head_fault(version, mark, bytes) {
        None => Ok(&bytes[37..bytes.len() - 32]),
        Some(fault) => Err(fault),
    }
}

/// Returns the body of a snapshot of this version and scene: the bytes between the mark and the
/// digest. Returns a `HeadFault` if a check of the head or the digest fails.
pub fn open<'a>(version: u8, mark: &[u8; 32], bytes: &'a [u8]) -> Result<&'a [u8], HeadFault>
    // Returned bytes are the body of exactly this snapshot.
    ensures found { IfOk result (λ body. bytes.now ≡ snapshot version mark.now body.now) }
    // A snapshot whose body has 16 bytes or more is opened to that body.
    ensures only { (body : List ℕ) → 16 ≤ length body → bytes.now ≡ snapshot version mark.now body
        → result_map_both (λ body. body.now) (λ fault. fault) result ≡ Ok body }
    // The exact result, faults included.
    ensures exact { result_map_both (λ body. body.now) (λ fault. fault) result
        ≡ opened version mark.now bytes.now }
{
    opened(version, mark, bytes)
}

/// Appends the bytes before the body: `X3DW`, the version and the mark of the scene. On
/// `AllocError` the buffer is unchanged.
pub fn push_front(version: u8, mark: &[u8; 32], out: &mut Vec<u8>) -> Result<(), AllocError>
    ensures ok { OnOk result (out.new.items ≡ out.old.items ++ front version mark.now) }
    ensures err { OnErr result (out.new.items ≡ out.old.items) }
{
    let pieces: [&[u8]; 3] = [MAGIC, &[version], mark];
    push_pieces(&pieces, out)
}

/// Appends the SHA-256 of the bytes from `from` on. On `AllocError` the buffer is unchanged.
pub fn push_digest(from: usize, out: &mut Vec<u8>) -> Result<(), AllocError>
    requires { from ≤ length out.old.items }
    ensures ok { OnOk result (out.new.items ≡ out.old.items ++ sha256 (drop from out.old.items)) }
    ensures err { OnErr result (out.new.items ≡ out.old.items) }
{
    let digest = Sha256::digest(&out[from..]);
    out.extend_from_slice(&digest)
}

/// Reads how far a world had advanced: boot u32, applied (up to 2^20 in 32 bits, or up to 2^48 - 1
/// in 64), last time i64 (0 to 10^18). Returns it with the rest of the bytes, or `None` if the
/// bytes are too few or a number is out of its range.
#[tactic(auto, unfolding(crate::specs::Head::progress_codec))]
pub fn progress_of(numbers: Numbers, bytes: &[u8]) -> Option<(Progress, &[u8])>
    ensures { option_map (λ x. (x.0, x.1.now)) result ≡ (progress_codec numbers).read bytes.now }
{
    let Some((boot, rest)) = u32_of(bytes) else {
        return None;
    };
    let Some((applied, rest)) = applied_of(numbers, rest) else {
        return None;
    };
    let Some((last_time, rest)) = moment_of(rest) else {
        return None;
    };
    let progress = Progress {
        boot,
        applied,
        last_time,
    };
    Some((progress, rest))
}

/// Appends how far a world had advanced; of a short number of inputs, the lowest 32 bits. On
/// `AllocError` the buffer is unchanged.
pub fn push_progress(
    numbers: Numbers,
    progress: Progress,
    out: &mut Vec<u8>,
) -> Result<(), AllocError>
    ensures ok { OnOk result (out.new.items
        ≡ out.old.items ++ (progress_codec numbers).write progress) }
    ensures err { OnErr result (out.new.items ≡ out.old.items) }
{
    let boot = progress.boot.to_be_bytes();
    let last_time = signed_bytes(&progress.last_time);
    match numbers {
        Numbers::Short => push_pieces(&[&boot, &low_32_bytes(progress.applied), &last_time], out),
        Numbers::Long => push_pieces(&[&boot, &progress.applied.to_be_bytes(), &last_time], out),
    }
}
