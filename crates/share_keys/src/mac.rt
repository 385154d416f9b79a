//! HMAC-SHA256 (RFC 2104).

ghost use Rattle.std.specs.Prelude.{◌≡◌, ◌≤◌, ◌++◌, length};
ghost use Rattle.sha2.specs.Sha256.{sha256};
ghost use Rattle.share_keys.specs.Hmac as spec;

use sha2::{Digest, Sha256};

/// A block of SHA-256, in bytes.
const BLOCK: usize = 64;

fn digest_of(first: &[u8], second: &[u8]) -> [u8; 32]
    ensures { result ≡ sha256 (first.now ++ second.now) }
{
    let mut hasher = Sha256::new();
    hasher.update(first);
    hasher.update(second);
    hasher.finalize()
}

/// Returns a key of at most 64 bytes with zeros after it.
#[tactic(auto, using(crate::proofs::Blocks::zeros_after))]
fn padded(key: &[u8]) -> [u8; BLOCK]
    requires { length key.now ≤ 64 }
    ensures { result ≡ spec.padded key.now }
{
    let mut block = [0; BLOCK];
    block[..key.len()].copy_from_slice(key);
    block
}

/// Returns the block that stands for a key: its digest if it is longer than a block.
fn block_of(key: &[u8]) -> [u8; BLOCK]
    ensures { result ≡ spec.block_of key.now }
{
    if key.len() > BLOCK {
        padded(Sha256::digest(key).as_slice())
    } else {
        padded(key)
    }
}

fn mask_all(mask: u8, bytes: &mut [u8])
    ensures { bytes.new ≡ spec.masked mask bytes.old }
{
    for byte in bytes.iter_mut() {
        *byte ^= mask;
    }
}

fn masked(mask: u8, block: &[u8; BLOCK]) -> [u8; BLOCK]
    ensures { result ≡ spec.masked mask block.now }
{
    let mut made = *block;
    mask_all(mask, made.as_mut_slice());
    made
}

/// Returns the HMAC-SHA256 by a key of any length of the text that two parts make (RFC 2104,
/// section 2).
pub fn hmac(key: &[u8], first: &[u8], second: &[u8]) -> [u8; 32]
    ensures { result ≡ spec.hmac key.now (first.now ++ second.now) }
{
    let block = block_of(key);
    let mut inner = Sha256::new();
    inner.update(masked(0x36, &block).as_slice());
    inner.update(first);
    inner.update(second);
    digest_of(masked(0x5c, &block).as_slice(), inner.finalize().as_slice())
}
