//! The chain of a log.

ghost use Rattle.std.specs.Prelude.{◌≡◌, take};
ghost use Rattle.share_entries.specs.Chain.{ChainsTell, chain_after, link};

use crate::entry::Entry;
use crate::writing::bytes_of;
use sha2::{Digest, Sha256};

/// What stands for a list of entries: 16 bytes. Before the first entry of a log it is the run.
pub type Chain = [u8; 16];

fn front_of(digest: &[u8; 32]) -> Chain
    ensures { result ≡ take 16 digest.now }
{
    let mut front = [0; 16];
    front.copy_from_slice(&digest[..16]);
    front
}

/// Returns the chain after one more entry.
pub fn link(chain: &Chain, entry: &Entry) -> Chain
    ensures { result ≡ link chain.now entry.now }
{
    let mut hasher = Sha256::new();
    hasher.update(chain.as_slice());
    hasher.update(bytes_of(entry).as_slice());
    front_of(&hasher.finalize())
}

/// Returns the chain after these entries.
pub fn chain_after(before: &Chain, entries: &[Entry]) -> Chain
    ensures { result ≡ chain_after before.now entries.now }
{
    let mut chain = *before;
    for entry in entries {
        chain = link(&chain, entry);
    }
    chain
}

/// Two logs of equally many entries with the same chain are the same log, or two texts have a
/// SHA-256 that begins with the same 16 bytes.
pub fn chains_tell_logs_apart()
    ensures { ChainsTell }
{}
