//! The viewer that each peer was last heard to be.

use std::alloc::{AllocError, Global};
use std::marker::Model;

/// Which viewer each peer was last heard to be, by a datagram with its right seal. A peer of a
/// number for which there is no place is never heard to be one.
#[derive(Drop)]
pub struct Speakers {
    whos: Vec<Option<u8>>,
}

impl Model for Speakers {
    ghost use Rattle.std.specs.Prelude.{ℕ, List, Option};

    ghost Value = { List (Option ℕ) };

    ghost view = { λ s. s.whos.items };
}

impl Speakers {
    ghost use Rattle.std.specs.Prelude.{◌≡◌, IfOk, ℕ, None, length};
    ghost use Rattle.share_sealed.specs.Speakers as spec;

    /// Returns what is known before any datagram came, of peers whose numbers are below `peers`.
    /// Fails if memory is refused.
    pub(crate) fn unheard(alloc: Global, peers: usize) -> Result<Speakers, AllocError>
        ensures unheard { IfOk result (λ s. (peer : ℕ) → spec.who_at s peer ≡ None) }
        ensures peers { IfOk result (λ s. length s ≡ peers) }
    {
        let whos = vec![in alloc; None; peers]?;
        Ok(Speakers { whos })
    }

    /// Notes that a datagram of a viewer came from a peer.
    pub(crate) fn note(&mut self, peer: u16, who: u8)
        ensures { self.new ≡ spec.noted self.old peer who }
    {
        let number = peer as usize;
        if number >= self.whos.len() {
            return;
        }
        self.whos[number] = Some(who);
    }

    /// Returns the viewer that a peer was last heard to be, if it was heard.
    pub(crate) fn who(&self, peer: u16) -> Option<u8>
        ensures { result ≡ spec.who_at self.now peer }
    {
        match self.whos.get(peer as usize) {
            Some(who) => *who,
            None => None,
        }
    }
}
