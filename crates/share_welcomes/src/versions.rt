//! The version of each peer's last datagram.

use std::alloc::{AllocError, Global};
use std::marker::Model;

/// Which peers are answered in version 2: those whose last datagram was of it. Of a peer beyond the
/// number of peers nothing is noted.
#[derive(Drop)]
pub struct Versions {
    twos: Vec<bool>,
}

impl Model for Versions {
    ghost use Rattle.std.specs.Prelude.{List, Bool};

    ghost Value = { List Bool };

    ghost view = { λ v. v.twos.items };
}

impl Versions {
    ghost use Rattle.std.specs.Prelude.{◌≡◌, IfOk, ℕ, false, length};
    ghost use Rattle.share_welcomes.specs.Versions as spec;

    /// Returns what is known of this many peers before any datagram came. Fails if memory is
    /// refused.
    pub fn unheard(alloc: Global, peers: usize) -> Result<Versions, AllocError>
        ensures none { IfOk result (λ v. (peer : ℕ) → spec.is_two v peer ≡ false) }
        ensures peers { IfOk result (λ v. length v ≡ peers) }
    {
        let twos = vec![in alloc; false; peers]?;
        Ok(Versions { twos })
    }

    /// Notes that a datagram of a peer was of version 2, or not.
    pub fn note(&mut self, peer: u16, is_two: bool)
        ensures { self.new ≡ spec.noted self.old peer is_two }
    {
        let place = peer as usize;
        if place < self.twos.len() {
            self.twos[place] = is_two;
        }
    }

    /// Reports whether a peer is answered in version 2.
    pub fn is_two(&self, peer: u16) -> bool
        ensures { result ≡ spec.is_two self.now peer }
    {
        match self.twos.get(peer as usize) {
            Some(is_two) => *is_two,
            None => false,
        }
    }
}
