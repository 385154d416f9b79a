//! Which address each number of a peer is known to have.

ghost use Rattle.std.specs.Prelude.{◌≡◌};
ghost use Rattle.share_guards.specs.Places.{is_at, same_place};

use std::alloc::{AllocError, Global};
use std::marker::Model;
use std::net::SocketAddr;

/// The address of each peer's number that brought back a cookie. A peer of a number for which there
/// is no place is never known.
#[derive(Drop)]
pub struct Known {
    places: Vec<Option<SocketAddr>>,
}

impl Model for Known {
    ghost use Rattle.std.specs.Prelude.{List, Option};
    ghost use Rattle.std.specs.declared.net.socket_addr.SocketAddr.{SocketAddr as Address};

    ghost Value = { List (Option Address) };

    ghost view = { λ k. k.places.items };
}

/// Reports whether two addresses are the same.
pub(crate) fn is_same(one: &SocketAddr, other: &SocketAddr) -> bool
    ensures { result ≡ same_place one.now other.now }
{
    one == other
}

impl Known {
    ghost use Rattle.std.specs.Prelude.{◌≡◌, ℕ, IfOk, None, length};
    ghost use Rattle.share_guards.specs.Places as spec;

    /// Returns what is known before any cookie came back, of peers whose numbers are below `peers`.
    /// Fails if memory is refused.
    pub(crate) fn none(alloc: Global, peers: usize) -> Result<Known, AllocError>
        ensures unknown { IfOk result (λ k. (peer : ℕ) → spec.known_at k peer ≡ None) }
        ensures peers { IfOk result (λ k. length k ≡ peers) }
    {
        let places = vec![in alloc; None; peers]?;
        Ok(Known { places })
    }

    /// Notes that a peer at an address brought back its cookie.
    pub(crate) fn note(&mut self, peer: u16, place: &SocketAddr)
        ensures { self.new ≡ spec.noted self.old peer place.now }
    {
        let number = peer as usize;
        if number >= self.places.len() {
            return;
        }
        self.places[number] = Some(*place);
    }

    /// Returns the address that brought back a cookie at the number of a peer, if one did.
    fn at(&self, peer: u16) -> Option<SocketAddr>
        ensures { result ≡ spec.known_at self.now peer }
    {
        match self.places.get(peer as usize) {
            Some(place) => *place,
            None => None,
        }
    }

    /// Reports whether a peer is known at this address, which it has now.
    pub(crate) fn knows(&self, peer: u16, place: &SocketAddr) -> bool
        ensures { result ≡ spec.knows self.now peer place.now }
    {
        is_at(&self.at(peer), place)
    }
}

/// Reports whether a place is there and is this address.
pub(crate) fn is_at(place: &Option<SocketAddr>, address: &SocketAddr) -> bool
    ensures { result ≡ is_at place.now address.now }
{
    match place {
        Some(other) => is_same(other, address),
        None => false,
    }
}
