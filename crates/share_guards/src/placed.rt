//! A port that knows the addresses of its peers.

ghost use Rattle.std.specs.Prelude.{◌≡◌, ℕ, Option, Some};
ghost use Rattle.std.specs.declared.net.socket_addr.SocketAddr.{SocketAddr as Address};
ghost use Rattle.share_guards.specs.Places.{local_place};

use share_sealed::KeyedPort;
use share_turns::UdpPort;
use std::net::{Ipv4Addr, SocketAddr, SocketAddrV4};

/// A port that knows the addresses of its peers.
pub trait Placed {
    // The address that each peer has now.
    ghost place_of: { Self → ℕ → Option Address };

    /// Returns the address of a peer, if it has one.
    fn place(&self, peer: u16) -> Option<SocketAddr>
        ensures { result ≡ place_of self.now peer };
}

impl<P: Placed> Placed for KeyedPort<P> {
    ghost place_of = { λ p peer. P.place_of p.port peer };

    fn place(&self, peer: u16) -> Option<SocketAddr> {
        self.port().place(peer)
    }
}

impl Placed for UdpPort {
    ghost place_of = { λ _ peer. Some (local_place peer) };

    fn place(&self, peer: u16) -> Option<SocketAddr> {
        Some(SocketAddr::V4(SocketAddrV4::new(Ipv4Addr::LOCALHOST, peer)))
    }
}
