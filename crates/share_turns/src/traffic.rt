//! What passed through a port.

ghost use Rattle.std.specs.Prelude.{◌≡◌, ◌≤◌, length};
ghost use Rattle.share_turns.specs.Told.{max_received};

use crate::port::RECEIVED;
use arrayvec::ArrayVec;
use std::marker::Model;

/// The bytes of a datagram, at most 289.
#[derive(Debug, Drop)]
pub struct Bytes {
    items: ArrayVec<u8, RECEIVED>,
}

impl Model for Bytes {
    ghost use Rattle.std.specs.Prelude.{List, ℕ};

    ghost Value = { List ℕ };

    ghost view = { λ bytes. bytes.items.items };
}

impl Bytes {
    /// Copies a slice of at most 289 bytes.
    pub fn from_slice(bytes: &[u8]) -> Bytes
        requires { length bytes.now ≤ max_received }
        ensures { result ≡ bytes.now }
    {
        let mut items = ArrayVec::new();
        let _fits = items.try_extend_from_slice(bytes);
        Bytes { items }
    }

    /// Returns the bytes as a slice.
    pub fn as_slice(&self) -> &[u8]
        ensures bytes { result.now ≡ self.now }
        ensures most { length result.now ≤ max_received }
    {
        self.items.as_slice()
    }
}

/// A datagram, and the peer that it came from or went to.
#[derive(Debug, Drop)]
pub struct Datagram {
    pub peer: u16,
    pub bytes: Bytes,
}

/// What a port records of one call that didn't fail.
#[derive(Debug, Drop)]
pub enum Traffic {
    /// A datagram was received.
    Received(Datagram),
    /// A receive for which nothing had arrived.
    Nothing,
    /// A datagram was sent.
    Sent(Datagram),
}
