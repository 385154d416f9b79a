//! The messages of version 2.

use crate::name::WorldName;
use crate::numbers::{Number, SeatNumber, ViewerCount};
use crate::piece::Piece2;
use crate::run::{Run, Session};
use share_entries::{Chain, Entry};
use share_wire::{Ack, Offer};

/// An input of a log, with the chain before it.
#[derive(Clone, Copy, PartialEq, Eq)]
pub struct Input2 {
    pub chain: Chain,
    pub number: Number,
    pub entry: Entry,
}

/// A viewer's request for the inputs from `next` on.
#[derive(Clone, Copy, PartialEq, Eq)]
pub struct Ask2 {
    pub who: SeatNumber,
    pub next: Number,
}

/// The body of a message in a session: as in version 1, except that inputs and pieces have chains. A
/// floor is the number of the first input that the host still has.
#[derive(Clone, Copy, PartialEq, Eq)]
pub enum Body2 {
    Input(Input2),
    Offer(Offer),
    Ask(Ask2),
    Ack(Ack),
    Floor(Number),
    Piece(Piece2),
}

/// A viewer's first message to a host, and its answer to a Welcome that brought a cookie.
#[derive(Clone, Copy, PartialEq, Eq)]
pub struct Hello {
    /// The scene's SHA-256.
    pub mark: [u8; 32],
    pub who: SeatNumber,
    /// The cookie of the host's last Welcome, at first zeros.
    pub cookie: [u8; 8],
    /// Drawn at random by the viewer; the Welcome repeats it.
    pub nonce: [u8; 16],
    pub name: WorldName,
}

/// The host's answer to a Hello.
#[derive(Clone, Copy, PartialEq, Eq)]
pub struct Welcome {
    /// The scene's SHA-256.
    pub mark: [u8; 32],
    pub who: SeatNumber,
    /// What the viewer's next Hello has to bring.
    pub cookie: [u8; 8],
    /// That of the Hello.
    pub nonce: [u8; 16],
    pub run: Run,
    pub viewers: ViewerCount,
    /// The boot that the host keeps of the viewer, or 0.
    pub kept: u32,
}

/// A message of version 2.
#[derive(Clone, Copy, PartialEq, Eq)]
pub enum Message2 {
    /// A body in a session.
    Said(Session, Body2),
    Hello(Hello),
    Welcome(Welcome),
}
