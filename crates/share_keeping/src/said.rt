//! What a datagram says of joining.

ghost use Rattle.std.specs.Prelude.{◌≡◌, Option, Ok};
ghost use Rattle.share_wire.specs.Decoding.{decoded};
ghost use Rattle.share_keeping.specs.Said as spec;

use share_wire::{Ask, Body, decode};

/// What a datagram says of joining.
#[derive(Clone, Copy, PartialEq, Eq)]
pub(crate) enum Said {
    /// A seat asks for input 1.
    Joins(u8),
    /// A seat asks for a later input.
    GoesOn(u8),
    /// The host has inputs from this number on.
    HasFrom(u64),
    Nothing,
}

fn asked(ask: &Ask) -> Said
    ensures { result ≡ spec.asked ask.now }
{
    if ask.next() == 1 {
        Said::Joins(ask.who())
    } else {
        Said::GoesOn(ask.who())
    }
}

fn said_by(body: &Body) -> Said
    ensures { result ≡ spec.said_by body.now }
{
    match body {
        Body::Ask(ask) => asked(ask),
        Body::Floor(floor) => Said::HasFrom(floor.number()),
        Body::Input(_) => Said::Nothing,
        Body::Offer(_) => Said::Nothing,
        Body::Ack(_) => Said::Nothing,
        Body::Piece(_) => Said::Nothing,
    }
}

fn is_same(mark: &[u8; 32], other: &[u8; 32]) -> bool
    ensures { result ≡ spec.is_same mark.now other.now }
{
    mark == other
}

/// Returns what the bytes of a datagram say of joining, in the scene with this mark.
pub(crate) fn says(mark: &[u8; 32], bytes: &[u8]) -> Said
    ensures { result ≡ spec.said_in mark.now (decoded bytes.now) }
{
    match decode(bytes) {
        Ok(message) => {
            if is_same(&message.mark, mark) {
                said_by(&message.body)
            } else {
                Said::Nothing
            }
        }
        Err(_) => Said::Nothing,
    }
}
