//! A short form of what a datagram says.

use share_session::{Message2, decode as decode_two};
use share_wire::{Ack, Ask, Body, Floor, Offer, decode};
use x3d_values::Stamped;

/// The part of a datagram that a port needs to know to pass it on.
#[derive(Clone, Copy)]
pub(crate) enum Brief {
    /// A viewer asks for the inputs from number `next` on.
    Ask { who: u8, next: u64 },
    /// A viewer offers point `number` of a boot.
    Offer { who: u8, boot: u32, number: u32 },
    /// `count` offers of a viewer's boot are numbered.
    Ack { who: u8, boot: u32, count: u32 },
    /// The input of this number.
    Input { number: u64 },
    /// The host dropped the inputs below this number.
    Floor { number: u64 },
    /// A piece of a snapshot.
    Other,
}

fn of_ask(ask: Ask) -> Brief {
    Brief::Ask {
        who: ask.who(),
        next: ask.next(),
    }
}

fn of_offer(offer: Offer) -> Brief {
    Brief::Offer {
        who: offer.pointer().who(),
        boot: offer.boot(),
        number: offer.number(),
    }
}

fn of_ack(ack: Ack) -> Brief {
    Brief::Ack {
        who: ack.who(),
        boot: ack.boot(),
        count: ack.count(),
    }
}

fn of_input(input: Stamped) -> Brief {
    Brief::Input {
        number: input.number(),
    }
}

fn of_floor(floor: Floor) -> Brief {
    Brief::Floor {
        number: floor.number(),
    }
}

fn of_body(body: Body) -> Brief {
    match body {
        Body::Ask(ask) => of_ask(ask),
        Body::Offer(offer) => of_offer(offer),
        Body::Ack(ack) => of_ack(ack),
        Body::Input(input) => of_input(input),
        Body::Floor(floor) => of_floor(floor),
        Body::Piece(_) => Brief::Other,
    }
}

/// How bytes relate to a run. A port above that of a run sees the run's own datagrams in version 1.
#[derive(Clone, Copy)]
pub(crate) enum Came {
    /// Not a datagram.
    Foreign,
    /// A datagram of another scene.
    Elsewhere,
    /// A datagram of version 2 which isn't of the run.
    OtherRun,
    /// A Hello to a host of the run's scene.
    Hello,
    /// A datagram of the run's own scene.
    Here(Brief),
}

fn is_same(mark: &[u8; 32], other: &[u8; 32]) -> bool {
    mark == other
}

/// Returns how bytes that aren't of version 1 relate to a run of the scene with this mark.
fn how_came_in_two(bytes: &[u8], mark: &[u8; 32]) -> Came {
    match decode_two(bytes) {
        Ok(Message2::Said(_, _)) => Came::OtherRun,
        Ok(Message2::Hello(hello)) => {
            if is_same(&hello.mark, mark) {
                Came::Hello
            } else {
                Came::Elsewhere
            }
        }
        Ok(Message2::Welcome(_)) => Came::Foreign,
        Err(_) => Came::Foreign,
    }
}

/// Returns how bytes relate to a run of the scene with this mark.
pub(crate) fn how_came(bytes: &[u8], mark: &[u8; 32]) -> Came {
    match decode(bytes) {
        Ok(message) => {
            if is_same(&message.mark, mark) {
                Came::Here(of_body(message.body))
            } else {
                Came::Elsewhere
            }
        }
        Err(_) => how_came_in_two(bytes, mark),
    }
}

/// Returns what the bytes of a datagram say, whatever its scene, or `Other` if the bytes are not a
/// datagram.
pub(crate) fn brief_of(bytes: &[u8]) -> Brief {
    match decode(bytes) {
        Ok(message) => of_body(message.body),
        Err(_) => Brief::Other,
    }
}
