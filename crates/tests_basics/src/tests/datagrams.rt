//! Datagrams written by hand, and damaged ones.

mod damaged;
mod faults;

use super::{Row, all_hold, holds};
use share_wire::{
    Ack, Ask, Body, Floor, Message, Offer, Packet, Piece, decode, encode, is_piece, piece_count,
    piece_size,
};
use std::alloc::Global;
use std::process::Abort;
use x3d_values::{Cause, Pointer, Ray, Stamped, Vec3};

const MARK: [u8; 32] = *b"abcdefghijklmnopqrstuvwxyzABCDEF";

/// Input 1, a clock at 1 second.
const CLOCK: &[u8] = b"X3DS\x01\x01abcdefghijklmnopqrstuvwxyzABCDEF\
    \x00\x00\x00\x01\x00\x00\x00\x00\x00\x0f\x42\x40\x00";

/// Input 2 at 1 second and 1 microsecond: viewer 3 with its button down, from 0.5 -1 10 in
/// direction 0 0 -1.
const POINTER: &[u8] = b"X3DS\x01\x01abcdefghijklmnopqrstuvwxyzABCDEF\
    \x00\x00\x00\x02\x00\x00\x00\x00\x00\x0f\x42\x41\x01\x03\x01\
    \x00\x00\x00\x00\x00\x07\xa1\x20\xff\xff\xff\xff\xff\xf0\xbd\xc0\
    \x00\x00\x00\x00\x00\x98\x96\x80\
    \x00\x00\x00\x00\x00\x00\x00\x00\x00\x00\x00\x00\x00\x00\x00\x00\
    \xff\xff\xff\xff\xff\xf0\xbd\xc0";

/// The same point with the button up, as offer 7 of boot 258.
const OFFER: &[u8] = b"X3DS\x01\x02abcdefghijklmnopqrstuvwxyzABCDEF\
    \x03\x00\x00\x01\x02\x00\x00\x00\x07\x00\
    \x00\x00\x00\x00\x00\x07\xa1\x20\xff\xff\xff\xff\xff\xf0\xbd\xc0\
    \x00\x00\x00\x00\x00\x98\x96\x80\
    \x00\x00\x00\x00\x00\x00\x00\x00\x00\x00\x00\x00\x00\x00\x00\x00\
    \xff\xff\xff\xff\xff\xf0\xbd\xc0";

/// Viewer 1 asks for the inputs from 4 on.
const ASK: &[u8] = b"X3DS\x01\x03abcdefghijklmnopqrstuvwxyzABCDEF\x01\x00\x00\x00\x04";

/// Viewer 63, in boot 4294967295, has 16909060 of its offers numbered.
const ACK: &[u8] = b"X3DS\x01\x04abcdefghijklmnopqrstuvwxyzABCDEF\
    \x3f\xff\xff\xff\xff\x01\x02\x03\x04";

/// The host has the inputs from 3 on.
const FLOOR: &[u8] = b"X3DS\x01\x05abcdefghijklmnopqrstuvwxyzABCDEF\x00\x00\x00\x03";

/// The last piece, of 8 bytes, of a snapshot of 392 bytes with 2 inputs applied, of boot 1.
const LAST: &[u8] = b"X3DS\x01\x06abcdefghijklmnopqrstuvwxyzABCDEF\
    \x00\x00\x00\x01\x00\x00\x00\x02\x00\x00\x01\x88\x00\x00\x00\x02\
    snapshot";

/// The second piece of that snapshot, 192 bytes.
const FULL: &[u8] = b"X3DS\x01\x06abcdefghijklmnopqrstuvwxyzABCDEF\
    \x00\x00\x00\x01\x00\x00\x00\x02\x00\x00\x01\x88\x00\x00\x00\x01\
    abcdefghijklmnopqrstuvwxyz0123456789ABCDEFGHIJKL\
    abcdefghijklmnopqrstuvwxyz0123456789ABCDEFGHIJKL\
    abcdefghijklmnopqrstuvwxyz0123456789ABCDEFGHIJKL\
    abcdefghijklmnopqrstuvwxyz0123456789ABCDEFGHIJKL";

/// Input 2^20 + 1, a clock at 1 second.
const LONG_CLOCK: &[u8] = b"X3DS\x01\x09abcdefghijklmnopqrstuvwxyzABCDEF\
    \x00\x00\x00\x00\x00\x10\x00\x01\x00\x00\x00\x00\x00\x0f\x42\x40\x00";

/// Input 2^48 - 1, with the point of `POINTER` and its time.
const LONG_POINTER: &[u8] = b"X3DS\x01\x09abcdefghijklmnopqrstuvwxyzABCDEF\
    \x00\x00\xff\xff\xff\xff\xff\xff\x00\x00\x00\x00\x00\x0f\x42\x41\x01\x03\x01\
    \x00\x00\x00\x00\x00\x07\xa1\x20\xff\xff\xff\xff\xff\xf0\xbd\xc0\
    \x00\x00\x00\x00\x00\x98\x96\x80\
    \x00\x00\x00\x00\x00\x00\x00\x00\x00\x00\x00\x00\x00\x00\x00\x00\
    \xff\xff\xff\xff\xff\xf0\xbd\xc0";

/// Viewer 1 asks for the inputs from 2^20 + 2 on.
const LONG_ASK: &[u8] = b"X3DS\x01\x0aabcdefghijklmnopqrstuvwxyzABCDEF\
    \x01\x00\x00\x00\x00\x00\x10\x00\x02";

/// The host has the inputs from 2^48 on, which are none.
const LONG_FLOOR: &[u8] = b"X3DS\x01\x0babcdefghijklmnopqrstuvwxyzABCDEF\
    \x00\x01\x00\x00\x00\x00\x00\x00";

/// The last piece, of 8 bytes, of a snapshot of 392 bytes with 2^48 - 1 inputs applied, of boot 1.
const LONG_LAST: &[u8] = b"X3DS\x01\x0cabcdefghijklmnopqrstuvwxyzABCDEF\
    \x00\x00\x00\x01\x00\x00\xff\xff\xff\xff\xff\xff\x00\x00\x01\x88\x00\x00\x00\x02\
    snapshot";

/// The largest number of an input.
const LAST_INPUT: u64 = (1 << 48) - 1;

/// Returns the ray from 0.5 -1 10 in direction 0 0 -1.
fn ray() -> Ray {
    let origin = Vec3 {
        x: 500_000,
        y: -1_000_000,
        z: 10_000_000,
    };
    let dir = Vec3 {
        x: 0,
        y: 0,
        z: -1_000_000,
    };
    Ray::new(origin, dir)
}

/// Reports whether the message is written as these bytes and read from them.
fn is_both_ways(body: Body, bytes: &[u8]) -> bool {
    let message = Message { mark: MARK, body };
    let written = encode(&message).as_slice() == bytes;
    written && decode(bytes) == Ok(message)
}

/// Returns the piece of this number, with these bytes, of the snapshot of 392 bytes with this many
/// inputs applied.
fn piece_of(applied: u64, index: u32, bytes: &[u8]) -> Option<Body> {
    if !is_piece(1, applied, 392, index) {
        return None;
    }
    if bytes.len() != piece_size(392, index) as usize {
        return None;
    }
    Some(Body::Piece(Piece::new(1, applied, 392, index, bytes)))
}

/// Reports whether that piece is written as these bytes of a datagram and read from them.
fn is_piece_both_ways(applied: u64, index: u32, bytes: &[u8], datagram: &[u8]) -> bool {
    match piece_of(applied, index, bytes) {
        Some(body) => is_both_ways(body, datagram),
        None => false,
    }
}

#[test]
fn each_message_has_its_bytes(rt: HostRuntime) {
    let clock = Stamped::new(1, 1_000_000, Cause::Clock);
    holds(&rt, is_both_ways(Body::Input(clock), CLOCK));
    let pressed = Stamped::new(2, 1_000_001, Cause::Pointer(Pointer::new(3, true, ray())));
    holds(&rt, is_both_ways(Body::Input(pressed), POINTER));
    let offer = Offer::new(258, 7, Pointer::new(3, false, ray()));
    holds(&rt, is_both_ways(Body::Offer(offer), OFFER));
    holds(&rt, is_both_ways(Body::Ask(Ask::new(1, 4)), ASK));
    let ack = Ack::new(63, u32::MAX, 0x0102_0304);
    holds(&rt, is_both_ways(Body::Ack(ack), ACK));
    holds(&rt, is_both_ways(Body::Floor(Floor::new(3)), FLOOR));
    holds(&rt, is_piece_both_ways(2, 2, b"snapshot", LAST));
    holds(
        &rt,
        is_piece_both_ways(2, 1, FULL.get(54..).unwrap_or(b""), FULL),
    );
}

#[test]
fn a_large_number_has_8_bytes(rt: HostRuntime) {
    let clock = Stamped::new((1 << 20) + 1, 1_000_000, Cause::Clock);
    holds(&rt, is_both_ways(Body::Input(clock), LONG_CLOCK));
    let pointer = Cause::Pointer(Pointer::new(3, true, ray()));
    let pressed = Stamped::new(LAST_INPUT, 1_000_001, pointer);
    holds(&rt, is_both_ways(Body::Input(pressed), LONG_POINTER));
    let ask = Ask::new(1, (1 << 20) + 2);
    holds(&rt, is_both_ways(Body::Ask(ask), LONG_ASK));
    let floor = Floor::new(LAST_INPUT + 1);
    holds(&rt, is_both_ways(Body::Floor(floor), LONG_FLOOR));
    holds(
        &rt,
        is_piece_both_ways(LAST_INPUT, 2, b"snapshot", LONG_LAST),
    );
}

/// The length of a snapshot, and the number of its pieces.
struct Counted(u32, u32);

impl Row for Counted {
    fn holds(&self, _alloc: Global) -> bool {
        self.0 <= 1 << 26 && piece_count(self.0) == self.1
    }
}

static COUNTED: [Counted; 6] = [
    Counted(85, 1),
    Counted(192, 1),
    Counted(193, 2),
    Counted(384, 2),
    Counted(392, 3),
    Counted(67_108_864, 349_526),
];

#[test]
fn a_snapshot_has_as_many_pieces(rt: HostRuntime) {
    all_hold(&rt, rt.alloc(), &COUNTED);
}

/// Returns the length of the datagram of the piece of this number with these bytes.
fn datagram_len(index: u32, bytes: &[u8]) -> Option<usize> {
    let body = piece_of(2, index, bytes)?;
    Some(encode(&Message { mark: MARK, body }).len())
}

/// The pieces of a snapshot of 392 bytes have datagrams of 246, 246 and 62 bytes.
#[test]
fn piece_sizes(rt: HostRuntime) {
    holds(&rt, datagram_len(0, &[7; 192]) == Some(246));
    holds(&rt, datagram_len(1, &[7; 192]) == Some(246));
    holds(&rt, datagram_len(2, &[7; 8]) == Some(62));
    holds(&rt, datagram_len(2, &[7; 9]).is_none());
    holds(&rt, datagram_len(3, &[7; 8]).is_none());
}

/// One of the datagrams above.
#[derive(Clone, Copy)]
pub(super) enum Of {
    Clock,
    Pointer,
    Offer,
    Ask,
    Ack,
    Floor,
    Last,
    Full,
    LongClock,
    LongPointer,
    LongAsk,
    LongFloor,
    LongLast,
}

pub(super) fn bytes_of(datagram: Of) -> &'static [u8] {
    match datagram {
        Of::Clock => CLOCK,
        Of::Pointer => POINTER,
        Of::Offer => OFFER,
        Of::Ask => ASK,
        Of::Ack => ACK,
        Of::Floor => FLOOR,
        Of::Last => LAST,
        Of::Full => FULL,
        Of::LongClock => LONG_CLOCK,
        Of::LongPointer => LONG_POINTER,
        Of::LongAsk => LONG_ASK,
        Of::LongFloor => LONG_FLOOR,
        Of::LongLast => LONG_LAST,
    }
}

/// Returns the datagram with other bytes from `at` on.
pub(super) fn with(datagram: &[u8], at: usize, other: &[u8]) -> Packet {
    let mut out = Packet::new();
    for (place, byte) in datagram.iter().enumerate() {
        let new = match place.checked_sub(at) {
            Some(k) => other.get(k),
            None => None,
        };
        let _fits = out.try_push(*new.unwrap_or(byte));
    }
    out
}
