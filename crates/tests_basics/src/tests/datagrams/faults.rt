//! Which fault of a datagram is reported first, and the messages of faults.

use super::super::{Row, Said, all_hold};
use super::{Of, bytes_of, with};
use share_wire::{Packet, WireFault, decode, encode};
use std::alloc::Global;
use std::process::Abort;

const ZERO: &[u8] = &[0; 4];

const LARGEST: &[u8] = &[255; 4];

/// 10^18, and one more.
const LATEST: &[u8] = b"\x0d\xe0\xb6\xb3\xa7\x64\x00\x00";

const TOO_LATE: &[u8] = b"\x0d\xe0\xb6\xb3\xa7\x64\x00\x01";

/// 10^15 and -10^15, and one further out.
const FAR: &[u8] = b"\x00\x03\x8d\x7e\xa4\xc6\x80\x00";

const TOO_FAR: &[u8] = b"\x00\x03\x8d\x7e\xa4\xc6\x80\x01";

const FAR_BACK: &[u8] = b"\xff\xfc\x72\x81\x5b\x39\x80\x00";

const TOO_FAR_BACK: &[u8] = b"\xff\xfc\x72\x81\x5b\x39\x7f\xff";

/// 2^20, which has 4 bytes as the number of an input, and the numbers after it, which have 8.
const SHORT: &[u8] = b"\x00\x00\x00\x00\x00\x10\x00\x00";

const FIRST_LONG: &[u8] = b"\x00\x00\x00\x00\x00\x10\x00\x01";

const FIRST_LONG_NEXT: &[u8] = b"\x00\x00\x00\x00\x00\x10\x00\x02";

/// 2^48 - 1, the number of the last input, and the numbers after it.
const LAST_NUMBER: &[u8] = b"\x00\x00\xff\xff\xff\xff\xff\xff";

const BEYOND: &[u8] = b"\x00\x01\x00\x00\x00\x00\x00\x00";

const BEYOND_NEXT: &[u8] = b"\x00\x01\x00\x00\x00\x00\x00\x01";

const NO_DIRECTION: &[u8] = &[0; 24];

/// A datagram, other bytes and their place in it, and the fault that they cause, if any.
struct Changed(Of, usize, &'static [u8], Option<WireFault>);

/// Reports whether the bytes are a datagram and are written again, or are refused with this fault.
fn is_told(changed: &Packet, fault: Option<WireFault>) -> bool {
    match decode(changed.as_slice()) {
        Ok(message) => fault.is_none() && encode(&message) == *changed,
        Err(other) => Some(other) == fault,
    }
}

impl Row for Changed {
    fn holds(&self, _alloc: Global) -> bool {
        is_told(&with(bytes_of(self.0), self.1, self.2), self.3)
    }
}

static CHANGED: [Changed; 115] = [
    // the head
    Changed(Of::Ask, 0, b"X3DW", Some(WireFault::BadPacket)),
    Changed(Of::Ask, 3, b"T\x02", Some(WireFault::BadPacket)),
    Changed(Of::Ask, 4, b"\x00", Some(WireFault::BadVersion)),
    Changed(Of::Ask, 4, b"\x02", Some(WireFault::BadVersion)),
    Changed(Of::Ask, 4, b"\x02\x09", Some(WireFault::BadVersion)),
    Changed(Of::Ask, 5, b"\x00", Some(WireFault::BadTag)),
    Changed(Of::Ask, 5, b"\x07", Some(WireFault::BadTag)),
    Changed(Of::Ask, 5, b"\x08", Some(WireFault::BadTag)),
    Changed(Of::Ask, 5, b"\x0a", Some(WireFault::BadPacket)),
    Changed(Of::Ask, 5, b"\x0d", Some(WireFault::BadTag)),
    Changed(Of::LongAsk, 5, b"\x03", Some(WireFault::BadPacket)),
    Changed(Of::Ask, 6, b"\x00\xff", None),
    // inputs
    Changed(Of::Clock, 38, ZERO, Some(WireFault::BadRange)),
    Changed(Of::Clock, 38, b"\x00\x10\x00\x00", None),
    Changed(
        Of::Clock,
        38,
        b"\x00\x10\x00\x01",
        Some(WireFault::BadRange),
    ),
    Changed(Of::Clock, 42, &[0; 8], Some(WireFault::BadRange)),
    Changed(Of::Clock, 42, b"\x00\x00\x00\x00\x00\x00\x00\x01", None),
    Changed(Of::Clock, 42, LATEST, None),
    Changed(Of::Clock, 42, TOO_LATE, Some(WireFault::BadRange)),
    Changed(Of::Clock, 42, &[255; 8], Some(WireFault::BadRange)),
    Changed(Of::Clock, 50, b"\x02", Some(WireFault::BadRange)),
    Changed(Of::Pointer, 50, b"\xff", Some(WireFault::BadRange)),
    Changed(Of::Clock, 50, b"\x01", Some(WireFault::BadPacket)),
    Changed(Of::Pointer, 50, b"\x00", Some(WireFault::BadPacket)),
    Changed(Of::Pointer, 38, ZERO, Some(WireFault::BadRange)),
    Changed(Of::Pointer, 42, LATEST, None),
    Changed(Of::Pointer, 42, TOO_LATE, Some(WireFault::BadRange)),
    Changed(Of::Pointer, 77, NO_DIRECTION, Some(WireFault::ZeroRay)),
    // what a pointer of an input has
    Changed(Of::Pointer, 51, b"\x00", None),
    Changed(Of::Pointer, 51, b"\x3f", None),
    Changed(Of::Pointer, 51, b"\x40", Some(WireFault::BadRange)),
    Changed(Of::Pointer, 51, b"\x40\x03", Some(WireFault::BadRange)),
    Changed(Of::Pointer, 52, b"\x00", None),
    Changed(Of::Pointer, 52, b"\x02", Some(WireFault::BadRange)),
    Changed(Of::Pointer, 53, FAR, None),
    Changed(Of::Pointer, 53, TOO_FAR, Some(WireFault::BadRange)),
    Changed(Of::Pointer, 61, FAR_BACK, None),
    Changed(Of::Pointer, 61, TOO_FAR_BACK, Some(WireFault::BadRange)),
    Changed(Of::Pointer, 69, TOO_FAR, Some(WireFault::BadRange)),
    Changed(Of::Pointer, 77, FAR, None),
    Changed(Of::Pointer, 77, TOO_FAR, Some(WireFault::BadRange)),
    Changed(Of::Pointer, 85, FAR_BACK, None),
    Changed(Of::Pointer, 85, TOO_FAR_BACK, Some(WireFault::BadRange)),
    Changed(Of::Pointer, 93, FAR, None),
    Changed(Of::Pointer, 93, TOO_FAR, Some(WireFault::BadRange)),
    Changed(Of::Pointer, 93, b"\x00\x00\x00\x00\x00\x00\x00\x01", None),
    Changed(Of::Pointer, 93, &[0; 8], Some(WireFault::ZeroRay)),
    // offers
    Changed(Of::Offer, 38, b"\x3f", None),
    Changed(Of::Offer, 38, b"\x40", Some(WireFault::BadRange)),
    Changed(Of::Offer, 39, ZERO, Some(WireFault::BadRange)),
    Changed(Of::Offer, 39, b"\x00\x00\x00\x01", None),
    Changed(Of::Offer, 39, LARGEST, None),
    Changed(Of::Offer, 43, ZERO, Some(WireFault::BadRange)),
    Changed(Of::Offer, 43, LARGEST, None),
    Changed(Of::Offer, 47, b"\x02", Some(WireFault::BadRange)),
    Changed(Of::Offer, 48, TOO_FAR, Some(WireFault::BadRange)),
    Changed(Of::Offer, 88, FAR_BACK, None),
    Changed(Of::Offer, 72, NO_DIRECTION, Some(WireFault::ZeroRay)),
    // asks and acks
    Changed(Of::Ask, 38, b"\x3f", None),
    Changed(Of::Ask, 38, b"\x40", Some(WireFault::BadRange)),
    Changed(Of::Ask, 39, ZERO, Some(WireFault::BadRange)),
    Changed(Of::Ask, 39, b"\x00\x00\x00\x01", None),
    Changed(Of::Ask, 39, b"\x00\x10\x00\x01", None),
    Changed(Of::Ask, 39, b"\x00\x10\x00\x02", Some(WireFault::BadRange)),
    Changed(Of::Ack, 38, b"\x00\x00\x00\x00\x00\x00\x00\x00\x00", None),
    Changed(Of::Ack, 38, b"\x40", Some(WireFault::BadRange)),
    Changed(Of::Ack, 39, &[255; 8], None),
    // floors
    Changed(Of::Floor, 38, ZERO, Some(WireFault::BadRange)),
    Changed(Of::Floor, 38, b"\x00\x00\x00\x01", None),
    Changed(Of::Floor, 38, b"\x00\x10\x00\x01", None),
    Changed(
        Of::Floor,
        38,
        b"\x00\x10\x00\x02",
        Some(WireFault::BadRange),
    ),
    // pieces: the boot, the inputs applied, the length, the number
    Changed(Of::Last, 38, ZERO, Some(WireFault::BadRange)),
    Changed(Of::Last, 38, LARGEST, None),
    Changed(Of::Last, 42, ZERO, None),
    Changed(Of::Last, 42, b"\x00\x10\x00\x00", None),
    Changed(Of::Last, 42, b"\x00\x10\x00\x01", Some(WireFault::BadRange)),
    // 84 bytes, and 85 in one piece that begins at byte 0
    Changed(
        Of::Last,
        46,
        b"\x00\x00\x00\x54\x00\x00\x00\x00",
        Some(WireFault::BadRange),
    ),
    Changed(
        Of::Last,
        46,
        b"\x00\x00\x00\x55\x00\x00\x00\x00",
        Some(WireFault::BadPacket),
    ),
    // 384 bytes end before a third piece, and 385 have one of a byte
    Changed(Of::Last, 46, b"\x00\x00\x01\x80", Some(WireFault::BadRange)),
    Changed(
        Of::Last,
        46,
        b"\x00\x00\x01\x81",
        Some(WireFault::BadPacket),
    ),
    Changed(
        Of::Last,
        46,
        b"\x00\x00\x01\x87",
        Some(WireFault::BadPacket),
    ),
    Changed(
        Of::Last,
        46,
        b"\x00\x00\x01\x89",
        Some(WireFault::BadPacket),
    ),
    // 2^26 bytes, and one more; a number whose 192-fold has more than 32 bits
    Changed(Of::Full, 46, b"\x04\x00\x00\x00", None),
    Changed(Of::Full, 46, b"\x04\x00\x00\x01", Some(WireFault::BadRange)),
    Changed(Of::Full, 46, b"\x04\x00\x00\x00\x00\x05\x55\x54", None),
    Changed(
        Of::Full,
        46,
        b"\x04\x00\x00\x00\x00\x05\x55\x55",
        Some(WireFault::BadPacket),
    ),
    Changed(
        Of::Full,
        46,
        b"\x04\x00\x00\x00\x00\x05\x55\x56",
        Some(WireFault::BadRange),
    ),
    Changed(Of::Full, 50, b"\x01\x55\x55\x56", Some(WireFault::BadRange)),
    Changed(Of::Full, 50, b"\x00\x00\x00\x00", None),
    Changed(
        Of::Full,
        50,
        b"\x00\x00\x00\x02",
        Some(WireFault::BadPacket),
    ),
    Changed(Of::Full, 50, b"\x00\x00\x00\x03", Some(WireFault::BadRange)),
    Changed(Of::Full, 54, b"\x00\xff", None),
    // numbers of 8 bytes
    Changed(Of::LongClock, 38, SHORT, Some(WireFault::BadRange)),
    Changed(Of::LongClock, 38, FIRST_LONG, None),
    Changed(Of::LongClock, 38, LAST_NUMBER, None),
    Changed(Of::LongClock, 38, BEYOND, Some(WireFault::BadRange)),
    Changed(Of::LongPointer, 38, SHORT, Some(WireFault::BadRange)),
    Changed(Of::LongPointer, 38, FIRST_LONG, None),
    Changed(Of::LongPointer, 38, LAST_NUMBER, None),
    Changed(Of::LongPointer, 38, BEYOND, Some(WireFault::BadRange)),
    Changed(Of::LongLast, 42, SHORT, Some(WireFault::BadRange)),
    Changed(Of::LongLast, 42, FIRST_LONG, None),
    Changed(Of::LongLast, 42, LAST_NUMBER, None),
    Changed(Of::LongLast, 42, BEYOND, Some(WireFault::BadRange)),
    Changed(Of::LongAsk, 39, FIRST_LONG, Some(WireFault::BadRange)),
    Changed(Of::LongAsk, 39, FIRST_LONG_NEXT, None),
    Changed(Of::LongAsk, 39, BEYOND, None),
    Changed(Of::LongAsk, 39, BEYOND_NEXT, Some(WireFault::BadRange)),
    Changed(Of::LongFloor, 38, FIRST_LONG, Some(WireFault::BadRange)),
    Changed(Of::LongFloor, 38, FIRST_LONG_NEXT, None),
    Changed(Of::LongFloor, 38, BEYOND, None),
    Changed(Of::LongFloor, 38, BEYOND_NEXT, Some(WireFault::BadRange)),
    Changed(Of::LongClock, 46, TOO_LATE, Some(WireFault::BadRange)),
    Changed(Of::LongPointer, 55, b"\x40", Some(WireFault::BadRange)),
    Changed(Of::LongPointer, 81, NO_DIRECTION, Some(WireFault::ZeroRay)),
];

#[test]
fn the_first_fault_is_told(rt: HostRuntime) {
    all_hold(&rt, rt.alloc(), &CHANGED);
}

static SENTENCES: [Said<WireFault>; 5] = [
    Said(
        WireFault::BadPacket,
        "the bytes are not those of a datagram",
    ),
    Said(
        WireFault::BadVersion,
        "the version of the datagram is not 1",
    ),
    Said(WireFault::BadTag, "the tag of the datagram is unknown"),
    Said(
        WireFault::BadRange,
        "a field of the datagram is out of range",
    ),
    Said(WireFault::ZeroRay, "the direction is 0 0 0"),
];

#[test]
fn faults_have_sentences(rt: HostRuntime) {
    all_hold(&rt, rt.alloc(), &SENTENCES);
}
