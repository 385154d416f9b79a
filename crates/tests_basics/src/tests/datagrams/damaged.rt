//! Datagrams that are cut short, or have a flipped bit.

use super::super::{Row, all_hold};
use super::{Of, bytes_of, with};
use share_wire::{Message, Packet, WireFault, decode, encode};
use std::alloc::Global;
use std::process::Abort;

/// Reports whether the bytes are refused with `BadPacket`.
fn is_no_packet(bytes: &[u8]) -> bool {
    match decode(bytes) {
        Ok(_) => false,
        Err(fault) => fault == WireFault::BadPacket,
    }
}

/// Reports whether every proper prefix of a datagram is refused.
fn fronts_are_refused(datagram: &[u8]) -> bool {
    for len in 0..datagram.len() {
        if !is_no_packet(&datagram[..len]) {
            return false;
        }
    }
    true
}

/// Reports whether bytes with a bit flipped at this place are refused, or are another message's
/// datagram. In the head the fault is known.
fn is_other(changed: &Packet, at: usize, message: &Message) -> bool {
    match decode(changed.as_slice()) {
        Ok(other) => at >= 6 && other != *message && encode(&other) == *changed,
        Err(fault) => match at {
            0..=3 => fault == WireFault::BadPacket,
            4 => fault == WireFault::BadVersion,
            // An offer's tag is a bit away from a piece's, whose ranges are tested before its
            // length.
            5 => {
                fault == WireFault::BadTag
                    || fault == WireFault::BadPacket
                    || fault == WireFault::BadRange
            }
            _ => at >= 38,
        },
    }
}

/// Reports whether `is_other` holds for each bit of this byte.
fn bits_are_told(datagram: &[u8], at: usize, message: &Message) -> bool {
    for bits in [1, 2, 4, 8, 16, 32, 64, 128] {
        let byte = datagram.get(at).copied().unwrap_or(0);
        if !is_other(&with(datagram, at, &[byte ^ bits]), at, message) {
            return false;
        }
    }
    true
}

/// A datagram that is cut short after each byte, or has each bit flipped.
struct Damaged(Of);

impl Row for Damaged {
    fn holds(&self, _alloc: Global) -> bool {
        let datagram = bytes_of(self.0);
        let Ok(message) = decode(datagram) else {
            return false;
        };
        for at in 0..datagram.len() {
            if !bits_are_told(datagram, at, &message) {
                return false;
            }
        }
        fronts_are_refused(datagram)
    }
}

static DAMAGED: [Damaged; 13] = [
    Damaged(Of::Clock),
    Damaged(Of::Pointer),
    Damaged(Of::Offer),
    Damaged(Of::Ask),
    Damaged(Of::Ack),
    Damaged(Of::Floor),
    Damaged(Of::Last),
    Damaged(Of::Full),
    Damaged(Of::LongClock),
    Damaged(Of::LongPointer),
    Damaged(Of::LongAsk),
    Damaged(Of::LongFloor),
    Damaged(Of::LongLast),
];

#[test]
fn damaged_datagram(rt: HostRuntime) {
    all_hold(&rt, rt.alloc(), &DAMAGED);
}
