//! The host by hand: with more inputs than 4 bytes number in datagrams, and with memory that is
//! refused.

use super::given::MARK;
use share_core::Host;
use share_law::{HostFault, HostReply, NumberFault};
use share_wire::{Body, Message, Offer, Packet, encode};
use std::alloc::Global;
use std::mem;
use std::process::Abort;
use tests_memory::{Outcome, Spared, UsedUp, is_refused_until_enough};
use x3d_values::{MAX_SHORT_NUMBER, Pointer, Ray, Vec3};

/// Numbers clocks from one number to another, each at as many microseconds.
fn number_clocks(host: &mut Host, first: u32, last: u32) -> Result<(), NumberFault> {
    for number in first..=last {
        host.clock(i64::from(number))?;
    }
    Ok(())
}

/// Returns the length of the datagram of this input, or 0 if there is none.
fn packet_len(host: &Host, number: u64) -> usize {
    match host.packet(number) {
        Some(packet) => packet.len(),
        None => 0,
    }
}

/// The number of a clock has 4 bytes up to 2^20, and then 8.
#[test]
fn a_world_has_more_than_2_to_the_20_inputs(rt: HostRuntime) {
    let mut host = Host::new(rt.alloc(), MARK, 64);
    let numbered = number_clocks(&mut host, 1, (1 << 20) + 1);
    let count = host.len();
    let lens = (packet_len(&host, 1 << 20), packet_len(&host, count));
    drop(host);
    assert!(rt; numbered == Ok(()) && count == MAX_SHORT_NUMBER + 1);
    assert!(rt; lens == (51, 55));
}

/// Returns the first offer of viewer 1, in its boot 1.
pub(super) fn offer_packet() -> Packet {
    let origin = Vec3 { x: 0, y: 0, z: 0 };
    let ray = Ray::new(origin, Vec3 { x: 0, y: 0, z: 1 });
    let body = Body::Offer(Offer::new(1, 1, Pointer::new(1, true, ray)));
    encode(&Message { mark: MARK, body })
}

/// Replaces a host by one without inputs.
pub(super) fn begin(alloc: Global, host: &mut Host) {
    drop(mem::replace(host, Host::new(alloc, MARK, 2)));
}

/// Returns the ack for the offers of viewer 1, if the host has a viewer 1.
pub(super) fn ack_packet(host: &Host) -> Option<Packet> {
    if host.viewers() < 2 {
        return None;
    }
    Some(host.ack(1))
}

/// Numbers `before` clocks, and then an offer or another clock. If that is refused nothing is
/// numbered, and the same is numbered once there is memory again.
#[derive(Clone, Copy)]
struct Numbering {
    before: u32,
    is_offer: bool,
}

impl Numbering {
    fn number(self, host: &mut Host) -> Result<HostReply, HostFault> {
        if self.is_offer {
            return host.take(offer_packet().as_slice());
        }
        match host.clock(i64::from(self.before).saturating_add(1)) {
            Ok(number) => Ok(HostReply::Numbered(number)),
            Err(fault) => Err(HostFault::Number(fault)),
        }
    }
}

impl Spared<Host> for Numbering {
    fn work(&self, alloc: Global, host: &mut Host, memory: &mut UsedUp) -> Outcome {
        let before = self.before;
        begin(alloc, host);
        let ready = number_clocks(host, 1, before).is_ok();
        let ack = ack_packet(host);
        memory.run_short();
        let answer = self.number(host);
        memory.come_back();
        let numbered = Ok(HostReply::Numbered(u64::from(before).saturating_add(1)));
        let refused = answer == Err(HostFault::Number(NumberFault::Memory));
        let stands = !refused
            || (host.len() == u64::from(before)
                && ack_packet(host) == ack
                && self.number(host) == numbered);
        Outcome::of(answer == numbered, refused).where_so(ready && stands)
    }
}

/// The first growth of the list makes room for four.
static NUMBERINGS: [Numbering; 4] = [
    Numbering {
        before: 0,
        is_offer: false,
    },
    Numbering {
        before: 4,
        is_offer: false,
    },
    Numbering {
        before: 0,
        is_offer: true,
    },
    Numbering {
        before: 4,
        is_offer: true,
    },
];

#[test]
fn a_refused_growth_numbers_nothing(rt: HostRuntime) {
    let mut host = Host::new(rt.alloc(), MARK, 2);
    let mut refused = true;
    for next in &NUMBERINGS {
        refused &= is_refused_until_enough(rt.alloc(), next, &mut host, 10);
    }
    drop(host);
    assert!(rt; refused);
}
