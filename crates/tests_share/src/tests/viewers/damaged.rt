//! Damaged datagrams. A refused one leaves a host and a viewer unchanged.

use super::given::{CLOCKED, MARK, POINT, Trial, clock_packet, take_clock, try_on};
use super::hosting::{ack_packet, offer_packet};
use super::memory::is_unchanged;
use script_boxes::StockScript;
use share_core::{Host, Viewer};
use share_law::{HostFault, HostReply, TakeFault, Taken};
use share_wire::{Ack, Ask, Body, Message, Packet, decode, encode};
use std::alloc::Global;
use std::process::Abort;

/// The visible state of a peer: three counts, and two packets that it sends.
type Shown = ([u64; 3], Option<Packet>, Option<Packet>);

/// A host or a viewer.
trait Peer {
    /// Reports whether the peer refuses these bytes, which are not a datagram or are one of another
    /// scene.
    fn refuses(&mut self, bytes: &[u8]) -> bool;

    fn shown(&self) -> Shown;
}

impl Peer for Host {
    fn refuses(&mut self, bytes: &[u8]) -> bool {
        let wanted = match decode(bytes) {
            Ok(_) => HostFault::WrongScene,
            Err(fault) => HostFault::Wire(fault),
        };
        self.take(bytes) == Err(wanted)
    }

    fn shown(&self) -> Shown {
        let counts = [self.len(), u64::from(self.viewers()), 0];
        (counts, ack_packet(self), self.packet(1))
    }
}

impl Peer for Viewer<StockScript> {
    fn refuses(&mut self, bytes: &[u8]) -> bool {
        let wanted = match decode(bytes) {
            Ok(_) => TakeFault::WrongScene,
            Err(fault) => TakeFault::Wire(fault),
        };
        self.take(bytes) == Err(wanted)
    }

    fn shown(&self) -> Shown {
        let counts = [
            self.applied(),
            u64::from(self.boot()),
            u64::from(self.waiting()),
        ];
        (counts, Some(self.ask()), self.resend(0))
    }
}

/// Reports whether a peer refuses these bytes and is unchanged. A datagram of the peer's scene
/// counts as right.
fn stays<N: Peer>(peer: &mut N, bytes: &[u8]) -> bool {
    if let Ok(message) = decode(bytes) {
        if message.mark == MARK {
            return true;
        }
    }
    let before = peer.shown();
    peer.refuses(bytes) && peer.shown() == before
}

/// Returns the packet with these bits of one byte flipped.
fn flipped(packet: &Packet, at: usize, bits: u8) -> Packet {
    let mut out = Packet::new();
    for (place, byte) in packet.as_slice().iter().enumerate() {
        let new = if place == at { *byte ^ bits } else { *byte };
        let _fits = out.try_push(new);
    }
    out
}

/// Reports whether `stays` holds of a packet that is cut short after this many bytes, and of the
/// packet with each bit of the next byte flipped.
fn stays_at<N: Peer>(peer: &mut N, packet: &Packet, at: usize) -> bool {
    for bits in [1, 2, 4, 8, 16, 32, 64, 128] {
        if !stays(peer, flipped(packet, at, bits).as_slice()) {
            return false;
        }
    }
    let mut front = Packet::new();
    for byte in packet.as_slice().iter().take(at) {
        let _fits = front.try_push(*byte);
    }
    stays(peer, front.as_slice())
}

/// Reports whether `stays` holds of each damage of a packet.
fn refuses_damage<N: Peer>(peer: &mut N, packet: &Packet) -> bool {
    for at in 0..packet.len() {
        if !stays_at(peer, packet, at) {
            return false;
        }
    }
    true
}

/// Returns the packet of a message of the scene.
fn packet_of(body: Body) -> Packet {
    encode(&Message { mark: MARK, body })
}

/// Reports whether `stays` holds of each damage of a packet of each kind.
fn refuses_all<N: Peer>(peer: &mut N) -> bool {
    let Some(clock) = clock_packet(2) else {
        return false;
    };
    refuses_damage(peer, &clock)
        && refuses_damage(peer, &offer_packet())
        && refuses_damage(peer, &packet_of(Body::Ask(Ask::new(1, 1))))
        && refuses_damage(peer, &packet_of(Body::Ack(Ack::new(0, 1, 1))))
}

/// There is no viewer 2. An undamaged packet is taken afterwards.
fn is_numbered(host: &mut Host) -> bool {
    let stranger = packet_of(Body::Ask(Ask::new(2, 1)));
    host.clock(1) == Ok(1)
        && refuses_all(host)
        && host.take(stranger.as_slice()) == Err(HostFault::BadViewer)
        && host.take(offer_packet().as_slice()) == Ok(HostReply::Numbered(2))
}

#[test]
fn damaged_datagrams_leave_a_host(rt: HostRuntime) {
    let mut host = Host::new(rt.alloc(), MARK, 2);
    let numbered = is_numbered(&mut host);
    drop(host);
    assert!(rt; numbered);
}

/// A viewer with a waiting offer.
struct Damages;

impl Trial for Damages {
    fn holds(&self, alloc: Global, viewer: &mut Viewer<StockScript>, shot: &[u8]) -> bool {
        viewer.offer(POINT) == Ok(1)
            && refuses_all(viewer)
            && is_unchanged(alloc, viewer, shot)
            && take_clock(viewer, 2) == Some(Ok(Taken::Applied(1)))
    }
}

#[test]
fn damaged_datagrams_leave_a_viewer(rt: HostRuntime) {
    try_on(&rt, rt.alloc(), CLOCKED, 1, &Damages);
}
