//! What a host and a viewer report of what they see, and how much passed.

ghost use Rattle.std.specs.Prelude.{IsTrue};
ghost use Rattle.share_wire.specs.Messages.{is_ordinal};

use app_commands::{Note, Peer, PeerName, Refusal, Watch};
use share_wire::{Ack, Ask, Body, Message, Offer, Packet, Piece, encode};
use std::process::Abort;
use x3d_values::{Pointer, Ray, Vec3};

const MARK: [u8; 32] = [7; 32];

const OTHER: [u8; 32] = [8; 32];

fn packet(mark: [u8; 32], body: Body) -> Packet {
    encode(&Message { mark, body })
}

/// Returns the first offer of viewer 0 in a boot.
fn offer(boot: u32) -> Body
    requires { IsTrue (is_ordinal boot) }
{
    let ray = Ray::new(Vec3 { x: 0, y: 0, z: 0 }, Vec3 { x: 0, y: 0, z: 1 });
    Body::Offer(Offer::new(boot, 1, Pointer::new(0, true, ray)))
}

/// A host of two viewers: each datagram with what the host reports of it.
#[test]
fn a_host_tells_who_comes_and_what_it_drops_once(rt: HostRuntime) {
    let mut watch = Watch::new(MARK, Peer::Host(2), false);
    let ask = packet(MARK, Body::Ask(Ask::new(1, 1)));
    assert!(rt; watch.comes(40, ask.as_slice()) == Some(Note::Viewer(1, PeerName::Port(40))));
    assert!(rt; watch.comes(41, ask.as_slice()) == None);
    let foreign = Some(Note::Dropped(Refusal::Foreign, PeerName::Port(42)));
    assert!(rt; watch.comes(42, b"hello") == foreign && watch.comes(43, b"") == None);
    let other = packet(OTHER, Body::Ask(Ask::new(1, 1)));
    let scene = Some(Note::Dropped(Refusal::WrongScene, PeerName::Port(44)));
    assert!(rt; watch.comes(44, other.as_slice()) == scene);
    let third = packet(MARK, Body::Ask(Ask::new(2, 1)));
    let nobody = Some(Note::Dropped(Refusal::BadViewer, PeerName::Port(45)));
    assert!(rt; watch.comes(45, third.as_slice()) == nobody);
    let late = packet(MARK, offer(2));
    let early = packet(MARK, offer(1));
    assert!(rt; watch.comes(46, late.as_slice()) == Some(Note::Viewer(0, PeerName::Port(46))));
    let old = Some(Note::Dropped(Refusal::OldBoot, PeerName::Port(46)));
    assert!(rt; watch.comes(46, early.as_slice()) == old);
    assert!(rt; watch.comes(46, early.as_slice()) == None && watch.counts().received == 9);
}

#[test]
fn a_host_counts_the_points_that_its_acks_tell(rt: HostRuntime) {
    let mut watch = Watch::new(MARK, Peer::Host(2), false);
    for (boot, count) in [(1, 0), (1, 3), (1, 3), (2, 2)] {
        watch.goes(packet(MARK, Body::Ack(Ack::new(0, boot, count))).as_slice());
    }
    assert!(rt; watch.counts().points == 5 && watch.counts().sent == 4);
    assert!(rt; watch.rests() == None && watch.counts().turns == 1);
}

#[test]
fn a_viewer_tells_of_silence_and_of_a_later_boot(rt: HostRuntime) {
    let mut watch = Watch::new(MARK, Peer::Viewer(3), false);
    for _turn in 1..20 {
        assert!(rt; watch.rests() == None);
    }
    assert!(rt; watch.rests() == Some(Note::NoAnswer) && watch.rests() == None);
    let own = packet(MARK, Body::Ack(Ack::new(0, 3, 1)));
    let later = packet(MARK, Body::Ack(Ack::new(0, 4, 1)));
    assert!(rt; watch.comes(40, own.as_slice()) == None);
    let old = Some(Note::Dropped(Refusal::OldBoot, PeerName::Port(40)));
    assert!(rt; watch.comes(40, later.as_slice()) == old);
}

/// A viewer that joined by pieces asks a host that isn't there, while further pieces come.
#[test]
fn a_viewer_tells_that_no_host_answers_its_asks(rt: HostRuntime) {
    let mut watch = Watch::new(MARK, Peer::Viewer(2), false);
    let piece = packet(MARK, Body::Piece(Piece::new(1, 5, 193, 1, &[0])));
    let ask = packet(MARK, Body::Ask(Ask::new(0, 6)));
    for _turn in 0..30 {
        assert!(rt; watch.comes(41, piece.as_slice()) == None && watch.rests() == None);
    }
    for _turn in 1..20 {
        watch.goes(ask.as_slice());
        assert!(rt; watch.comes(41, piece.as_slice()) == None && watch.rests() == None);
    }
    watch.goes(ask.as_slice());
    assert!(rt; watch.rests() == Some(Note::NoAnswer) && watch.rests() == None);
}
