//! A host's port over a port in memory.

use crate::{HostPort, HostRun};
use share_entries::{Base, Chain, Entry, Source, link};
use share_logged::Learns;
use share_rules::SeatCount;
use share_session::{
    Ask2, Body2, Hello, Message2, Number, Run, SeatNumber, ViewerCount, WorldName, decode, encode,
    session_of,
};
use share_turns::{Bytes, Datagram, FakePort, Port, RECEIVED, Traffic};
use share_wire::{Ask, Body, Message, Offer, Piece, encode as encode_one};
use std::alloc::Global;
use std::test::Fail;
use x3d_values::{Cause, Pointer, Stamped, Vec3, is_input_number, is_input_time, ray_of};

const MARK: [u8; 32] = [7; 32];

const RUN: Run = [9; 16];

fn host_run() -> Result<HostRun, Fail> {
    let Some(name) = WorldName::new(b"") else {
        return Err(Fail::from("the empty name is no name"));
    };
    Ok(HostRun::new(MARK, RUN, name, ViewerCount::new(2)))
}

fn hello() -> Result<Hello, Fail> {
    let Some(name) = WorldName::new(b"") else {
        return Err(Fail::from("the empty name is no name"));
    };
    Ok(Hello {
        mark: MARK,
        who: SeatNumber::new(1),
        cookie: [0; 8],
        nonce: [2; 16],
        name,
    })
}

fn ask_in(run: Run) -> Message2 {
    Message2::Said(
        session_of(&MARK, &run),
        Body2::Ask(Ask2 {
            who: SeatNumber::new(1),
            next: Number::new(1),
        }),
    )
}

fn ask_one() -> Message {
    Message {
        mark: MARK,
        body: Body::Ask(Ask::new(1, 1)),
    }
}

/// Lets these bytes come from peer 9.
fn deliver(port: &mut FakePort, bytes: &[u8]) -> Result<(), Fail> {
    if bytes.len() > RECEIVED {
        return Err(Fail::from("too many bytes"));
    }
    let bytes = Bytes::from_slice(bytes);
    match port.deliver(Datagram { peer: 9, bytes }) {
        Ok(()) => Ok(()),
        Err(_refused) => Err(Fail::from("memory was refused")),
    }
}

/// A host's port with these entries, to which these bytes came from peer 9.
fn port_of(alloc: Global, bytes: &[u8], entries: &[Entry]) -> Result<HostPort<FakePort>, Fail> {
    let mut inner = FakePort::failing_at(alloc, 0);
    deliver(&mut inner, bytes)?;
    let Ok(mut port) = HostPort::begin(alloc, inner, host_run()?, 10, &[]) else {
        return Err(Fail::from("memory was refused"));
    };
    if port.learn(entries).is_err() {
        return Err(Fail::from("memory was refused"));
    }
    Ok(port)
}

/// A host's port with one entry, a clock at 5 microseconds, to which these bytes came from peer 9.
fn port_with(alloc: Global, bytes: &[u8]) -> Result<HostPort<FakePort>, Fail> {
    port_of(alloc, bytes, &[Entry::new(5, Source::Clock)])
}

/// Reports whether these bytes are handed on.
fn hands_on(port: &mut HostPort<FakePort>, wanted: &[u8]) -> bool {
    let mut bytes = [0; RECEIVED];
    match port.receive(&mut bytes) {
        Ok(Some((9, count))) => &bytes[..count] == wanted,
        _ => false,
    }
}

/// Reports whether the last datagram that was sent is this one.
fn has_sent(port: &HostPort<FakePort>, wanted: &[u8]) -> bool {
    match port.port().traffic().last() {
        Some(Traffic::Sent(datagram)) => datagram.bytes.as_slice() == wanted,
        _ => false,
    }
}

/// Sends input 1 of version 1 to peer 9.
fn answer(port: &mut HostPort<FakePort>) -> bool {
    let body = Body::Input(Stamped::new(1, 5, Cause::Clock));
    let packet = encode_one(&Message { mark: MARK, body });
    port.send(9, packet.as_slice()).is_ok()
}

#[test]
fn answers_in_version_2(rt: HostRuntime) -> Result<(), Fail> {
    let mut port = port_with(rt.alloc(), encode(&ask_in(RUN)).as_slice())?;
    assert!(rt; hands_on(&mut port, encode_one(&ask_one()).as_slice()));
    assert!(rt; answer(&mut port));
    let Some(Traffic::Sent(datagram)) = port.port().traffic().last() else {
        return Err(Fail::from("nothing was sent"));
    };
    let Ok(Message2::Said(session, Body2::Input(input))) = decode(datagram.bytes.as_slice()) else {
        return Err(Fail::from("no input of version 2 was sent"));
    };
    assert!(rt; session == session_of(&MARK, &RUN));
    assert!(rt; input.chain == RUN && input.number.get() == 1);
    assert!(rt; link(&input.chain, &input.entry) == link(&RUN, &Entry::new(5, Source::Clock)));
    Ok(())
}

#[test]
fn answers_in_version_1(rt: HostRuntime) -> Result<(), Fail> {
    let ask = encode_one(&ask_one());
    let mut port = port_with(rt.alloc(), ask.as_slice())?;
    assert!(rt; hands_on(&mut port, ask.as_slice()));
    assert!(rt; answer(&mut port));
    let body = Body::Input(Stamped::new(1, 5, Cause::Clock));
    let input = encode_one(&Message { mark: MARK, body });
    assert!(rt; has_sent(&port, input.as_slice()));
    Ok(())
}

#[test]
fn welcomes_who_says_hello(rt: HostRuntime) -> Result<(), Fail> {
    let hello = hello()?;
    let packet = encode(&Message2::Hello(hello));
    let mut port = port_with(rt.alloc(), packet.as_slice())?;
    assert!(rt; hands_on(&mut port, packet.as_slice()));
    let welcome = hello.welcome([0; 8], RUN, ViewerCount::new(2), 0);
    assert!(rt; has_sent(&port, encode(&Message2::Welcome(welcome)).as_slice()));
    Ok(())
}

#[test]
fn hears_no_other_run(rt: HostRuntime) -> Result<(), Fail> {
    let packet = encode(&ask_in([8; 16]));
    let mut port = port_with(rt.alloc(), packet.as_slice())?;
    assert!(rt; hands_on(&mut port, packet.as_slice()));
    assert!(rt; share_wire::decode(packet.as_slice()).is_err());
    Ok(())
}

fn at(z: i64) -> Vec3 {
    Vec3 { x: 0, y: 0, z }
}

/// A log of 5,000 inputs, input n at n microseconds: an offer of viewer 1, whose boot is 7, and
/// then clocks.
fn long_log(alloc: Global) -> Result<Vec<Entry>, Fail> {
    let Some(ray) = ray_of(at(5_000_000), at(-1_000_000)) else {
        return Err(Fail::from("this isn't a ray"));
    };
    let offer = Offer::new(7, 1, Pointer::new(1, true, ray));
    let mut log = Vec::new(alloc);
    log.push(Entry::new(1, Source::Offer(offer)))?;
    for number in 2..5_001u16 {
        let time = i64::from(number);
        if !is_input_time(time) {
            return Err(Fail::from("this isn't an input's time"));
        }
        log.push(Entry::new(time, Source::Clock))?;
    }
    Ok(log)
}

/// Returns the chain after the first 4,000 entries, each by `link`.
fn chain_of_most(log: &[Entry]) -> Chain {
    let mut chain = RUN;
    let mut left: u16 = 4_000;
    for entry in log {
        if left == 0 {
            return chain;
        }
        chain = link(&chain, entry);
        left -= 1;
    }
    chain
}

/// Sends a clock of the long log to peer 9.
fn sends(port: &mut HostPort<FakePort>, number: u16) -> bool {
    let (place, time) = (u64::from(number), i64::from(number));
    if !is_input_number(place) || !is_input_time(time) {
        return false;
    }
    let body = Body::Input(Stamped::new(place, time, Cause::Clock));
    let packet = encode_one(&Message { mark: MARK, body });
    port.send(9, packet.as_slice()).is_ok()
}

/// Sends a piece of a snapshot with 3,999 inputs to peer 9, or with 4,000.
fn sends_piece(port: &mut HostPort<FakePort>, is_later: bool) -> bool {
    let applied = if is_later { 4_000 } else { 3_999 };
    let body = Body::Piece(Piece::new(1, applied, 193, 1, &[0]));
    let packet = encode_one(&Message { mark: MARK, body });
    port.send(9, packet.as_slice()).is_ok()
}

/// Returns the chain in a message, if it has one.
fn chain_in(message: &Message2) -> Option<Chain> {
    match message {
        Message2::Said(_, Body2::Input(input)) => Some(input.chain),
        Message2::Said(_, Body2::Piece(piece)) => Some(piece.head().chain),
        _ => None,
    }
}

/// Returns the chain in the datagram that was sent last, if it has one.
fn sent_chain(port: &HostPort<FakePort>) -> Option<Chain> {
    let Some(Traffic::Sent(datagram)) = port.port().traffic().last() else {
        return None;
    };
    let Ok(message) = decode(datagram.bytes.as_slice()) else {
        return None;
    };
    chain_in(&message)
}

#[test]
fn drops_the_entries_below_a_floor(rt: HostRuntime) -> Result<(), Fail> {
    let log = long_log(rt.alloc())?;
    let mut port = port_of(rt.alloc(), encode(&ask_in(RUN)).as_slice(), &log)?;
    assert!(rt; hands_on(&mut port, encode_one(&ask_one()).as_slice()));
    port.drop_below(4_001);
    assert!(rt; !sends(&mut port, 2) && !sends(&mut port, 4_000));
    assert!(rt; sends(&mut port, 4_001));
    assert!(rt; sent_chain(&port) == Some(chain_of_most(&log)));
    assert!(rt; sends(&mut port, 5_000) && !sends(&mut port, 5_001));
    assert!(rt; !sends_piece(&mut port, false) && sends_piece(&mut port, true));
    assert!(rt; sent_chain(&port) == Some(chain_of_most(&log)));
    Ok(())
}

#[test]
fn drops_nothing_for_few_entries(rt: HostRuntime) -> Result<(), Fail> {
    let log = long_log(rt.alloc())?;
    let mut port = port_of(rt.alloc(), encode(&ask_in(RUN)).as_slice(), &log)?;
    assert!(rt; hands_on(&mut port, encode_one(&ask_one()).as_slice()));
    port.drop_below(2_001);
    assert!(rt; sends(&mut port, 2) && sends(&mut port, 5_000));
    Ok(())
}

#[test]
fn keeps_the_boots_of_dropped_offers(rt: HostRuntime) -> Result<(), Fail> {
    let hello = hello()?;
    let packet = encode(&Message2::Hello(hello));
    let log = long_log(rt.alloc())?;
    let mut port = port_of(rt.alloc(), packet.as_slice(), &log)?;
    port.drop_below(4_001);
    assert!(rt; hands_on(&mut port, packet.as_slice()));
    let welcome = hello.welcome([0; 8], RUN, ViewerCount::new(2), 7);
    assert!(rt; has_sent(&port, encode(&Message2::Welcome(welcome)).as_slice()));
    Ok(())
}

/// The chain after the entries below `base`.
const BELOW: Chain = [3; 16];

/// A base of 5 entries of a log of two viewers, the first of which has boot 7.
fn base() -> Base {
    let seats = [
        SeatCount { boot: 7, count: 3 },
        SeatCount { boot: 0, count: 0 },
    ];
    Base::new(&seats, 5, 5, BELOW, [4; 32])
}

#[test]
fn begins_from_a_base(rt: HostRuntime) -> Result<(), Fail> {
    let inner = FakePort::failing_at(rt.alloc(), 0);
    let later = [Entry::new(6, Source::Clock)];
    let Ok(port) = HostPort::begin_from(rt.alloc(), inner, host_run()?, 10, &base(), &later) else {
        return Err(Fail::from("memory was refused"));
    };
    let known = &port.learned;
    assert!(rt; known.boot(0) == 7 && known.boot(1) == 0);
    assert!(rt; known.chain(5) == Some(BELOW) && known.chain(4).is_none());
    assert!(rt; known.input(5).is_none());
    let Some(input) = known.input(6) else {
        return Err(Fail::from("input 6 isn't known"));
    };
    assert!(rt; input.chain == BELOW && input.number.get() == 6);
    Ok(())
}
