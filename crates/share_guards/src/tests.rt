//! A guarded port over a port in memory, in which each peer is at its port of 127.0.0.1.

ghost use Rattle.std.specs.Prelude.{Some};
ghost use Rattle.share_guards.specs.Places.{local_place};

use crate::{Guard, GuardedPort, Kind, Placed};
use share_session::{
    Hello, Message2, Packet2, Run, SeatNumber, ViewerCount, WorldName, decode, encode,
};
use share_turns::{Bytes, Datagram, FakePort, Port, RECEIVED, Traffic};
use std::alloc::Global;
use std::net::{Ipv4Addr, SocketAddr, SocketAddrV4};
use std::test::Fail;

/// Peers below this number become known.
const PEERS: usize = 10;

/// An ask of viewer 3 for the inputs from 1 on, in a session of sixteen bytes 9.
const ASK: [u8; 31] = [
    b'X', b'3', b'D', b'S', 2, 3, 9, 9, 9, 9, 9, 9, 9, 9, 9, 9, 9, 9, 9, 9, 9, 9, 3, 0, 0, 0, 0, 0,
    0, 0, 1,
];

impl Placed for FakePort {
    ghost place_of = { λ _ peer. Some (local_place peer) };

    fn place(&self, peer: u16) -> Option<SocketAddr> {
        Some(SocketAddr::V4(SocketAddrV4::new(Ipv4Addr::LOCALHOST, peer)))
    }
}

fn hello(cookie: [u8; 8]) -> Result<Hello, Fail> {
    let Some(name) = WorldName::new(b"") else {
        return Err(Fail::from("a name isn't made"));
    };
    Ok(Hello {
        mark: [1; 32],
        who: SeatNumber::new(3),
        cookie,
        nonce: [2; 16],
        name,
    })
}

/// The Welcome to a Hello, with zeros as its cookie.
fn welcome(hello: &Hello) -> Packet2 {
    let welcome = hello.welcome([0; 8], [4; 16], ViewerCount::new(5), 0);
    encode(&Message2::Welcome(welcome))
}

fn deliver(port: &mut FakePort, peer: u16, bytes: &[u8]) -> Result<(), Fail> {
    if bytes.len() > RECEIVED {
        return Err(Fail::from("too many bytes"));
    }
    let bytes = Bytes::from_slice(bytes);
    match port.deliver(Datagram { peer, bytes }) {
        Ok(()) => Ok(()),
        Err(_) => Err(Fail::from("memory was refused")),
    }
}

fn guarded(alloc: Global, port: FakePort) -> Result<GuardedPort<FakePort>, Fail> {
    match GuardedPort::new(alloc, port, PEERS, [7; 32], [8; 32]) {
        Ok(port) => Ok(port),
        Err(_) => Err(Fail::from("memory was refused")),
    }
}

/// Reports whether a port hands on a datagram of this many bytes from a peer.
fn hands_on(port: &mut GuardedPort<FakePort>, peer: u16, wanted: usize) -> bool {
    let mut bytes = [0; RECEIVED];
    match port.receive(&mut bytes) {
        Ok(Some((from, count))) => from == peer && count == wanted,
        _ => false,
    }
}

fn hands_on_nothing(port: &mut GuardedPort<FakePort>) -> bool {
    let mut bytes = [0; RECEIVED];
    match port.receive(&mut bytes) {
        Ok(None) => true,
        _ => false,
    }
}

/// Returns the cookie of the Welcome that a port sent last to a peer.
fn sent_cookie(port: &FakePort, peer: u16) -> Option<[u8; 8]> {
    let Some(Traffic::Sent(datagram)) = port.traffic().last() else {
        return None;
    };
    if datagram.peer != peer || datagram.bytes.as_slice().len() != 84 {
        return None;
    }
    match decode(datagram.bytes.as_slice()) {
        Ok(Message2::Welcome(welcome)) => Some(welcome.cookie),
        _ => None,
    }
}

/// The cookie that the port of these tests gives viewer 3 at a port of 127.0.0.1.
fn cookie(alloc: Global, peer: u16) -> Result<[u8; 8], Fail> {
    let mut inner = FakePort::failing_at(alloc, 0);
    let hello = hello([0; 8])?;
    deliver(&mut inner, peer, encode(&Message2::Hello(hello)).as_slice())?;
    let mut port = guarded(alloc, inner)?;
    if !hands_on(&mut port, peer, 128) || port.send(peer, welcome(&hello).as_slice()).is_err() {
        return Err(Fail::from("a Hello isn't answered"));
    }
    match sent_cookie(port.port(), peer) {
        Some(cookie) => Ok(cookie),
        None => Err(Fail::from("no Welcome was sent")),
    }
}

#[test]
fn a_stranger_gets_one_welcome(rt: HostRuntime) -> Result<(), Fail> {
    let hello = hello([0; 8])?;
    let mut inner = FakePort::failing_at(rt.alloc(), 0);
    deliver(&mut inner, 9, &ASK)?;
    deliver(&mut inner, 9, encode(&Message2::Hello(hello)).as_slice())?;
    let mut port = guarded(rt.alloc(), inner)?;
    assert!(rt; port.send(9, welcome(&hello).as_slice()).is_err());
    assert!(rt; hands_on(&mut port, 9, 128));
    assert!(rt; port.dropped() == 1);
    assert!(rt; port.send(9, &ASK).is_err());
    assert!(rt; port.send(8, welcome(&hello).as_slice()).is_err());
    assert!(rt; port.send(9, welcome(&hello).as_slice()).is_ok());
    assert!(rt; port.send(9, welcome(&hello).as_slice()).is_err());
    Ok(())
}

#[test]
fn a_cookie_makes_an_address_known(rt: HostRuntime) -> Result<(), Fail> {
    let hello = hello(cookie(rt.alloc(), 9)?)?;
    let mut inner = FakePort::failing_at(rt.alloc(), 0);
    deliver(&mut inner, 8, encode(&Message2::Hello(hello)).as_slice())?;
    deliver(&mut inner, 8, &ASK)?;
    deliver(&mut inner, 9, encode(&Message2::Hello(hello)).as_slice())?;
    deliver(&mut inner, 9, &ASK)?;
    let mut port = guarded(rt.alloc(), inner)?;
    assert!(rt; hands_on(&mut port, 8, 128));
    assert!(rt; hands_on(&mut port, 9, 128));
    assert!(rt; port.dropped() == 1);
    assert!(rt; hands_on(&mut port, 9, 31));
    assert!(rt; port.send(9, &ASK).is_ok() && port.send(8, &ASK).is_err());
    Ok(())
}

#[test]
fn a_ninth_datagram_of_a_turn_is_dropped(rt: HostRuntime) -> Result<(), Fail> {
    let hello = hello(cookie(rt.alloc(), 9)?)?;
    let mut inner = FakePort::failing_at(rt.alloc(), 0);
    deliver(&mut inner, 9, encode(&Message2::Hello(hello)).as_slice())?;
    for _number in 0..9 {
        deliver(&mut inner, 9, &ASK)?;
    }
    let mut port = guarded(rt.alloc(), inner)?;
    assert!(rt; hands_on(&mut port, 9, 128));
    for _number in 0..8 {
        assert!(rt; hands_on(&mut port, 9, 31));
    }
    assert!(rt; hands_on_nothing(&mut port));
    assert!(rt; port.dropped() == 1);
    Ok(())
}

/// The first or the second of two addresses.
fn place(is_second: bool) -> Option<SocketAddr> {
    let ip = Ipv4Addr::new(192, 0, 2, is_second as u8);
    Some(SocketAddr::V4(SocketAddrV4::new(ip, 5)))
}

/// Returns a guard that knows the first address at number 1.
fn knowing(alloc: Global) -> Result<Guard, Fail> {
    let Ok(mut guard) = Guard::new(alloc, PEERS, [7; 32], [8; 32]) else {
        return Err(Fail::from("memory was refused"));
    };
    let Some(first) = place(false) else {
        return Err(Fail::from("there is no address"));
    };
    let cookie = guard.cookie(&first, 3);
    let _taken = guard.came(1, &Some(first), &Kind::Greets(3, cookie), 128);
    Ok(guard)
}

#[test]
fn another_address_at_a_number_is_not_known(rt: HostRuntime) -> Result<(), Fail> {
    let mut guard = knowing(rt.alloc())?;
    assert!(rt; guard.allows(1, &place(false), false, 250));
    assert!(rt; !guard.allows(1, &place(true), false, 1));
    assert!(rt; !guard.allows(2, &place(false), false, 1));
    assert!(rt; guard.came(1, &place(false), &Kind::Asks(3), 31));
    assert!(rt; !guard.came(1, &place(true), &Kind::Asks(3), 31));
    Ok(())
}

#[test]
fn a_65th_offer_of_a_second_is_dropped(rt: HostRuntime) -> Result<(), Fail> {
    let mut guard = knowing(rt.alloc())?;
    for number in 0..64 {
        assert!(rt; guard.came(1, &place(false), &Kind::Offers(3), 80));
        if number % 8 == 7 {
            guard.pass(100);
        }
    }
    assert!(rt; !guard.came(1, &place(false), &Kind::Offers(3), 80));
    assert!(rt; guard.came(1, &place(false), &Kind::Asks(3), 31));
    guard.pass(200);
    assert!(rt; guard.came(1, &place(false), &Kind::Offers(3), 80));
    assert!(rt; guard.dropped() == 1);
    Ok(())
}
