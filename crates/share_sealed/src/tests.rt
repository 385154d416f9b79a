//! Ports of sealed datagrams over a port in memory. The seals are by Python's hmac.

use crate::{KeyedPort, SealedPort};
use hex::FromHex;
use share_keys::{Key, Keys};
use share_turns::{Bytes, Datagram, FakePort, Port, RECEIVED, Traffic};
use std::alloc::Global;
use std::test::Fail;

/// The bytes 0 to 31.
const KEY: Key = Key {
    bytes: [
        0, 1, 2, 3, 4, 5, 6, 7, 8, 9, 10, 11, 12, 13, 14, 15, 16, 17, 18, 19, 20, 21, 22, 23, 24,
        25, 26, 27, 28, 29, 30, 31,
    ],
};

/// An ask of viewer 3 for the inputs from 1 on, in a session of sixteen bytes 9.
const ASK: [u8; 31] = [
    b'X', b'3', b'D', b'S', 2, 3, 9, 9, 9, 9, 9, 9, 9, 9, 9, 9, 9, 9, 9, 9, 9, 9, 3, 0, 0, 0, 0, 0,
    0, 0, 1,
];

/// Its seal to the host, and from it.
const TO_HOST: &str = "7d30776efb42a8ddb8e0c538f0df6df2";

const FROM_HOST: &str = "66905be6bdc53ce0ad52312ed18ec45a";

/// The ask and a seal.
fn sealed_ask(seal: &str) -> Result<[u8; 47], Fail> {
    let Ok(seal) = <[u8; 16] as FromHex>::from_hex(seal) else {
        return Err(Fail::from("a seal isn't read"));
    };
    let mut bytes = [0; 47];
    bytes[..31].copy_from_slice(&ASK);
    bytes[31..].copy_from_slice(&seal);
    Ok(bytes)
}

fn deliver(port: &mut FakePort, peer: u16, bytes: &[u8]) -> Result<(), Fail> {
    if bytes.len() > RECEIVED {
        return Err(Fail::from("too many bytes"));
    }
    let bytes = Bytes::from_slice(bytes);
    match port.deliver(Datagram { peer, bytes }) {
        Ok(()) => Ok(()),
        Err(_) => Err(Fail::from("memory was refused")),
    }
}

/// The port of a host whose viewer 3 has the key.
fn keyed(alloc: Global, port: FakePort) -> Result<KeyedPort<FakePort>, Fail> {
    let mut keys = Keys::none();
    keys.put(3, KEY);
    match KeyedPort::new(alloc, port, 65_536, keys) {
        Ok(port) => Ok(port),
        Err(_) => Err(Fail::from("memory was refused")),
    }
}

/// Reports whether a port hands on the ask as from a peer.
fn hands_on<P: Port>(port: &mut P, peer: u16) -> bool {
    let mut bytes = [0; RECEIVED];
    match port.receive(&mut bytes) {
        Ok(Some((from, count))) => from == peer && &bytes[..count] == ASK.as_slice(),
        _ => false,
    }
}

/// Reports whether a port hands on nothing.
fn hands_on_nothing<P: Port>(port: &mut P) -> bool {
    let mut bytes = [0; RECEIVED];
    match port.receive(&mut bytes) {
        Ok(None) => true,
        _ => false,
    }
}

/// Reports whether the last datagram that was sent went to a peer, with these bytes.
fn has_sent(port: &FakePort, peer: u16, wanted: &[u8]) -> bool {
    match port.traffic().last() {
        Some(Traffic::Sent(datagram)) => {
            datagram.peer == peer && datagram.bytes.as_slice() == wanted
        }
        _ => false,
    }
}

#[test]
fn a_host_hears_and_answers_a_viewer(rt: HostRuntime) -> Result<(), Fail> {
    let mut inner = FakePort::failing_at(rt.alloc(), 0);
    deliver(&mut inner, 9, &sealed_ask(TO_HOST)?)?;
    let mut port = keyed(rt.alloc(), inner)?;
    assert!(rt; port.send(9, &ASK).is_err());
    assert!(rt; hands_on(&mut port, 9));
    assert!(rt; hands_on_nothing(&mut port));
    assert!(rt; port.send(9, &ASK).is_ok());
    assert!(rt; has_sent(port.port(), 9, &sealed_ask(FROM_HOST)?));
    assert!(rt; port.send(8, &ASK).is_err());
    assert!(rt; port.send(9, &[0; 274]).is_err());
    assert!(rt; port.dropped() == 0 && port.failures() == 3);
    Ok(())
}

#[test]
fn wrong_seals_are_counted_alone(rt: HostRuntime) -> Result<(), Fail> {
    let mut inner = FakePort::failing_at(rt.alloc(), 0);
    deliver(&mut inner, 8, &sealed_ask(FROM_HOST)?)?;
    deliver(&mut inner, 8, &ASK)?;
    deliver(&mut inner, 8, b"")?;
    deliver(&mut inner, 9, &sealed_ask(TO_HOST)?)?;
    let mut port = keyed(rt.alloc(), inner)?;
    assert!(rt; hands_on(&mut port, 9));
    assert!(rt; port.dropped() == 3);
    assert!(rt; port.send(8, &ASK).is_err());
    Ok(())
}

#[test]
fn a_flood_ends_a_receive(rt: HostRuntime) -> Result<(), Fail> {
    let mut inner = FakePort::failing_at(rt.alloc(), 0);
    for _number in 0..65 {
        deliver(&mut inner, 8, &ASK)?;
    }
    deliver(&mut inner, 9, &sealed_ask(TO_HOST)?)?;
    let mut port = keyed(rt.alloc(), inner)?;
    assert!(rt; hands_on_nothing(&mut port));
    assert!(rt; port.dropped() == 64);
    assert!(rt; hands_on(&mut port, 9));
    assert!(rt; port.dropped() == 65);
    Ok(())
}

#[test]
fn a_viewer_speaks_with_its_host(rt: HostRuntime) -> Result<(), Fail> {
    let mut inner = FakePort::failing_at(rt.alloc(), 0);
    deliver(&mut inner, 5, &sealed_ask(TO_HOST)?)?;
    deliver(&mut inner, 5, &sealed_ask(FROM_HOST)?)?;
    let mut port = SealedPort::new(inner, KEY);
    assert!(rt; hands_on(&mut port, 5));
    assert!(rt; port.dropped() == 1);
    assert!(rt; hands_on_nothing(&mut port));
    assert!(rt; port.send(5, &ASK).is_ok());
    assert!(rt; has_sent(port.port(), 5, &sealed_ask(TO_HOST)?));
    assert!(rt; port.send(5, &[0; 274]).is_err());
    Ok(())
}

#[test]
fn another_key_opens_nothing(rt: HostRuntime) -> Result<(), Fail> {
    let mut inner = FakePort::failing_at(rt.alloc(), 0);
    deliver(&mut inner, 5, &sealed_ask(FROM_HOST)?)?;
    let mut port = SealedPort::new(inner, Key { bytes: [1; 32] });
    assert!(rt; hands_on_nothing(&mut port));
    assert!(rt; port.dropped() == 1);
    Ok(())
}
