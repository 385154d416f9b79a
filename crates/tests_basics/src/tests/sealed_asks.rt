//! Datagrams of viewers, opened by a table of keys. The seals are by Python's hmac.

use hex::FromHex;
use share_keys::{Direction, Key, Keys, claimed, opened, sealed};
use std::test::Fail;

/// The bytes 0 to 31.
const KEY: Key = Key {
    bytes: [
        0, 1, 2, 3, 4, 5, 6, 7, 8, 9, 10, 11, 12, 13, 14, 15, 16, 17, 18, 19, 20, 21, 22, 23, 24,
        25, 26, 27, 28, 29, 30, 31,
    ],
};

/// An ask of viewer 3 for the inputs from 1 on, in a session of sixteen bytes 9.
const ASK: [u8; 31] = [
    b'X', b'3', b'D', b'S', 2, 3, 9, 9, 9, 9, 9, 9, 9, 9, 9, 9, 9, 9, 9, 9, 9, 9, 3, 0, 0, 0, 0, 0,
    0, 0, 1,
];

/// The first 16 bytes of the HMAC-SHA256 of a byte 1 and the ask.
const SEAL: &str = "7d30776efb42a8ddb8e0c538f0df6df2";

/// The ask and its seal.
fn sealed_ask() -> Result<[u8; 47], Fail> {
    let Ok(seal) = <[u8; 16] as FromHex>::from_hex(SEAL) else {
        return Err(Fail::from("a seal isn't read"));
    };
    let mut bytes = [0; 47];
    bytes[..31].copy_from_slice(&ASK);
    bytes[31..].copy_from_slice(&seal);
    Ok(bytes)
}

#[test]
fn a_sealed_ask(rt: HostRuntime) -> Result<(), Fail> {
    let wanted = sealed_ask()?;
    let mut made = [0; 60];
    assert_eq!(rt; sealed(&KEY, Direction::ToHost, &ASK, &mut made), 47);
    assert_eq!(rt; &made[..47], wanted.as_slice());
    Ok(())
}

#[test]
fn is_opened_by_its_viewers_key(rt: HostRuntime) -> Result<(), Fail> {
    let bytes = sealed_ask()?;
    let mut keys = Keys::none();
    assert!(rt; !keys.has_any());
    assert!(rt; opened(&keys, &bytes).is_none());
    keys.put(3, KEY);
    assert!(rt; keys.has_any() && keys.get(3).is_some() && keys.get(4).is_none());
    let Some((who, datagram)) = opened(&keys, &bytes) else {
        return Err(Fail::from("the ask isn't opened"));
    };
    assert!(rt; who == 3 && datagram == ASK.as_slice());
    assert!(rt; opened(&keys, &ASK).is_none());
    Ok(())
}

#[test]
fn is_not_opened_by_anothers_key(rt: HostRuntime) -> Result<(), Fail> {
    let bytes = sealed_ask()?;
    let mut keys = Keys::none();
    keys.put(4, KEY);
    assert!(rt; opened(&keys, &bytes).is_none());
    keys.put(3, Key { bytes: [1; 32] });
    assert!(rt; opened(&keys, &bytes).is_none());
    Ok(())
}

/// The ask with another byte at a place.
fn altered(place: usize, byte: u8) -> [u8; 31] {
    let mut bytes = ASK;
    if place < bytes.len() {
        bytes[place] = byte;
    }
    bytes
}

#[test]
fn says_which_viewer_it_is_of(rt: HostRuntime) -> Result<(), Fail> {
    assert!(rt; claimed(&ASK) == Some(3));
    // An offer has its viewer at the same place.
    assert!(rt; claimed(&altered(5, 2)) == Some(3));
    // A Hello has it after 32 bytes, which aren't there.
    assert!(rt; claimed(&altered(5, 7)).is_none());
    // An ack is from the host.
    assert!(rt; claimed(&altered(5, 4)).is_none());
    // Version 1, and other magic bytes.
    assert!(rt; claimed(&altered(4, 1)).is_none());
    assert!(rt; claimed(&altered(0, b'Y')).is_none());
    assert!(rt; claimed(&altered(22, 63)) == Some(63));
    assert!(rt; claimed(&altered(22, 64)).is_none());
    assert!(rt; claimed(&ASK[..22]).is_none());
    assert!(rt; claimed(b"").is_none());
    Ok(())
}
