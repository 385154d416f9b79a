//! Key files by hand.

use share_key_files::{KeyFault, KeyFileFault, key_of_file, keys_of_file, write_key};
use share_keys::Key;
use std::alloc::Global;
use std::test::Fail;

/// A viewer's number, and the rest of a line: the key of the bytes 0 to 31, or of 32 bytes 1.
const RISING: &[u8] = b" 000102030405060708090a0b0c0d0e0f101112131415161718191a1b1c1d1e1f";

const ONES: &[u8] = b" 0101010101010101010101010101010101010101010101010101010101010101";

/// Returns a text of parts.
fn text_of(alloc: Global, parts: &[&[u8]]) -> Result<Vec<u8>, Fail> {
    let mut text = Vec::new(alloc);
    for part in parts {
        text.extend_from_slice(part)?;
    }
    Ok(text)
}

/// Reports whether a host's file is refused so.
fn refuses(text: &[u8], line: usize, kind: KeyFault) -> bool {
    match keys_of_file(text) {
        Ok(_) => false,
        Err(fault) => fault == KeyFileFault { line, kind },
    }
}

/// Reports whether a viewer's file is refused so.
fn refuses_one(text: &[u8], line: usize, kind: KeyFault) -> bool {
    match key_of_file(text) {
        Ok(_) => false,
        Err(fault) => fault == KeyFileFault { line, kind },
    }
}

#[test]
fn a_hosts_file(rt: HostRuntime) -> Result<(), Fail> {
    let alloc = rt.alloc();
    let parts = [b"# keys\n\n0".as_slice(), RISING, b"\r\n\n63", ONES];
    let text = text_of(alloc, &parts)?;
    let Ok(keys) = keys_of_file(text.as_slice()) else {
        return Err(Fail::from("the file is refused"));
    };
    let Some(first) = keys.get(0) else {
        return Err(Fail::from("viewer 0 has no key"));
    };
    assert!(rt; first.bytes[0] == 0 && first.bytes[31] == 31);
    let Some(last) = keys.get(63) else {
        return Err(Fail::from("viewer 63 has no key"));
    };
    assert!(rt; last.bytes == [1; 32]);
    assert!(rt; keys.get(1).is_none());
    Ok(())
}

#[test]
fn faults_of_a_hosts_file(rt: HostRuntime) -> Result<(), Fail> {
    let alloc = rt.alloc();
    assert!(rt; refuses(b"", 0, KeyFault::NoKeys));
    assert!(rt; refuses(b"# none\n\n", 2, KeyFault::NoKeys));
    let twice = text_of(
        alloc,
        &[b"0".as_slice(), RISING, b"\n1", RISING, b"\n\n0", ONES],
    )?;
    assert!(rt; refuses(twice.as_slice(), 4, KeyFault::ViewerTwice));
    let bad = text_of(
        alloc,
        &[b"0".as_slice(), RISING, b"\n 1", RISING, b"\n0", ONES],
    )?;
    assert!(rt; refuses(bad.as_slice(), 2, KeyFault::BadLine));
    Ok(())
}

#[test]
fn a_viewers_file(rt: HostRuntime) -> Result<(), Fail> {
    let alloc = rt.alloc();
    let text = text_of(alloc, &[b"# mine\n7".as_slice(), ONES, b"\n\n"])?;
    let Ok(key) = key_of_file(text.as_slice()) else {
        return Err(Fail::from("the file is refused"));
    };
    assert!(rt; key.who == 7 && key.key.bytes == [1; 32]);
    assert!(rt; refuses_one(b"\n", 1, KeyFault::NoKeys));
    assert!(rt; refuses_one(b"7 01\n", 1, KeyFault::BadLine));
    let two = text_of(alloc, &[b"7".as_slice(), ONES, b"\n7", ONES, b"\n"])?;
    assert!(rt; refuses_one(two.as_slice(), 2, KeyFault::TooManyKeys));
    Ok(())
}

#[test]
fn a_written_line(rt: HostRuntime) -> Result<(), Fail> {
    let alloc = rt.alloc();
    let key = Key { bytes: [1; 32] };
    let mut lines = Vec::new(alloc);
    write_key(9, &key, &mut lines)?;
    write_key(10, &key, &mut lines)?;
    let wanted = text_of(alloc, &[b"9".as_slice(), ONES, b"\n10", ONES, b"\n"])?;
    assert_eq!(rt; lines.as_slice(), wanted.as_slice());
    Ok(())
}

#[test]
fn names_of_faults(rt: HostRuntime) -> Result<(), Fail> {
    assert_eq!(rt; KeyFault::BadLine.name(), "BadLine");
    assert_eq!(rt; KeyFault::TooManyKeys.name(), "TooManyKeys");
    Ok(())
}
