//! The vectors of RFC 4231, a seal and lines of a key file by hand. The seal is by Python's hmac.

use hex::FromHex;
use share_keys::{Direction, Key, hmac, key_of, seal, unsealed};
use std::alloc::Global;
use std::test::Fail;

struct Vector {
    key: &'static [u8],
    first: &'static [u8],
    second: &'static [u8],
    digest: &'static str,
}

/// The bytes 1 to 25.
const RISING: [u8; 25] = [
    1, 2, 3, 4, 5, 6, 7, 8, 9, 10, 11, 12, 13, 14, 15, 16, 17, 18, 19, 20, 21, 22, 23, 24, 25,
];

/// Test cases 1, 2, 3, 4, 6 and 7 (5 has a digest that is cut).
static VECTORS: [Vector; 6] = [
    Vector {
        key: &[0x0b; 20],
        first: b"Hi ",
        second: b"There",
        digest: "b0344c61d8db38535ca8afceaf0bf12b881dc200c9833da726e9376c2e32cff7",
    },
    Vector {
        key: b"Jefe",
        first: b"what do ya want ",
        second: b"for nothing?",
        digest: "5bdcc146bf60754e6a042426089575c75a003f089d2739839dec58b964ec3843",
    },
    Vector {
        key: &[0xaa; 20],
        first: &[0xdd; 25],
        second: &[0xdd; 25],
        digest: "773ea91e36800e46854db8ebd09181a72959098b3ef8c122d9635514ced565fe",
    },
    Vector {
        key: &RISING,
        first: &[0xcd; 1],
        second: &[0xcd; 49],
        digest: "82558a389a443c0ea4cc819899f2083a85f0faa3e578f8077a2e3ff46729665b",
    },
    Vector {
        key: &[0xaa; 131],
        first: b"",
        second: b"Test Using Larger Than Block-Size Key - Hash Key First",
        digest: "60e431591ee0b67f0d8a26aacbf5b77f8e0bc6213728c5140546040f0ee37f54",
    },
    Vector {
        key: &[0xaa; 131],
        first: b"This is a test using a larger than block-size key and a larger than block-size ",
        second: b"data. The key needs to be hashed before being used by the HMAC algorithm.",
        digest: "9b09ffa71b942fcb27635fbcd5b0e944bfdc63644f0713938a7f51535c3a35e2",
    },
];

#[test]
fn vectors_of_rfc_4231(rt: HostRuntime) -> Result<(), Fail> {
    for vector in VECTORS.iter() {
        let Ok(digest) = <[u8; 32] as FromHex>::from_hex(vector.digest) else {
            return Err(Fail::from("a digest isn't read"));
        };
        assert_eq!(rt;
            hmac(vector.key, vector.first, vector.second).as_slice(),
            digest.as_slice()
        );
    }
    Ok(())
}

/// The bytes 0 to 31.
const KEY: Key = Key {
    bytes: [
        0, 1, 2, 3, 4, 5, 6, 7, 8, 9, 10, 11, 12, 13, 14, 15, 16, 17, 18, 19, 20, 21, 22, 23, 24,
        25, 26, 27, 28, 29, 30, 31,
    ],
};

/// The first 16 bytes of the HMAC-SHA256 of a byte 1 and `X3DS`.
const TO_HOST: &str = "fbb47eae2f5fb753708699c1ba3a92be";

#[test]
fn a_seal_fits_one_direction(rt: HostRuntime) -> Result<(), Fail> {
    let Ok(wanted) = <[u8; 16] as FromHex>::from_hex(TO_HOST) else {
        return Err(Fail::from("a seal isn't read"));
    };
    let made = seal(&KEY, Direction::ToHost, b"X3DS");
    assert_eq!(rt; made.as_slice(), wanted.as_slice());
    let mut sealed = [0; 20];
    sealed[..4].copy_from_slice(b"X3DS");
    sealed[4..].copy_from_slice(made.as_slice());
    assert!(rt; unsealed(&KEY, Direction::ToHost, &sealed) == Some(b"X3DS".as_slice()));
    assert!(rt; unsealed(&KEY, Direction::FromHost, &sealed).is_none());
    assert!(rt; unsealed(&KEY, Direction::ToHost, &sealed[..19]).is_none());
    assert!(rt; unsealed(&KEY, Direction::ToHost, &sealed[..15]).is_none());
    Ok(())
}

/// A line without its number: the key above.
const DIGITS: &[u8] = b" 000102030405060708090a0b0c0d0e0f101112131415161718191a1b1c1d1e1F";

fn number_of(alloc: Global, number: &[u8]) -> Result<Option<u8>, Fail> {
    let mut line = Vec::new(alloc);
    for byte in number {
        line.push(*byte)?;
    }
    for byte in DIGITS {
        line.push(*byte)?;
    }
    match key_of(line.as_slice()) {
        Some(found) => Ok(Some(found.who)),
        None => Ok(None),
    }
}

#[test]
fn lines_have_numbers_from_0_to_63(rt: HostRuntime) -> Result<(), Fail> {
    let alloc = rt.alloc();
    assert_eq!(rt; number_of(alloc, b"0")?, Some(0));
    assert_eq!(rt; number_of(alloc, b"9")?, Some(9));
    assert_eq!(rt; number_of(alloc, b"10")?, Some(10));
    assert_eq!(rt; number_of(alloc, b"63")?, Some(63));
    for wrong in [
        b"64".as_slice(),
        b"07".as_slice(),
        b"".as_slice(),
        b"1x".as_slice(),
        b"100".as_slice(),
    ]
    .iter()
    {
        assert_eq!(rt; number_of(alloc, wrong)?, None);
    }
    Ok(())
}
