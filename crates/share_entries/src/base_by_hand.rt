//! A base by hand. Its digest, and those of the wrong ones, are those of Python's hashlib.

use crate::{Base, base_bytes, base_of, is_base};
use share_rules::SeatCount;
use std::test::Fail;

/// A kind, 2 viewers, the boot and the count of each, a number, a time, a chain, the SHA-256 of a
/// snapshot, and the first 8 bytes of the SHA-256 of these 82.
const BASE: [u8; 90] = [
    1, 2, 0, 0, 0, 1, 0, 0, 0, 2, 1, 2, 3, 4, 0, 0, 0, 5, 0, 0, 0, 0, 0, 0, 0, 3, 0, 0, 0, 0, 0, 0,
    0, 7, 9, 9, 9, 9, 9, 9, 9, 9, 9, 9, 9, 9, 9, 9, 9, 9, 4, 4, 4, 4, 4, 4, 4, 4, 4, 4, 4, 4, 4, 4,
    4, 4, 4, 4, 4, 4, 4, 4, 4, 4, 4, 4, 4, 4, 4, 4, 4, 4, 0x91, 0x9d, 0xa5, 0xea, 0x0f, 0xf2, 8,
    0xd2,
];

/// The first 8 bytes of the SHA-256 of a base of no viewers.
const SUM_OF_NONE: [u8; 8] = [0x65, 0x4a, 0x41, 0x0b, 0xd3, 0x72, 0x46, 0xab];

/// The first 8 bytes of the SHA-256 of a base of one viewer and of no entries.
const SUM_OF_NO_ENTRIES: [u8; 8] = [0xbb, 8, 0x0f, 0x0b, 0x27, 0x2c, 0x68, 0x55];

/// The first 8 bytes of the SHA-256 of those 82 bytes, with the kind 2.
const SUM_OF_KIND_2: [u8; 8] = [0xca, 0x6f, 0x70, 0xce, 0x9b, 0x9a, 0x3f, 0x50];

#[test]
fn a_base_has_its_bytes(rt: HostRuntime) -> Result<(), Fail> {
    let first = SeatCount { boot: 1, count: 2 };
    let second = SeatCount {
        boot: 0x0102_0304,
        count: 5,
    };
    let base = Base::new(&[first, second], 3, 7, [9; 16], [4; 32]);
    let bytes = base_bytes(rt.alloc(), &base)?;
    assert_eq!(rt; bytes.as_slice(), BASE.as_slice());
    assert!(rt; is_base(&BASE));
    let Some(read) = base_of(&BASE) else {
        return Err(Fail::from("a base isn't read"));
    };
    assert!(rt; read.number() == 3);
    assert!(rt; read.kept().len() == 2);
    Ok(())
}

#[test]
fn wrong_bases_are_refused(rt: HostRuntime) -> Result<(), Fail> {
    assert!(rt; base_of(&BASE[..89]).is_none());
    let mut flipped = BASE;
    flipped[40] ^= 1;
    assert!(rt; base_of(&flipped).is_none());
    let mut other = BASE;
    other[0] = 2;
    other[82..].copy_from_slice(&SUM_OF_KIND_2);
    assert!(rt; base_of(&other).is_none());
    Ok(())
}

#[test]
fn bases_of_nothing_are_refused(rt: HostRuntime) -> Result<(), Fail> {
    let mut of_none = [4; 74];
    of_none[..2].copy_from_slice(&[1, 0]);
    of_none[2..34].copy_from_slice(&BASE[18..50]);
    of_none[66..].copy_from_slice(&SUM_OF_NONE);
    assert!(rt; base_of(&of_none).is_none());
    let mut of_no_entries = [0; 82];
    of_no_entries[..2].copy_from_slice(&[1, 1]);
    of_no_entries[25] = 7;
    of_no_entries[26..42].copy_from_slice(&[9; 16]);
    of_no_entries[42..74].copy_from_slice(&[4; 32]);
    of_no_entries[74..].copy_from_slice(&SUM_OF_NO_ENTRIES);
    assert!(rt; base_of(&of_no_entries).is_none());
    Ok(())
}
