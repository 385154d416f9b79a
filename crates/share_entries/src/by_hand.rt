//! A head and a frame by hand. Their digests are those of Python's hashlib.

use crate::{
    Entry, FrameFault, Head, HeadFault, Source, frame_bytes, frame_of, head_bytes, head_of,
};
use std::test::Fail;

const RUN: [u8; 16] = [9; 16];

/// `X3DL`, the version, 2 viewers and two zeros, the mark, the run, and the first 8 bytes of the
/// SHA-256 of these 56.
const HEAD: [u8; 64] = [
    0x58, 0x33, 0x44, 0x4c, 1, 2, 0, 0, 7, 7, 7, 7, 7, 7, 7, 7, 7, 7, 7, 7, 7, 7, 7, 7, 7, 7, 7, 7,
    7, 7, 7, 7, 7, 7, 7, 7, 7, 7, 7, 7, 9, 9, 9, 9, 9, 9, 9, 9, 9, 9, 9, 9, 9, 9, 9, 9, 0x0b, 0x51,
    0x9e, 0xac, 0x10, 0xa4, 0xbf, 0x63,
];

/// A kind, a count, a number, a clock at 5 microseconds, and the chain after it.
const FRAME: [u8; 36] = [
    0, 0, 1, 0, 0, 0, 0, 0, 0, 0, 1, 0, 0, 0, 0, 0, 0, 0, 5, 0, 0x69, 0x2c, 0x3c, 0x20, 0x43, 0xfb,
    0x2b, 0x8a, 0x5a, 0x1c, 0x0b, 0xa0, 0x1a, 0x6f, 0xe5, 0xb5,
];

#[test]
fn a_head_has_its_bytes(rt: HostRuntime) -> Result<(), Fail> {
    let head = Head {
        viewers: 2,
        mark: [7; 32],
        run: RUN,
    };
    let bytes = head_bytes(rt.alloc(), &head)?;
    assert_eq!(rt; bytes.as_slice(), HEAD.as_slice());
    let Ok(read) = head_of(&HEAD) else {
        return Err(Fail::from("a head isn't read"));
    };
    assert_eq!(rt; read.viewers, 2);
    assert_eq!(rt; head_of(&HEAD[..55]).err(), Some(HeadFault::Short));
    Ok(())
}

#[test]
fn a_frame_has_its_bytes(rt: HostRuntime) -> Result<(), Fail> {
    let entries = [Entry::new(5, Source::Clock)];
    let bytes = frame_bytes(rt.alloc(), &RUN, 1, &entries)?;
    assert_eq!(rt; bytes.as_slice(), FRAME.as_slice());
    let Ok(read) = frame_of(rt.alloc(), &RUN, 1, &FRAME) else {
        return Err(Fail::from("a frame isn't read"));
    };
    assert_eq!(rt; read.len(), 1);
    let Err(FrameFault::BadNumber) = frame_of(rt.alloc(), &RUN, 2, &FRAME) else {
        return Err(Fail::from("a frame out of order is read"));
    };
    Ok(())
}
