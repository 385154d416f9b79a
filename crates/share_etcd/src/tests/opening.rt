//! Bases and openings by hand ([by_hand](by_hand.rt)), and openings that no etcd gives.

use crate::tests::by_hand::{
    BASED, BASING, NOT_BASED, NOTHING, OPENED, OPENED_NOTHING, OPENED_WHOLE, OPENING, READ,
};
use crate::tests::{FIRST, HEAD, RUN, SECOND, TAIL, door};
use crate::{
    AnswerFault, Opening, Outcome, Revisions, basing_bytes, opening_bytes, opening_of, outcome_of,
};
use share_entries::{Head, base_of};
use std::alloc::{AllocError, Global};
use std::test::Fail;

/// The base of entry 1: a kind, 2 viewers, the boot and the count of each, the number, the time,
/// the chain that ends the frame of `APPEND`, the SHA-256 of `snap`, and the first 8 bytes of the
/// SHA-256 of these 82.
const BASE: [u8; 90] = [
    1, 2, 0, 0, 0, 1, 0, 0, 0, 2, 1, 2, 3, 4, 0, 0, 0, 5, 0, 0, 0, 0, 0, 0, 0, 1, 0, 0, 0, 0, 0, 0,
    0, 5, 105, 44, 60, 32, 67, 251, 43, 138, 90, 28, 11, 160, 26, 111, 229, 181, 28, 39, 50, 79, 1,
    55, 5, 203, 240, 196, 159, 61, 59, 177, 3, 199, 6, 158, 213, 152, 136, 137, 212, 38, 193, 12,
    252, 37, 104, 79, 10, 49, 19, 150, 44, 255, 89, 42, 163, 206,
];

#[test]
fn a_basing_has_its_bytes(rt: HostRuntime) -> Result<(), Fail> {
    let name = door()?;
    let Some(base) = base_of(&BASE) else {
        return Err(Fail::from("a base isn't read"));
    };
    let head = Head {
        viewers: 2,
        mark: [7; 32],
        run: RUN,
    };
    let known = Revisions { head: 2, tail: 4 };
    let bytes = basing_bytes(rt.alloc(), &name, known, &head, &base, b"snap")?;
    assert!(rt; bytes.as_slice() == BASING.as_bytes());
    Ok(())
}

#[test]
fn an_opening_has_its_bytes(rt: HostRuntime) -> Result<(), Fail> {
    let name = door()?;
    let bytes = opening_bytes(rt.alloc(), &name)?;
    assert!(rt; bytes.as_slice() == OPENING.as_bytes());
    Ok(())
}

#[test]
fn outcomes_of_a_basing_are_read(rt: HostRuntime) -> Result<(), Fail> {
    let outcome = outcome_of(rt.alloc(), BASED.as_bytes())?;
    assert!(rt; outcome == Outcome::Stored { revision: 5 });
    let outcome = outcome_of(rt.alloc(), NOT_BASED.as_bytes())?;
    assert!(rt; outcome == Outcome::Refused);
    Ok(())
}

#[test]
fn a_world_that_was_not_made_has_no_opening(rt: HostRuntime) -> Result<(), Fail> {
    let name = door()?;
    let Ok(None) = opening_of(rt.alloc(), &name, OPENED_NOTHING.as_bytes()) else {
        return Err(Fail::from("an empty store isn't opened"));
    };
    Ok(())
}

fn is_whole(read: &Opening) -> bool {
    let contents = &read.contents;
    read.based.is_none()
        && (
            contents.head_revision,
            contents.tail,
            contents.tail_revision,
        ) == (2, 300, 4)
        && contents.frames.len() == 2
}

#[test]
fn a_world_without_a_base_is_opened(rt: HostRuntime) -> Result<(), Fail> {
    let name = door()?;
    let Ok(Some(read)) = opening_of(rt.alloc(), &name, OPENED_WHOLE.as_bytes()) else {
        return Err(Fail::from("a world isn't opened"));
    };
    assert!(rt; is_whole(&read));
    Ok(())
}

fn goes_on_after_the_base(read: &Opening) -> bool {
    let contents = &read.contents;
    match contents.frames.as_slice() {
        [frame] => {
            (
                contents.head_revision,
                contents.tail,
                contents.tail_revision,
            ) == (5, 300, 4)
                && frame.first == 2
                && frame.bytes.as_slice() == b"abc".as_slice()
        }
        _ => false,
    }
}

#[test]
fn a_world_with_a_base_is_opened(rt: HostRuntime) -> Result<(), Fail> {
    let name = door()?;
    let Ok(Some(read)) = opening_of(rt.alloc(), &name, OPENED.as_bytes()) else {
        return Err(Fail::from("a world isn't opened"));
    };
    assert!(rt; read.contents.head.len() == 64 && goes_on_after_the_base(&read));
    let Some(based) = &read.based else {
        return Err(Fail::from("a base isn't read"));
    };
    assert!(rt; based.base.as_slice() == BASE.as_slice());
    assert!(rt; based.snapshot.as_slice() == b"snap".as_slice());
    Ok(())
}

/// `x3d/door/base`, of no base's bytes.
const BASE_PAIR: &str = "\
    {\"key\":\"eDNkL2Rvb3IvYmFzZQ==\",\"mod_revision\":\"5\",\
    \"value\":\"AQ==\"}";
/// `x3d/door/snapshot`.
const SNAPSHOT_PAIR: &str = "\
    {\"key\":\"eDNkL2Rvb3Ivc25hcHNob3Q=\",\"mod_revision\":\"5\",\
    \"value\":\"c25hcA==\"}";
/// `x3d/doors/base`.
const OTHER_BASE: &str = "\
    {\"key\":\"eDNkL2Rvb3JzL2Jhc2U=\",\"mod_revision\":\"5\",\
    \"value\":\"AQ==\"}";
/// `x3d/doors/snapshot`.
const OTHER_SNAPSHOT: &str = "\
    {\"key\":\"eDNkL2Rvb3JzL3NuYXBzaG90\",\"mod_revision\":\"5\",\
    \"value\":\"c25hcA==\"}";

/// Returns an answer with a head, a tail, a base, a snapshot and a frame; what is empty isn't
/// there.
fn answer(alloc: Global, pairs: [&str; 5]) -> Result<Vec<u8>, AllocError> {
    let mut body = Vec::new(alloc);
    body.extend_from_slice(b"{\"header\":{\"revision\":\"5\"},\"succeeded\":true,\"responses\":[")?;
    let mut comma = "";
    for pair in pairs {
        for piece in [comma, "{\"response_range\":{\"kvs\":[", pair, "]}}"] {
            body.extend_from_slice(piece.as_bytes())?;
        }
        comma = ",";
    }
    body.extend_from_slice(b"]}")?;
    Ok(body)
}

#[test]
fn openings_by_pairs_are_read(rt: HostRuntime) -> Result<(), Fail> {
    let name = door()?;
    let body = answer(rt.alloc(), [HEAD, TAIL, BASE_PAIR, SNAPSHOT_PAIR, SECOND])?;
    let Ok(Some(read)) = opening_of(rt.alloc(), &name, &body) else {
        return Err(Fail::from("a world isn't opened"));
    };
    assert!(rt; read.based.is_some() && read.contents.frames.len() == 1);
    let body = answer(rt.alloc(), [HEAD, TAIL, BASE_PAIR, SNAPSHOT_PAIR, ""])?;
    let Ok(Some(read)) = opening_of(rt.alloc(), &name, &body) else {
        return Err(Fail::from("a world without frames isn't opened"));
    };
    assert!(rt; read.based.is_some() && read.contents.frames.len() == 0);
    Ok(())
}

#[test]
fn other_openings_are_malformed(rt: HostRuntime) -> Result<(), Fail> {
    let name = door()?;
    let cases = [
        [HEAD, TAIL, BASE_PAIR, "", SECOND],
        [HEAD, TAIL, "", SNAPSHOT_PAIR, SECOND],
        ["", "", BASE_PAIR, SNAPSHOT_PAIR, ""],
        ["", "", BASE_PAIR, "", ""],
        ["", TAIL, BASE_PAIR, SNAPSHOT_PAIR, SECOND],
        [HEAD, "", BASE_PAIR, SNAPSHOT_PAIR, SECOND],
        [HEAD, TAIL, OTHER_BASE, SNAPSHOT_PAIR, SECOND],
        [HEAD, TAIL, BASE_PAIR, OTHER_SNAPSHOT, SECOND],
        [HEAD, TAIL, SNAPSHOT_PAIR, BASE_PAIR, SECOND],
        [HEAD, TAIL, "", "", BASE_PAIR],
        ["", "", "", "", FIRST],
    ];
    for pairs in cases {
        let body = answer(rt.alloc(), pairs)?;
        let Err(AnswerFault::Malformed) = opening_of(rt.alloc(), &name, &body) else {
            return Err(Fail::from("pairs that no host puts are opened"));
        };
    }
    Ok(())
}

#[test]
fn other_answers_are_no_opening(rt: HostRuntime) -> Result<(), Fail> {
    let name = door()?;
    for body in ["", "{}", NOTHING, READ, BASED, NOT_BASED] {
        let Err(AnswerFault::Malformed) = opening_of(rt.alloc(), &name, body.as_bytes()) else {
            return Err(Fail::from("an answer to another request is opened"));
        };
    }
    Ok(())
}
