//! Requests and answers by hand ([by_hand](by_hand.rt)), and answers that no etcd gives. Those of a
//! base, and of a world that is opened, are in [opening](opening.rt).

mod by_hand;
mod opening;

use crate::{
    AnswerFault, Contents, Outcome, Revisions, append_bytes, contents_of, making_bytes, outcome_of,
    reading_bytes,
};
use by_hand::{
    APPEND, APPENDED, ERROR, MADE, MAKING, NOT_APPENDED, NOT_MADE, NOTHING, READ, READING,
};
use share_entries::{Entry, Head, Source, frame_bytes};
use share_session::WorldName;
use std::alloc::{AllocError, Global};
use std::test::Fail;

fn door() -> Result<WorldName, Fail> {
    let Some(name) = WorldName::new(b"door") else {
        return Err(Fail::from("a name is refused"));
    };
    Ok(name)
}

const RUN: [u8; 16] = [9; 16];

#[test]
fn a_making_has_its_bytes(rt: HostRuntime) -> Result<(), Fail> {
    let name = door()?;
    let head = Head {
        viewers: 2,
        mark: [7; 32],
        run: RUN,
    };
    let bytes = making_bytes(rt.alloc(), &name, &head)?;
    assert!(rt; bytes.as_slice() == MAKING.as_bytes());
    Ok(())
}

#[test]
fn an_append_has_its_bytes(rt: HostRuntime) -> Result<(), Fail> {
    let name = door()?;
    let frame = frame_bytes(rt.alloc(), &RUN, 1, &[Entry::new(5, Source::Clock)])?;
    let known = Revisions { head: 2, tail: 2 };
    let bytes = append_bytes(rt.alloc(), &name, known, 1, 1, &frame)?;
    assert!(rt; bytes.as_slice() == APPEND.as_bytes());
    Ok(())
}

#[test]
fn a_reading_has_its_bytes(rt: HostRuntime) -> Result<(), Fail> {
    let name = door()?;
    let bytes = reading_bytes(rt.alloc(), &name, 1)?;
    assert!(rt; bytes.as_slice() == READING.as_bytes());
    Ok(())
}

#[test]
fn outcomes_are_read(rt: HostRuntime) -> Result<(), Fail> {
    let cases = [
        (MADE, Outcome::Stored { revision: 2 }),
        (NOT_MADE, Outcome::Refused),
        (APPENDED, Outcome::Stored { revision: 3 }),
        (NOT_APPENDED, Outcome::Refused),
        (ERROR, Outcome::Malformed),
    ];
    for (body, wanted) in cases {
        let outcome = outcome_of(rt.alloc(), body.as_bytes())?;
        assert!(rt; outcome == wanted);
    }
    Ok(())
}

/// Answers that no etcd gives.
const MALFORMED: [&str; 14] = [
    "",
    "{}",
    "null",
    "[true]",
    "{\"succeeded\":true}",
    "{\"succeeded\":true,\"header\":{}}",
    "{\"succeeded\":true,\"header\":{\"revision\":3}}",
    "{\"succeeded\":true,\"header\":{\"revision\":\"0\"}}",
    "{\"succeeded\":true,\"header\":{\"revision\":\"-3\"}}",
    "{\"succeeded\":true,\"header\":{\"revision\":\"+3\"}}",
    "{\"succeeded\":true,\"header\":{\"revision\":\"03\"}}",
    "{\"succeeded\":true,\"header\":{\"revision\":\"9223372036854775808\"}}",
    "{\"succeeded\":\"true\",\"header\":{\"revision\":\"3\"}}",
    "{\"succeeded\":true,\"header\":{\"revision\":\"3\"}}{}",
];

#[test]
fn other_answers_are_malformed(rt: HostRuntime) -> Result<(), Fail> {
    for body in MALFORMED {
        let outcome = outcome_of(rt.alloc(), body.as_bytes())?;
        assert!(rt; outcome == Outcome::Malformed);
    }
    Ok(())
}

#[test]
fn a_world_that_was_not_made_is_none(rt: HostRuntime) -> Result<(), Fail> {
    let name = door()?;
    let Ok(None) = contents_of(rt.alloc(), &name, 1, NOTHING.as_bytes()) else {
        return Err(Fail::from("an empty store isn't read"));
    };
    Ok(())
}

fn holds(read: &Contents) -> bool {
    read.head.len() == 64
        && (read.head_revision, read.tail, read.tail_revision) == (2, 300, 4)
        && read.frames.len() == 2
}

#[test]
fn a_world_is_read(rt: HostRuntime) -> Result<(), Fail> {
    let name = door()?;
    let Ok(Some(read)) = contents_of(rt.alloc(), &name, 1, READ.as_bytes()) else {
        return Err(Fail::from("a world isn't read"));
    };
    assert!(rt; holds(&read));
    let [first, second] = read.frames.as_slice() else {
        return Err(Fail::from("frames are missing"));
    };
    assert!(rt; first.first == 1 && first.bytes.len() == 36);
    assert!(rt; second.first == 2 && second.bytes.as_slice() == b"abc".as_slice());
    Ok(())
}

#[test]
fn a_frame_before_the_first_is_malformed(rt: HostRuntime) -> Result<(), Fail> {
    let name = door()?;
    let Err(AnswerFault::Malformed) = contents_of(rt.alloc(), &name, 2, READ.as_bytes()) else {
        return Err(Fail::from("a frame that wasn't asked for is read"));
    };
    Ok(())
}

/// `x3d/door/head`, at revision 2.
const HEAD: &str = "\
    {\"key\":\"eDNkL2Rvb3IvaGVhZA==\",\"mod_revision\":\"2\",\
    \"value\":\"AA==\"}";
/// The same without a revision.
const UNDATED: &str = "\
    {\"key\":\"eDNkL2Rvb3IvaGVhZA==\",\
    \"value\":\"AA==\"}";
/// The same with a value that is no base64.
const BROKEN: &str = "\
    {\"key\":\"eDNkL2Rvb3IvaGVhZA==\",\"mod_revision\":\"2\",\
    \"value\":\"AA\"}";
/// `x3d/door/tail`, of number 2.
const TAIL: &str = "\
    {\"key\":\"eDNkL2Rvb3IvdGFpbA==\",\"mod_revision\":\"3\",\
    \"value\":\"MDAwMDAwMDAwMDAwMDAwMg==\"}";
/// The same with one digit.
const SHORT_TAIL: &str = "\
    {\"key\":\"eDNkL2Rvb3IvdGFpbA==\",\"mod_revision\":\"3\",\
    \"value\":\"Mg==\"}";
/// `x3d/door/log/0000000000000001`.
const FIRST: &str = "\
    {\"key\":\"eDNkL2Rvb3IvbG9nLzAwMDAwMDAwMDAwMDAwMDE=\",\"mod_revision\":\"3\",\
    \"value\":\"YQ==\"}";
/// `x3d/door/log/0000000000000002`.
const SECOND: &str = "\
    {\"key\":\"eDNkL2Rvb3IvbG9nLzAwMDAwMDAwMDAwMDAwMDI=\",\"mod_revision\":\"3\",\
    \"value\":\"YQ==\"}";
/// `x3d/door/log/000000000000000A`.
const CAPITAL: &str = "\
    {\"key\":\"eDNkL2Rvb3IvbG9nLzAwMDAwMDAwMDAwMDAwMEE=\",\"mod_revision\":\"3\",\
    \"value\":\"YQ==\"}";
/// `x3d/doors/log/0000000000000001`.
const OTHER: &str = "\
    {\"key\":\"eDNkL2Rvb3JzL2xvZy8wMDAwMDAwMDAwMDAwMDAx\",\"mod_revision\":\"3\",\
    \"value\":\"YQ==\"}";

/// Returns an answer with a head, a tail and two frames; what is empty isn't there.
fn answer(alloc: Global, pairs: [&str; 4]) -> Result<Vec<u8>, AllocError> {
    let [head, tail, first, second] = pairs;
    let comma = if second.is_empty() { "" } else { "," };
    let pieces = [
        "{\"header\":{\"revision\":\"3\"},\"succeeded\":true,\"responses\":[",
        "{\"response_range\":{\"kvs\":[",
        head,
        "]}},{\"response_range\":{\"kvs\":[",
        tail,
        "]}},{\"response_range\":{\"kvs\":[",
        first,
        comma,
        second,
        "]}}]}",
    ];
    let mut body = Vec::new(alloc);
    for piece in pieces {
        body.extend_from_slice(piece.as_bytes())?;
    }
    Ok(body)
}

#[test]
fn pairs_in_order_are_read(rt: HostRuntime) -> Result<(), Fail> {
    let name = door()?;
    let body = answer(rt.alloc(), [HEAD, TAIL, FIRST, SECOND])?;
    let Ok(Some(read)) = contents_of(rt.alloc(), &name, 1, &body) else {
        return Err(Fail::from("a world isn't read"));
    };
    assert!(rt; read.tail == 2 && read.frames.len() == 2);
    let body = answer(rt.alloc(), ["", "", "", ""])?;
    let Ok(None) = contents_of(rt.alloc(), &name, 1, &body) else {
        return Err(Fail::from("an empty store isn't read"));
    };
    Ok(())
}

#[test]
fn other_pairs_are_malformed(rt: HostRuntime) -> Result<(), Fail> {
    let name = door()?;
    let cases = [
        [HEAD, "", "", ""],
        ["", TAIL, "", ""],
        ["", "", FIRST, ""],
        [TAIL, HEAD, "", ""],
        [UNDATED, TAIL, "", ""],
        [BROKEN, TAIL, "", ""],
        [HEAD, SHORT_TAIL, "", ""],
        [HEAD, TAIL, SECOND, FIRST],
        [HEAD, TAIL, FIRST, FIRST],
        [HEAD, TAIL, FIRST, CAPITAL],
        [HEAD, TAIL, FIRST, OTHER],
        [HEAD, TAIL, FIRST, "5"],
    ];
    for pairs in cases {
        let body = answer(rt.alloc(), pairs)?;
        let Err(AnswerFault::Malformed) = contents_of(rt.alloc(), &name, 1, &body) else {
            return Err(Fail::from("pairs that no host puts are read"));
        };
    }
    Ok(())
}

/// Answers to a reading that have no three ranges.
const NO_RANGES: [&str; 4] = [
    "{\"header\":{\"revision\":\"3\"},\"succeeded\":true}",
    "{\"header\":{\"revision\":\"3\"},\"succeeded\":true,\"responses\":[{},{},{}]}",
    "{\"header\":{\"revision\":\"3\"},\"succeeded\":true,\"responses\":[\
    {\"response_range\":1},{\"response_range\":1},{\"response_range\":1}]}",
    "{\"header\":{\"revision\":\"3\"},\"responses\":[\
    {\"response_range\":{}},{\"response_range\":{}},{\"response_range\":{}}]}",
];

#[test]
fn answers_without_ranges_are_malformed(rt: HostRuntime) -> Result<(), Fail> {
    let name = door()?;
    for body in NO_RANGES {
        let Err(AnswerFault::Malformed) = contents_of(rt.alloc(), &name, 1, body.as_bytes()) else {
            return Err(Fail::from("an answer without ranges is read"));
        };
    }
    Ok(())
}
