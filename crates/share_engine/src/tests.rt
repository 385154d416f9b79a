//! Logs over an engine that answers as a plan has it.

mod bases;
mod by_hand;
mod openings;

use crate::{EtcdLog, FakeEngine, OpenedWorld, WorldFault, open_world};
use by_hand::{
    APPENDED, ERROR, MADE, NOT_APPENDED, NOT_MADE, NOTHING, READ_1, READ_1_NONE, READ_3,
    READ_3_FIRST, READ_3_NONE, READ_3_REST, READ_OTHER,
};
use openings::{NO_WORLD, OPEN_1_TOO_MANY, OPEN_3, OPEN_3_REST, OPEN_NO_HEAD, OPEN_OTHER};
use share_entries::{Entry, Head, Source, frame_bytes};
use share_etcd::{Revisions, append_bytes, making_bytes};
use share_session::WorldName;
use share_store::{AppendFault, Log, ReadFault, Remembers};
use std::alloc::{AllocError, Global};
use std::test::Fail;

const RUN: [u8; 16] = [9; 16];

const GIVEN: Head = Head {
    viewers: 2,
    mark: [7; 32],
    run: RUN,
};

fn door() -> Result<WorldName, Fail> {
    let Some(name) = WorldName::new(b"door") else {
        return Err(Fail::from("a name is refused"));
    };
    Ok(name)
}

/// Returns an answer; none if the text is empty.
fn answer(alloc: Global, text: &str) -> Result<Option<Vec<u8>>, AllocError> {
    if text.is_empty() {
        return Ok(None);
    }
    Ok(Some(Vec::from_slice(alloc, text.as_bytes())?))
}

/// Returns an engine with these answers.
fn engine(alloc: Global, texts: &[&str]) -> Result<FakeEngine, AllocError> {
    let mut answers = Vec::new(alloc);
    for text in texts {
        answers.push(answer(alloc, text)?)?;
    }
    Ok(FakeEngine::new(alloc, answers))
}

/// Opens the world over these answers.
fn opened(
    alloc: Global,
    texts: &[&str],
    viewers: Option<u8>,
) -> Result<Result<OpenedWorld<FakeEngine>, WorldFault>, Fail> {
    let name = door()?;
    let engine = engine(alloc, texts)?;
    Ok(open_world(alloc, engine, name, &GIVEN, viewers, true))
}

/// Makes the world, over answers of which the first two make it.
fn made(alloc: Global, texts: &[&str]) -> Result<EtcdLog<FakeEngine>, Fail> {
    match opened(alloc, texts, None)? {
        Ok(opened) => Ok(opened.log),
        Err(_) => Err(Fail::from("a world isn't opened")),
    }
}

/// Appends a clock. `Full` if the log takes no appends.
fn append(log: &mut EtcdLog<FakeEngine>, time: i64) -> Result<(), AppendFault> {
    if !log.takes_appends() || time < 1 || time > 1000 {
        return Err(AppendFault::Full);
    }
    log.append(&[Entry::new(time, Source::Clock)])
}

/// Reads on, and returns how many entries were read.
fn read_on(alloc: Global, log: &mut EtcdLog<FakeEngine>) -> Result<usize, ReadFault> {
    let mut found = Vec::new(alloc);
    let read = log.read_on(&mut found);
    let count = found.len();
    drop(found);
    match read {
        Ok(()) => Ok(count),
        Err(fault) => Err(fault),
    }
}

/// Reports whether request number k was this.
fn asked(log: &EtcdLog<FakeEngine>, number: usize, body: &[u8]) -> bool {
    match log.engine().asked(number) {
        Some(said) => said == body,
        None => false,
    }
}

/// Returns the request for an append of one clock.
fn appending(
    alloc: Global,
    chain: &[u8; 16],
    tail: u64,
    number: u64,
    time: i64,
) -> Result<Vec<u8>, Fail> {
    if time < 1 || time > 1000 {
        return Err(Fail::from("the time is out of range"));
    }
    let name = door()?;
    let frame = frame_bytes(alloc, chain, number, &[Entry::new(time, Source::Clock)])?;
    let known = Revisions { head: 2, tail };
    Ok(append_bytes(alloc, &name, known, number, number, &frame)?)
}

/// The chain after a clock at 5 microseconds, of the frame in `READ_1`.
const CHAIN: [u8; 16] = [
    0x69, 0x2c, 0x3c, 0x20, 0x43, 0xfb, 0x2b, 0x8a, 0x5a, 0x1c, 0x0b, 0xa0, 0x1a, 0x6f, 0xe5, 0xb5,
];

#[test]
fn a_world_is_made(rt: HostRuntime) -> Result<(), Fail> {
    let making = making_bytes(rt.alloc(), &door()?, &GIVEN)?;
    let log = made(rt.alloc(), &[NO_WORLD, MADE])?;
    assert!(rt; asked(&log, 1, &making));
    assert!(rt; log.len() == 0 && log.takes_appends());
    let engine = log.into_engine();
    assert!(rt; engine.asked(2).is_none());
    Ok(())
}

#[test]
fn each_append_compares_the_last_revision(rt: HostRuntime) -> Result<(), Fail> {
    let first = appending(rt.alloc(), &RUN, 2, 1, 5)?;
    let second = appending(rt.alloc(), &CHAIN, 3, 2, 6)?;
    let mut log = made(rt.alloc(), &[NO_WORLD, MADE, APPENDED, APPENDED])?;
    assert!(rt; append(&mut log, 5) == Ok(()));
    assert!(rt; append(&mut log, 6) == Ok(()));
    assert!(rt; asked(&log, 2, &first) && asked(&log, 3, &second));
    assert!(rt; log.len() == 2 && log.takes_appends());
    Ok(())
}

#[test]
fn a_handle_that_is_behind_reads_on(rt: HostRuntime) -> Result<(), Fail> {
    let alloc = rt.alloc();
    let mut log = made(alloc, &[NO_WORLD, MADE, NOT_APPENDED, READ_1, APPENDED])?;
    assert!(rt; append(&mut log, 6) == Err(AppendFault::Taken));
    assert!(rt; !log.takes_appends());
    assert!(rt; read_on(alloc, &mut log) == Ok(1));
    assert!(rt; append(&mut log, 6) == Ok(()));
    assert!(rt; log.entries().len() == 2);
    Ok(())
}

#[test]
fn silence_is_doubt(rt: HostRuntime) -> Result<(), Fail> {
    let alloc = rt.alloc();
    let mut log = made(alloc, &[NO_WORLD, MADE, "", "", READ_1])?;
    assert!(rt; append(&mut log, 5) == Err(AppendFault::InDoubt));
    assert!(rt; read_on(alloc, &mut log) == Err(ReadFault::Silent));
    assert!(rt; log.len() == 0 && !log.takes_appends());
    assert!(rt; read_on(alloc, &mut log) == Ok(1));
    assert!(rt; log.takes_appends());
    Ok(())
}

#[test]
fn a_malformed_answer_is_doubt(rt: HostRuntime) -> Result<(), Fail> {
    let mut log = made(rt.alloc(), &[NO_WORLD, MADE, ERROR])?;
    assert!(rt; append(&mut log, 5) == Err(AppendFault::InDoubt));
    assert!(rt; !log.takes_appends());
    Ok(())
}

#[test]
fn another_head_is_a_failure(rt: HostRuntime) -> Result<(), Fail> {
    let alloc = rt.alloc();
    let answers = [
        NO_WORLD,
        MADE,
        NOT_APPENDED,
        READ_OTHER,
        READ_1_NONE,
        NOTHING,
    ];
    let mut log = made(alloc, &answers)?;
    assert!(rt; append(&mut log, 5) == Err(AppendFault::Taken));
    assert!(rt; read_on(alloc, &mut log) == Err(ReadFault::Device));
    assert!(rt; read_on(alloc, &mut log) == Err(ReadFault::Device));
    assert!(rt; read_on(alloc, &mut log) == Err(ReadFault::Device));
    assert!(rt; log.len() == 0 && !log.takes_appends());
    Ok(())
}

#[test]
fn a_log_is_read_in_parts(rt: HostRuntime) -> Result<(), Fail> {
    let alloc = rt.alloc();
    let answers = [NO_WORLD, MADE, READ_3_FIRST, READ_3_REST, READ_3_NONE];
    let mut log = made(alloc, &answers)?;
    assert!(rt; read_on(alloc, &mut log) == Ok(3));
    assert!(rt; read_on(alloc, &mut log) == Ok(0));
    assert!(rt; log.len() == 3);
    Ok(())
}

#[test]
fn a_part_that_is_damaged_leaves_what_was_known(rt: HostRuntime) -> Result<(), Fail> {
    let alloc = rt.alloc();
    let answers = [NO_WORLD, MADE, READ_3_FIRST, READ_3_NONE, READ_3];
    let mut log = made(alloc, &answers)?;
    assert!(rt; read_on(alloc, &mut log) == Err(ReadFault::Device));
    assert!(rt; log.len() == 0 && log.takes_appends());
    assert!(rt; read_on(alloc, &mut log) == Ok(3));
    Ok(())
}

/// Opens a world over one answer, and returns how many entries it has.
fn count(alloc: Global, text: &str, viewers: Option<u8>) -> Result<Result<u64, WorldFault>, Fail> {
    match opened(alloc, &[text], viewers)? {
        Ok(opened) => Ok(Ok(opened.log.len())),
        Err(fault) => Ok(Err(fault)),
    }
}

#[test]
fn a_world_that_is_there_is_opened(rt: HostRuntime) -> Result<(), Fail> {
    let alloc = rt.alloc();
    assert!(rt; count(alloc, OPEN_3, None)? == Ok(3));
    assert!(rt; count(alloc, OPEN_3, Some(3))? == Err(WorldFault::WrongSeats));
    assert!(rt; count(alloc, OPEN_3_REST, None)? == Err(WorldFault::Damaged(1)));
    assert!(rt; count(alloc, OPEN_1_TOO_MANY, None)? == Err(WorldFault::Damaged(4)));
    assert!(rt; count(alloc, OPEN_NO_HEAD, None)? == Err(WorldFault::Malformed));
    Ok(())
}

#[test]
fn a_world_that_is_gone_is_not_made(rt: HostRuntime) -> Result<(), Fail> {
    let alloc = rt.alloc();
    let answers = engine(alloc, &[NO_WORLD, MADE])?;
    match open_world(alloc, answers, door()?, &GIVEN, None, false) {
        Ok(_) => Err(Fail::from("a world is made")),
        Err(fault) => {
            assert!(rt; fault == WorldFault::Malformed);
            Ok(())
        }
    }
}

#[test]
fn another_host_makes_the_world_first(rt: HostRuntime) -> Result<(), Fail> {
    let answers = [NO_WORLD, NOT_MADE, OPEN_OTHER];
    let Ok(opened) = opened(rt.alloc(), &answers, None)? else {
        return Err(Fail::from("a world isn't opened"));
    };
    assert!(rt; !opened.is_new && opened.head.run == [8; 16]);
    Ok(())
}
