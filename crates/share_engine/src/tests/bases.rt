//! Bases that are read and put.

use super::by_hand::{APPENDED, MADE, NOT_APPENDED};
use super::openings::{
    BASED, NO_WORLD, OPEN_BASE, OPEN_NO_BASE, OPEN_OTHER_SEATS, READ_1_AGAIN, READ_3_AGAIN,
};
use super::{CHAIN, GIVEN, append, asked, count, door, made, opened, read_on};
use crate::{BasingFault, WorldFault};
use share_entries::{Base, Entry, Source, Start, frame_bytes};
use share_etcd::{Revisions, append_bytes, basing_bytes};
use share_rules::SeatCount;
use share_store::{Log, Remembers};
use std::test::Fail;

/// The base of entry 1, a clock at 5 microseconds.
fn base_of_1() -> Base {
    Base::new(
        &[SeatCount { boot: 0, count: 0 }; 2],
        1,
        5,
        CHAIN,
        WORLD_SUM,
    )
}

/// The SHA-256 of `world`.
const WORLD_SUM: [u8; 32] = [
    0x48, 0x6e, 0xa4, 0x62, 0x24, 0xd1, 0xbb, 0x4f, 0xb6, 0x80, 0xf3, 0x4f, 0x7c, 0x9a, 0xd9, 0x6a,
    0x8f, 0x24, 0xec, 0x88, 0xbe, 0x73, 0xea, 0x8e, 0x5a, 0x6c, 0x65, 0x26, 0x0e, 0x9c, 0xb8, 0xa7,
];

#[test]
fn a_world_goes_on_from_its_base(rt: HostRuntime) -> Result<(), Fail> {
    let alloc = rt.alloc();
    let Ok(opened) = opened(alloc, &[OPEN_BASE, READ_3_AGAIN], None)? else {
        return Err(Fail::from("a world isn't opened"));
    };
    let mut log = opened.log;
    let start = Start {
        below: 1,
        chain: CHAIN,
    };
    assert!(rt; log.start() == start && log.len() == 2);
    let Some(found) = opened.based else {
        return Err(Fail::from("the base is missing"));
    };
    assert!(rt; found.base.number() == 1 && found.base.chain() == CHAIN);
    assert!(rt;
        found.base.snapshot() == WORLD_SUM && found.snapshot.as_slice() == b"world".as_slice()
    );
    assert!(rt; log.place().number() == 3);
    assert!(rt; read_on(alloc, &mut log) == Ok(0));
    assert!(rt; count(alloc, OPEN_OTHER_SEATS, None)? == Err(WorldFault::Damaged(1)));
    assert!(rt; count(alloc, OPEN_NO_BASE, None)? == Err(WorldFault::Damaged(1)));
    Ok(())
}

#[test]
fn a_base_is_put_where_a_frame_ended(rt: HostRuntime) -> Result<(), Fail> {
    let alloc = rt.alloc();
    let base = base_of_1();
    let mut log = made(alloc, &[NO_WORLD, MADE, APPENDED, BASED, APPENDED])?;
    assert!(rt; append(&mut log, 5) == Ok(()));
    let place = log.place();
    assert!(rt; log.put_base(&place, &base, b"world") == Ok(()));
    let asked_for = basing_bytes(
        alloc,
        &door()?,
        Revisions { head: 2, tail: 3 },
        &GIVEN,
        &base,
        b"world",
    )?;
    assert!(rt; asked(&log, 3, &asked_for) && log.takes_appends());
    // No other base may be put there, and the next append names the new head.
    assert!(rt; log.put_base(&place, &base, b"world") == Err(BasingFault::Taken));
    assert!(rt; log.len() == 1);
    log.start_from(&base)?;
    assert!(rt; log.len() == 0 && log.start().below == 1 && log.chain() == CHAIN);
    assert!(rt; append(&mut log, 6) == Ok(()));
    let frame = frame_bytes(alloc, &CHAIN, 2, &[Entry::new(6, Source::Clock)])?;
    let known = Revisions { head: 5, tail: 3 };
    let next = append_bytes(alloc, &door()?, known, 2, 2, &frame)?;
    assert!(rt; asked(&log, 4, &next));
    Ok(())
}

#[test]
fn a_base_that_is_not_put_leaves_the_log(rt: HostRuntime) -> Result<(), Fail> {
    let alloc = rt.alloc();
    let base = base_of_1();
    let answers = [NO_WORLD, MADE, APPENDED, NOT_APPENDED, READ_1_AGAIN, ""];
    let mut log = made(alloc, &answers)?;
    let early = log.place();
    assert!(rt; append(&mut log, 5) == Ok(()));
    let place = log.place();
    assert!(rt; log.put_base(&early, &base, b"world") == Err(BasingFault::OtherPlace));
    assert!(rt; log.takes_appends());
    assert!(rt; log.put_base(&place, &base, b"world") == Err(BasingFault::Taken));
    assert!(rt; !log.takes_appends());
    // Another host's base is there.
    assert!(rt; read_on(alloc, &mut log) == Ok(0) && log.takes_appends());
    assert!(rt; log.put_base(&place, &base, b"world") == Err(BasingFault::Taken));
    assert!(rt; log.takes_appends());
    let place = log.place();
    assert!(rt; log.put_base(&place, &base, b"world") == Err(BasingFault::InDoubt));
    assert!(rt; !log.takes_appends() && log.len() == 1);
    Ok(())
}
