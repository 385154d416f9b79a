//! A log with a base by hand. The digests are those of Python's hashlib.

use crate::tests::{EXPECTED, HEAD, disk_of};
use crate::{FileLog, OpenFault, create_with_base, open};
use share_entries::{Entry, Source, base_of};
use share_store::Log;
use sqlite_disk::{Disk, Memory};
use std::alloc::Global;
use std::test::Fail;

/// The head, a base of number 3, a frame of a clock at 5 microseconds, which is number 4, and a shut
/// gate.
static FILE: [u8; 200] = [
    1, 0, 64, 88, 51, 68, 76, 1, 2, 0, 0, 7, 7, 7, 7, 7, 7, 7, 7, 7, 7, 7, 7, 7, 7, 7, 7, 7, 7, 7,
    7, 7, 7, 7, 7, 7, 7, 7, 7, 7, 7, 7, 7, 9, 9, 9, 9, 9, 9, 9, 9, 9, 9, 9, 9, 9, 9, 9, 9, 11, 81,
    158, 172, 16, 164, 191, 99, 1, 0, 90, 1, 2, 0, 0, 0, 5, 0, 0, 0, 1, 0, 0, 0, 0, 0, 0, 0, 0, 0,
    0, 0, 0, 0, 0, 0, 3, 0, 0, 0, 0, 0, 0, 0, 4, 8, 8, 8, 8, 8, 8, 8, 8, 8, 8, 8, 8, 8, 8, 8, 8, 6,
    6, 6, 6, 6, 6, 6, 6, 6, 6, 6, 6, 6, 6, 6, 6, 6, 6, 6, 6, 6, 6, 6, 6, 6, 6, 6, 6, 6, 6, 6, 6,
    231, 189, 225, 13, 23, 130, 243, 51, 1, 0, 36, 0, 0, 1, 0, 0, 0, 0, 0, 0, 0, 4, 0, 0, 0, 0, 0,
    0, 0, 5, 0, 230, 47, 111, 41, 137, 161, 227, 92, 74, 179, 216, 167, 133, 56, 118, 218, 0,
];

/// The head, a base of one viewer, and a shut gate.
static OTHER: [u8; 153] = [
    1, 0, 64, 88, 51, 68, 76, 1, 2, 0, 0, 7, 7, 7, 7, 7, 7, 7, 7, 7, 7, 7, 7, 7, 7, 7, 7, 7, 7, 7,
    7, 7, 7, 7, 7, 7, 7, 7, 7, 7, 7, 7, 7, 9, 9, 9, 9, 9, 9, 9, 9, 9, 9, 9, 9, 9, 9, 9, 9, 11, 81,
    158, 172, 16, 164, 191, 99, 1, 0, 82, 1, 1, 0, 0, 0, 5, 0, 0, 0, 1, 0, 0, 0, 0, 0, 0, 0, 3, 0,
    0, 0, 0, 0, 0, 0, 4, 8, 8, 8, 8, 8, 8, 8, 8, 8, 8, 8, 8, 8, 8, 8, 8, 6, 6, 6, 6, 6, 6, 6, 6, 6,
    6, 6, 6, 6, 6, 6, 6, 6, 6, 6, 6, 6, 6, 6, 6, 6, 6, 6, 6, 6, 6, 6, 6, 171, 73, 11, 139, 45, 176,
    244, 117, 0,
];

/// The places of the base in the first file.
const BASE: usize = 70;

const BEHIND: usize = 160;

#[test]
fn a_log_with_a_base_has_its_bytes(rt: HostRuntime) -> Result<(), Fail> {
    let alloc = rt.alloc();
    let Some(base) = base_of(&FILE[BASE..BEHIND]) else {
        return Err(Fail::from("there is no base"));
    };
    if base.kept().len() != 2 {
        return Err(Fail::from("another number of viewers"));
    }
    let disk = Memory::new(alloc);
    if !disk.may_be_used() {
        return Err(Fail::from("a new file isn't usable"));
    }
    let Ok(mut log) = create_with_base(alloc, disk, &HEAD, &base) else {
        return Err(Fail::from("not made"));
    };
    assert!(rt; log.start().below == 3);
    assert!(rt; log.append(&[Entry::new(5, Source::Clock)]).is_ok());
    assert!(rt; log.len() == 1);
    assert!(rt; log.into_disk().bytes() == FILE.as_slice());
    Ok(())
}

/// Opens the log of a disk that must have this number of entries after the base.
fn opened(alloc: Global, disk: Memory, entries: u64) -> Result<FileLog<Memory>, Fail> {
    if !disk.may_be_used() {
        return Err(Fail::from("a sync has failed"));
    }
    let Ok(opened) = open(alloc, disk, &EXPECTED) else {
        return Err(Fail::from("not opened"));
    };
    if opened.base.is_none() || opened.entries.len() as u64 != entries || opened.cut != 0 {
        return Err(Fail::from("another log"));
    }
    Ok(opened.log)
}

#[test]
fn numbers_go_on_after_a_base(rt: HostRuntime) -> Result<(), Fail> {
    let alloc = rt.alloc();
    let mut log = opened(alloc, disk_of(alloc, &FILE)?, 1)?;
    if !log.takes_appends() {
        return Err(Fail::from("it takes no appends"));
    }
    assert!(rt; log.append(&[Entry::new(6, Source::Clock)]).is_ok());
    let chain = log.chain();
    let log = opened(alloc, log.into_disk(), 2)?;
    assert!(rt; log.start().below == 3);
    assert!(rt; log.chain() == chain);
    Ok(())
}

/// Returns the fault of a file.
fn fault_of(alloc: Global, bytes: &[u8]) -> Result<Option<OpenFault>, Fail> {
    let disk = disk_of(alloc, bytes)?;
    if !disk.may_be_used() {
        return Err(Fail::from("a sync has failed"));
    }
    match open(alloc, disk, &EXPECTED) {
        Ok(opened) => {
            drop(opened);
            Ok(None)
        }
        Err((fault, _disk)) => Ok(Some(fault)),
    }
}

#[test]
fn a_damaged_base_is_refused(rt: HostRuntime) -> Result<(), Fail> {
    let alloc = rt.alloc();
    for at in BASE..BEHIND {
        let mut file = Vec::from_slice(alloc, &FILE)?;
        if at < file.len() {
            file[at] ^= 1;
        }
        assert!(rt; fault_of(alloc, &file)? == Some(OpenFault::LogDamaged(1)));
    }
    Ok(())
}

#[test]
fn a_base_of_other_viewers_is_refused(rt: HostRuntime) -> Result<(), Fail> {
    assert!(rt; fault_of(rt.alloc(), &OTHER)? == Some(OpenFault::LogDamaged(1)));
    Ok(())
}
