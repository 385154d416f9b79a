//! A log by hand, changed and torn files, and an append that stops at each call.

use crate::{Expected, FileLog, OpenFault, Restarted, append_and_restart, create, open};
use share_entries::{Entry, Head, HeadFault, Source};
use share_store::{AppendFault, Log, ReadFault};
use sqlite_disk::{Crash, Disk, Fuse, Memory};
use std::alloc::Global;
use std::test::Fail;

pub(crate) const HEAD: Head = Head {
    viewers: 2,
    mark: [7; 32],
    run: [9; 16],
};

pub(crate) const EXPECTED: Expected = Expected {
    mark: [7; 32],
    viewers: None,
};

/// The head, a frame of a clock at 5 microseconds, a frame of clocks at 6 and 7, and a shut gate.
/// The digests are those of Python's hashlib.
static FILE: [u8; 155] = [
    1, 0, 64, 88, 51, 68, 76, 1, 2, 0, 0, 7, 7, 7, 7, 7, 7, 7, 7, 7, 7, 7, 7, 7, 7, 7, 7, 7, 7, 7,
    7, 7, 7, 7, 7, 7, 7, 7, 7, 7, 7, 7, 7, 9, 9, 9, 9, 9, 9, 9, 9, 9, 9, 9, 9, 9, 9, 9, 9, 11, 81,
    158, 172, 16, 164, 191, 99, 1, 0, 36, 0, 0, 1, 0, 0, 0, 0, 0, 0, 0, 1, 0, 0, 0, 0, 0, 0, 0, 5,
    0, 105, 44, 60, 32, 67, 251, 43, 138, 90, 28, 11, 160, 26, 111, 229, 181, 1, 0, 45, 0, 0, 2, 0,
    0, 0, 0, 0, 0, 0, 2, 0, 0, 0, 0, 0, 0, 0, 6, 0, 0, 0, 0, 0, 0, 0, 0, 7, 0, 43, 224, 40, 219,
    133, 177, 2, 74, 208, 230, 58, 160, 197, 239, 4, 88, 0,
];

/// The place of the last gate.
const END: usize = 154;

/// The place of the gate of the last frame.
const LAST: usize = 106;

/// Returns a file in memory with these bytes, on the disk.
pub(crate) fn disk_of(alloc: Global, bytes: &[u8]) -> Result<Memory, Fail> {
    let mut disk = Memory::new(alloc);
    disk.write_at(0, bytes)?;
    disk.sync()?;
    Ok(disk)
}

/// Returns the numbers of entries and of cut bytes, or the fault. A file that is refused is left
/// unchanged.
fn found(alloc: Global, bytes: &[u8]) -> Result<Result<(usize, u64), OpenFault>, Fail> {
    let disk = disk_of(alloc, bytes)?;
    if !disk.may_be_used() {
        return Err(Fail::from("a sync has failed"));
    }
    match open(alloc, disk, &EXPECTED) {
        Ok(opened) => Ok(Ok((opened.entries.len(), opened.cut))),
        Err((fault, disk)) => {
            if disk.bytes() != bytes {
                return Err(Fail::from("a refused file was changed"));
            }
            Ok(Err(fault))
        }
    }
}

#[test]
fn a_log_has_its_bytes(rt: HostRuntime) -> Result<(), Fail> {
    let alloc = rt.alloc();
    let disk = Memory::new(alloc);
    if !disk.may_be_used() {
        return Err(Fail::from("a new file isn't usable"));
    }
    let Ok(mut log) = create(alloc, disk, &HEAD) else {
        return Err(Fail::from("not made"));
    };
    let first = [Entry::new(5, Source::Clock)];
    let others = [Entry::new(6, Source::Clock), Entry::new(7, Source::Clock)];
    assert!(rt; log.append(&first).is_ok());
    assert!(rt; log.append(&others).is_ok());
    assert_eq!(rt; log.len(), 3);
    assert!(rt; log.into_disk().bytes() == FILE.as_slice());
    Ok(())
}

#[test]
fn a_file_is_named_by_its_fault(rt: HostRuntime) -> Result<(), Fail> {
    let alloc = rt.alloc();
    assert!(rt; found(alloc, &FILE)? == Ok((3, 0)));
    assert!(rt; found(alloc, b"")? == Err(OpenFault::BadHead(HeadFault::Short)));
    assert!(rt; found(alloc, b"\x00")? == Err(OpenFault::BadHead(HeadFault::Short)));
    assert!(rt; found(alloc, &FILE[..END])? == Err(OpenFault::LogDamaged(3)));
    assert!(rt; found(alloc, &FILE[..LAST])? == Err(OpenFault::LogDamaged(2)));
    Ok(())
}

/// Returns the next of a series of numbers that look random.
fn next(seed: &mut u64) -> u64 {
    *seed = seed
        .wrapping_mul(6_364_136_223_846_793_005)
        .wrapping_add(1_442_695_040_888_963_407);
    *seed >> 33
}

/// Returns the file with a byte changed, cut, or with bytes after it, and what opening answers: the
/// number of entries and of cut bytes, or nothing if the file is refused.
fn damaged(alloc: Global, seed: &mut u64) -> Result<(Vec<u8>, Option<(usize, u64)>), Fail> {
    let mut file = Vec::from_slice(alloc, &FILE)?;
    let at = (next(seed) % 155) as usize;
    let kind = next(seed) % 3;
    if kind == 0 {
        file.truncate(at);
        return Ok((file, None));
    }
    if kind == 1 {
        for _ in 0..at {
            file.push((next(seed) % 256) as u8)?;
        }
        return Ok((file, Some((3, at as u64))));
    }
    let to = (next(seed) % 254) as u8 + 2;
    if at >= file.len() || file[at] == to {
        return Ok((file, Some((3, 0))));
    }
    file[at] = to;
    if at == END {
        return Ok((file, Some((3, 0))));
    }
    // One whole frame before a shut gate is an append that was never acknowledged.
    if at == LAST {
        return Ok((file, Some((1, 48))));
    }
    Ok((file, None))
}

#[test]
fn damage_is_cut_or_refused(rt: HostRuntime) -> Result<(), Fail> {
    let alloc = rt.alloc();
    let mut seed = 1;
    for _ in 0..500 {
        let (file, wanted) = damaged(alloc, &mut seed)?;
        assert!(rt; found(alloc, &file)?.ok() == wanted);
    }
    Ok(())
}

/// The number of calls of an opening.
const OPENING: u64 = 10;

/// Opens the file over a disk that stops after this number of further calls.
fn stopping(alloc: Global, calls: u8) -> Result<FileLog<Fuse<Memory>>, Fail> {
    let disk = Fuse::new(disk_of(alloc, &FILE)?, OPENING + calls as u64);
    if !disk.may_be_used() {
        return Err(Fail::from("a sync has failed"));
    }
    match open(alloc, disk, &EXPECTED) {
        Ok(opened) => Ok(opened.log),
        Err(_) => Err(Fail::from("not opened")),
    }
}

/// Appends an entry over a disk that stops after this number of calls and forgets what was not
/// synced, and opens the file again. Returns whether the answer was `Ok`, and the number of entries
/// after it.
fn crashed(alloc: Global, calls: u8) -> Result<(bool, usize), Fail> {
    let log = stopping(alloc, calls)?;
    if !log.takes_appends() {
        return Err(Fail::from("it takes no appends"));
    }
    let more = [Entry::new(8, Source::Clock)];
    let Restarted { answer, opened } = append_and_restart(alloc, log, &more, &EXPECTED);
    match opened {
        Ok(opened) => Ok((answer.is_ok(), opened.entries.len())),
        Err(_) => Err(Fail::from("not opened again")),
    }
}

#[test]
fn a_crash_at_any_call_keeps_what_was_acknowledged(rt: HostRuntime) -> Result<(), Fail> {
    let alloc = rt.alloc();
    for calls in 0..6 {
        let wanted = if calls < 4 { (false, 3) } else { (true, 4) };
        assert!(rt; crashed(alloc, calls)? == wanted);
    }
    Ok(())
}

#[test]
fn nothing_is_answered_after_a_fault(rt: HostRuntime) -> Result<(), Fail> {
    let alloc = rt.alloc();
    let mut log = stopping(alloc, 0)?;
    if !log.takes_appends() {
        return Err(Fail::from("it takes no appends"));
    }
    let more = [Entry::new(8, Source::Clock)];
    assert!(rt; log.append(&more) == Err(AppendFault::InDoubt));
    assert!(rt; !log.takes_appends());
    assert!(rt; log.read_on(&mut Vec::new(alloc)) == Err(ReadFault::Device));
    Ok(())
}

/// The head, and a shut gate after it.
static MADE: [u8; 68] = [
    1, 0, 64, 88, 51, 68, 76, 1, 2, 0, 0, 7, 7, 7, 7, 7, 7, 7, 7, 7, 7, 7, 7, 7, 7, 7, 7, 7, 7, 7,
    7, 7, 7, 7, 7, 7, 7, 7, 7, 7, 7, 7, 7, 9, 9, 9, 9, 9, 9, 9, 9, 9, 9, 9, 9, 9, 9, 9, 9, 11, 81,
    158, 172, 16, 164, 191, 99, 0,
];

/// Reports whether a log is made in a file with these bytes. A file that is refused is left
/// unchanged.
fn is_made(alloc: Global, bytes: &[u8]) -> Result<bool, Fail> {
    let disk = disk_of(alloc, bytes)?;
    if !disk.may_be_used() {
        return Err(Fail::from("a sync has failed"));
    }
    match create(alloc, disk, &HEAD) {
        Ok(log) => Ok(log.into_disk().bytes() == MADE.as_slice()),
        Err((fault, disk)) => {
            if fault != OpenFault::NotEmpty || disk.bytes() != bytes {
                return Err(Fail::from("not made, or changed"));
            }
            Ok(false)
        }
    }
}

/// Returns a file in which the making of a log was cut off, or one that is much like it.
fn begun(alloc: Global, gate: u8, size: usize) -> Result<Vec<u8>, Fail> {
    let mut file = Vec::new(alloc);
    for byte in &MADE {
        if file.len() < size {
            file.push(*byte)?;
        }
    }
    if !file.is_empty() {
        file[0] = gate;
    }
    Ok(file)
}

#[test]
fn a_log_is_made_where_its_making_was_cut_off(rt: HostRuntime) -> Result<(), Fail> {
    let alloc = rt.alloc();
    for size in 0..69 {
        assert!(rt; is_made(alloc, &begun(alloc, 0, size)?)?);
        assert!(rt; is_made(alloc, &begun(alloc, b'x', size)?)? == (size < 2));
        assert!(rt; is_made(alloc, &begun(alloc, 1, size)?)? == (size < 2));
    }
    assert!(rt; is_made(alloc, &[0; 68])?);
    assert!(rt; !is_made(alloc, &[0; 69])?);
    assert!(rt; !is_made(alloc, &FILE)?);
    Ok(())
}

/// Makes a log over a disk that stops after this number of calls and forgets what was not synced,
/// and then makes it again. Returns whether it is there then.
fn made_again(alloc: Global, calls: u8) -> Result<bool, Fail> {
    let disk = Fuse::new(Memory::new(alloc), calls as u64);
    if !disk.may_be_used() {
        return Err(Fail::from("a new file isn't usable"));
    }
    let mut disk = match create(alloc, disk, &HEAD) {
        Ok(log) => log.into_disk(),
        Err((_fault, disk)) => disk,
    };
    disk.crash();
    if !disk.may_be_used() {
        return Err(Fail::from("a sync has failed"));
    }
    match create(alloc, disk, &HEAD) {
        Ok(log) => Ok(log.into_disk().inner().bytes() == MADE.as_slice()),
        Err((_fault, disk)) => Ok(disk.inner().bytes() == MADE.as_slice()),
    }
}

#[test]
fn a_making_that_stops_at_any_call_is_made_again(rt: HostRuntime) -> Result<(), Fail> {
    for calls in 0..12 {
        assert!(rt; made_again(rt.alloc(), calls)?);
    }
    Ok(())
}
