//! Two handles of one log, which append in turn.

use crate::{AppendFault, Log, MemoryHandle, MemoryLog, Outcome};
use share_entries::{Entry, Source};
use std::alloc::Global;
use std::test::Fail;

/// Appends a clock by a handle.
fn append(mut handle: MemoryHandle<'_>, time: i64) -> Result<Result<(), AppendFault>, Fail> {
    if !handle.takes_appends() {
        return Err(Fail::from("the handle takes no appends"));
    }
    if time < 1 || time > 1000 {
        return Err(Fail::from("the time is out of range"));
    }
    Ok(handle.append(&[Entry::new(time, Source::Clock)]))
}

/// Reads on by a handle, and returns how many entries it then knows.
fn read_on(alloc: Global, mut handle: MemoryHandle<'_>) -> Result<u64, Fail> {
    let mut found = Vec::new(alloc);
    match handle.read_on(&mut found) {
        Ok(()) => Ok(handle.len()),
        Err(_) => Err(Fail::from("nothing is read")),
    }
}

#[test]
fn a_handle_that_is_behind_reads_on(rt: HostRuntime) -> Result<(), Fail> {
    let alloc = rt.alloc();
    let mut log = MemoryLog::new(alloc, 2, Vec::new(alloc))?;
    assert!(rt; append(log.handle(0), 5)?.is_ok());
    assert!(rt; append(log.handle(1), 6)? == Err(AppendFault::Taken));
    assert!(rt; !log.handle(1).takes_appends());
    assert_eq!(rt; read_on(alloc, log.handle(1))?, 1);
    assert!(rt; append(log.handle(1), 6)?.is_ok());
    log.is_one_log();
    assert_eq!(rt; log.entries().len(), 2);
    Ok(())
}

#[test]
fn appends_fail_by_their_number(rt: HostRuntime) -> Result<(), Fail> {
    let alloc = rt.alloc();
    let mut plan = Vec::new(alloc);
    plan.push(Outcome::Refused)?;
    plan.push(Outcome::InDoubtStored)?;
    let mut log = MemoryLog::new(alloc, 1, plan)?;
    assert!(rt; append(log.handle(0), 5)? == Err(AppendFault::Memory));
    log.go_on();
    assert!(rt; append(log.handle(0), 5)? == Err(AppendFault::InDoubt));
    assert_eq!(rt; read_on(alloc, log.handle(0))?, 1);
    assert_eq!(rt; log.entries().len(), 1);
    Ok(())
}
