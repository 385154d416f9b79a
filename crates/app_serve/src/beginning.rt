//! How the log of a file begins: made with a run drawn at random, or gone on with.

use crate::files::{LogDisk, drawn_run};
use app_logs::{Begun, Expected, Head, LogFault, go_on, is_viewer_count, make_log};
use sqlite_disk::Disk;
use std::alloc::Global;

/// Makes a log with a run drawn at random.
pub fn made(
    rt: &HostRuntime,
    disk: LogDisk,
    mark: [u8; 32],
    viewers: u8,
) -> Result<Begun<LogDisk>, LogFault> {
    let run = drawn_run(rt)?;
    if !disk.may_be_used() || !is_viewer_count(viewers) {
        return Err(LogFault::Device);
    }
    let head = Head { viewers, mark, run };
    match make_log(rt.alloc(), disk, &head) {
        Ok(begun) => Ok(begun),
        Err((fault, _disk)) => Err(fault),
    }
}

/// Goes on with a log.
pub fn gone_on(
    alloc: Global,
    disk: LogDisk,
    mark: [u8; 32],
    viewers: Option<u8>,
) -> Result<Begun<LogDisk>, LogFault> {
    if !disk.may_be_used() {
        return Err(LogFault::Device);
    }
    match go_on(alloc, disk, &Expected { mark, viewers }) {
        Ok(begun) => Ok(begun),
        Err((fault, _disk)) => Err(fault),
    }
}
