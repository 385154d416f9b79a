//! The commands of a log: a host that makes one or goes on with one, and the inputs of a log as the
//! steps of a job.

use crate::doors::{Door, HostTexts, Way, opened, way_of};
use crate::ends::tell_log;
use crate::host_job::{HostJob, job_in};
use crate::hosts::{Starting, Turning, plan_of, read_clocks};
use crate::reached::run_at;
use crate::turns::HostTurns;
use app_logs::{Base, Begun, LogFault, recalled, recalled_info, restored, times_after};
use app_program::{RunFault, read_whole, write_whole};
use app_serve::{End, LogDisk, VIEWERS, disk_at, drawn_run, gone_on, made, stage_at};
use app_words::{HostOrder, LogUse, Order};
use cascade_core::Stage;
use script_boxes::StockScript;
use sqlite_disk::Disk;
use std::alloc::Global;
use std::io;

/// Begins the host of a job's scene in the file of a log.
fn begun_in(
    rt: &HostRuntime,
    disk: LogDisk,
    mark: [u8; 32],
    asked: &HostOrder,
) -> Result<Begun<LogDisk>, LogFault> {
    match asked.log {
        LogUse::Makes => made(rt, disk, mark, asked.viewers.unwrap_or(VIEWERS)),
        _ => gone_on(rt.alloc(), disk, mark, asked.viewers),
    }
}

/// Returns how many turns a host over a log takes.
pub fn turns_over_log(asked: &HostOrder) -> u64 {
    match asked.turns {
        Some(turns) => u64::from(turns),
        None => u64::MAX,
    }
}

/// Returns the stage of a host that keeps its world, as the world is at the base of its log. Fails
/// with `HasBase` if there is a base and the host doesn't keep its world.
fn world_at(
    rt: &HostRuntime,
    stage: Option<Stage<StockScript>>,
    mark: &[u8; 32],
    base: Option<&Base>,
    file: &str,
) -> Result<Option<Stage<StockScript>>, End> {
    match (stage, base) {
        (Some(stage), base) => Ok(Some(stage_at(rt, stage, mark, base, file)?)),
        (None, Some(base)) => Err(End::Log(LogFault::HasBase(base.number()))),
        (None, None) => Ok(None),
    }
}

/// Runs a host over its log at a door. `clocks` are those of its job that are still to be numbered.
fn run_over_log(
    rt: &HostRuntime,
    stage: Option<Stage<StockScript>>,
    clocks: Vec<i64>,
    asked: &HostOrder,
    begun: Begun<LogDisk>,
    door: Door<'_>,
    file: &str,
) -> Result<(), End> {
    let Begun {
        mut log,
        hosting,
        head,
        cut,
        base,
        entries,
    } = begun;
    let stage = world_at(rt, stage, &head.mark, base.as_ref(), file)?;
    tell_log(rt, asked.verbose, hosting.len(), cut, clocks.len());
    let turns = HostTurns {
        plan: plan_of(asked, hosting.last(), turns_over_log(asked)),
        standby: 0,
    };
    let starting = Starting {
        turning: Turning {
            head,
            hosting,
            clocks,
            turns,
            base,
            forget: asked.forget,
        },
        entries,
        stage,
    };
    run_at(rt, starting, asked.verbose, &mut log, door)
}

/// Opens the file of a log, binds the socket, begins the host, and returns it with those of these
/// clocks that are still to be numbered.
fn begun_at<'a>(
    rt: &'a HostRuntime,
    job: &HostJob,
    asked: &HostOrder,
    way: Way,
    file: &str,
) -> Result<(Begun<LogDisk>, Door<'a>, Vec<i64>), End> {
    let disk = disk_at(rt, file, asked.log)?;
    let door = opened(rt, asked, way)?;
    let begun = begun_in(rt, disk, job.mark, asked)?;
    match times_after(rt.alloc(), begun.hosting.last(), job.inputs.as_slice()) {
        Ok(clocks) => Ok((begun, door, clocks)),
        Err(_refused) => {
            drop(begun);
            Err(End::Log(LogFault::Memory))
        }
    }
}

/// Opens the file of a log, binds the socket, and runs the host.
fn hosted(
    rt: &HostRuntime,
    job: HostJob,
    asked: &HostOrder,
    way: Way,
    file: &str,
) -> Result<(), End> {
    match begun_at(rt, &job, asked, way, file) {
        Ok((begun, door, clocks)) => {
            run_over_log(rt, job.into_stage(), clocks, asked, begun, door, file)
        }
        Err(end) => {
            drop(job);
            Err(end)
        }
    }
}

/// Reads a job of clocks, and runs its host over the log of a file.
pub fn host_over_log(
    rt: &HostRuntime,
    order: &Order,
    asked: &HostOrder,
    texts: &HostTexts<'_>,
    file: &str,
) -> Result<(), End> {
    let job = read_clocks(rt, order)?;
    match way_of(rt, asked, texts) {
        Ok(way) => {
            let job = job_in(rt.alloc(), job, &way)?;
            hosted(rt, job, asked, way, file)
        }
        Err(end) => {
            drop(job);
            Err(end)
        }
    }
}

/// Makes a log of the inputs of the log that these bytes are, or of the first of them, in a file,
/// with a run drawn at random.
fn made_back(
    rt: &HostRuntime,
    bytes: &[u8],
    until: Option<u64>,
    file: &str,
) -> Result<(), LogFault> {
    // No file is made for a log that is refused.
    drop(recalled(rt.alloc(), bytes, Some(0))?);
    let run = drawn_run(rt)?;
    let disk = disk_at(rt, file, LogUse::Makes)?;
    if !disk.may_be_used() {
        return Err(LogFault::Device);
    }
    let log = restored(rt.alloc(), disk, bytes, until, run)?;
    drop(log);
    Ok(())
}

/// Reads the file of a log, and makes another of its inputs, or of the first of them, in a file.
pub fn recall_into(rt: &HostRuntime, until: Option<u64>, file: &str) -> Result<(), End> {
    match read_whole(rt.alloc(), &mut rt.reader()) {
        Ok(bytes) => Ok(made_back(rt, bytes.as_slice(), until, file)?),
        Err(fault) => Err(End::from(RunFault::from(fault))),
    }
}

/// Returns the inputs of a log, or the first of them, as the steps of a job; or with `info` what
/// the log has.
fn text_of(
    alloc: Global,
    bytes: &[u8],
    until: Option<u64>,
    info: bool,
) -> Result<Vec<u8>, LogFault> {
    if info {
        recalled_info(alloc, bytes, until)
    } else {
        recalled(alloc, bytes, until)
    }
}

/// Reads the file of a log, and prints its inputs, or the first of them, as the steps of a job; or
/// with `info` what the log has.
pub fn recall(rt: &HostRuntime, until: Option<u64>, info: bool) -> Result<(), End> {
    let bytes = match read_whole(rt.alloc(), &mut rt.reader()) {
        Ok(bytes) => bytes,
        Err(fault) => return Err(End::from(RunFault::from(fault))),
    };
    let text = text_of(rt.alloc(), bytes.as_slice(), until, info)?;
    match write_whole(&mut io::writer(rt), text.as_slice()) {
        Ok(()) => Ok(()),
        Err(fault) => Err(End::from(RunFault::from(fault))),
    }
}
