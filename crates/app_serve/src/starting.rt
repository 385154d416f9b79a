//! How the log of a world begins: in a file, or in etcd.

use crate::alone::Alone;
use crate::beginning::{gone_on, made};
use crate::end::End;
use crate::etcd::{EtcdWay, world_end};
use crate::files::{LogDisk, disk_at, drawn_run};
use crate::known::Served;
use crate::names::path_of;
use crate::serving::{Serving, VIEWERS};
use crate::shared::Shared;
use crate::world::WorldLog;
use app_logs::{
    Base, Beat, Begun, Entry, Head, LogFault, LoggedHost, is_viewer_count, resumed, times_after,
};
use app_words::LogUse;
use share_engine::{OpenedWorld, WorldBase, open_world};
use share_session::{ViewerCount, WorldName};
use share_store::Remembers;
use share_welcomes::HostRun;
use std::alloc::Global;
use std::fs;
use x3d_values::Stamped;

/// A world whose log has begun.
#[derive(Drop)]
pub struct BegunWorld<'e, 'r> {
    pub log: WorldLog<'e, 'r>,
    pub hosting: LoggedHost,
    pub head: Head,
    pub run: HostRun,
    /// The times of its job's clocks in microseconds that are later than the log's last input.
    pub clocks: Vec<i64>,
    /// That of its log, if it has one.
    pub base: Option<Base>,
    /// The snapshot of the world at the base, if the log had it.
    pub snapshot: Option<Vec<u8>>,
    /// Those of its log, or those after its base.
    pub entries: Vec<Entry>,
}

/// A log that has begun.
#[derive(Drop)]
struct BegunLog<'e, 'r> {
    log: WorldLog<'e, 'r>,
    hosting: LoggedHost,
    head: Head,
    /// That of the log, if it has one.
    base: Option<Base>,
    /// The snapshot of the world at the base, if the log had it.
    snapshot: Option<Vec<u8>>,
    /// Those of the log, or those after its base.
    entries: Vec<Entry>,
}

/// Reports whether a file has bytes.
fn has_bytes(rt: &HostRuntime, path: &str) -> bool {
    match fs::metadata(rt, path) {
        Ok(found) => found.len() > 0,
        Err(_) => false,
    }
}

/// Begins the log of a file: goes on with it, or makes it where there is none, or where its making
/// was cut off.
fn begun_at(
    rt: &HostRuntime,
    path: &str,
    mark: [u8; 32],
    serving: &Serving,
) -> Result<Begun<LogDisk>, LogFault> {
    if has_bytes(rt, path) {
        let disk = disk_at(rt, path, LogUse::GoesOn)?;
        match gone_on(rt.alloc(), disk, mark, serving.viewers) {
            Err(LogFault::BadHead) => {}
            done => return done,
        }
    }
    let disk = disk_at(rt, path, LogUse::Makes)?;
    match made(rt, disk, mark, serving.viewers.unwrap_or(VIEWERS)) {
        Err(LogFault::NotEmpty) => Err(LogFault::BadHead),
        done => done,
    }
}

/// Returns the log of a file that has begun.
fn begun_alone<'e, 'r>(begun: Begun<LogDisk>, every: Option<u32>) -> BegunLog<'e, 'r> {
    let Begun {
        log,
        hosting,
        head,
        cut: _,
        base,
        entries,
    } = begun;
    let last = hosting.last();
    BegunLog {
        log: WorldLog::Alone(Alone::new(log, head, last, every)),
        hosting,
        head,
        base,
        snapshot: None,
        entries,
    }
}

/// Opens the log of a world in etcd. If there is none it is made, with a run drawn at random, if
/// `makes` says so.
fn opened_in<'e, 'r>(
    served: &Served<'_, 'e, 'r>,
    way: EtcdWay<'e, 'r>,
    name: &WorldName,
    mark: [u8; 32],
    makes: bool,
) -> Result<OpenedWorld<EtcdWay<'e, 'r>>, End> {
    let viewers = served.serving.viewers.unwrap_or(VIEWERS);
    let run = drawn_run(served.rt)?;
    let head = Head { viewers, mark, run };
    if !is_viewer_count(viewers) {
        return Err(End::Log(LogFault::BadHead));
    }
    let viewers = served.serving.viewers;
    match open_world(served.rt.alloc(), way, *name, &head, viewers, makes) {
        Ok(opened) => Ok(opened),
        Err(fault) => Err(world_end(fault)),
    }
}

/// Returns entries, and the host that they make with those below the base.
fn host_with(
    alloc: Global,
    head: &Head,
    base: &Option<Base>,
    entries: &[Entry],
) -> Result<(LoggedHost, Vec<Entry>), LogFault> {
    let hosting = resumed(alloc, head, base, entries)?;
    match Vec::from_slice(alloc, entries) {
        Ok(copy) => Ok((hosting, copy)),
        Err(_refused) => {
            drop(hosting);
            Err(LogFault::Memory)
        }
    }
}

/// Returns the base of a world in etcd, and the snapshot there.
pub fn parts_of(based: Option<WorldBase>) -> (Option<Base>, Option<Vec<u8>>) {
    match based {
        Some(WorldBase { base, snapshot }) => (Some(base), Some(snapshot)),
        None => (None, None),
    }
}

/// Returns the log of a world in etcd that was opened.
fn begun_shared<'e, 'r>(
    served: &Served<'_, 'e, 'r>,
    way: EtcdWay<'e, 'r>,
    opened: OpenedWorld<EtcdWay<'e, 'r>>,
) -> Result<BegunLog<'e, 'r>, LogFault> {
    let OpenedWorld {
        log,
        head,
        based,
        is_new: _,
    } = opened;
    let (base, snapshot) = parts_of(based);
    let (hosting, entries) = match host_with(served.rt.alloc(), &head, &base, log.entries()) {
        Ok(found) => found,
        Err(fault) => {
            drop(log);
            drop(base);
            drop(snapshot);
            return Err(fault);
        }
    };
    let beat = Beat {
        every: served.serving.every,
        base: hosting.last(),
    };
    Ok(BegunLog {
        log: WorldLog::Shared(Shared::new(log, way, beat, served.now)),
        hosting,
        head,
        base,
        snapshot,
        entries,
    })
}

/// Begins the log of a world of a scene with this mark.
fn begun_log<'e, 'r>(
    served: &Served<'_, 'e, 'r>,
    name: &WorldName,
    mark: [u8; 32],
    makes: bool,
) -> Result<BegunLog<'e, 'r>, End> {
    if let Some(way) = served.etcd {
        let opened = opened_in(served, way, name, mark, makes)?;
        return Ok(begun_shared(served, way, opened)?);
    }
    let path = path_of(served.rt.alloc(), served.folder, name, ".x3dlog")?;
    let begun = begun_at(served.rt, path.as_str(), mark, served.serving)?;
    Ok(begun_alone(begun, served.serving.every))
}

/// Returns the run of the world with this name, whose log has this head.
fn run_of(head: &Head, name: &WorldName) -> Result<HostRun, End> {
    if !is_viewer_count(head.viewers) {
        return Err(End::Log(LogFault::BadHead));
    }
    Ok(HostRun::new(head.mark, head.run, *name, ViewerCount::new(head.viewers)))
}

/// Returns the run of a log that has begun, and the clocks of a job that are later than its last
/// input, in microseconds.
fn run_and_clocks(
    alloc: Global,
    begun: &BegunLog<'_, '_>,
    name: &WorldName,
    inputs: &[Stamped],
) -> Result<(HostRun, Vec<i64>), End> {
    let run = run_of(&begun.head, name)?;
    match times_after(alloc, begun.hosting.last(), inputs) {
        Ok(clocks) => Ok((run, clocks)),
        Err(_refused) => Err(End::Log(LogFault::Memory)),
    }
}

/// Begins the log of a world, whose job has this mark and these inputs. If there is none in etcd it
/// is made if `makes` says so. Fails with what is wrong with the log, or with `Memory`.
pub fn begun_world<'e, 'r>(
    served: &Served<'_, 'e, 'r>,
    name: &WorldName,
    mark: [u8; 32],
    inputs: &[Stamped],
    makes: bool,
) -> Result<BegunWorld<'e, 'r>, End> {
    let begun = begun_log(served, name, mark, makes)?;
    match run_and_clocks(served.rt.alloc(), &begun, name, inputs) {
        Ok((run, clocks)) => {
            let BegunLog {
                log,
                hosting,
                head,
                base,
                snapshot,
                entries,
            } = begun;
            Ok(BegunWorld {
                log,
                hosting,
                head,
                run,
                clocks,
                base,
                snapshot,
                entries,
            })
        }
        Err(end) => {
            drop(begun);
            Err(end)
        }
    }
}
