//! The log of a world gets a base, while it runs.

use crate::alone::Alone;
use crate::end::End;
use crate::files::{LogDisk, disk_at, sync_folder};
use crate::known::Served;
use crate::names::path_of;
use crate::shared::Shared;
use crate::shots::{remove_shot, sum_of, write_shot};
use crate::stack::{KeyedStack, Stack};
use crate::telling::tell_based;
use crate::world::{World, WorldLog};
use app_logs::{Base, Entry, FileLog, Head, LogFault, LoggedHost, entries_after, make_log_from};
use app_program::read_whole;
use app_standby::Origin;
use app_words::LogUse;
use share_engine::{BasingFault, Place};
use share_keeping::Shot;
use share_session::WorldName;
use sqlite_disk::Disk;
use std::fs::{self, File};
use std::mem;

/// The base that the log gets next, and the snapshot there. Until then as many inputs come as are
/// to stay in the log.
#[derive(Drop)]
pub struct NextBase {
    base: Base,
    shot: Shot,
}

/// The base that a log in etcd gets next, and the place where it may be put.
#[derive(Drop)]
pub struct SharedBase {
    place: Place,
    next: NextBase,
}

/// The largest snapshot that is put into etcd, in bytes: etcd takes requests of 1.5 MiB.
const MOST_IN_ETCD: usize = 1 << 20;

/// Why a log gets no base.
#[derive(Clone, Copy)]
enum Unbased {
    /// The log is as it was.
    Kept,
    /// The file of the log is another, and it isn't known whether it would be after a crash.
    Replaced,
}

/// Reports whether a log has `every` inputs more than when its next base was last seen to, or than
/// are below its entries.
fn is_due(inputs: u64, seen: u64, below: u64, every: u64) -> bool {
    inputs >= seen.max(below).saturating_add(every)
}

/// Returns the base of the log of a world as it is now, which has this chain.
fn base_now(chain: [u8; 16], hosting: &LoggedHost, port: &KeyedStack) -> Option<NextBase> {
    let shot = port.snapshot()?;
    if shot.inputs() != hosting.len() {
        return None;
    }
    let base = hosting.base(chain, sum_of(&shot))?;
    Some(NextBase { base, shot })
}

/// Reads the entries after a base from the file of its log.
fn entries_behind(rt: &HostRuntime, path: &str, base: &Base) -> Result<Vec<Entry>, LogFault> {
    let Ok(mut file) = File::open(rt, path) else {
        return Err(LogFault::Device);
    };
    match read_whole(rt.alloc(), &mut file) {
        Ok(bytes) => entries_after(rt.alloc(), &bytes, base.number()),
        Err(_failed) => Err(LogFault::Device),
    }
}

/// Makes a log of a base and the entries after it, in a file that isn't there or is left from an
/// earlier try.
fn made_in(
    rt: &HostRuntime,
    part: &str,
    head: &Head,
    base: &Base,
    entries: &[Entry],
) -> Result<FileLog<LogDisk>, LogFault> {
    let _removed = fs::remove_file(rt, part);
    let disk = disk_at(rt, part, LogUse::Makes)?;
    if !disk.may_be_used() {
        return Err(LogFault::Device);
    }
    make_log_from(rt.alloc(), disk, head, base, entries)
}

/// Makes a log that begins with a base, beside the one whose place it is to take.
fn made_beside(
    rt: &HostRuntime,
    path: &str,
    part: &str,
    head: &Head,
    next: &NextBase,
) -> Result<FileLog<LogDisk>, LogFault> {
    if write_shot(rt, path, &next.shot).is_err() {
        return Err(LogFault::Device);
    }
    let entries = entries_behind(rt, path, &next.base)?;
    made_in(rt, part, head, &next.base, &entries)
}

/// Makes a log that begins with a base, and gives it the name of the file that it replaces.
fn based(
    rt: &HostRuntime,
    path: &str,
    head: &Head,
    next: &NextBase,
) -> Result<FileLog<LogDisk>, Unbased> {
    let Ok(part) = format!(in rt.alloc(); "{path}.new") else {
        return Err(Unbased::Kept);
    };
    let Ok(log) = made_beside(rt, path, part.as_str(), head, next) else {
        let _removed = fs::remove_file(rt, part.as_str());
        remove_shot(rt, path, next.base.number());
        return Err(Unbased::Kept);
    };
    if fs::rename(rt, part.as_str(), path).is_err() {
        drop(log);
        return Err(Unbased::Kept);
    }
    // If the folder isn't on the disk, a crash may bring the old file back.
    if sync_folder(rt, path).is_err() {
        drop(log);
        return Err(Unbased::Replaced);
    }
    Ok(log)
}

/// Gives a log its next base, and removes the snapshot of the base before. Returns the number of
/// the base, and `None` if the log stays as it was. Fails with `Device` if it isn't known which log
/// a crash would leave.
fn give_base(
    rt: &HostRuntime,
    path: &str,
    alone: &mut Alone,
    next: &NextBase,
) -> Result<Option<u64>, End> {
    match based(rt, path, &alone.head, next) {
        Ok(log) => {
            let before = alone.log.start().below;
            drop(mem::replace(&mut alone.log, log));
            if before > 0 {
                remove_shot(rt, path, before);
            }
            Ok(Some(next.base.number()))
        }
        Err(Unbased::Kept) => Ok(None),
        Err(Unbased::Replaced) => Err(End::Log(LogFault::Device)),
    }
}

/// Gives the log of a file its next base, if it is time. Returns the number of the base, and `None`
/// if the log stays as it was; nothing if it isn't time.
fn base_alone(
    served: &Served<'_, '_, '_>,
    name: &WorldName,
    alone: &mut Alone,
    every: u64,
    hosting: &LoggedHost,
    port: &KeyedStack,
) -> Result<Option<Option<u64>>, End> {
    let inputs = alone.inputs();
    if !is_due(inputs, alone.based, alone.log.start().below, every) {
        return Ok(None);
    }
    alone.based = inputs;
    let now = base_now(alone.log.chain(), hosting, port);
    let Some(next) = mem::replace(&mut alone.next, now) else {
        return Ok(None);
    };
    let path = path_of(served.rt.alloc(), served.folder, name, ".x3dlog")?;
    Ok(Some(give_base(served.rt, path.as_str(), alone, &next)?))
}

impl Shared<'_, '_> {
    /// Returns the base of the log as it is now.
    fn base_now(&self, hosting: &LoggedHost, port: &KeyedStack) -> Option<SharedBase> {
        let next = base_now(self.log.chain(), hosting, port)?;
        Some(SharedBase {
            place: self.log.place(),
            next,
        })
    }

    /// Puts a base into etcd, with its snapshot. Returns its number, and `None` if the snapshot is
    /// too long or memory is refused; nothing if another process was first, or etcd didn't answer,
    /// so that the base may be there.
    fn put(&mut self, ready: &SharedBase) -> Option<Option<u64>> {
        let snapshot = ready.next.shot.bytes();
        if snapshot.len() > MOST_IN_ETCD {
            return Some(None);
        }
        match self.log.put_base(&ready.place, &ready.next.base, snapshot) {
            Ok(()) => Some(Some(ready.next.base.number())),
            Err(BasingFault::Taken | BasingFault::InDoubt) => None,
            Err(BasingFault::OtherPlace | BasingFault::Memory) => Some(None),
        }
    }

    /// Has the log's handle forget the entries up to a base, from which its host then goes on.
    fn forget(&mut self, ready: SharedBase, origin: &mut Origin) {
        let SharedBase { place: _, next } = ready;
        let NextBase { base, shot } = next;
        drop(shot);
        if self.log.start_from(&base).is_ok() && self.log.start().below == base.number() {
            drop(mem::replace(&mut origin.base, Some(base)));
        } else {
            drop(base);
        }
    }

    /// Gives the log the base that is ready, if one is, and forgets the entries below it, which
    /// etcd has if it doesn't take the base. Returns what is to be told, as `put` does.
    fn based(&mut self, origin: &mut Origin) -> Option<Option<u64>> {
        let ready = self.next.take()?;
        let told = self.put(&ready);
        self.forget(ready, origin);
        told
    }

    /// Gives the log its next base, if it is time, and then makes the one after it, which may be
    /// put while no other is. Returns what is to be told; nothing if it isn't time.
    fn base_if_due(
        &mut self,
        every: u64,
        origin: &mut Origin,
        hosting: &LoggedHost,
        port: &KeyedStack,
    ) -> Option<Option<u64>> {
        let inputs = self.inputs();
        if !is_due(inputs, self.based, self.log.start().below, every) {
            return None;
        }
        self.based = inputs;
        let told = self.based(origin);
        let now = self.base_now(hosting, port);
        drop(mem::replace(&mut self.next, now));
        told
    }
}

impl<'e, 'r> World<'e, 'r> {
    /// Gives the log of the world a base, if the world is kept, and it is time: the base of
    /// `--base` inputs ago, so that as many entries stay in the log. If that fails the log stays as
    /// it is for as many inputs more.
    pub fn base_if_due(
        &mut self,
        served: &Served<'_, 'e, 'r>,
        name: &WorldName,
    ) -> Result<(), End> {
        let Stack::Keyed(port) = &self.stack else {
            return Ok(());
        };
        let (Some(every), Some(hosting)) = (served.serving.base, &self.hosting) else {
            return Ok(());
        };
        let done = match &mut self.log {
            WorldLog::Alone(alone) => base_alone(served, name, alone, every, hosting, port)?,
            WorldLog::Shared(shared) => {
                shared.base_if_due(every, &mut self.origin, hosting, port)
            }
        };
        if let Some(number) = done {
            if served.serving.verbose {
                tell_based(served.rt, name, number);
            }
        }
        Ok(())
    }
}
