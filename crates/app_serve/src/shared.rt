//! A log that other processes may have too: that of etcd.

ghost use Rattle.std.specs.Prelude.{◌≤◌};
ghost use Rattle.x3d_values.specs.Ranges.{max_viewers};

use crate::basing::SharedBase;
use crate::end::End;
use crate::etcd::EtcdWay;
use crate::stack::Stack;
use crate::world::Ahead;
use app_logs::{Beat, Log, LogFault, LoggedHost, is_viewer_count};
use app_standby::{
    Now, Origin, Pace, READ_EVERY, SharedFault, SharedPlan, act, must_read, read, stands_in,
};
use share_engine::EtcdLog;
use share_store::Remembers;
use share_turns::HostPlan;
use std::alloc::Global;
use std::mem;

/// For this many milliseconds, and those from one clock of a beat to the next, a world makes no
/// clocks after one of another process, or after it was opened.
const STANDBY: u64 = 2_000;

/// The log of a world in etcd, and what its process knows of other ones.
#[derive(Drop)]
pub struct Shared<'e, 'r> {
    pub log: EtcdLog<EtcdWay<'e, 'r>>,
    way: EtcdWay<'e, 'r>,
    /// The base that the log gets next, if one is ready.
    pub next: Option<SharedBase>,
    /// How many inputs the log had when its next base was last seen to.
    pub based: u64,
    pace: Pace,
    /// The revision of its tail when etcd was last asked for those of all worlds.
    seen: u64,
    /// The tail has another revision than before, so entries may be there to be read.
    is_stale: bool,
    /// When it had the last clock of another process, or was opened, in milliseconds.
    clocked: u64,
}

/// Returns what there is of a host.
fn now_of(hosting: Option<LoggedHost>) -> Now {
    match hosting {
        Some(hosting) => Now::Hosting(hosting),
        None => Now::Behind,
    }
}

/// Returns the host, if there is one.
fn host_of(now: Now) -> Option<LoggedHost> {
    match now {
        Now::Hosting(hosting) => Some(hosting),
        Now::Behind => None,
    }
}

/// Reads on over the ports of a world.
fn read_over<L: Remembers>(
    alloc: Global,
    origin: &Origin,
    now: Now,
    pace: &mut Pace,
    log: &mut L,
    stack: &mut Stack,
) -> Result<Now, SharedFault>
    requires some { 1 ≤ origin.now.viewers }
    requires most { origin.now.viewers ≤ max_viewers }
{
    match stack {
        Stack::Open(port) => read(alloc, origin, now, pace, log, port),
        Stack::Keyed(port) => read(alloc, origin, now, pace, log, port),
    }
}

/// Runs a turn over the ports of a world.
fn act_over<L: Log>(
    clocks: &[i64],
    plan: &SharedPlan,
    now: Now,
    pace: &mut Pace,
    log: &mut L,
    stack: &mut Stack,
) -> Result<Now, SharedFault> {
    match stack {
        Stack::Open(port) => act(clocks, plan, now, pace, log, port),
        Stack::Keyed(port) => act(clocks, plan, now, pace, log, port),
    }
}

/// Returns for how many milliseconds after a clock of another process a world makes none.
fn standby_of(every: Option<u32>) -> u64 {
    STANDBY + u64::from(every.unwrap_or(0))
}

impl<'e, 'r> Shared<'e, 'r> {
    /// Returns the log of a world, whose last input has this time in microseconds, and which was
    /// opened at `now`.
    pub fn new(
        log: EtcdLog<EtcdWay<'e, 'r>>,
        way: EtcdWay<'e, 'r>,
        beat: Beat,
        now: u64,
    ) -> Shared<'e, 'r> {
        Shared {
            log,
            way,
            next: None,
            based: 0,
            pace: Pace::new(beat),
            seen: 0,
            is_stale: false,
            clocked: now,
        }
    }

    /// Returns how many inputs the log had when it was last read or appended to, with those below
    /// its base.
    pub fn inputs(&self) -> u64 {
        self.log.start().below.saturating_add(self.log.len())
    }

    /// Notes the revision of its tail. Returns whether it is another one than before.
    pub fn note_tail(&mut self, revision: u64) -> bool {
        if self.seen == revision {
            return false;
        }
        self.seen = revision;
        self.is_stale = true;
        true
    }

    /// Reports whether it must read on before the next turn.
    pub fn is_behind(&self, has_host: bool) -> bool {
        self.is_stale || !has_host || !self.log.takes_appends()
    }

    /// Returns when etcd may be asked again, if that is after `now`.
    pub fn opens(&self, now: u64) -> Option<u64> {
        self.way.opens(now)
    }

    /// Returns when the process may make clocks, if no other does.
    fn stands_in_at(&self, every: Option<u32>) -> u64 {
        self.clocked.saturating_add(standby_of(every))
    }

    /// Reports whether clocks of the job are left that are later than the last input.
    fn has_later(&self, clocks: &[i64], last: i64) -> bool {
        match clocks.last() {
            Some(time) => last < *time && self.pace.place < clocks.len() as u64,
            None => false,
        }
    }

    /// Returns when the next clock is due, after an input at time `last`, if there is one. The last
    /// turn was at `turned`.
    pub fn beat(&self, clocks: &[i64], last: i64, every: Option<u32>, turned: u64) -> Option<u64> {
        let first = self.stands_in_at(every);
        if self.has_later(clocks, last) {
            return Some(first);
        }
        every?;
        let left = self.pace.due.saturating_sub(self.pace.rested);
        Some(turned.saturating_add(left).max(first))
    }

    /// Returns what the world does in a turn.
    fn plan(&self, ahead: &Ahead<'_>) -> SharedPlan {
        let silent = ahead.now.saturating_sub(self.clocked);
        let makes = ahead.makes && stands_in(silent, standby_of(ahead.serving.every));
        SharedPlan {
            host: HostPlan {
                keep: ahead.serving.keep,
                until: None,
            },
            beat: self.pace.beat,
            turns: u64::MAX,
            standby: if makes { 0 } else { u64::MAX },
        }
    }

    /// Reports whether it reads on before this turn.
    fn reads(&self, has_host: bool, ahead: &Ahead<'_>) -> bool {
        let since = if self.is_stale { READ_EVERY } else { 0 };
        ahead.makes
            && must_read(
                has_host && self.log.takes_appends(),
                since,
                self.pace.silent,
            )
    }

    /// Reads on.
    fn read(
        &mut self,
        alloc: Global,
        origin: &Origin,
        now: Now,
        stack: &mut Stack,
    ) -> Result<Now, End> {
        if !is_viewer_count(origin.viewers) {
            drop(now);
            return Err(End::Log(LogFault::BadHead));
        }
        let pace = &mut self.pace;
        match read_over(alloc, origin, now, pace, &mut self.log, stack) {
            Ok(after) => Ok(after),
            Err(fault) => Err(End::from(fault)),
        }
    }

    /// Notes what a reading found at `now`. If it found nothing, etcd isn't asked for a while.
    fn note_read(&mut self, base: i64, has_host: bool, now: u64) {
        if self.pace.beat.base != base {
            self.clocked = now;
        }
        self.is_stale = self.is_stale && self.way.is_shut(now);
        if !has_host || !self.log.takes_appends() {
            self.way.pause();
        }
    }

    /// Reads on if it is time to.
    fn keep_up(
        &mut self,
        hosting: Option<LoggedHost>,
        ahead: &Ahead<'_>,
        stack: &mut Stack,
    ) -> Result<Option<LoggedHost>, End> {
        if !self.reads(hosting.is_some(), ahead) {
            return Ok(hosting);
        }
        let base = self.pace.beat.base;
        let after = self.read(ahead.alloc, ahead.origin, now_of(hosting), stack)?;
        let hosting = host_of(after);
        self.note_read(base, hosting.is_some(), ahead.now);
        Ok(hosting)
    }

    /// Runs a turn, unless etcd doesn't answer.
    pub fn turn(
        &mut self,
        hosting: Option<LoggedHost>,
        ahead: &Ahead<'_>,
        stack: &mut Stack,
    ) -> Result<Option<LoggedHost>, End> {
        let hosting = self.keep_up(hosting, ahead, stack)?;
        if self.way.is_shut(ahead.now) {
            return Ok(hosting);
        }
        let plan = self.plan(ahead);
        let pace = &mut self.pace;
        let now = now_of(hosting);
        match act_over(ahead.clocks, &plan, now, pace, &mut self.log, stack) {
            Ok(after) => Ok(host_of(after)),
            Err(fault) => Err(End::from(fault)),
        }
    }
}
