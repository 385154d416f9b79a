//! How a host's turns go over its log.

ghost use Rattle.std.specs.Prelude.{IsTrue};

use app_logs::{
    Log, LogFault, LogPlan, LoggedHost, RunFault as LogRunFault, is_viewer_count, log_run,
};
use app_program::ShareFault;
use app_serve::End;
use app_standby::{Origin, SharedPlan, shared_run};
use share_engine::{Engine, EtcdLog};
use share_file::FileLog;
use share_logged::Learns;
use share_store::MemoryHandle;
use sqlite_disk::Disk;
use std::alloc::Global;

/// What a host does over its log.
#[derive(Clone, Copy)]
pub struct HostTurns {
    pub plan: LogPlan,
    /// The seconds without an input of another host before this one makes clocks.
    pub standby: u32,
}

/// A log of a host.
pub trait HostLog: Log {
    /// Runs the turns of a host over the log, whose entries go on from the base of its origin, if
    /// it has one. `clocks` are those of its job that are still to be numbered, in microseconds.
    fn run<P: Learns>(
        &mut self,
        alloc: Global,
        origin: &Origin,
        hosting: LoggedHost,
        clocks: &[i64],
        turns: &HostTurns,
        port: &mut P,
    ) -> Result<(), End>
        requires { IsTrue (Self.is_open self.old) };
}

/// Returns why the turns of a host ended early.
fn run_end(fault: LogRunFault) -> End {
    match fault {
        LogRunFault::TurnsUsedUp => End::from(ShareFault::TurnsUsedUp),
        LogRunFault::Turn(fault) => End::from(fault),
    }
}

/// Runs the turns of a host over a log that no other host has.
fn run_alone<L: Log, P: Learns>(
    log: &mut L,
    hosting: LoggedHost,
    clocks: &[i64],
    turns: &HostTurns,
    port: &mut P,
) -> Result<(), End>
    requires { IsTrue (L.is_open log.old) }
{
    match log_run(hosting, clocks, &turns.plan, log, port) {
        Ok(()) => Ok(()),
        Err(fault) => Err(run_end(fault)),
    }
}

impl HostLog for MemoryHandle<'_> {
    fn run<P: Learns>(
        &mut self,
        _alloc: Global,
        _origin: &Origin,
        hosting: LoggedHost,
        clocks: &[i64],
        turns: &HostTurns,
        port: &mut P,
    ) -> Result<(), End> {
        run_alone(self, hosting, clocks, turns, port)
    }
}

impl<D: Disk> HostLog for FileLog<D> {
    fn run<P: Learns>(
        &mut self,
        _alloc: Global,
        _origin: &Origin,
        hosting: LoggedHost,
        clocks: &[i64],
        turns: &HostTurns,
        port: &mut P,
    ) -> Result<(), End> {
        run_alone(self, hosting, clocks, turns, port)
    }
}

/// Returns what a host does over a log that other hosts share.
fn shared_plan(turns: &HostTurns) -> SharedPlan {
    SharedPlan {
        host: turns.plan.host,
        beat: turns.plan.beat,
        turns: turns.plan.turns,
        standby: u64::from(turns.standby) * 1_000,
    }
}

impl<E: Engine> HostLog for EtcdLog<E> {
    fn run<P: Learns>(
        &mut self,
        alloc: Global,
        origin: &Origin,
        hosting: LoggedHost,
        clocks: &[i64],
        turns: &HostTurns,
        port: &mut P,
    ) -> Result<(), End> {
        if !is_viewer_count(origin.viewers) {
            drop(hosting);
            return Err(End::Log(LogFault::BadHead));
        }
        let plan = shared_plan(turns);
        match shared_run(alloc, origin, hosting, clocks, &plan, self, port) {
            Ok(()) => Ok(()),
            Err(fault) => Err(End::from(fault)),
        }
    }
}
