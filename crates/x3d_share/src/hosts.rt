//! How a host starts: the run of its log, and its turns. A host without a log file has a log in
//! memory, and a run of its own.

ghost use Rattle.app_words.specs.Words.{HostInRange};

use crate::defaults::{turns_of, viewers_of};
use crate::doors::{Door, HostTexts, OverSocket, Way, opened, way_of};
use crate::ends::{tell_cut_short, tell_host_end, tell_kept, tell_strange, tell_unsealed};
use crate::host_job::{HostJob, job_in};
use crate::reached::run_at;
use crate::turns::{HostLog, HostTurns};
use app_commands::{PatientPort, Peer, SharedJob, TellingPort, Watch, shared_job};
use app_logs::{
    Base, Beat, Entry, Head, LogFault, LogPlan, LoggedHost, MemoryLog, is_viewer_count, resume,
    times_after,
};
use app_program::{RunFault, ShareFault, read_whole};
use app_serve::{End, drawn_run};
use app_standby::Origin;
use app_words::{HostOrder, Order};
use cascade_core::Stage;
use script_boxes::StockScript;
use share_keeping::KeepingPort;
use share_logged::Learns;
use share_turns::{HostPlan, Port};
use share_welcomes::{HostPort, HostRun};
use std::alloc::Global;

/// How many peers a socket of this machine has: one for each port.
pub const PORTS: usize = 65_536;

/// What a host turns with.
#[derive(Drop)]
pub struct Turning {
    /// That of its log.
    pub head: Head,
    pub hosting: LoggedHost,
    /// The clocks of its job that are still to be numbered, in microseconds.
    pub clocks: Vec<i64>,
    pub turns: HostTurns,
    /// That of its log, if it has one.
    pub base: Option<Base>,
    /// How many of the last inputs keep their lines of the trace, if it keeps the world; `None`
    /// keeps all.
    pub forget: Option<u64>,
}

/// What a host begins with.
#[derive(Drop)]
pub struct Starting {
    pub turning: Turning,
    /// Those of its log, or those after its base.
    pub entries: Vec<Entry>,
    /// That of its scene, if it keeps the world.
    pub stage: Option<Stage<StockScript>>,
}

impl Starting {
    /// Has the host keep the world of this stage, if there is one.
    pub fn with_stage(self, stage: Option<Stage<StockScript>>) -> Starting {
        let Starting {
            turning,
            entries,
            stage: _,
        } = self;
        Starting {
            turning,
            entries,
            stage,
        }
    }
}

/// Returns what a host does that goes on after an input at time `last`, in at most `turns` turns.
pub fn plan_of(asked: &HostOrder, last: i64, turns: u64) -> LogPlan {
    LogPlan {
        host: HostPlan {
            keep: asked.keep,
            until: asked.until,
        },
        beat: Beat {
            every: asked.every,
            base: last,
        },
        turns,
    }
}

/// Reads a job of clocks.
pub fn read_clocks(rt: &HostRuntime, order: &Order) -> Result<SharedJob, End> {
    match read_whole(rt.alloc(), &mut rt.reader()) {
        Ok(bytes) => Ok(shared_job(rt.alloc(), bytes.as_slice(), order)?),
        Err(fault) => Err(End::from(RunFault::from(fault))),
    }
}

/// Returns the port of a host in the run of a log with this head, its base if it has one, and these
/// entries.
fn port_in_run<P: Drop>(
    alloc: Global,
    bound: P,
    head: &Head,
    base: Option<&Base>,
    entries: &[Entry],
) -> Result<HostPort<P>, End> {
    if !is_viewer_count(head.viewers) {
        return Err(End::Log(LogFault::BadHead));
    }
    let run = HostRun::of_head(head);
    let begun = match base {
        Some(base) => HostPort::begin_from(alloc, bound, run, PORTS, base, entries),
        None => HostPort::begin(alloc, bound, run, PORTS, entries),
    };
    match begun {
        Ok(port) => Ok(port),
        Err(_refused) => Err(End::from(ShareFault::Memory)),
    }
}

/// Takes the turns of a host over its log at a port.
fn run_turns<L: HostLog, P: Learns + OverSocket + Drop>(
    rt: &HostRuntime,
    turning: Turning,
    verbose: bool,
    log: &mut L,
    port: P,
) -> Result<(), End> {
    let Turning {
        head,
        hosting,
        clocks,
        turns,
        base,
        forget: _,
    } = turning;
    let mark = head.mark;
    let origin = Origin {
        mark,
        viewers: head.viewers,
        base,
    };
    let watch = Watch::new(mark, Peer::Host(head.viewers), port.has_numbers());
    let mut port = PatientPort::new(TellingPort::new(port, rt, verbose, watch), rt);
    if !log.takes_appends() {
        return Err(End::InDoubt);
    }
    let before = log.len();
    let done = log.run(rt.alloc(), &origin, hosting, &clocks, &turns, &mut port);
    let numbered = log.len().saturating_sub(before);
    tell_unsealed(rt, verbose, port.port().port().unsealed());
    tell_strange(rt, verbose, port.port().port().strange());
    tell_cut_short(rt, verbose, port.port().port().cut_short());
    tell_host_end(rt, verbose, clocks.len(), numbered, port.port().counts());
    done
}

/// Runs a host over its log at a port, and keeps its world. The log's entries are those of a host,
/// so only memory may be refused to them.
fn run_keeping<L: HostLog, P: Learns + OverSocket + Drop>(
    rt: &HostRuntime,
    turning: Turning,
    verbose: bool,
    log: &mut L,
    port: P,
    stage: Stage<StockScript>,
    entries: &[Entry],
) -> Result<(), End> {
    match KeepingPort::begin(port, stage, turning.head.mark, entries, turning.forget) {
        Ok(port) => {
            tell_kept(rt, verbose, port.stage().applied());
            run_turns(rt, turning, verbose, log, port)
        }
        Err(_refused) => {
            drop(turning);
            Err(End::from(ShareFault::Memory))
        }
    }
}

/// Runs a host over its log at a port, which answers each datagram in the version in which it came.
fn run_in_run<L: HostLog, P: Port + OverSocket + Drop>(
    rt: &HostRuntime,
    starting: Starting,
    verbose: bool,
    log: &mut L,
    port: HostPort<P>,
) -> Result<(), End> {
    let Starting {
        turning,
        entries,
        stage,
    } = starting;
    let done = match stage {
        Some(stage) => run_keeping(rt, turning, verbose, log, port, stage, &entries),
        None => run_turns(rt, turning, verbose, log, port),
    };
    drop(entries);
    done
}

/// Runs a host over its log at a port, in the run of its log.
pub fn run_over<L: HostLog, P: Port + OverSocket + Drop>(
    rt: &HostRuntime,
    starting: Starting,
    verbose: bool,
    log: &mut L,
    bound: P,
) -> Result<(), End> {
    let head = &starting.turning.head;
    let base = starting.turning.base.as_ref();
    match port_in_run(rt.alloc(), bound, head, base, &starting.entries) {
        Ok(port) => run_in_run(rt, starting, verbose, log, port),
        Err(end) => {
            drop(starting);
            Err(end)
        }
    }
}

/// Returns what a host of a job begins with that has no log, in this run.
fn without_log(
    alloc: Global,
    job: HostJob,
    asked: &HostOrder,
    run: [u8; 16],
) -> Result<Starting, ShareFault>
    requires { HostInRange asked.now }
{
    let viewers = viewers_of(asked);
    let mark = job.mark;
    let head = Head { viewers, mark, run };
    let turns = HostTurns {
        plan: plan_of(asked, 0, u64::from(turns_of(asked))),
        standby: 0,
    };
    let Ok(clocks) = times_after(alloc, 0, job.inputs.as_slice()) else {
        drop(job);
        return Err(ShareFault::Memory);
    };
    let Ok(hosting) = resume(alloc, mark, viewers, &[]) else {
        drop(job);
        return Err(ShareFault::Memory);
    };
    Ok(Starting {
        turning: Turning {
            head,
            hosting,
            clocks,
            turns,
            base: None,
            forget: asked.forget,
        },
        entries: Vec::new(alloc),
        stage: job.into_stage(),
    })
}

/// Runs the host of a job at a door, with a log in memory and a run drawn at random.
fn hosted_at(rt: &HostRuntime, job: HostJob, asked: &HostOrder, door: Door<'_>) -> Result<(), End>
    requires { HostInRange asked.now }
{
    let run = match drawn_run(rt) {
        Ok(run) => run,
        Err(fault) => {
            drop(job);
            return Err(End::from(fault));
        }
    };
    let starting = without_log(rt.alloc(), job, asked, run)?;
    let Ok(mut memory) = MemoryLog::new(rt.alloc(), 1, Vec::new(rt.alloc())) else {
        drop(starting);
        return Err(End::from(ShareFault::Memory));
    };
    run_at(rt, starting, asked.verbose, &mut memory.handle(0), door)
}

/// Binds the socket of a job's host, and runs it with a log in memory.
fn hosted(rt: &HostRuntime, job: HostJob, asked: &HostOrder, way: Way) -> Result<(), End>
    requires { HostInRange asked.now }
{
    match opened(rt, asked, way) {
        Ok(door) => hosted_at(rt, job, asked, door),
        Err(end) => {
            drop(job);
            Err(end)
        }
    }
}

/// Reads a job of clocks, and runs its host without a log.
pub fn host(
    rt: &HostRuntime,
    order: &Order,
    asked: &HostOrder,
    texts: &HostTexts<'_>,
) -> Result<(), End>
    requires { HostInRange asked.now }
{
    let job = read_clocks(rt, order)?;
    match way_of(rt, asked, texts) {
        Ok(way) => {
            let job = job_in(rt.alloc(), job, &way)?;
            hosted(rt, job, asked, way)
        }
        Err(end) => {
            drop(job);
            Err(end)
        }
    }
}
