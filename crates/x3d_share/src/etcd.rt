//! The host of a world whose log etcd has, and other hosts may share.

ghost use Rattle.app_words.specs.Words.{HostInRange};

use crate::defaults::viewers_of;
use crate::doors::{Door, HostTexts, Way, opened, way_of};
use crate::ends::tell_log;
use crate::host_job::{HostJob, job_in};
use crate::hosts::{Starting, Turning, plan_of, read_clocks};
use crate::logs::turns_over_log;
use crate::reached::run_at;
use crate::turns::HostTurns;
use app_logs::{Base, Entry, Head, LogFault, is_viewer_count, resumed, times_after};
use app_serve::{End, drawn_run, etcd_at, parts_of, stage_with, world_end, world_of};
use app_words::{HostOrder, Order, OrderFault};
use cascade_core::Stage;
use script_boxes::StockScript;
use share_engine::{EtcdLog, OpenedWorld, open_world};
use share_http::EtcdEngine;
use share_session::WorldName;
use share_store::Remembers;
use std::alloc::Global;

/// The texts of the options by which etcd is reached, if they were given.
#[derive(Clone, Copy)]
pub struct EtcdTexts<'a> {
    /// That of `--etcd`.
    pub etcd: Option<&'a str>,
    /// That of `--world`.
    pub world: Option<&'a str>,
    /// That of `--login`.
    pub login: Option<&'a str>,
}

/// The log of a world in etcd.
type WorldLog<'a> = EtcdLog<EtcdEngine<'a>>;

/// A world whose log etcd has, or will have.
#[derive(Drop)]
struct SharedWorld<'a> {
    etcd: EtcdEngine<'a>,
    world: WorldName,
}

/// Returns etcd and the name of a world by the texts of a host's options. Fails with `NoWorldName`,
/// then `NoAddress`, and then with what is wrong with the file of the login.
fn shared_world<'a>(rt: &'a HostRuntime, texts: &EtcdTexts<'_>) -> Result<SharedWorld<'a>, End> {
    let world = world_of(texts.world)?;
    if world.text().is_empty() {
        return Err(End::NoWorldName);
    }
    let Some(text) = texts.etcd else {
        return Err(End::from(OrderFault::Words));
    };
    let etcd = etcd_at(rt, text, texts.login)?;
    Ok(SharedWorld { etcd, world })
}

/// Opens the log of a world, or makes it with a run drawn at random.
fn opened_world<'a>(
    rt: &HostRuntime,
    mark: [u8; 32],
    asked: &HostOrder,
    shared: SharedWorld<'a>,
) -> Result<OpenedWorld<EtcdEngine<'a>>, End>
    requires { HostInRange asked.now }
{
    let SharedWorld { etcd, world } = shared;
    let viewers = viewers_of(asked);
    let run = drawn_run(rt)?;
    let head = Head { viewers, mark, run };
    if !is_viewer_count(viewers) {
        return Err(End::Log(LogFault::BadHead));
    }
    match open_world(rt.alloc(), etcd, world, &head, asked.viewers, true) {
        Ok(opened) => Ok(opened),
        Err(fault) => Err(world_end(fault)),
    }
}

/// Returns the entries that a log has.
fn entries_of(alloc: Global, log: &WorldLog<'_>) -> Result<Vec<Entry>, LogFault> {
    let mut entries = Vec::new(alloc);
    match entries.extend_from_slice(log.entries()) {
        Ok(()) => Ok(entries),
        Err(_refused) => Err(LogFault::Memory),
    }
}

/// Returns what the host of a job begins with over a log of this head and base, but for its stage.
fn starting_of(
    rt: &HostRuntime,
    job: &HostJob,
    asked: &HostOrder,
    head: Head,
    base: Option<Base>,
    log: &WorldLog<'_>,
) -> Result<Starting, LogFault> {
    let entries = entries_of(rt.alloc(), log)?;
    let hosting = resumed(rt.alloc(), &head, &base, &entries)?;
    let last = hosting.last();
    let Ok(clocks) = times_after(rt.alloc(), last, job.inputs.as_slice()) else {
        drop(hosting);
        return Err(LogFault::Memory);
    };
    let turns = HostTurns {
        plan: plan_of(asked, last, turns_over_log(asked)),
        standby: asked.standby.unwrap_or(0),
    };
    Ok(Starting {
        turning: Turning {
            head,
            hosting,
            clocks,
            turns,
            base,
            forget: asked.forget,
        },
        entries,
        stage: None,
    })
}

/// Returns the stage of a host that keeps its world, as the world is at the base of its log, which
/// has this snapshot. Fails with `HasBase` if there is a base and the host doesn't keep its world.
fn stage_of(
    stage: Option<Stage<StockScript>>,
    mark: &[u8; 32],
    base: Option<&Base>,
    snapshot: Option<Vec<u8>>,
) -> Result<Option<Stage<StockScript>>, End> {
    let Some(base) = base else {
        return Ok(stage);
    };
    let Some(stage) = stage else {
        return Err(End::Log(LogFault::HasBase(base.number())));
    };
    let Some(bytes) = snapshot else {
        drop(stage);
        return Err(End::NoSnapshot);
    };
    Ok(Some(stage_with(stage, mark, base, &bytes)?))
}

/// Has a host begin with the world at the base of its log, if it keeps the world.
fn at_base(
    starting: Starting,
    mark: &[u8; 32],
    stage: Option<Stage<StockScript>>,
    snapshot: Option<Vec<u8>>,
) -> Result<Starting, End> {
    match stage_of(stage, mark, starting.turning.base.as_ref(), snapshot) {
        Ok(stage) => Ok(starting.with_stage(stage)),
        Err(end) => {
            drop(starting);
            Err(end)
        }
    }
}

/// Runs the host of a job over a log that was opened, at a door.
fn run_over_world(
    rt: &HostRuntime,
    job: HostJob,
    asked: &HostOrder,
    opened: OpenedWorld<EtcdEngine<'_>>,
    door: Door<'_>,
) -> Result<(), End> {
    let OpenedWorld {
        mut log,
        head,
        based,
        is_new: _,
    } = opened;
    let mark = job.mark;
    let (base, snapshot) = parts_of(based);
    match starting_of(rt, &job, asked, head, base, &log) {
        Ok(starting) => {
            let starting = at_base(starting, &mark, job.into_stage(), snapshot)?;
            let inputs = starting.turning.hosting.len();
            let clocks = starting.turning.clocks.len();
            tell_log(rt, asked.verbose, inputs, 0, clocks);
            run_at(rt, starting, asked.verbose, &mut log, door)
        }
        Err(fault) => {
            drop(job);
            Err(End::Log(fault))
        }
    }
}

/// Binds the socket, and then opens the log: a host whose port is taken makes no world.
fn begun_at<'a>(
    rt: &'a HostRuntime,
    mark: [u8; 32],
    asked: &HostOrder,
    way: Way,
    texts: &EtcdTexts<'_>,
) -> Result<(OpenedWorld<EtcdEngine<'a>>, Door<'a>), End>
    requires { HostInRange asked.now }
{
    let shared = shared_world(rt, texts)?;
    let door = opened(rt, asked, way)?;
    let world = opened_world(rt, mark, asked, shared)?;
    Ok((world, door))
}

/// Binds the socket, opens the log, and runs the host.
fn hosted(
    rt: &HostRuntime,
    job: HostJob,
    asked: &HostOrder,
    way: Way,
    texts: &EtcdTexts<'_>,
) -> Result<(), End>
    requires { HostInRange asked.now }
{
    match begun_at(rt, job.mark, asked, way, texts) {
        Ok((world, door)) => run_over_world(rt, job, asked, world, door),
        Err(end) => {
            drop(job);
            Err(end)
        }
    }
}

/// Reads a job of clocks, and runs its host over the log that etcd has of its world.
pub fn host_over_etcd(
    rt: &HostRuntime,
    order: &Order,
    asked: &HostOrder,
    texts: &HostTexts<'_>,
    etcd: &EtcdTexts<'_>,
) -> Result<(), End>
    requires { HostInRange asked.now }
{
    let job = read_clocks(rt, order)?;
    match way_of(rt, asked, texts) {
        Ok(way) => {
            let job = job_in(rt.alloc(), job, &way)?;
            hosted(rt, job, asked, way, etcd)
        }
        Err(end) => {
            drop(job);
            Err(end)
        }
    }
}
