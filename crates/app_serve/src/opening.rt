//! How a world is opened.

use crate::end::End;
use crate::key_files::{drawn_bytes, host_keys};
use crate::known::Served;
use crate::names::path_of;
use crate::places::may_be_reached;
use crate::serving::Serving;
use crate::shots::{stage_at, stage_with};
use crate::stack::Stack;
use crate::starting::{BegunWorld, begun_world};
use crate::world::World;
use app_commands::{SharedJob, shared_job};
use app_logs::{Base, Entry, Head, LogFault};
use app_program::{
    JobFault, JobInputs, OpenedScene, RunFault, ShareFault, fresh_stage, read_whole,
};
use app_standby::Origin;
use app_words::{HostOrder, LogUse, Order};
use cascade_core::Stage;
use script_boxes::StockScript;
use share_guards::{GuardedPort, Placed};
use share_keeping::KeepingPort;
use share_keys::Keys;
use share_sealed::KeyedPort;
use share_session::{WorldName, session_of};
use share_turns::Port;
use share_welcomes::{HostPort, HostRun};
use share_worlds::{WorldPort, peers_of};
use std::alloc::Global;
use std::fs::{self, File};

/// The command by which the job of a world is read.
fn as_host(serving: &Serving) -> Order {
    Order::Host(HostOrder {
        port: None,
        has_address: true,
        has_keys: false,
        is_open: serving.is_open,
        log: LogUse::GoesOn,
        has_world: false,
        has_login: false,
        standby: None,
        viewers: serving.viewers,
        turns: None,
        keep: serving.keep,
        forget: serving.forget,
        every: serving.every,
        until: None,
        verbose: serving.verbose,
    })
}

/// The keys of a world, and a stage of its scene.
#[derive(Drop)]
struct Keyed {
    keys: Keys,
    stage: Stage<StockScript>,
    /// Of how many of the last inputs the stage keeps the lines of its trace; `None` keeps all.
    forget: Option<u64>,
}

/// What is kept of a job.
#[derive(Drop)]
struct Kept {
    mark: [u8; 32],
    inputs: JobInputs,
    /// If it has keys.
    keyed: Option<Keyed>,
}

fn job_at(rt: &HostRuntime, path: &str, serving: &Serving) -> Result<SharedJob, End> {
    let Ok(mut file) = File::open(rt, path) else {
        return Err(End::from(RunFault::Device));
    };
    match read_whole(rt.alloc(), &mut file) {
        Ok(bytes) => Ok(shared_job(rt.alloc(), bytes.as_slice(), &as_host(serving))?),
        Err(fault) => Err(End::from(RunFault::from(fault))),
    }
}

/// Returns the keys of a world, if there is a file of them.
fn keys_at(rt: &HostRuntime, path: &str) -> Result<Option<Keys>, End> {
    match fs::metadata(rt, path) {
        Ok(_) => Ok(Some(host_keys(rt, path)?)),
        Err(_) => Ok(None),
    }
}

/// What the ports of a world begin with.
#[derive(Clone, Copy)]
struct Known<'a> {
    run: HostRun,
    head: Head,
    /// That of its log, if it has one.
    base: Option<&'a Base>,
    /// Those of its log, or those after its base.
    entries: &'a [Entry],
    /// The snapshot of the world at the base, if the log had it.
    snapshot: Option<&'a [u8]>,
    /// The path of its log's file.
    path: &'a str,
}

/// Returns the port of a host, over one that knows the addresses of its peers.
fn hosted<P: Port + Placed + Drop>(
    rt: &HostRuntime,
    port: P,
    peers: usize,
    known: &Known<'_>,
) -> Result<HostPort<GuardedPort<P>>, End> {
    let secret = drawn_bytes(rt)?;
    let seed = drawn_bytes(rt)?;
    let Ok(guarded) = GuardedPort::new(rt.alloc(), port, peers, secret, seed) else {
        return Err(End::from(ShareFault::Memory));
    };
    let begun = match known.base {
        Some(base) => {
            HostPort::begin_from(rt.alloc(), guarded, known.run, peers, base, known.entries)
        }
        None => HostPort::begin(rt.alloc(), guarded, known.run, peers, known.entries),
    };
    match begun {
        Ok(port) => Ok(port),
        Err(_) => Err(End::from(ShareFault::Memory)),
    }
}

/// Returns the port of a host with keys.
fn keyed_port(
    rt: &HostRuntime,
    keys: Keys,
    known: &Known<'_>,
) -> Result<HostPort<GuardedPort<KeyedPort<WorldPort>>>, End> {
    let viewers = known.head.viewers;
    let Ok(port) = WorldPort::new(rt.alloc(), viewers) else {
        return Err(End::from(ShareFault::Memory));
    };
    let peers = usize::from(peers_of(viewers));
    match KeyedPort::new(rt.alloc(), port, peers, keys) {
        Ok(keyed) => hosted(rt, keyed, peers, known),
        Err(_) => Err(End::from(ShareFault::Memory)),
    }
}

/// Returns the ports of a world with keys, which keep the world of this stage. The log's entries
/// are those of a host, so only memory may be refused to them.
fn keeping_stack(
    rt: &HostRuntime,
    keys: Keys,
    stage: Stage<StockScript>,
    forget: Option<u64>,
    known: &Known<'_>,
) -> Result<Stack, End> {
    match keyed_port(rt, keys, known) {
        Ok(port) => {
            match KeepingPort::begin(port, stage, known.head.mark, known.entries, forget) {
                Ok(keeping) => Ok(Stack::Keyed(keeping)),
                Err(_refused) => Err(End::from(ShareFault::Memory)),
            }
        }
        Err(end) => {
            drop(stage);
            Err(end)
        }
    }
}

/// Returns the ports of a world with keys.
fn keyed_stack(rt: &HostRuntime, keyed: Keyed, known: &Known<'_>) -> Result<Stack, End> {
    let Keyed {
        keys,
        stage,
        forget,
    } = keyed;
    let stage = match (known.base, known.snapshot) {
        (Some(base), Some(bytes)) => stage_with(stage, &known.head.mark, base, bytes)?,
        (base, _) => stage_at(rt, stage, &known.head.mark, base, known.path)?,
    };
    keeping_stack(rt, keys, stage, forget, known)
}

/// Returns the ports of a world without keys. The world at a base is kept by a host with keys
/// alone.
fn open_stack(rt: &HostRuntime, known: &Known<'_>) -> Result<Stack, End> {
    if let Some(base) = known.base {
        return Err(End::Log(LogFault::HasBase(base.number())));
    }
    let viewers = known.head.viewers;
    let Ok(port) = WorldPort::new(rt.alloc(), viewers) else {
        return Err(End::from(ShareFault::Memory));
    };
    let peers = usize::from(peers_of(viewers));
    Ok(Stack::Open(hosted(rt, port, peers, known)?))
}

/// Returns the ports of a world.
fn stack_of(rt: &HostRuntime, keyed: Option<Keyed>, known: &Known<'_>) -> Result<Stack, End> {
    match keyed {
        Some(keyed) => keyed_stack(rt, keyed, known),
        None => open_stack(rt, known),
    }
}

/// Returns what is kept of a job whose world has these keys, and forgets all lines but those of the
/// last `forget` inputs.
fn kept_of(
    alloc: Global,
    job: SharedJob,
    keys: Option<Keys>,
    forget: Option<u64>,
) -> Result<Kept, JobFault> {
    let SharedJob {
        inputs,
        mark,
        scene,
        routes,
    } = job;
    let opened = OpenedScene { scene, routes };
    let Some(keys) = keys else {
        drop(opened);
        return Ok(Kept {
            mark,
            inputs,
            keyed: None,
        });
    };
    match fresh_stage(alloc, opened) {
        Ok(stage) => Ok(Kept {
            mark,
            inputs,
            keyed: Some(Keyed {
                keys,
                stage,
                forget,
            }),
        }),
        Err(fault) => {
            drop(inputs);
            Err(fault)
        }
    }
}

/// Reads the job of a world, and its keys if it has some.
fn read(rt: &HostRuntime, folder: &str, name: &WorldName, serving: &Serving) -> Result<Kept, End> {
    let keys = keys_at(rt, path_of(rt.alloc(), folder, name, ".keys")?.as_str())?;
    may_be_reached(&serving.place, keys.is_some(), serving.is_open)?;
    let path = path_of(rt.alloc(), folder, name, ".job")?;
    let job = job_at(rt, path.as_str(), serving)?;
    Ok(kept_of(rt.alloc(), job, keys, serving.forget)?)
}

/// Returns the world of a log that has begun.
fn world_of<'e, 'r>(
    served: &Served<'_, 'e, 'r>,
    begun: BegunWorld<'e, 'r>,
    keyed: Option<Keyed>,
    path: &str,
) -> Result<World<'e, 'r>, End> {
    let BegunWorld {
        log,
        hosting,
        head,
        run,
        clocks,
        base,
        snapshot,
        entries,
    } = begun;
    let bytes = snapshot.as_deref();
    let known = Known {
        run,
        head,
        base: base.as_ref(),
        entries: entries.as_slice(),
        snapshot: bytes,
        path,
    };
    let stack = stack_of(served.rt, keyed, &known)?;
    let mark = head.mark;
    let origin = Origin {
        mark,
        viewers: head.viewers,
        base,
    };
    Ok(World {
        session: session_of(&head.mark, &head.run),
        log,
        origin,
        hosting: Some(hosting),
        stack,
        clocks,
        turned: served.now,
        settles: served.serving.keep.map(|_| served.now),
    })
}

/// Opens the world with this name. If its log isn't in etcd it is made there if `makes` says so.
/// Fails with what is wrong with its keys, with `NoKeys`, or with what is wrong with its job or its
/// log.
pub fn open_world<'e, 'r>(
    served: &Served<'_, 'e, 'r>,
    name: &WorldName,
    makes: bool,
) -> Result<World<'e, 'r>, End> {
    let path = path_of(served.rt.alloc(), served.folder, name, ".x3dlog")?;
    let job = read(served.rt, served.folder, name, served.serving)?;
    match begun_world(served, name, job.mark, job.inputs.as_slice(), makes) {
        Ok(begun) => {
            let Kept {
                mark: _,
                inputs,
                keyed,
            } = job;
            drop(inputs);
            world_of(served, begun, keyed, path.as_str())
        }
        Err(end) => {
            drop(job);
            Err(end)
        }
    }
}
