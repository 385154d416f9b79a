//! A rehearsal as a whole.

ghost use Rattle.std.specs.Prelude.{◌≡◌, ◌<◌, ◌≤◌, ◌++◌, ◌∷◌, [], length, Err, IfErr, IfOk, OnErr, OnOk};
ghost use Rattle.x3d_values.specs.Ranges.{max_viewers};
ghost use Rattle.share_rehearsal.specs.Calls.{begun_with, seen, viewers_from};
ghost use Rattle.share_rehearsal.specs.Loaded.{AreFresh};
ghost use Rattle.share_rehearsal.specs.Rehearsed.{IsLogged, IsRehearsed};

use crate::ending::push_endings;
use crate::fault::RehearseFault;
use crate::nodes::Nodes;
use crate::play::play;
use cascade_core::Stage;
use script_host::Behaviour;
use share_core::{Host, Viewer};
use share_law::Step;
use std::alloc::{AllocError, Global};
use x3d_values::MAX_VIEWERS;

/// The largest number of viewers.
const MOST: usize = MAX_VIEWERS as usize;

/// The host and the viewers, as the steps left them.
#[derive(Drop)]
pub struct Rehearsal<B: Behaviour> {
    pub host: Host,
    pub viewers: Vec<Viewer<B>>,
}

/// Adds a viewer of this stage with the next number, as its boot 1.
fn seat<B: Behaviour>(
    viewers: &mut Vec<Viewer<B>>,
    stage: Stage<B>,
    mark: [u8; 32],
) -> Result<(), AllocError>
    requires fresh { AreFresh (stage ∷ []) }
    requires room { length viewers.old.items < max_viewers }
    ensures { IfOk result (λ _. viewers.new.items
        ≡ viewers.old.items ++ viewers_from mark (length viewers.old.items) (stage ∷ [])) }
{
    let number = viewers.len() as u8;
    viewers.push(Viewer::start(stage, mark, number, 1))?;
    Ok(())
}

/// Returns a viewer for each stage, numbered in order from 0, each as its boot 1.
pub fn viewers_of<B: Behaviour>(
    alloc: Global,
    stages: Vec<Stage<B>>,
    mark: [u8; 32],
) -> Result<Vec<Viewer<B>>, AllocError>
    requires fresh { AreFresh stages.items }
    requires most { length stages.items ≤ max_viewers }
    ensures { IfOk result (λ viewers. viewers.items ≡ viewers_from mark 0 stages.items) }
{
    let mut viewers = Vec::new(alloc);
    for stage in stages {
        // Drop with a call, not in place, so that the exit is easy to prove.
        let Ok(()) = seat(&mut viewers, stage, mark) else {
            drop(viewers);
            return Err(AllocError);
        };
    }
    Ok(viewers)
}

/// Runs the steps and appends their log. On an error, the buffer is unchanged.
fn log_all<B: Behaviour>(
    alloc: Global,
    nodes: &mut Nodes<B>,
    steps: &[Step],
    out: &mut Vec<u8>,
) -> Result<(), AllocError>
    ensures ok { OnOk result (IsLogged (seen nodes.old) steps.now out.old.items out.new.items
        (seen nodes.new)) }
    ensures err { OnErr result (out.new.items ≡ out.old.items) }
{
    let mut log = Vec::new(alloc);
    play(alloc, nodes, steps, &mut log)?;
    push_endings(&nodes.viewers, &mut log)?;
    out.extend_from_slice(&log)
}

/// Keeps the host and the viewers of the nodes, and drops the rest.
fn ended<B: Behaviour>(nodes: Nodes<B>) -> Rehearsal<B>
    ensures host { result.host ≡ nodes.host }
    ensures viewers { result.viewers.items ≡ nodes.viewers.items }
{
    let Nodes {
        host,
        viewers,
        packets,
        shots,
    } = nodes;
    drop(packets);
    drop(shots);
    Rehearsal { host, viewers }
}

/// Returns a host and its viewers before the first step.
fn begun<B: Behaviour>(
    alloc: Global,
    stages: Vec<Stage<B>>,
    mark: [u8; 32],
) -> Result<Nodes<B>, AllocError>
    requires fresh { AreFresh stages.items }
    requires some { 1 ≤ length stages.items }
    requires most { length stages.items ≤ max_viewers }
    ensures { IfOk result (λ nodes. seen nodes ≡ begun_with mark stages.items) }
{
    let count = stages.len() as u8;
    let viewers = viewers_of(alloc, stages, mark)?;
    Ok(Nodes {
        host: Host::new(alloc, mark, count),
        viewers,
        packets: Vec::new(alloc),
        shots: Vec::new(alloc),
    })
}

/// Runs the steps over a network in memory, for the host of a scene with this mark and one viewer
/// for each stage. The viewers are numbered in the order of the stages, each as its boot 1. The log
/// of the steps is appended: a line for each step with its number from 1 and its answer, then for
/// each viewer a line, its trace and its scene, or a line that it is spoiled.
///
/// If memory runs out inside a step, the step's answer says so and the steps go on. The rehearsal
/// fails, in this order, with `NoViewers`; with `TooManyViewers` for more than `MAX_VIEWERS`
/// stages; or with `Memory` if the log or the lists of viewers, packets or snapshots run out of
/// memory. The buffer is unchanged on an error.
pub fn rehearse<B: Behaviour>(
    alloc: Global,
    stages: Vec<Stage<B>>,
    mark: [u8; 32],
    steps: &[Step],
    out: &mut Vec<u8>,
) -> Result<Rehearsal<B>, RehearseFault>
    requires { AreFresh stages.items }
    ensures none { length stages.items ≡ 0 → result ≡ Err RehearseFault.NoViewers }
    ensures many { max_viewers < length stages.items → result ≡ Err RehearseFault.TooManyViewers }
    ensures memory { 1 ≤ length stages.items → length stages.items ≤ max_viewers
        → IfErr result (λ fault. fault ≡ RehearseFault.Memory) }
    ensures err { OnErr result (out.new.items ≡ out.old.items) }
    // The answers are those of the calls. For stages of one scene they are those of a run of the
    // network.
    ensures rehearsed { IfOk result (λ r. IsRehearsed mark stages.items steps.now out.old.items
        out.new.items r.host r.viewers.items) }
{
    // Each exit drops with calls: a drop in place would have to be proved at every exit.
    let count = stages.len();
    if count == 0 {
        drop(stages);
        return Err(RehearseFault::NoViewers);
    }
    if count > MOST {
        drop(stages);
        return Err(RehearseFault::TooManyViewers);
    }
    let mut nodes = begun(alloc, stages, mark)?;
    let Ok(()) = log_all(alloc, &mut nodes, steps, out) else {
        drop(nodes);
        return Err(RehearseFault::Memory);
    };
    Ok(ended(nodes))
}
