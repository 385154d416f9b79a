//! A host and its viewers do a job, each at a port of its own.

ghost use Rattle.std.specs.Prelude.{◌≡◌, ◌≤◌, ◌⊎◌, IfOk, IfErr, Err, length};
ghost use Rattle.x3d_values.specs.Ranges.{max_viewers};
ghost use Rattle.app_commands.specs.Jobs.{staffed};
ghost use Rattle.app_commands.specs.Joining.{IsAgreed, IsAgreedInPart, IsJoint, IsStaged};
ghost use Rattle.share_rehearsal.specs.Calls.{viewers_from};
ghost use Rattle.share_rehearsal.specs.Loaded.{AreFresh};
ghost use Rattle.share_turns.specs.Seats.{seats_of, ways_of};
ghost use Rattle.app_jobs.specs.declared.fault.JobFault.TheVariants.{Memory};

use crate::fits::job_fits;
use crate::hosting::series_fault;
use crate::stages::with_others;
use app_jobs::{JobFault, JobInputs, job_of};
use app_program::{ShareFault, fresh_stage, open_scene};
use app_words::Order;
use cascade_core::Stage;
use script_boxes::StockScript;
use share_core::{Host, Viewer};
use share_rehearsal::viewers_of;
use share_turns::{Port, agree};
use snapshot_codec::scene_mark;
use std::alloc::{AllocError, Global};

/// The inputs of a job, and its viewers.
#[derive(Drop)]
pub struct JointJob {
    pub inputs: JobInputs,
    /// The SHA-256 of the scene's bytes.
    pub mark: [u8; 32],
    /// The viewers, in the order of their numbers from 0.
    pub viewers: Vec<Viewer<StockScript>>,
}

impl JointJob {
    /// Drops the job with its viewers.
    pub fn close(self) {
        drop(self);
    }
}

/// The inputs of a job, and a stage of its scene for each viewer.
#[derive(Drop)]
struct StagedJob {
    inputs: JobInputs,
    mark: [u8; 32],
    stages: Vec<Stage<StockScript>>,
}

/// Returns the job of these bytes, with `viewers` stages of its scene. Fails with the first fault
/// of its lines, or else of its scene, or else of its steps, or else of its scripts.
#[tactic(auto, unfolding(crate::specs::Jobs::staffed, crate::specs::Jobs::fitting, crate::specs::Jobs::shared))]
fn staged_job(
    alloc: Global,
    bytes: &[u8],
    order: &Order,
    viewers: u8,
) -> Result<StagedJob, JobFault>
    requires { 1 ≤ viewers }
    ensures ok { IfOk result
        (λ j. IsStaged order.now viewers bytes.now j.inputs j.mark j.stages.items) }
    ensures fresh { IfOk result (λ j. AreFresh j.stages.items) }
    ensures count { IfOk result (λ j. length j.stages.items ≡ viewers) }
    ensures err { IfErr result (λ f. (f ≡ Memory) ⊎ (staffed order.now bytes.now ≡ Err f)) }
{
    let steps = job_of(alloc, bytes)?;
    let opened = open_scene(alloc, steps.scene)?;
    if let Err(fault) = job_fits(&steps.inputs, order) {
        // For the prover: an explicit call. At an exit, the drop of a scene is proved in place.
        drop(opened);
        return Err(fault);
    }
    let first = fresh_stage(alloc, opened)?;
    let stages = with_others(alloc, steps.scene, first, viewers)?;
    Ok(StagedJob {
        mark: scene_mark(steps.scene),
        inputs: steps.inputs,
        stages,
    })
}

/// Returns the job with a viewer for each stage.
fn with_viewers(alloc: Global, job: StagedJob) -> Result<JointJob, AllocError>
    requires fresh { AreFresh job.stages.items }
    requires most { length job.stages.items ≤ max_viewers }
    ensures inputs { IfOk result (λ j. j.inputs ≡ job.inputs) }
    ensures mark { IfOk result (λ j. j.mark ≡ job.mark) }
    ensures viewers { IfOk result
        (λ j. j.viewers.items ≡ viewers_from job.mark 0 job.stages.items) }
{
    let StagedJob {
        inputs,
        mark,
        stages,
    } = job;
    let viewers = viewers_of(alloc, stages, mark)?;
    Ok(JointJob {
        inputs,
        mark,
        viewers,
    })
}

/// Returns the job of these bytes, with `viewers` viewers of its scene, 1 to `MAX_VIEWERS`, in
/// their first boots.
///
/// Fails with the first fault of its lines, or else of its scene, or else with `BadJob` and the
/// line of the first step that the command doesn't take, or else with the first fault of its
/// scripts. Fails with `Memory` if memory is refused.
pub fn joint_job(
    alloc: Global,
    bytes: &[u8],
    order: &Order,
    viewers: u8,
) -> Result<JointJob, JobFault>
    requires some { 1 ≤ viewers }
    requires most { viewers ≤ max_viewers }
    ensures ok { IfOk result (λ j. IsJoint order.now viewers bytes.now
        (record { inputs = j.inputs; mark = j.mark; viewers = j.viewers.items })) }
    ensures count { IfOk result (λ j. length j.viewers.items ≡ viewers) }
    ensures err { IfErr result (λ f. (f ≡ Memory) ⊎ (staffed order.now bytes.now ≡ Err f)) }
{
    let job = staged_job(alloc, bytes, order, viewers)?;
    Ok(with_viewers(alloc, job)?)
}

fn count_of(viewers: &[Viewer<StockScript>]) -> u8
    requires { length viewers.now ≤ max_viewers }
    ensures { result ≡ length viewers.now }
{
    viewers.len() as u8
}

/// Runs rounds of the host and the viewers of a job, each at a port of its own, until all the job's
/// steps are issued and every viewer has applied them. There are at most `turns` rounds. In a round
/// each node takes its turn, the host first. The host's port has number `own`. Returns the line
/// `agreed` with the number of inputs, then the trace and the scene of viewer 0.
///
/// Fails with `TurnsUsedUp` if the rounds were not enough, with `Port` if a send or a receive
/// fails, with `Memory` if memory is refused, and with `Spoiled` if it was refused to a viewer
/// earlier.
pub fn agree_job<P: Port>(
    alloc: Global,
    job: &mut JointJob,
    turns: u32,
    own: u16,
    port: &mut P,
    ports: &mut [P],
) -> Result<Vec<u8>, ShareFault>
    requires some { 1 ≤ length job.old.viewers.items }
    requires most { length job.old.viewers.items ≤ max_viewers }
    requires ports { length ports.old ≡ length job.old.viewers.items }
    ensures done { IfOk result (λ text.
        IsAgreed (ways_of P.told P.failure_count)
        (record {
          inputs = job.old.inputs;
          mark = job.old.mark;
          viewers = job.old.viewers.items;
        }) own turns port.old ports.old port.new
        (seats_of job.new.viewers.items ports.new) text.items) }
    ensures ended { IfErr result
        (IsAgreedInPart (ways_of P.told P.failure_count)
        (record {
          inputs = job.old.inputs;
          mark = job.old.mark;
          viewers = job.old.viewers.items;
        }) own turns port.old ports.old port.new
        (seats_of job.new.viewers.items ports.new)) }
{
    let mut host = Host::new(alloc, job.mark, count_of(&job.viewers));
    let mut text = Vec::new(alloc);
    match agree(
        &mut host,
        &mut job.viewers,
        job.inputs.as_slice(),
        turns,
        own,
        port,
        ports,
        &mut text,
    ) {
        // For the prover: an explicit call. The drop of a host would be proved at each exit.
        Ok(()) => {
            drop(host);
            Ok(text)
        }
        Err(fault) => {
            drop(host);
            Err(series_fault(fault))
        }
    }
}
