//! A job for several nodes, from its bytes.

ghost use Rattle.std.specs.Prelude.{◌≡◌};
ghost use Rattle.x3d_lists.specs.Answers.{Gives};
ghost use Rattle.app_commands.specs.Jobs.{shared, fitting};
ghost use Rattle.app_jobs.specs.declared.fault.JobFault.TheVariants.{Memory};

use crate::fits::job_fits;
use app_jobs::{JobFault, JobInputs, job_of};
use app_program::open_scene;
use app_words::Order;
use route_core::Routes;
use scene_core::Scene;
use snapshot_codec::scene_mark;
use std::alloc::Global;

/// A scene with its routes and its mark, and the inputs that several nodes apply.
#[derive(Drop)]
pub struct SharedJob {
    pub inputs: JobInputs,
    /// The SHA-256 of the scene's bytes.
    pub mark: [u8; 32],
    pub scene: Scene,
    pub routes: Routes,
}

#[tactic(auto, unfolding(crate::specs::Jobs::shared))]
fn shared(alloc: Global, bytes: &[u8]) -> Result<SharedJob, JobFault>
    ensures { Gives Memory (λ j. j) result (shared bytes.now) }
{
    let steps = job_of(alloc, bytes)?;
    let opened = open_scene(alloc, steps.scene)?;
    Ok(SharedJob {
        mark: scene_mark(steps.scene),
        inputs: steps.inputs,
        scene: opened.scene,
        routes: opened.routes,
    })
}

/// Returns the job of these bytes, for a command. Fails with the first fault of its lines, or else
/// of its scene, or else with `BadJob` and the line of the first step that the command doesn't
/// take. Fails with `Memory` if memory is refused.
#[tactic(auto, unfolding(crate::specs::Jobs::fitting))]
pub fn shared_job(alloc: Global, bytes: &[u8], order: &Order) -> Result<SharedJob, JobFault>
    ensures { Gives Memory (λ j. j) result (fitting order.now bytes.now) }
{
    let job = shared(alloc, bytes)?;
    match job_fits(&job.inputs, order) {
        Ok(()) => Ok(job),
        // For the prover: an explicit call. At an exit, the drop of a job is proved in place.
        Err(fault) => {
            drop(job);
            Err(fault)
        }
    }
}
