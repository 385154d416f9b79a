//! From the bytes of a job to a scene that can be run.

ghost use Rattle.std.specs.Prelude.{◌≡◌, IfOk, IfErr, ◌⊎◌, List, ℕ};
ghost use Rattle.std.specs.Io.KnownBytes.{Consumes, IsAtEnd};
ghost use Rattle.x3d_lists.specs.Answers.{Gives};
ghost use Rattle.cascade_core.specs.InOrder.{AreInOrder};
ghost use Rattle.app_jobs.specs.Schedule.{schedule_lines};
ghost use Rattle.app_program.specs.Opening.{routed, built, flattened, opened, opened_document, opened_job};
ghost use Rattle.app_program.specs.Opening.{IsDeviceOrMemory};
ghost use Rattle.app_program.specs.Opening.{IsNoJob, IsNoSchedule};
ghost use Rattle.app_jobs.specs.declared.fault.JobFault.TheVariants.{Memory};

use crate::stream::read_whole;
use app_jobs::{JobFault, JobInputs, Schedule, job_of, schedule_of};
use classic_text::read;
use classic_tree::Document;
use proto_expand::expand;
use proto_flat::Flat;
use route_core::Routes;
use scene_core::Scene;
use std::alloc::Global;
use std::io::Read;

/// A scene with its routes.
#[derive(Drop)]
pub struct OpenedScene {
    pub scene: Scene,
    pub routes: Routes,
}

/// A scene with its routes, and the inputs to apply to it.
#[derive(Drop)]
pub struct Job {
    pub inputs: JobInputs,
    pub scene: Scene,
    pub routes: Routes,
}

/// Returns a scene with the routes of its document.
fn routed(alloc: Global, flat: &Flat, scene: Scene) -> Result<OpenedScene, JobFault>
    ensures { Gives Memory (λ o. o) result (routed flat.now scene) }
{
    match Routes::resolve(alloc, flat, &scene) {
        Ok(routes) => Ok(OpenedScene { scene, routes }),
        // For the prover: an explicit call. At an exit, the drop of a scene is proved in place.
        Err(fault) => {
            drop(scene);
            Err(JobFault::from(fault))
        }
    }
}

/// Returns the scene of an expanded document, and its routes. Fails with the first fault of its
/// nodes, or else of its routes, or with `Memory` if memory is refused.
pub fn open_flat(alloc: Global, flat: &Flat) -> Result<OpenedScene, JobFault>
    ensures { Gives Memory (λ o. o) result (built flat.now) }
{
    let scene = Scene::build(alloc, flat)?;
    routed(alloc, flat, scene)
}

/// Returns the nodes of a text's document, by number.
#[tactic(auto, unfolding(crate::specs::Opening::flattened))]
fn flattened(alloc: Global, text: &[u8]) -> Result<Flat, JobFault>
    ensures { Gives Memory (λ f. f) result (flattened text.now) }
{
    let document = read(alloc, text)?;
    Ok(expand(alloc, document)?)
}

/// Returns the scene of a text, and its routes. Fails with the first fault of the text, or with
/// `Memory` if memory is refused.
#[tactic(auto, unfolding(crate::specs::Opening::opened))]
pub fn open_scene(alloc: Global, text: &[u8]) -> Result<OpenedScene, JobFault>
    ensures { Gives Memory (λ o. o) result (opened text.now) }
{
    let flat = flattened(alloc, text)?;
    let opened = open_flat(alloc, &flat);
    // For the prover: an explicit call. At an exit, the drop of `flat` is proved in place.
    drop(flat);
    opened
}

/// Returns the scene of a document, and its routes. Fails with the first fault of the document, or
/// with `Memory` if memory is refused.
#[tactic(auto, unfolding(crate::specs::Opening::opened_document))]
pub fn open_document(alloc: Global, document: Document) -> Result<OpenedScene, JobFault>
    ensures { Gives Memory (λ o. o) result (opened_document document) }
{
    let flat = expand(alloc, document)?;
    let opened = open_flat(alloc, &flat);
    // For the prover: an explicit call. At an exit, the drop of `flat` is proved in place.
    drop(flat);
    opened
}

/// Returns the job of these bytes. Fails with the first fault of its lines, or else of its scene,
/// or with `Memory` if memory is refused.
#[tactic(auto, unfolding(crate::specs::Opening::opened_job))]
pub fn open_job(alloc: Global, bytes: &[u8]) -> Result<Job, JobFault>
    ensures exact { Gives Memory (λ j. j) result (opened_job bytes.now) }
    ensures in_order { IfOk result (λ j. AreInOrder j.inputs) }
{
    let steps = job_of(alloc, bytes)?;
    let opened = open_scene(alloc, steps.scene)?;
    Ok(Job {
        inputs: steps.inputs,
        scene: opened.scene,
        routes: opened.routes,
    })
}

/// Reads to the reader's end, and returns the job of the bytes.
///
/// Fails with `Device` if the reader fails or has no end, with `Memory` if memory is refused, or
/// with the first fault of the job.
pub fn read_job<R: Read>(alloc: Global, reader: &mut R) -> Result<Job, JobFault>
    ensures job { IfOk result (λ j. (bytes : List ℕ)
        × Consumes (R.remaining reader.old) (R.remaining reader.new) bytes
        × IsAtEnd (R.remaining reader.new) × (opened_job bytes ≡ Ok j)) }
    ensures in_order { IfOk result (λ j. AreInOrder j.inputs) }
    ensures refused { IfErr result (λ f. IsDeviceOrMemory f
        ⊎ IsNoJob (R.remaining reader.old) (R.remaining reader.new) f) }
{
    let bytes = read_whole(alloc, reader)?;
    open_job(alloc, bytes.as_slice())
}

/// Reads to the reader's end, and returns the schedule of the bytes.
///
/// Fails with `Device` if the reader fails or has no end, with `Memory` if memory is refused, or
/// with the first fault of the schedule.
pub fn read_schedule<R: Read>(alloc: Global, reader: &mut R) -> Result<Schedule, JobFault>
    ensures schedule { IfOk result (λ s. (bytes : List ℕ)
        × Consumes (R.remaining reader.old) (R.remaining reader.new) bytes
        × IsAtEnd (R.remaining reader.new) × (schedule_lines bytes ≡ Ok s)) }
    ensures refused { IfErr result (λ f. IsDeviceOrMemory f
        ⊎ IsNoSchedule (R.remaining reader.old) (R.remaining reader.new) f) }
{
    let bytes = read_whole(alloc, reader)?;
    schedule_of(alloc, bytes.as_slice())
}
