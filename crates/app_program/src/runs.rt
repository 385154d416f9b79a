//! Runs a job: bytes in, bytes out.

ghost use Rattle.std.specs.Prelude.{◌≡◌, ◌⊎◌, ◌++◌, Err, OnOk, IfOk, IfErr, None, map};
ghost use Rattle.std.specs.Io.KnownBytes.{Appends};
ghost use Rattle.cascade_core.specs.Apply.{world};
ghost use Rattle.cascade_core.specs.Held.{Running, IfRunning, IfSpoiled};
ghost use Rattle.cascade_core.specs.Scripts.{scripts_in};
ghost use Rattle.cascade_core.specs.declared.fault.ApplyFault.TheVariants as ApplyFault;
ghost use Rattle.script_running.specs.Scripts.{script_list};
ghost use Rattle.script_boxes.specs.Boxes.{made_of, stock_for};
ghost use Rattle.script_host.specs.Attaching.{Fits};
ghost use Rattle.script_host.specs.Hosting.{fresh_record};
ghost use Rattle.cascade_core.specs.declared.fault.TextFault.TheVariants as TextFault;
ghost use Rattle.app_program.specs.RunOutputs.{output_text};
ghost use Rattle.app_program.specs.Running.{run_text, FitsJob, IsUnrun};
ghost use Rattle.app_program.specs.Running.{IsUnrunStock, IsFailed, IsRun, IsNoRun, job_scripts_fault};
ghost use Rattle.app_program.specs.declared.run_fault.RunFault.TheVariants.{Device, Memory};

use crate::boxes::attach;
use crate::open::{Job, read_job};
use crate::refusal::Failure;
use crate::run_fault::RunFault;
use crate::run_output::RunOutput;
use crate::stream::write_whole;
use app_jobs::JobInputs;
use cascade_core::{ApplyFault, Stage, TextFault};
use route_core::Routes;
use scene_core::Scene;
use script_boxes::{StockScript, boxes_of};
use script_host::{Behaviour, Scripts};
use script_running::script_list;
use std::alloc::{AllocError, Global};
use std::io::{Read, Write};

/// Reads a job to the reader's end, applies its inputs to its scene, and writes the trace and then
/// the scene, or the scene alone. The scripts of the scene get boxes of the stock. All text is made
/// before the first byte is written.
///
/// Fails with a fault of the job, of its scripts, of a device or of memory. On failure nothing is
/// written, unless the writer fails.
pub fn run_job<R: Read, W: Write>(
    alloc: Global,
    output: RunOutput,
    reader: &mut R,
    writer: &mut W,
) -> Result<(), Failure>
    // The reader's bytes give the writer's bytes.
    ensures ok { OnOk result (IsRun output (R.remaining reader.old) (R.remaining reader.new)
        (W.contents writer.old) (W.contents writer.new)) }
    // Nothing is written if the job is refused or if memory is refused.
    ensures refused { IfErr result (IsNoRun output (R.remaining reader.old) (R.remaining reader.new)
        (W.contents writer.old) (W.contents writer.new)) }
{
    match read_job(alloc, reader) {
        Ok(job) => run_read(alloc, output, job, writer),
        Err(fault) => Err(Failure::Job(fault)),
    }
}

/// Returns why inputs in order were not applied: memory was refused.
fn memory_alone(fault: ApplyFault) -> RunFault
    requires { fault ≡ ApplyFault.Memory }
    ensures { result ≡ Memory }
{
    match fault {
        ApplyFault::Memory => RunFault::Memory,
        _ => unreachable!(),
    }
}

/// Returns the stage of a scene after inputs in order.
fn stage_of<B: Behaviour>(
    alloc: Global,
    scene: Scene,
    routes: Routes,
    scripts: Scripts<B>,
    inputs: &JobInputs,
) -> Result<Stage<B>, RunFault>
    requires fits { Fits (script_list scene) scripts }
    requires fresh { scripts ≡ scripts_in scene }
    ensures ok { IfOk result (λ stage. stage
        ≡ record {
          scene = scene;
          routes = routes;
          held = Running (world scene routes inputs.now);
        }) }
    ensures err { IfErr result (λ f. f ≡ Memory) }
{
    match cascade_core::run(alloc, scene, routes, scripts, inputs.as_slice()) {
        Ok(stage) => Ok(stage),
        Err(fault) => Err(memory_alone(fault)),
    }
}

/// Appends what a run writes of a stage.
fn push_texts<B: Behaviour>(
    output: RunOutput,
    stage: &Stage<B>,
    out: &mut Vec<u8>,
) -> Result<(), TextFault>
    ensures refused { IfSpoiled stage.now.held (result ≡ Err TextFault.Spoiled) }
    ensures ok { IfRunning stage.now.held (λ w. OnOk result (out.new.items
        ≡ out.old.items ++ output_text output stage.now.scene stage.now.routes w)) }
    ensures memory { IfRunning stage.now.held (λ w.
        IfErr result (λ fault. fault ≡ TextFault.Memory)) }
{
    match output {
        RunOutput::TraceAndScene => stage.texts(out),
        RunOutput::SceneAlone => stage.scene_text(out),
    }
}

/// Returns what a run writes of a stage that isn't spoiled.
fn texts_of<B: Behaviour>(
    alloc: Global,
    output: RunOutput,
    stage: &Stage<B>,
) -> Result<Vec<u8>, RunFault>
    requires { IfSpoiled stage.now.held ⊥ }
    ensures ok { IfRunning stage.now.held (λ w. IfOk result (λ text.
        text.items ≡ output_text output stage.now.scene stage.now.routes w)) }
    ensures err { IfErr result (λ f. f ≡ Memory) }
{
    let mut text = Vec::new(alloc);
    match push_texts(output, stage, &mut text) {
        Ok(()) => Ok(text),
        Err(TextFault::Memory) => Err(RunFault::Memory),
        Err(TextFault::Spoiled) => unreachable!(),
    }
}

/// Returns what a run writes of a job's world after its inputs.
#[tactic(auto, unfolding(crate::specs::Running::run_text))]
fn text_of<B: Behaviour>(
    alloc: Global,
    output: RunOutput,
    job: Job,
    scripts: Scripts<B>,
) -> Result<Vec<u8>, RunFault>
    requires fits { Fits (script_list job.scene) scripts }
    requires fresh { scripts ≡ scripts_in job.scene }
    ensures ok { IfOk result (λ text. text.items ≡ run_text output job) }
    ensures err { IfErr result (λ f. f ≡ Memory) }
{
    let Job {
        inputs,
        scene,
        routes,
    } = job;
    let stage = stage_of(alloc, scene, routes, scripts, &inputs)?;
    let text = texts_of(alloc, output, &stage);
    // For the prover: an explicit call. At an exit, the drop of a stage is proved in place.
    stage.close();
    text
}

/// Applies the inputs of a job to its scene, with these boxes for its scripts, and writes the trace
/// and then the scene, or the scene alone. The boxes are in the order of the script nodes. All text
/// is made before the first byte is written.
///
/// Fails with `Attach` if the boxes are not those that the scene's scripts ask for, with `Device`
/// if the writer fails, and with `Memory` if memory is refused. On failure the boxes are dropped,
/// and nothing is written unless the writer fails.
pub fn run<B: Behaviour, W: Write>(
    alloc: Global,
    output: RunOutput,
    job: Job,
    boxes: Vec<B>,
    writer: &mut W,
) -> Result<(), RunFault>
    ensures ok { OnOk result
        (Appends (W.contents writer.old) (W.contents writer.new) (run_text output job)) }
    // Boxes are refused if they aren't those that the scene's scripts ask for. With other boxes the
    // run fails for memory and devices alone.
    ensures fits { OnOk result (FitsJob job (map (fresh_record B.kind_of B.numbers) boxes.items)) }
    ensures takes { FitsJob job (map (fresh_record B.kind_of B.numbers) boxes.items)
        → IfErr result (λ f. (f ≡ Device) ⊎ (f ≡ Memory)) }
    ensures refused { IfErr result (IsUnrun job (map (fresh_record B.kind_of B.numbers) boxes.items)
        (W.contents writer.old) (W.contents writer.new)) }
{
    let scripts = match attach(alloc, &job.scene, boxes) {
        Ok(scripts) => scripts,
        // For the prover: an explicit call. At an exit, the drop of a job is proved in place.
        Err(fault) => {
            drop(job);
            return Err(fault);
        }
    };
    let text = text_of(alloc, output, job, scripts)?;
    write_whole(writer, text.as_slice())?;
    Ok(())
}

/// Returns a box of the stock for each script of a scene.
fn stock_of(alloc: Global, scene: &Scene) -> Result<Vec<StockScript>, AllocError>
    ensures { IfOk result
        (λ boxes. map made_of boxes.items ≡ stock_for (script_list scene.now)) }
{
    let specs = script_list(alloc, scene)?;
    boxes_of(alloc, specs.as_slice())
}

/// Runs a job as `run` does, with boxes of the stock for the scripts of its scene. Fails with
/// `Attach` and the first fault of the scripts, with `Device` if the writer fails, and with
/// `Memory` if memory is refused.
pub fn run_stock<W: Write>(
    alloc: Global,
    output: RunOutput,
    job: Job,
    writer: &mut W,
) -> Result<(), RunFault>
    ensures ok { OnOk result
        (Appends (W.contents writer.old) (W.contents writer.new) (run_text output job)) }
    ensures fits { OnOk result (job_scripts_fault job ≡ None) }
    ensures refused { IfErr result
        (IsUnrunStock job (W.contents writer.old) (W.contents writer.new)) }
{
    let Ok(boxes) = stock_of(alloc, &job.scene) else {
        // For the prover: an explicit call. At an exit, the drop of a job is proved in place.
        drop(job);
        return Err(RunFault::Memory);
    };
    run(alloc, output, job, boxes, writer)
}

/// Like `run_stock`, with a failure of the whole program as its fault.
fn run_read<W: Write>(
    alloc: Global,
    output: RunOutput,
    job: Job,
    writer: &mut W,
) -> Result<(), Failure>
    ensures ok { OnOk result
        (Appends (W.contents writer.old) (W.contents writer.new) (run_text output job)) }
    ensures fits { OnOk result (job_scripts_fault job ≡ None) }
    ensures refused { IfErr result
        (IsFailed job (W.contents writer.old) (W.contents writer.new)) }
{
    match run_stock(alloc, output, job, writer) {
        Ok(()) => Ok(()),
        Err(fault) => Err(Failure::Run(fault)),
    }
}
