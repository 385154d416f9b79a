//! A host and its viewers go through a schedule in memory.

ghost use Rattle.std.specs.Prelude.{◌≡◌, ◌≤◌, ◌⊎◌, IfOk, IfErr, Err, length};
ghost use Rattle.x3d_values.specs.Ranges.{max_viewers};
ghost use Rattle.app_commands.specs.Rehearsing.{IsLogOf, IsRehearsedLog, IsScheduleLog};
ghost use Rattle.app_commands.specs.Rehearsing.{schedule_scene};
ghost use Rattle.app_program.specs.Stages.{staged_scene};
ghost use Rattle.share_rehearsal.specs.Loaded.{AreFresh};
ghost use Rattle.app_jobs.specs.declared.fault.JobFault.TheVariants.{Memory};

use crate::stages::stages_of;
use app_jobs::{JobFault, Schedule, schedule_of};
use cascade_core::Stage;
use script_boxes::StockScript;
use share_law::Step;
use share_rehearsal::rehearse;
use snapshot_codec::scene_mark;
use std::alloc::{AllocError, Global};

/// Returns the log of steps, run by viewers with these stages and their host.
fn log_of(
    alloc: Global,
    stages: Vec<Stage<StockScript>>,
    mark: [u8; 32],
    steps: &[Step],
) -> Result<Vec<u8>, AllocError>
    requires fresh { AreFresh stages.items }
    requires some { 1 ≤ length stages.items }
    requires most { length stages.items ≤ max_viewers }
    ensures { IfOk result (λ text. IsLogOf mark stages.items steps.now text.items) }
{
    let mut log = Vec::new(alloc);
    match rehearse(alloc, stages, mark, steps, &mut log) {
        // For the prover: an explicit call. At an exit, the drop of `left` is proved in place.
        Ok(left) => {
            drop(left);
            Ok(log)
        }
        Err(_refused) => Err(AllocError),
    }
}

/// Returns the log of a schedule.
fn schedule_log(alloc: Global, schedule: &Schedule, viewers: u8) -> Result<Vec<u8>, JobFault>
    requires some { 1 ≤ viewers }
    requires most { viewers ≤ max_viewers }
    ensures done { IfOk result (λ text. IsScheduleLog viewers schedule.now text.items) }
    ensures refused { IfErr result
        (λ f. (f ≡ Memory) ⊎ (staged_scene schedule.now.scene ≡ Err f)) }
{
    let text = schedule.scene.as_slice();
    let stages = stages_of(alloc, text, viewers)?;
    Ok(log_of(alloc, stages, scene_mark(text), schedule.steps.as_slice())?)
}

/// Runs a host and `viewers` viewers of a schedule's scene, 1 to `MAX_VIEWERS`, in memory through
/// the steps of the schedule. Returns the log: a line with each step's number and its answer, and
/// then what each viewer is left with. What a host or a viewer refuses is logged.
///
/// Fails with the first fault of the schedule's lines, or else of its scene, or else of its
/// scripts, or with `Memory` if memory is refused.
pub fn rehearse_job(alloc: Global, bytes: &[u8], viewers: u8) -> Result<Vec<u8>, JobFault>
    requires some { 1 ≤ viewers }
    requires most { viewers ≤ max_viewers }
    ensures done { IfOk result (λ text. IsRehearsedLog viewers bytes.now text.items) }
    ensures refused { IfErr result
        (λ f. (f ≡ Memory) ⊎ (schedule_scene bytes.now ≡ Err f)) }
{
    let schedule = schedule_of(alloc, bytes)?;
    schedule_log(alloc, &schedule, viewers)
}
