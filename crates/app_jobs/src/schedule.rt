//! The lines of a schedule: steps of a network, a line `scene`, then the scene.

ghost use Rattle.std.specs.Prelude.{◌≡◌, IfOk};
ghost use Rattle.x3d_lists.specs.Answers.{Gives};
ghost use Rattle.app_jobs.specs.Schedule.{line_behind, schedule_lines, IsSchedule};
ghost use Rattle.app_jobs.specs.declared.fault.JobFault.TheVariants.{Memory};

use crate::fault::JobFault;
use crate::job::is_scene;
use crate::step::step_of;
use share_law::Step;
use share_rules::cut_line;
use std::alloc::Global;
use x3d_lists::Items;

/// What the lines of a schedule ask for.
#[derive(Drop)]
pub struct Schedule {
    /// One step per line, in the order of the lines.
    pub steps: Items<Step>,
    /// The bytes after the line `scene`.
    pub scene: Items<u8>,
}

/// Returns the number, from 1, of the line after `lines` lines, but at most 2^32 - 1.
fn line_behind(lines: usize) -> u64
    ensures { result ≡ line_behind lines }
{
    if lines < u32::MAX as usize {
        lines as u64 + 1
    } else {
        u32::MAX as u64
    }
}

/// Returns the steps that the lines of a schedule ask for, and its scene. What a host or a viewer
/// would refuse is not checked.
///
/// Fails with `BadJob` and the number, from 1, of the first line that is not a step, or of the line
/// after the last if no line is `scene`. Fails with `Memory` if memory is refused.
pub fn schedule_of(alloc: Global, bytes: &[u8]) -> Result<Schedule, JobFault>
    // The steps and the scene, or the first line that isn't a step, unless memory runs out.
    ensures exact { Gives Memory (λ s. s) result (schedule_lines bytes.now) }
    // Each line before `scene` is a step.
    ensures found { IfOk result (λ s. IsSchedule bytes.now s) }
{
    let mut steps: Items<Step> = Items::new(alloc);
    let mut rest = bytes;
    while !rest.is_empty() {
        let (line, behind) = cut_line(rest);
        if is_scene(line) {
            let scene = Items::from_slice(alloc, behind)?;
            return Ok(Schedule { steps, scene });
        }
        let Some(step) = step_of(line) else {
            return Err(JobFault::BadJob(line_behind(steps.len())));
        };
        steps.push(step)?;
        rest = behind;
    }
    Err(JobFault::BadJob(line_behind(steps.len())))
}
