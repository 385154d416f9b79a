//! The lines of a job: steps, a line `scene`, then the scene.

ghost use Rattle.std.specs.Prelude.{◌≡◌, IfOk, Option, length};
ghost use Rattle.x3d_lists.specs.Answers.{Gives};
ghost use Rattle.std.specs.Prelude.{◌+ℤ◌, ◌≤ℤ◌, ◌^◌, pos};
ghost use Rattle.x3d_values.specs.Ranges.{max_time};
ghost use Rattle.app_jobs.specs.Job.{clock_time, last_time, is_taken, input_at, next_input};
ghost use Rattle.app_jobs.specs.Job.{is_scene, job_lines, IsJob};
ghost use Rattle.cascade_core.specs.InOrder.{AreInOrder};
ghost use Rattle.app_jobs.specs.declared.fault.JobFault.TheVariants.{Memory};

use crate::fault::JobFault;
use crate::inputs::JobInputs;
use crate::point::pointed;
use share_rules::cut_line;
use std::alloc::Global;
use x3d_lists::Items;
use x3d_numerals::millionths;
use x3d_values::{Cause, MAX_INPUTS, Stamped, is_input_time};

/// What the lines of a job ask for.
#[derive(Drop)]
pub struct Steps<'a> {
    pub inputs: JobInputs,
    /// The bytes after the line `scene`.
    pub scene: &'a [u8],
}

/// Returns the time of a line `clock T` in microseconds. T is a numeral of seconds.
#[tactic(auto, using(crate::proofs::Passed::passed), unfolding(crate::specs::Job::clock_time))]
fn clock_time(line: &[u8]) -> Option<i64>
    ensures { result ≡ clock_time line.now }
{
    match line.strip_prefix(b"clock ") {
        Some(numeral) => millionths(numeral).ok(),
        None => None,
    }
}

/// Returns the time of the last input, or 0 if there is none.
#[tactic(auto, using(crate::proofs::Passed::passed), unfolding(crate::specs::Job::last_time))]
fn last_time(inputs: &[Stamped]) -> i64
    ensures value { result ≡ last_time inputs.now }
    ensures few { result ≤ℤ pos max_time }
{
    match inputs.last() {
        Some(input) => input.time(),
        None => 0,
    }
}

/// Reports whether a host would number an input of this time after `inputs`.
#[tactic(auto, using(crate::proofs::Passed::passed))]
fn is_taken(inputs: &[Stamped], time: i64) -> bool
    ensures { result ≡ is_taken inputs.now time }
{
    inputs.len() < MAX_INPUTS as usize && last_time(inputs) < time && is_input_time(time)
}

/// Returns the input of this time and cause after `inputs`, if a host would number it.
#[tactic(auto, using(crate::proofs::Passed::passed))]
fn input_at(inputs: &[Stamped], time: i64, cause: Cause) -> Option<Stamped>
    ensures { result ≡ input_at inputs.now time cause }
{
    if !is_taken(inputs, time) {
        return None;
    }
    let number = inputs.len() as u64 + 1;
    Some(Stamped::new(number, time, cause))
}

/// Returns the time one microsecond after the last input.
fn time_behind(inputs: &[Stamped]) -> i64
    ensures { result ≡ last_time inputs.now +ℤ pos 1 }
{
    last_time(inputs) + 1
}

/// Returns the input that a line asks for after `inputs`, if the line is a step and a host would
/// number its input.
#[tactic(auto, using(crate::proofs::Passed::passed), unfolding(crate::specs::Job::next_input))]
fn next_input(inputs: &[Stamped], line: &[u8]) -> Option<Stamped>
    ensures { result ≡ next_input inputs.now line.now }
{
    if let Some(time) = clock_time(line) {
        return input_at(inputs, time, Cause::Clock);
    }
    match pointed(line) {
        Some(pointer) => input_at(inputs, time_behind(inputs), Cause::Pointer(pointer)),
        None => None,
    }
}

/// Reports whether the line is `scene`.
pub fn is_scene(line: &[u8]) -> bool
    ensures { result ≡ is_scene line.now }
{
    line == b"scene".as_slice()
}

/// Returns the inputs that the lines of a job ask for, and the bytes of its scene.
///
/// Fails with `BadJob` and the number, from 1, of the first line that is not a step, or of the line
/// after the last if no line is `scene`. A line whose input a host would not number is not a step.
/// Fails with `Memory` if memory is refused.
pub fn job_of(alloc: Global, bytes: &[u8]) -> Result<Steps<'_>, JobFault>
    // The steps and the scene, or the first line that isn't a step, unless memory runs out.
    ensures exact { Gives Memory (λ s. record { inputs = s.inputs; scene = s.scene.now }) result
        (job_lines bytes.now) }
    // Each line before `scene` is a step and gives one input.
    ensures found { IfOk result
        (λ s. IsJob bytes.now (record { inputs = s.inputs; scene = s.scene.now })) }
    ensures in_order { IfOk result (λ s. AreInOrder s.inputs) }
{
    let mut inputs: Items<Stamped> = Items::new(alloc);
    let mut rest = bytes;
    while !rest.is_empty() {
        let (line, behind) = cut_line(rest);
        if is_scene(line) {
            return Ok(Steps {
                inputs: JobInputs::new(inputs),
                scene: behind,
            });
        }
        let Some(input) = next_input(inputs.as_slice(), line) else {
            return Err(JobFault::BadJob(inputs.len() as u64 + 1));
        };
        inputs.push(input)?;
        rest = behind;
    }
    Err(JobFault::BadJob(inputs.len() as u64 + 1))
}
