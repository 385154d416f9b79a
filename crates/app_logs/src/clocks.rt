//! Which clocks of a job are left after the entries of a log, and the clocks that a host makes once
//! these are over.

ghost use Rattle.std.specs.Prelude.{◌≡◌, ◌≤◌, ◌^◌, ◌*◌, ◌+ℤ◌, ◌≤ℤ◌, ◌++◌, ◌∷◌, [], IfOk, IsTrue, OnOk, int_lt, pos};
ghost use Rattle.std.specs.Prelude.{if◌then◌else◌};
ghost use Rattle.x3d_values.specs.Ranges.{max_time};
ghost use Rattle.snapshot_codec.specs.Trace.{is_moment};
ghost use Rattle.app_logs.specs.Clocks.{clock_for, due_after, first_due, last_of};
ghost use Rattle.app_logs.specs.Clocks.{later_of, beat_clock, beat_time, times_after};

use share_entries::Entry;
use snapshot_codec::is_moment;
use std::alloc::{AllocError, Global};
use x3d_values::Stamped;

/// The clocks that a host makes once those of its job are over.
#[derive(Clone, Copy, Debug, PartialEq, Eq)]
pub struct Beat {
    /// How many milliseconds pass from one of them to the next. Without a number it makes none.
    pub every: Option<u32>,
    /// The time of the last input as the host begins, in microseconds.
    pub base: i64,
}

/// After this many milliseconds, some 31,000 years, a host makes no clock.
const MAX_MILLIS: u64 = 1_000_000_000_000_000;

/// Returns the time of the last entry in microseconds, or 0.
pub(crate) fn last_of(entries: &[Entry]) -> i64
    ensures { result ≡ last_of entries.now }
{
    match entries.last() {
        Some(entry) => entry.time(),
        None => 0,
    }
}

/// Appends the time of an input if it is later than `last`.
fn push_later(last: i64, input: &Stamped, out: &mut Vec<i64>) -> Result<(), AllocError>
    ensures { OnOk result (out.new.items ≡ out.old.items
        ++ (if int_lt last input.now.time then input.now.time ∷ [] else [])) }
{
    let time = input.time();
    if last < time {
        out.push(time)?;
    }
    Ok(())
}

/// Returns the times of the inputs that are later than `last`, in microseconds. The log has an
/// entry at or after each of the others.
pub fn times_after(alloc: Global, last: i64, inputs: &[Stamped]) -> Result<Vec<i64>, AllocError>
    ensures { IfOk result (λ v. v.items ≡ times_after last inputs.now) }
{
    let mut times = Vec::new(alloc);
    for input in inputs {
        push_later(last, input, &mut times)?;
    }
    Ok(times)
}

// ---- the clocks of a beat

/// Reports whether this may be the time of an input, or 0 before the first.
fn in_range(time: i64) -> bool
    ensures value { result ≡ is_moment time }
    ensures low { IsTrue result → pos 0 ≤ℤ time }
    ensures high { IsTrue result → time ≤ℤ pos max_time }
{
    is_moment(time)
}

/// Returns the later of a time and of 1 microsecond after the last input.
fn later_of(time: i64, last: i64) -> i64
    requires { last ≤ℤ pos max_time }
    ensures { result ≡ later_of time last }
{
    if last < time { time } else { last + 1 }
}

/// Returns at most `MAX_MILLIS` milliseconds in microseconds.
fn micros(millis: u64) -> i64
    requires { millis ≤ 10 ^ 15 }
    ensures { result ≡ pos (1000 * millis) }
{
    (1000 * millis) as i64
}

/// Returns the time at most `MAX_MILLIS` milliseconds after another.
fn time_after(time: i64, millis: u64) -> i64
    requires low { pos 0 ≤ℤ time }
    requires high { time ≤ℤ pos max_time }
    requires few { millis ≤ 10 ^ 15 }
    ensures { result ≡ time +ℤ pos (1000 * millis) }
{
    time + micros(millis)
}

/// Returns the time of a clock after this many milliseconds, if there is one.
fn beat_time(base: i64, last: i64, millis: u64) -> Option<i64>
    ensures { result ≡ beat_time base last millis }
{
    if millis > MAX_MILLIS {
        return None;
    }
    if !in_range(base) {
        return None;
    }
    if !in_range(last) {
        return None;
    }
    Some(later_of(time_after(base, millis), last))
}

/// Returns the clock of a beat after this many milliseconds, if one is due.
#[tactic(auto, using(crate::proofs::Passed::passed))]
fn beat_clock(beat: &Beat, last: i64, due: u64, millis: u64) -> Option<i64>
    ensures { result ≡ beat_clock beat.now.every beat.now.base last due millis }
{
    match beat.every {
        Some(_) if due <= millis => beat_time(beat.base, last, millis),
        _ => None,
    }
}

/// Returns the clock of a turn: the one of the job, or if there is none, that of the beat.
#[tactic(auto, using(crate::proofs::Passed::passed))]
pub fn clock_for(job: Option<i64>, beat: &Beat, last: i64, due: u64, millis: u64) -> Option<i64>
    ensures { result
        ≡ clock_for job (beat_clock beat.now.every beat.now.base last due millis) }
{
    match job {
        Some(time) => Some(time),
        None => beat_clock(beat, last, due, millis),
    }
}

/// Returns when the first clock of a beat is due.
pub fn first_due(every: Option<u32>) -> u64
    ensures { result ≡ first_due every }
{
    match every {
        Some(millis) => u64::from(millis),
        None => 0,
    }
}

/// Returns when the next clock of a beat is due, after a turn with this clock of the job.
pub fn due_after(job: Option<i64>, every: Option<u32>, due: u64, millis: u64) -> u64
    ensures { result ≡ due_after job every due millis }
{
    if job.is_some() || millis < due {
        return due;
    }
    match every {
        Some(more) => millis.saturating_add(u64::from(more)),
        None => due,
    }
}
