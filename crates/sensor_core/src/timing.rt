//! The fields that a TimeSensor keeps.

ghost use Rattle.std.specs.Prelude.{◌≡◌};
ghost use Rattle.x3d_values.specs.Ranges.{max_time};
ghost use Rattle.sensor_core.specs.Timing.{is_time, is_interval, are_times, is_timing, time_at, truth_at, checked};

use crate::numbers::{
    CYCLE_INTERVAL, ENABLED, LOOP, PAUSE_TIME, RESUME_TIME, START_TIME, STOP_TIME,
};
use std::marker::Model;
use x3d_values::{Fields, MAX_TIME, Value};

/// The values of a TimeSensor's inputOutput fields, times in microseconds.
#[derive(Clone, Copy, PartialEq, Eq)]
pub struct Times {
    pub cycle_interval: i64,
    pub enabled: bool,
    pub looping: bool,
    pub pause_time: i64,
    pub resume_time: i64,
    pub start_time: i64,
    pub stop_time: i64,
}

/// `Times` in their ranges: times up to `MAX_TIME` from 0, and a cycle longer than 0.
#[derive(Clone, Copy, PartialEq, Eq)]
pub struct TimeFields {
    pub(crate) times: Times,
}

impl Model for TimeFields {
    ghost use Rattle.std.specs.Prelude.{IsTrue};
    ghost use Rattle.sensor_core.specs.Timing.{TimeFieldsView, is_timing};

    ghost Value = { TimeFieldsView };

    ghost view = { λ f. f.times };

    ghost invariant = { λ f. IsTrue (is_timing f.times) };

    ghost inverse = { λ times. record { times = times } };
}

/// Reports whether `time`, in microseconds, is at most `MAX_TIME` from 0.
pub fn is_time(time: i64) -> bool
    ensures { result ≡ is_time time }
{
    time.unsigned_abs() <= MAX_TIME as u64
}

/// Reports whether a cycle may last `time` microseconds: above 0, and at most `MAX_TIME`.
pub fn is_interval(time: i64) -> bool
    ensures { result ≡ is_interval time }
{
    time > 0 && is_time(time)
}

#[tactic(auto, unfolding(crate::specs::Timing::time_at))]
fn time_at(fields: &Fields, field: u16) -> Option<i64>
    ensures { result ≡ time_at fields.now field }
{
    match fields.value(field)? {
        Value::SFTime(time) => Some(*time),
        _ => None,
    }
}

/// Returns the truth value of a field, if the field keeps one.
#[tactic(auto, unfolding(crate::specs::Timing::truth_at))]
pub fn truth_at(fields: &Fields, field: u16) -> Option<bool>
    ensures { result ≡ truth_at fields.now field }
{
    match fields.value(field)? {
        Value::SFBool(truth) => Some(*truth),
        _ => None,
    }
}

fn are_times(one: i64, other: i64) -> bool
    ensures { result ≡ are_times one other }
{
    is_time(one) && is_time(other)
}

fn is_timing(times: Times) -> bool
    ensures { result ≡ is_timing times }
{
    is_interval(times.cycle_interval)
        && are_times(times.pause_time, times.resume_time)
        && are_times(times.start_time, times.stop_time)
}

/// Returns the values, if each is in its range.
#[tactic(auto, unfolding(crate::specs::Timing::checked))]
pub(crate) fn checked(times: Times) -> Option<TimeFields>
    ensures { result ≡ checked times }
{
    if !is_timing(times) {
        return None;
    }
    Some(TimeFields { times })
}

impl TimeFields {
    ghost use Rattle.std.specs.Prelude.{◌≡◌, ◌^◌, pos, ◌<ℤ◌, ◌≤ℤ◌};
    ghost use Rattle.sensor_core.specs.Cycles.{IsNear};
    ghost use Rattle.sensor_core.specs.Timing.{timing_of, with_timing};

    /// Returns the values of a TimeSensor's fields. Returns `None` if a value is missing, has
    /// another type or is out of its range.
    #[tactic(auto, unfolding(crate::specs::Timing::timing_of))]
    pub fn from_fields(fields: &Fields) -> Option<TimeFields>
        ensures { result ≡ timing_of fields.now }
    {
        let Some(cycle_interval) = time_at(fields, CYCLE_INTERVAL) else {
            return None;
        };
        let Some(enabled) = truth_at(fields, ENABLED) else {
            return None;
        };
        let Some(looping) = truth_at(fields, LOOP) else {
            return None;
        };
        let Some(pause_time) = time_at(fields, PAUSE_TIME) else {
            return None;
        };
        let Some(resume_time) = time_at(fields, RESUME_TIME) else {
            return None;
        };
        let Some(start_time) = time_at(fields, START_TIME) else {
            return None;
        };
        let Some(stop_time) = time_at(fields, STOP_TIME) else {
            return None;
        };
        checked(Times {
            cycle_interval,
            enabled,
            looping,
            pause_time,
            resume_time,
            start_time,
            stop_time,
        })
    }

    /// Returns `startTime`, in microseconds.
    pub fn start_time(&self) -> i64
        ensures value { result ≡ self.now.start_time }
        ensures near { IsNear result }
    {
        self.times.start_time
    }

    /// Returns `cycleInterval`, in microseconds: above 0, and at most `MAX_TIME`.
    pub fn cycle_interval(&self) -> i64
        ensures value { result ≡ self.now.cycle_interval }
        ensures some { pos 0 <ℤ result }
        ensures short { result ≤ℤ pos max_time }
    {
        self.times.cycle_interval
    }

    /// Returns `stopTime`, in microseconds.
    pub fn stop_time(&self) -> i64
        ensures { result ≡ self.now.stop_time }
    {
        self.times.stop_time
    }

    /// Returns `enabled`.
    pub fn is_enabled(&self) -> bool
        ensures { result ≡ self.now.enabled }
    {
        self.times.enabled
    }

    /// Returns `loop`.
    pub fn is_looping(&self) -> bool
        ensures { result ≡ self.now.looping }
    {
        self.times.looping
    }

    /// Writes the values into a TimeSensor's fields.
    #[tactic(auto, unfolding(crate::specs::Timing::with_timing))]
    pub fn write_to(&self, fields: &mut Fields)
        ensures { fields.new ≡ with_timing fields.old self.now }
    {
        fields.set(CYCLE_INTERVAL, Value::SFTime(self.times.cycle_interval));
        fields.set(ENABLED, Value::SFBool(self.times.enabled));
        fields.set(LOOP, Value::SFBool(self.times.looping));
        fields.set(PAUSE_TIME, Value::SFTime(self.times.pause_time));
        fields.set(RESUME_TIME, Value::SFTime(self.times.resume_time));
        fields.set(START_TIME, Value::SFTime(self.times.start_time));
        fields.set(STOP_TIME, Value::SFTime(self.times.stop_time));
    }
}
