//! What a TimeSensor does when the clock ticks.

ghost use Rattle.std.specs.Prelude.{◌≡◌, ◌+◌, ◌<◌, ◌≤◌, ◌^◌, [], ◌++◌, pos, ◌≤ℤ◌, IsTrue, IfSome, Some, None, if◌then◌else◌};
ghost use Rattle.x3d_values.specs.Ranges.{max_time};
ghost use Rattle.arrayvec.specs.ArrayVec.{array_vec_len};
ghost use Rattle.x3d_values.specs.declared.value.Value.TheVariants.{SFBool, SFFloat, SFTime};
ghost use Rattle.react_core.specs.Reaction.{reply};
ghost use Rattle.sensor_core.specs.Cycles.{IsNear};
ghost use Rattle.sensor_core.specs.Ticks.{fraction_of, elapsed_of, end_of, is_over, is_stopped, is_started, progress, tick_inactive, last_place, ends, goes_on};

use crate::cycles::{cycle_at, cycle_time, elapsed_at, end_by, fraction_at};
use crate::numbers::{CYCLE_TIME, ELAPSED_TIME, FRACTION_CHANGED, IS_ACTIVE, TIME};
use crate::state::TimeState;
use crate::timing::TimeFields;
use react_core::{Outbox, SentEvent};
use x3d_values::Value;

impl TimeState {
    ghost use Rattle.std.specs.Prelude.{◌≡◌, ◌^◌, [], pos, ◌≤ℤ◌, IsTrue};
    ghost use Rattle.x3d_values.specs.declared.node_type.NodeType.TheVariants.{TimeSensor};
    ghost use Rattle.react_core.specs.Access.{leave_by_outputs};
    ghost use Rattle.sensor_core.specs.Ticks.{tick};

    /// Does what a TimeSensor does when the clock ticks at time `t`, in microseconds from 0 to
    /// `MAX_TIME`, and puts what the sensor sends into the outbox.
    #[tactic(auto, using(crate::proofs::Passed::passed), unfolding(crate::specs::Ticks::tick))]
    pub fn tick(&mut self, fields: &TimeFields, t: i64, out: &mut Outbox)
        requires after { pos 0 ≤ℤ t }
        requires late { t ≤ℤ pos max_time }
        requires empty { out.old.items ≡ [] }
        ensures state { self.new ≡ (tick self.old fields.now t).cycle }
        ensures replies { out.new.items ≡ (tick self.old fields.now t).replies }
        // All events leave by outputs of a TimeSensor.
        ensures outputs { IsTrue (leave_by_outputs TimeSensor out.new.items) }
    {
        let Some(cycle) = self.cycle() else {
            *self = tick_inactive(fields, t, out);
            return;
        };
        *self = match last_place(fields, cycle, t) {
            Some(x) => ends(fields, x, t, out),
            None => goes_on(fields, cycle, t, out),
        };
    }
}

/// Reports whether the stop time is above the start time and not after `t`.
fn is_stopped(fields: &TimeFields, t: i64) -> bool
    ensures { result ≡ is_stopped fields.now t }
{
    let stop = fields.stop_time();
    fields.start_time() < stop && stop <= t
}

fn is_started(fields: &TimeFields, t: i64) -> bool
    ensures value { result ≡ is_started fields.now t }
    ensures after { IsTrue result → fields.now.start_time ≤ℤ t }
{
    if !fields.is_enabled() {
        return false;
    }
    let start = fields.start_time();
    if t < start {
        return false;
    }
    if is_stopped(fields, t) {
        return false;
    }
    if fields.is_looping() {
        return true;
    }
    t < start + fields.cycle_interval()
}

#[tactic(auto, using(crate::proofs::Passed::passed))]
fn fraction_reply(fields: &TimeFields, x: i64) -> SentEvent
    requires { IsNear x }
    ensures { result ≡ reply FRACTION_CHANGED (SFFloat (fraction_of fields.now x)) }
{
    SentEvent {
        field: FRACTION_CHANGED,
        value: Value::SFFloat(fraction_at(fields.start_time(), fields.cycle_interval(), x)),
    }
}

#[tactic(auto, using(crate::proofs::Passed::passed))]
fn elapsed_reply(fields: &TimeFields, x: i64) -> SentEvent
    requires { IsNear x }
    ensures { result ≡ reply ELAPSED_TIME (SFTime (elapsed_of fields.now x)) }
{
    SentEvent {
        field: ELAPSED_TIME,
        value: Value::SFTime(elapsed_at(fields.start_time(), x)),
    }
}

fn time_reply(field: u16, time: i64) -> SentEvent
    ensures { result ≡ reply field (SFTime time) }
{
    SentEvent {
        field,
        value: Value::SFTime(time),
    }
}

fn active_reply(active: bool) -> SentEvent
    ensures { result ≡ reply IS_ACTIVE (SFBool active) }
{
    SentEvent {
        field: IS_ACTIVE,
        value: Value::SFBool(active),
    }
}

/// Puts what each tick of an active sensor sends at time `t` into the outbox, with the fraction and
/// the elapsed time of `x`.
fn progress(fields: &TimeFields, x: i64, t: i64, out: &mut Outbox)
    requires near { IsNear x }
    requires room { array_vec_len out.old + 3 ≤ 5 }
    ensures items { out.new.items ≡ out.old.items ++ progress fields.now x t }
    ensures len { array_vec_len out.new ≡ array_vec_len out.old + 3 }
{
    out.push(fraction_reply(fields, x));
    out.push(elapsed_reply(fields, x));
    out.push(time_reply(TIME, t));
}

/// Returns the end of a cycle after which no other follows, if that end isn't after time `t`.
#[tactic(auto, using(crate::proofs::Passed::passed))]
fn last_end(fields: &TimeFields, cycle: u64, t: i64) -> Option<i64>
    requires near { IsNear t }
    ensures value { result
        ≡ (if is_over fields.now cycle t then Some (end_of fields.now cycle) else None) }
    ensures near { IfSome result IsNear }
{
    if fields.is_looping() {
        return None;
    }
    end_by(fields.start_time(), fields.cycle_interval(), cycle, t)
}

/// Returns the time at which the sensor ends, if it ends.
#[tactic(auto, using(crate::proofs::Passed::passed), unfolding(crate::specs::Ticks::last_place))]
fn last_place(fields: &TimeFields, cycle: u64, t: i64) -> Option<i64>
    requires near { IsNear t }
    ensures value { result ≡ last_place fields.now cycle t }
    ensures near { IfSome result IsNear }
{
    if let Some(end) = last_end(fields, cycle, t) {
        return Some(end);
    }
    is_stopped(fields, t).then_some(t)
}

/// Ticks an inactive sensor.
#[tactic(auto, using(crate::proofs::Passed::passed))]
fn tick_inactive(fields: &TimeFields, t: i64, out: &mut Outbox) -> TimeState
    requires near { IsNear t }
    requires after { pos 0 ≤ℤ t }
    requires empty { out.old.items ≡ [] }
    ensures state { result ≡ (tick_inactive fields.now t).cycle }
    ensures replies { out.new.items ≡ (tick_inactive fields.now t).replies }
{
    if !is_started(fields, t) {
        return TimeState::inactive();
    }
    let (start, interval) = (fields.start_time(), fields.cycle_interval());
    out.push(active_reply(true));
    out.push(time_reply(CYCLE_TIME, cycle_time(start, interval, t)));
    progress(fields, t, t, out);
    TimeState::active(cycle_at(start, interval, t) as u64)
}

/// Ticks a sensor that ends, at time `x`.
fn ends(fields: &TimeFields, x: i64, t: i64, out: &mut Outbox) -> TimeState
    requires near { IsNear x }
    requires empty { out.old.items ≡ [] }
    ensures state { result ≡ (ends fields.now x t).cycle }
    ensures replies { out.new.items ≡ (ends fields.now x t).replies }
{
    progress(fields, x, t, out);
    out.push(active_reply(false));
    TimeState::inactive()
}

/// Ticks a sensor that goes on.
#[tactic(auto, using(crate::proofs::Passed::passed))]
fn goes_on(fields: &TimeFields, cycle: u64, t: i64, out: &mut Outbox) -> TimeState
    requires near { IsNear t }
    requires after { pos 0 ≤ℤ t }
    requires small { cycle < 2 ^ 63 }
    requires empty { out.old.items ≡ [] }
    ensures state { result ≡ (goes_on fields.now cycle t).cycle }
    ensures replies { out.new.items ≡ (goes_on fields.now cycle t).replies }
{
    let (start, interval) = (fields.start_time(), fields.cycle_interval());
    let now = cycle_at(start, interval, t);
    if (cycle as i64) < now {
        out.push(time_reply(CYCLE_TIME, cycle_time(start, interval, t)));
        progress(fields, t, t, out);
        return TimeState::active(now as u64);
    }
    progress(fields, t, t, out);
    TimeState::active(cycle)
}
