//! What an event does at a TimeSensor.

ghost use Rattle.std.specs.Prelude.{◌≡◌, IsTrue, Some, None, if◌then◌else◌, not, ◌||◌};
ghost use Rattle.sensor_core.specs.Timing.{is_time, is_interval};
ghost use Rattle.sensor_core.specs.Events.{is_refused, with_time, with_truth, is_disabled};

use crate::numbers::{
    CYCLE_INTERVAL, ENABLED, IS_ACTIVE, LOOP, PAUSE_TIME, RESUME_TIME, START_TIME, STOP_TIME,
};
use crate::state::TimeState;
use crate::timing::{TimeFields, is_time};
use react_core::{Outbox, SentEvent};
use x3d_values::Value;

impl TimeState {
    ghost use Rattle.std.specs.Prelude.{◌≡◌, [], IsTrue};
    ghost use Rattle.x3d_values.specs.declared.node_type.NodeType.TheVariants.{TimeSensor};
    ghost use Rattle.react_core.specs.Access.{leave_by_outputs};
    ghost use Rattle.sensor_core.specs.Events.{keeps, set};

    /// Does what an event at input `input` of a TimeSensor does: sets a field, and puts what the
    /// sensor sends into the outbox. Does nothing if the sensor doesn't take the input or the
    /// value.
    #[tactic(auto, unfolding(crate::specs::Events::set, crate::specs::Events::changed))]
    pub fn set(&mut self, fields: &mut TimeFields, input: u16, value: &Value, out: &mut Outbox)
        requires empty { out.old.items ≡ [] }
        ensures state { self.new ≡ (set self.old fields.old input value.now).cycle }
        ensures fields { fields.new ≡ (set self.old fields.old input value.now).timing }
        ensures replies { out.new.items ≡ (set self.old fields.old input value.now).replies }
        // All events leave by outputs of a TimeSensor.
        ensures outputs { IsTrue (leave_by_outputs TimeSensor out.new.items) }
    {
        match value {
            Value::SFBool(truth) => {
                if let Some(new) = with_truth(fields, input, *truth) {
                    *fields = new;
                    self.keep(fields, input, Value::SFBool(*truth), out);
                }
            }
            Value::SFTime(time) => {
                if let Some(new) = changed_time(self.is_active(), fields, input, *time) {
                    *fields = new;
                    self.keep(fields, input, Value::SFTime(*time), out);
                }
            }
            _ => {}
        }
    }

    /// Sends the field that was set. If that disabled the sensor, stops it.
    fn keep(&mut self, fields: &TimeFields, input: u16, value: Value, out: &mut Outbox)
        requires empty { out.old.items ≡ [] }
        ensures state { self.new ≡ (keeps self.old input value fields.now).cycle }
        ensures replies { out.new.items ≡ (keeps self.old input value fields.now).replies }
    {
        let active = self.is_active();
        out.push(SentEvent {
            field: input,
            value,
        });
        if !is_disabled(fields, input) {
            return;
        }
        *self = TimeState::inactive();
        if active {
            out.push(SentEvent {
                field: IS_ACTIVE,
                value: Value::SFBool(false),
            });
        }
    }
}

/// Reports whether a time is refused: because the sensor runs, or as the length of a cycle.
fn is_refused(active: bool, fields: &TimeFields, input: u16, time: i64) -> bool
    ensures { result ≡ is_refused active fields.now input time }
{
    if input == START_TIME {
        return active;
    }
    if input == STOP_TIME {
        return active && time <= fields.start_time();
    }
    if input == CYCLE_INTERVAL {
        return active || time <= 0;
    }
    false
}

fn with_time(fields: &TimeFields, input: u16, time: i64) -> Option<TimeFields>
    requires near { IsTrue (is_time time) }
    requires length { input ≡ CYCLE_INTERVAL → IsTrue (is_interval time) }
    ensures { result ≡ with_time fields.now input time }
{
    let mut new = *fields;
    if input == CYCLE_INTERVAL {
        new.times.cycle_interval = time;
        return Some(new);
    }
    if input == PAUSE_TIME {
        new.times.pause_time = time;
        return Some(new);
    }
    if input == RESUME_TIME {
        new.times.resume_time = time;
        return Some(new);
    }
    if input == START_TIME {
        new.times.start_time = time;
        return Some(new);
    }
    if input == STOP_TIME {
        new.times.stop_time = time;
        return Some(new);
    }
    None
}

fn with_truth(fields: &TimeFields, input: u16, truth: bool) -> Option<TimeFields>
    ensures { result ≡ with_truth fields.now input truth }
{
    let mut new = *fields;
    if input == ENABLED {
        new.times.enabled = truth;
        return Some(new);
    }
    if input == LOOP {
        new.times.looping = truth;
        return Some(new);
    }
    None
}

/// Returns what the sensor keeps after an event that sets a time, if it takes the event.
fn changed_time(active: bool, fields: &TimeFields, input: u16, time: i64) -> Option<TimeFields>
    ensures { result ≡ (if is_refused active fields.now input time || not (is_time time)
        then None else with_time fields.now input time) }
{
    if is_refused(active, fields, input, time) {
        return None;
    }
    if !is_time(time) {
        return None;
    }
    with_time(fields, input, time)
}

fn is_disabled(fields: &TimeFields, input: u16) -> bool
    ensures { result ≡ is_disabled fields.now input }
{
    input == ENABLED && !fields.is_enabled()
}
