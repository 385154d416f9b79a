//! The event utilities (ISO/IEC 19775-1, event utilities component).

ghost use Rattle.std.specs.Prelude.{◌≡◌, []};
ghost use Rattle.react_core.specs.Reaction.{filter, toggle, boolean_trigger, integer_trigger, time_trigger, stored};
ghost use Rattle.react_core.specs.Stored.{truth_of, integer_of};

use crate::numbers::{
    INPUT_FALSE, INPUT_NEGATE, INPUT_TRUE, INTEGER_KEY, SET_BOOLEAN, SET_TRIGGER_TIME, TOGGLE,
    TRIGGER_TIME, TRIGGER_TRUE, TRIGGER_VALUE,
};
use crate::outbox::{Outbox, SentEvent};
use crate::stored::{integer_of, time_of, truth_of};
use x3d_values::{Fields, Value};

/// Puts what a BooleanFilter sends at an event into the outbox.
pub fn filter(fields: &Fields, input: u16, value: &Value, out: &mut Outbox)
    requires empty { out.old.items ≡ [] }
    ensures { out.new.items ≡ (filter fields.now input value.now).replies }
{
    if input != SET_BOOLEAN {
        return;
    }
    let Some(truth) = truth_of(value) else {
        return;
    };
    out.push(SentEvent {
        field: if truth { INPUT_TRUE } else { INPUT_FALSE },
        value: Value::SFBool(truth),
    });
    out.push(SentEvent {
        field: INPUT_NEGATE,
        value: Value::SFBool(!truth),
    });
}

fn stored_truth(fields: &Fields, field: u16) -> Option<bool>
    ensures { result ≡ stored truth_of fields.now field }
{
    truth_of(fields.value(field)?)
}

fn stored_integer(fields: &Fields, field: u16) -> Option<i32>
    ensures { result ≡ stored integer_of fields.now field }
{
    integer_of(fields.value(field)?)
}

/// Does what a BooleanToggle does at an event: flips and sends `toggle` at a TRUE.
pub fn toggle(fields: &mut Fields, input: u16, value: &Value, out: &mut Outbox)
    requires empty { out.old.items ≡ [] }
    ensures fields { fields.new ≡ (toggle fields.old input value.now).fields }
    ensures replies { out.new.items ≡ (toggle fields.old input value.now).replies }
{
    if input != SET_BOOLEAN {
        return;
    }
    let (Some(true), Some(now)) = (truth_of(value), stored_truth(fields, TOGGLE)) else {
        return;
    };
    fields.set(TOGGLE, Value::SFBool(!now));
    out.push(SentEvent {
        field: TOGGLE,
        value: Value::SFBool(!now),
    });
}

/// Puts what a BooleanTrigger sends at an event into the outbox.
pub fn boolean_trigger(fields: &Fields, input: u16, value: &Value, out: &mut Outbox)
    requires empty { out.old.items ≡ [] }
    ensures { out.new.items ≡ (boolean_trigger fields.now input value.now).replies }
{
    if input != SET_TRIGGER_TIME {
        return;
    }
    if let Some(_) = time_of(value) {
        out.push(SentEvent {
            field: TRIGGER_TRUE,
            value: Value::SFBool(true),
        });
    }
}

/// Puts what an IntegerTrigger sends at an event into the outbox.
pub fn integer_trigger(fields: &Fields, input: u16, value: &Value, out: &mut Outbox)
    requires empty { out.old.items ≡ [] }
    ensures { out.new.items ≡ (integer_trigger fields.now input value.now).replies }
{
    if input != SET_BOOLEAN {
        return;
    }
    let Some(true) = truth_of(value) else {
        return;
    };
    let Some(key) = stored_integer(fields, INTEGER_KEY) else {
        return;
    };
    out.push(SentEvent {
        field: TRIGGER_VALUE,
        value: Value::SFInt32(key),
    });
}

/// Puts what a TimeTrigger sends at an event at time `time`, in microseconds, into the outbox.
pub fn time_trigger(fields: &Fields, input: u16, value: &Value, time: i64, out: &mut Outbox)
    requires empty { out.old.items ≡ [] }
    ensures { out.new.items ≡ (time_trigger fields.now input value.now time).replies }
{
    if input != SET_BOOLEAN {
        return;
    }
    if let Some(_) = truth_of(value) {
        out.push(SentEvent {
            field: TRIGGER_TIME,
            value: Value::SFTime(time),
        });
    }
}
