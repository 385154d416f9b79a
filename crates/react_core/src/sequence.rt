//! The positions of sequencers.

ghost use Rattle.std.specs.Prelude.{◌≡◌, [], ◌+◌, ◌<◌, ◌≤◌, ◌^◌, length, map, IfSome};
ghost use Rattle.std.specs.Option.{option_map, option_copied, option_and_then};
ghost use Rattle.x3d_values.specs.declared.value.Value.TheVariants.{SFBool, SFInt32};
ghost use Rattle.react_core.specs.Stored.{truths_of, integers_of};
ghost use Rattle.react_core.specs.Reaction.{stored, with_some, steps_to};
ghost use Rattle.react_core.specs.Sequence.{present, next_of, previous_of, on_true, stepped, place_after, step_after};

use crate::keys::{have_steps, step_index};
use crate::numbers::{KEY, KEY_VALUE, NEXT, PREVIOUS, SEQUENCE_CHANGED, SEQUENCE_FRACTION};
use crate::outbox::{Outbox, SentEvent};
use crate::stored::{integers_of, number_of, numbers_of, truth_of, truths_of};
use x3d_values::{Fields, Items, Position, Value};

/// An index among the values of a sequencer, from 0, with the value there.
#[derive(Drop)]
pub struct Keyed {
    pub at: u32,
    pub value: Value,
}

fn present(position: Position, count: usize) -> Option<usize>
    ensures value { result ≡ present position count }
    ensures below { IfSome result (λ at. at < count) }
{
    let at = position.at? as usize;
    if at < count { Some(at) } else { None }
}

fn next_of(at: Option<usize>, count: usize) -> usize
    requires some { 0 < count }
    requires is_below { IfSome at (λ place. place < count) }
    ensures value { result ≡ next_of at count }
    ensures below { result < count }
{
    match at {
        Some(at) => { if at + 1 == count { 0 } else { at + 1 } }
        None => 0,
    }
}

fn previous_of(at: Option<usize>, count: usize) -> usize
    requires some { 0 < count }
    requires is_below { IfSome at (λ place. place < count) }
    ensures value { result ≡ previous_of at count }
    ensures below { result < count }
{
    match at {
        Some(at) => { if at == 0 { count - 1 } else { at - 1 } }
        None => count - 1,
    }
}

fn on_true(value: &Value, at: usize) -> Option<usize>
    ensures value { result ≡ on_true value.now at }
    ensures same { IfSome result (λ place. place ≡ at) }
{
    let truth = truth_of(value)?;
    if truth { Some(at) } else { None }
}

/// Returns the index to which an event moves a sequencer with these keys.
#[tactic(auto, using(crate::proofs::Ways::passed))]
fn stepped(keys: &[i64], position: Position, input: u16, value: &Value) -> Option<usize>
    requires { 0 < length keys.now }
    ensures value { result ≡ stepped keys.now position input value.now }
    ensures below { IfSome result (λ at. at < length keys.now) }
{
    let count = keys.len();
    if input == NEXT {
        on_true(value, next_of(present(position, count), count))
    } else if input == PREVIOUS {
        on_true(value, previous_of(present(position, count), count))
    } else if input == SEQUENCE_FRACTION {
        step_index(keys, number_of(value)?)
    } else {
        None
    }
}

/// Returns the index to which an event moves a sequencer with `count` values.
#[tactic(auto, unfolding(crate::specs::Sequence::place_after))]
fn place_after(fields: &Fields, input: u16, value: &Value, count: usize) -> Option<usize>
    ensures value { result ≡ place_after fields.now input value.now count }
    ensures fits { IfSome result (λ at. at < 2 ^ 32) }
{
    let keys = numbers_of(fields.value(KEY)?)?.as_slice();
    if !have_steps(keys) || count != keys.len() || count >= 1 << 32 {
        return None;
    }
    stepped(keys, fields.position, input, value)
}

/// Returns the index to which an event moves a BooleanSequencer, with the value there. Returns
/// `None` if the event doesn't move it, if its keys don't rise, or if it hasn't one value for each
/// key.
pub fn boolean_step(fields: &Fields, input: u16, value: &Value) -> Option<Keyed>
    ensures { result ≡ option_and_then (step_after fields.now input value.now)
        (option_map (map SFBool) (stored truths_of fields.now KEY_VALUE)) }
{
    truth_at(fields, input, value, truths_of(fields.value(KEY_VALUE)?)?)
}

/// Like `boolean_step`, for an IntegerSequencer.
pub fn integer_step(fields: &Fields, input: u16, value: &Value) -> Option<Keyed>
    ensures { result ≡ option_and_then (step_after fields.now input value.now)
        (option_map (map SFInt32) (stored integers_of fields.now KEY_VALUE)) }
{
    integer_at(fields, input, value, integers_of(fields.value(KEY_VALUE)?)?)
}

#[tactic(auto, using(crate::proofs::PlaceLemmas::among))]
fn truth_at(fields: &Fields, input: u16, value: &Value, values: &Items<bool>) -> Option<Keyed>
    ensures { result ≡ step_after fields.now input value.now (map SFBool values.now) }
{
    let at = place_after(fields, input, value, values.len())?;
    let truth = *values.get(at)?;
    Some(Keyed {
        at: at as u32,
        value: Value::SFBool(truth),
    })
}

#[tactic(auto, using(crate::proofs::PlaceLemmas::among))]
fn integer_at(fields: &Fields, input: u16, value: &Value, values: &Items<i32>) -> Option<Keyed>
    ensures { result ≡ step_after fields.now input value.now (map SFInt32 values.now) }
{
    let at = place_after(fields, input, value, values.len())?;
    let number = *values.get(at)?;
    Some(Keyed {
        at: at as u32,
        value: Value::SFInt32(number),
    })
}

/// Sets a sequencer's position and sends the value there, if there is a step.
pub fn step_to(step: Option<Keyed>, fields: &mut Fields, out: &mut Outbox)
    requires empty { out.old.items ≡ [] }
    ensures fields { fields.new ≡ (with_some fields.old step (steps_to fields.old)).fields }
    ensures replies { out.new.items ≡ (with_some fields.old step (steps_to fields.old)).replies }
{
    if let Some(step) = step {
        fields.position = Position { at: Some(step.at) };
        out.push(SentEvent {
            field: SEQUENCE_CHANGED,
            value: step.value,
        });
    }
}
