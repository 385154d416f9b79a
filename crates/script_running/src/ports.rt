//! Which fields of its node are the inputs and outputs of a script.

ghost use Rattle.std.specs.Prelude.{◌≡◌, ◌+◌, ◌<◌, ◌^◌, IsTrue, IfSome, length, slice_get, slice_index_or};
ghost use Rattle.std.specs.Option.{option_map};
ghost use Rattle.script_host.specs.Behaviour.{Receive};
ghost use Rattle.script_host.specs.Events.{takes_event};
ghost use Rattle.script_host.specs.Interface.{outputs as outputs_of};
ghost use Rattle.script_running.specs.Ports as spec;

use crate::values::{numbers_of, value_of};
use arrayvec::ArrayVec;
use react_core::SentEvent;
use script_host::{inputs, outputs, takes_event};
use std::marker::Model;
use x3d_values::{Kind, Value};

/// The most inputs, and the most outputs, that a kind of script has.
pub const MAX_PORTS: usize = 2;

/// The numbers of the fields of a script's node that are its inputs and outputs, in the order of
/// the kind's inputs and outputs.
#[derive(Debug, Drop)]
pub struct Ports {
    inputs: ArrayVec<u16, MAX_PORTS>,
    outputs: ArrayVec<u16, MAX_PORTS>,
}

impl Model for Ports {
    ghost use Rattle.script_running.specs.Ports.{PortsView};

    ghost Value = { PortsView };

    ghost view = { λ p. record { inputs = p.inputs.items; outputs = p.outputs.items } };
}

impl Ports {
    ghost use Rattle.std.specs.Prelude.{◌≡◌};

    /// Creates the ports from the numbers of the fields that are inputs and of those that are
    /// outputs.
    pub fn new(inputs: ArrayVec<u16, MAX_PORTS>, outputs: ArrayVec<u16, MAX_PORTS>) -> Ports
        ensures { result ≡ record { inputs = inputs.items; outputs = outputs.items } }
    {
        Ports { inputs, outputs }
    }
}

/// An event as a script receives it.
#[derive(Clone, Copy)]
pub(crate) struct Event {
    pub input: u32,
    pub numbers: [i64; 3],
}

/// Returns the place, counted from `number`, at which `field` first appears in `fields`.
fn place_from(fields: &[u16], number: u32, field: u16) -> Option<u32>
    requires { number + length fields.now < 2 ^ 32 }
    ensures { result ≡ spec.place_from field number fields.now }
{
    match fields {
        [] => None,
        [other, others @ ..] => {
            if *other == field {
                Some(number)
            } else {
                place_from(others, number + 1, field)
            }
        }
    }
}

/// Returns the number of the input that the field is, or `None` if it is not an input.
fn input_at(ports: &Ports, field: u16) -> Option<u32>
    ensures { result ≡ spec.input_at ports.now field }
{
    place_from(ports.inputs.as_slice(), 0, field)
}

/// Reports whether the value is of the type of that input. An input that the kind doesn't have
/// takes no value.
fn is_of_type(kind: Kind, input: u32, value: &Value) -> bool
    ensures { result ≡ spec.is_of_type kind input value.now }
{
    match inputs(kind).get(input as usize) {
        Some(entry) => entry.field_type == value.field_type(),
        None => false,
    }
}

/// Returns the event that a script receives when `value` reaches `field` of its node, or `None` if
/// the field is not an input or doesn't take such a value.
pub(crate) fn event_at(kind: Kind, ports: &Ports, field: u16, value: &Value) -> Option<Event>
    ensures call { option_map (λ a. Receive a.input a.numbers) result
        ≡ spec.call_at kind ports.now field value.now }
    ensures fits { IfSome result (λ a. IsTrue (takes_event kind a.input a.numbers)) }
{
    let input = input_at(ports, field)?;
    let numbers = numbers_of(value);
    if is_of_type(kind, input, value) && takes_event(kind, input, numbers) {
        return Some(Event { input, numbers });
    }
    None
}

/// Returns the value that is sent by an output of the kind; FALSE if the kind has no such output.
fn value_from(kind: Kind, output: u32, numbers: [i64; 3]) -> Value
    ensures { result ≡ spec.value_from (slice_get (outputs_of kind) output) numbers }
{
    match outputs(kind).get(output as usize) {
        Some(entry) => value_of(entry.field_type, numbers),
        None => Value::SFBool(false),
    }
}

/// Returns the number of the field that is the output, or 0 if there is none.
fn field_of(ports: &Ports, output: u32) -> u16
    ensures { result ≡ slice_index_or ports.now.outputs output 0 }
{
    match ports.outputs.as_slice().get(output as usize) {
        Some(field) => *field,
        None => 0,
    }
}

/// Returns what the node sends if its script sends `reply`.
pub(crate) fn reply_of(kind: Kind, ports: &Ports, reply: script_host::Reply) -> SentEvent
    ensures { result ≡ spec.reply_of kind ports.now reply }
{
    SentEvent {
        field: field_of(ports, reply.output),
        value: value_from(kind, reply.output, reply.numbers),
    }
}
