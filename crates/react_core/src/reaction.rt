//! What a node does when an event arrives.

ghost use Rattle.std.specs.Prelude.{◌≡◌, ◌≢◌, [], false, IsTrue, IsOk, OnOk, OnErr};
ghost use Rattle.x3d_values.specs.declared.node_type.NodeType.TheVariants.{CoordinateInterpolator};
ghost use Rattle.react_core.specs.Access.{leave_by_outputs};
ghost use Rattle.react_core.specs.Reaction.{reaction, answer, is_interpolator, keeps};
ghost use Rattle.react_core.specs.Stored.{is_plain};

use crate::access::is_kept;
use crate::copies::copy_of;
use crate::interpolator::interpolator;
use crate::outbox::{Outbox, SentEvent};
use crate::sequence::{boolean_step, integer_step, step_to};
use crate::utilities::{boolean_trigger, filter, integer_trigger, time_trigger, toggle};
use std::alloc::{AllocError, Global};
use x3d_values::{Fields, NodeType, Value};

/// An event that arrives at one of a node's inputs.
#[derive(Clone, Copy)]
pub struct ArrivedEvent<'a> {
    /// The number of the input among the node's fields.
    pub field: u16,
    pub value: &'a Value,
    /// In microseconds.
    pub time: i64,
}

/// Does what a node of type `node_type` does when an event arrives: changes its fields, and puts
/// what it sends into the outbox.
///
/// Does nothing for a TimeSensor, and for an input or a value that the node doesn't take. For a
/// TouchSensor and a PlaneSensor only sets and sends fields. Fails if memory is refused; then
/// nothing has changed and nothing is sent.
#[tactic(auto, unfolding(crate::specs::Reaction::reaction))]
pub fn react(
    alloc: Global,
    node_type: NodeType,
    fields: &mut Fields,
    event: &ArrivedEvent<'_>,
    out: &mut Outbox,
) -> Result<(), AllocError>
    requires empty { out.old.items ≡ [] }
    // On success the fields and the events sent are those of the definition.
    ensures fields { OnOk result
        (fields.new
        ≡ (reaction node_type fields.old event.now.field event.now.value.now
        event.now.time).fields) }
    ensures replies { OnOk result
        (out.new.items
        ≡ (reaction node_type fields.old event.now.field event.now.value.now
        event.now.time).replies) }
    // If memory is refused, nothing has changed and nothing is sent.
    ensures refused_fields { OnErr result (fields.new ≡ fields.old) }
    ensures refused_replies { OnErr result (out.new.items ≡ []) }
    // Only strings, lists and the events of a CoordinateInterpolator take memory.
    ensures no_memory { IsTrue (is_plain event.now.value.now) → node_type ≢ CoordinateInterpolator
        → IsOk result }
    // All events leave by outputs of the node.
    ensures outputs { IsTrue (leave_by_outputs node_type out.new.items) }
{
    if node_type == NodeType::TimeSensor {
        return Ok(());
    }
    if is_kept(node_type, event.field, event.value) {
        return keep(alloc, fields, event.field, event.value, out);
    }
    answer(alloc, node_type, fields, event, out)
}

/// Sets a field, and sends it.
fn keep(
    alloc: Global,
    fields: &mut Fields,
    input: u16,
    value: &Value,
    out: &mut Outbox,
) -> Result<(), AllocError>
    requires empty { out.old.items ≡ [] }
    ensures fields { OnOk result (fields.new ≡ (keeps fields.old input value.now).fields) }
    ensures replies { OnOk result (out.new.items ≡ (keeps fields.old input value.now).replies) }
    ensures refused_fields { OnErr result (fields.new ≡ fields.old) }
    ensures refused_replies { OnErr result (out.new.items ≡ []) }
    ensures no_memory { IsTrue (is_plain value.now) → IsOk result }
{
    let kept = copy_of(alloc, value)?;
    let Ok(sent) = copy_of(alloc, value) else {
        drop(kept);
        return Err(AllocError);
    };
    fields.set(input, kept);
    out.push(SentEvent {
        field: input,
        value: sent,
    });
    Ok(())
}

/// Does what a node does at an event that sets no field.
fn answer(
    alloc: Global,
    node_type: NodeType,
    fields: &mut Fields,
    event: &ArrivedEvent<'_>,
    out: &mut Outbox,
) -> Result<(), AllocError>
    requires empty { out.old.items ≡ [] }
    ensures fields { OnOk result (fields.new
        ≡ (answer node_type fields.old event.now.field event.now.value.now
        event.now.time).fields) }
    ensures replies { OnOk result (out.new.items
        ≡ (answer node_type fields.old event.now.field event.now.value.now
        event.now.time).replies) }
    ensures refused_fields { OnErr result (fields.new ≡ fields.old) }
    ensures refused_replies { OnErr result (out.new.items ≡ []) }
    ensures no_memory { node_type ≢ CoordinateInterpolator → IsOk result }
{
    if is_interpolator(node_type) {
        return interpolator(alloc, node_type, fields, event.field, event.value, out);
    }
    act(node_type, fields, event, out);
    Ok(())
}

fn is_interpolator(node_type: NodeType) -> bool
    ensures { result ≡ is_interpolator node_type }
{
    matches!(
        node_type,
        NodeType::ScalarInterpolator
            | NodeType::PositionInterpolator
            | NodeType::PositionInterpolator2D
            | NodeType::CoordinateInterpolator
    )
}

/// Does what a node does at an event that sets no field and takes no memory.
fn act(node_type: NodeType, fields: &mut Fields, event: &ArrivedEvent<'_>, out: &mut Outbox)
    requires empty { out.old.items ≡ [] }
    requires no_interpolator { is_interpolator node_type ≡ false }
    ensures fields { fields.new
        ≡ (answer node_type fields.old event.now.field event.now.value.now event.now.time).fields }
    ensures replies { out.new.items
        ≡ (answer node_type fields.old event.now.field event.now.value.now event.now.time).replies }
{
    let input = event.field;
    let value = event.value;
    match node_type {
        NodeType::BooleanSequencer => step_to(boolean_step(fields, input, value), fields, out),
        NodeType::IntegerSequencer => step_to(integer_step(fields, input, value), fields, out),
        NodeType::BooleanFilter => filter(fields, input, value, out),
        NodeType::BooleanToggle => toggle(fields, input, value, out),
        NodeType::BooleanTrigger => boolean_trigger(fields, input, value, out),
        NodeType::IntegerTrigger => integer_trigger(fields, input, value, out),
        NodeType::TimeTrigger => time_trigger(fields, input, value, event.time, out),
        _ => {}
    }
}
