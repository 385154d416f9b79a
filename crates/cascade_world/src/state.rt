//! The state of the nodes of a scene, by their numbers.

ghost use Rattle.std.specs.Prelude.{◌≡◌, ◌/◌, ℕ, [], IsTrue, OnOk, Some, None, false, option_copied, slice_get, slice_set};
ghost use Rattle.std.specs.Option.{option_map_or};
ghost use Rattle.x3d_values.specs.Kept.{field_value};
ghost use Rattle.x3d_values.specs.Ranges.{is_viewer};
ghost use Rattle.react_core.specs.Reaction.{keeps, reaction};
ghost use Rattle.sensor_core.specs.Timing.{with_timing};
ghost use Rattle.sensor_plane.specs.Meeting.{pointed};
ghost use Rattle.x3d_values.specs.declared.fields.Fields.{Fields as FieldsView};
ghost use Rattle.cascade_world.specs.Blocks.{AreOthers};
ghost use Rattle.cascade_world.specs.Idle.{starts_at};

use crate::event::NodeEvent;
use crate::idle::{Idle, idle_of, is_among, no_time, wake, wake_around};
use crate::watched::WIDTH;
use react_core::{ArrivedEvent, Outbox, SentEvent, copy_of, react};
use scene_core::End;
use sensor_core::TimeFields;
use sensor_plane::{PointingState, SensorPointer};
use std::alloc::{AllocError, Global};
use std::marker::Model;
use x3d_values::{Fields, Value};

/// The fields that each node keeps, by its number.
#[derive(Drop)]
pub struct State {
    items: Vec<Fields>,
    /// When no node of a block starts, if it is remembered.
    idles: Vec<Idle>,
}

impl Model for State {
    ghost use Rattle.std.specs.Prelude.{List};
    ghost use Rattle.x3d_values.specs.declared.fields.Fields.{Fields};
    ghost use Rattle.cascade_world.specs.Idle.{AreIdle};

    ghost Value = { List Fields };

    ghost view = { λ s. s.items.items };

    ghost invariant = { λ s. AreIdle s.items.items s.idles.items };
}

/// Lets a node react to an event, if there is such a node. The other nodes are unchanged.
fn react_at(
    items: &mut Vec<Fields>,
    alloc: Global,
    event: &NodeEvent<'_>,
    time: i64,
    out: &mut Outbox,
) -> Result<(), AllocError>
    requires empty { out.old.items ≡ [] }
    ensures fields { OnOk result (items.new.items
        ≡ option_map_or (λ fields.
        slice_set items.old.items event.now.target.node
        (reaction event.now.node_type fields event.now.target.field event.now.value.now
        time).fields)
        (slice_get items.old.items event.now.target.node) items.old.items) }
    ensures replies { OnOk result (out.new.items
        ≡ option_map_or (λ fields.
        (reaction event.now.node_type fields event.now.target.field event.now.value.now
        time).replies)
        (slice_get items.old.items event.now.target.node) []) }
    ensures others { AreOthers event.now.target.node items.old.items items.new.items }
{
    let node = event.target.node as usize;
    if node >= items.len() {
        return Ok(());
    }
    let arrived = ArrivedEvent {
        field: event.target.field,
        value: event.value,
        time,
    };
    react(alloc, event.node_type, &mut items[node], &arrived, out)
}

/// Sets the field of a node that an event comes to and sends the value, if there is such a node.
/// The other nodes are unchanged.
fn keep_at(
    items: &mut Vec<Fields>,
    alloc: Global,
    target: End,
    value: &Value,
    out: &mut Outbox,
) -> Result<(), AllocError>
    requires empty { out.old.items ≡ [] }
    ensures fields { OnOk result (items.new.items
        ≡ option_map_or (λ fields.
        slice_set items.old.items target.node (keeps fields target.field value.now).fields)
        (slice_get items.old.items target.node) items.old.items) }
    ensures replies { OnOk result (out.new.items
        ≡ option_map_or (λ fields. (keeps fields target.field value.now).replies)
        (slice_get items.old.items target.node) []) }
    ensures others { AreOthers target.node items.old.items items.new.items }
{
    let node = target.node as usize;
    if node >= items.len() {
        return Ok(());
    }
    let kept = copy_of(alloc, value)?;
    let Ok(sent) = copy_of(alloc, value) else {
        drop(kept);
        return Err(AllocError);
    };
    items[node].set(target.field, kept);
    out.push(SentEvent {
        field: target.field,
        value: sent,
    });
    Ok(())
}

/// Stores these values in a TimeSensor, if there is such a node. The other nodes are unchanged.
fn time_at(items: &mut Vec<Fields>, node: u32, timing: &TimeFields)
    ensures fields { items.new.items
        ≡ option_map_or (λ fields. slice_set items.old.items node (with_timing fields timing.now))
        (slice_get items.old.items node) items.old.items }
    ensures others { AreOthers node items.old.items items.new.items }
{
    let node = node as usize;
    if node >= items.len() {
        return;
    }
    timing.write_to(&mut items[node]);
}

/// Handles a viewer's pointer at an enabled pointing sensor, if there is such a node. The other
/// nodes are unchanged.
fn point_at(
    items: &mut Vec<Fields>,
    node: u32,
    state: &mut PointingState,
    pointer: &SensorPointer,
    time: i64,
    out: &mut Outbox,
)
    requires viewer { IsTrue (is_viewer pointer.now.who) }
    requires empty { out.old.items ≡ [] }
    ensures fields { items.new.items
        ≡ option_map_or (λ fields.
        slice_set items.old.items node (pointed state.old fields pointer.now time).fields)
        (slice_get items.old.items node) items.old.items }
    ensures state { state.new
        ≡ option_map_or (λ fields. (pointed state.old fields pointer.now time).state)
        (slice_get items.old.items node) state.old }
    ensures replies { out.new.items
        ≡ option_map_or (λ fields. (pointed state.old fields pointer.now time).replies)
        (slice_get items.old.items node) [] }
    ensures others { AreOthers node items.old.items items.new.items }
{
    let node = node as usize;
    if node >= items.len() {
        return;
    }
    state.point(&mut items[node], pointer, time, out);
}

impl State {
    /// Makes a state of these fields, by the numbers of the nodes.
    pub fn from_vec(items: Vec<Fields>) -> State
        ensures { result ≡ items.items }
    {
        let idles = Vec::new(*items.allocator());
        State { items, idles }
    }

    /// Returns the fields of all nodes, by their numbers.
    pub fn as_slice(&self) -> &[Fields]
        ensures { result.now ≡ self.now }
    {
        &self.items
    }

    /// Returns the fields of a node, if there is such a node.
    pub fn get(&self, node: u32) -> Option<&Fields>
        ensures { option_copied result ≡ slice_get self.now node }
    {
        self.items.get(node as usize)
    }

    /// Lets a node react to an event at a time in microseconds, if there is such a node, and puts
    /// the replies into `out`. Fails with `AllocError` if memory runs out.
    pub(crate) fn react(
        &mut self,
        alloc: Global,
        event: &NodeEvent<'_>,
        time: i64,
        out: &mut Outbox,
    ) -> Result<(), AllocError>
        requires empty { out.old.items ≡ [] }
        ensures fields { OnOk result (self.new
            ≡ option_map_or (λ fields.
            slice_set self.old event.now.target.node
            (reaction event.now.node_type fields event.now.target.field event.now.value.now
            time).fields)
            (slice_get self.old event.now.target.node) self.old) }
        ensures replies { OnOk result (out.new.items
            ≡ option_map_or (λ fields.
            (reaction event.now.node_type fields event.now.target.field event.now.value.now
            time).replies)
            (slice_get self.old event.now.target.node) []) }
    {
        let reacted = react_at(&mut self.items, alloc, event, time, out);
        wake_around(&mut self.idles, &self.items, event.target.node as usize);
        reacted
    }

    /// Sets the field of a node that an event comes to and sends the value, if there is such a
    /// node. Fails with `AllocError` if memory runs out.
    pub fn keep(
        &mut self,
        alloc: Global,
        target: End,
        value: &Value,
        out: &mut Outbox,
    ) -> Result<(), AllocError>
        requires empty { out.old.items ≡ [] }
        ensures fields { OnOk result (self.new
            ≡ option_map_or (λ fields.
            slice_set self.old target.node (keeps fields target.field value.now).fields)
            (slice_get self.old target.node) self.old) }
        ensures replies { OnOk result (out.new.items
            ≡ option_map_or (λ fields. (keeps fields target.field value.now).replies)
            (slice_get self.old target.node) []) }
    {
        let kept = keep_at(&mut self.items, alloc, target, value, out);
        wake_around(&mut self.idles, &self.items, target.node as usize);
        kept
    }

    /// Stores these values in a TimeSensor, if there is such a node.
    pub fn keep_timing(&mut self, node: u32, timing: &TimeFields)
        ensures { self.new
            ≡ option_map_or (λ fields. slice_set self.old node (with_timing fields timing.now))
            (slice_get self.old node) self.old }
    {
        wake(&mut self.idles, node as usize / WIDTH);
        time_at(&mut self.items, node, timing);
    }

    /// Handles a viewer's pointer at an enabled pointing sensor, at a time in microseconds, if
    /// there is such a node. Puts the events sent into the outbox.
    pub fn point(
        &mut self,
        node: u32,
        state: &mut PointingState,
        pointer: &SensorPointer,
        time: i64,
        out: &mut Outbox,
    )
        requires viewer { IsTrue (is_viewer pointer.now.who) }
        requires empty { out.old.items ≡ [] }
        ensures fields { self.new
            ≡ option_map_or (λ fields.
            slice_set self.old node (pointed state.old fields pointer.now time).fields)
            (slice_get self.old node) self.old }
        ensures state { state.new
            ≡ option_map_or (λ fields. (pointed state.old fields pointer.now time).state)
            (slice_get self.old node) state.old }
        ensures replies { out.new.items
            ≡ option_map_or (λ fields. (pointed state.old fields pointer.now time).replies)
            (slice_get self.old node) [] }
    {
        point_at(&mut self.items, node, state, pointer, time, out);
        wake_around(&mut self.idles, &self.items, node as usize);
    }

    /// Makes room to remember when no node of a block starts. If room is made, nothing is known of
    /// any block afterwards.
    fn make_room(&mut self) -> Result<(), AllocError>
        ensures { self.new ≡ self.old }
    {
        let blocks = self.items.len() / WIDTH + 1;
        if self.idles.len() == blocks {
            return Ok(());
        }
        let alloc = *self.idles.allocator();
        self.idles = vec![in alloc; no_time(); blocks]?;
        Ok(())
    }

    /// Remembers until when no node of a block starts, with their current fields, from a time in
    /// microseconds on. Remembers nothing if memory for that is refused.
    pub(crate) fn look_at(&mut self, block: u32, now: i64)
        ensures { self.new ≡ self.old }
    {
        if self.make_room().is_err() {
            return;
        }
        let block = block as usize;
        let start = block * WIDTH;
        if start >= self.items.len() || block >= self.idles.len() {
            return;
        }
        let end = (start + WIDTH).min(self.items.len());
        let idle = idle_of(&self.items[start..end], now);
        self.idles[block] = idle;
    }

    /// Reports whether it is remembered that no node of a block starts at a time in microseconds.
    pub(crate) fn is_idle(&self, block: u32, time: i64) -> bool
        ensures { (node : ℕ) (fields : FieldsView) → IsTrue result → node / 32 ≡ block
            → slice_get self.now node ≡ Some fields → starts_at fields time ≡ false }
    {
        match self.idles.get(block as usize) {
            Some(idle) => is_among(*idle, time),
            None => false,
        }
    }
}
