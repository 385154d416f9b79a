//! What one node does at an event and at a tick of the clock.

ghost use Rattle.std.specs.Prelude.{◌≡◌, ◌/◌, ℕ, [], IsTrue, OnOk, pos, ◌≤ℤ◌, ◌^◌, Some, slice_get};
ghost use Rattle.scene_core.specs.Scene.{rows_at, shapes_of};
ghost use Rattle.cascade_world.specs.Answers.{answer, answer_by, answered, setting_at, nothing, reacting, ticked};

use crate::event::NodeEvent;
use crate::world::WorldData;
use react_core::Outbox;
use scene_core::{End, Scene, is_pointing};
use sensor_core::TimeFields;
use std::alloc::{AllocError, Global};
use x3d_values::{NodeType, Stamped, Value};

impl WorldData {
    /// Handles an event at a TimeSensor.
    fn set_sensor(&mut self, target: End, value: &Value, out: &mut Outbox)
        requires empty { out.old.items ≡ [] }
        ensures world { self.new
            ≡ answered self.old
            (setting_at self.old target value.now (slice_get self.old.fields target.node)) }
        ensures replies { out.new.items
            ≡ (setting_at self.old target value.now
            (slice_get self.old.fields target.node)).replies }
    {
        let Some(fields) = self.fields.get(target.node) else {
            return;
        };
        let Some(mut timing) = TimeFields::from_fields(fields) else {
            return;
        };
        let Some(state) = self.sensors.get(target.node as usize) else {
            return;
        };
        let mut state = *state;
        state.set(&mut timing, target.field, value, out);
        self.fields.keep_timing(target.node, &timing);
        self.sensors.set(target.node as usize, state);
    }

    /// Handles an event at a node.
    fn reply_by(
        &mut self,
        alloc: Global,
        scene: &Scene,
        event: &NodeEvent<'_>,
        out: &mut Outbox,
    ) -> Result<(), AllocError>
        requires empty { out.old.items ≡ [] }
        ensures world { OnOk result (self.new
            ≡ answered self.old
            (answer_by self.old event.now.target event.now.value.now event.now.node_type
            (slice_get (rows_at scene.now event.now.target.node) event.now.target.field))) }
        ensures replies { OnOk result (out.new.items
            ≡ (answer_by self.old event.now.target event.now.value.now event.now.node_type
            (slice_get (rows_at scene.now event.now.target.node)
            event.now.target.field)).replies) }
    {
        if event.node_type == NodeType::TimeSensor {
            self.set_sensor(event.target, event.value, out);
            return Ok(());
        }
        if is_pointing(event.node_type) {
            return self.touch(alloc, event, out);
        }
        if event.node_type == NodeType::Script {
            return self.set_script(alloc, scene, event.target, event.value, out);
        }
        self.fields.react(alloc, event, self.last_time, out)
    }

    /// Handles an event at the target and puts the replies into `out`. Does nothing if there is no
    /// such node. Fails with `AllocError` if memory runs out.
    pub fn reply_to(
        &mut self,
        alloc: Global,
        scene: &Scene,
        target: End,
        value: &Value,
        out: &mut Outbox,
    ) -> Result<(), AllocError>
        requires empty { out.old.items ≡ [] }
        ensures world { OnOk result (self.new
            ≡ answered self.old (answer (shapes_of scene.now) self.old target value.now)) }
        ensures replies { OnOk result (out.new.items
            ≡ (answer (shapes_of scene.now) self.old target value.now).replies) }
    {
        let Some(node_type) = scene.type_at(target.node) else {
            return Ok(());
        };
        let event = NodeEvent {
            node_type,
            target,
            value,
        };
        self.reply_by(alloc, scene, &event, out)
    }

    /// Handles a tick of the clock at a TimeSensor and puts the replies into `out`.
    #[tactic(auto, unfolding(crate::specs::Answers::ticked))]
    pub fn tick(&mut self, node: u32, input: &Stamped, out: &mut Outbox)
        requires empty { out.old.items ≡ [] }
        ensures world { self.new ≡ answered self.old (ticked self.old node input.now.time) }
        ensures replies { out.new.items ≡ (ticked self.old node input.now.time).replies }
    {
        let Some(fields) = self.fields.get(node) else {
            return;
        };
        let Some(timing) = TimeFields::from_fields(fields) else {
            return;
        };
        let Some(state) = self.sensors.get(node as usize) else {
            return;
        };
        let mut state = *state;
        state.tick(&timing, input.time(), out);
        self.sensors.set(node as usize, state);
    }

    /// Reports whether the block is remembered as one where a tick does nothing: no node is active,
    /// and none starts at that time.
    pub fn is_idle(&self, block: u32, input: &Stamped) -> bool
        ensures { (node : ℕ) → IsTrue result → node / 32 ≡ block
            → ticked self.now node input.now.time ≡ nothing self.now }
    {
        if !self.sensors.is_resting(block) {
            return false;
        }
        self.fields.is_idle(block, input.time())
    }

    /// Remembers whether a tick does nothing at a block of nodes, and until when.
    pub fn remember_idle(&mut self, block: u32, input: &Stamped)
        ensures { self.new ≡ self.old }
    {
        self.sensors.look_at(block);
        if self.sensors.is_resting(block) {
            self.fields.look_at(block, input.time());
        }
    }
}
