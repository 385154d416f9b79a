//! What a pointing sensor does at an event, and when a viewer points.

ghost use Rattle.std.specs.Prelude.{◌≡◌, ◌+◌, ◌/◌, ◌<◌, ◌≤◌, ℕ, true, false, [], ◌++◌, IsTrue, OnOk, Some, is_none, length, not, option_copied, slice_get, slice_set};
ghost use Rattle.std.specs.Option.{option_and_then, option_map_or};
ghost use Rattle.std.specs.List.{list_any};
ghost use Rattle.arrayvec.specs.ArrayVec.{array_vec_len};
ghost use Rattle.scene_core.specs.Places.{is_pointing};
ghost use Rattle.scene_core.specs.Scene.{SceneView, type_at};
ghost use Rattle.sensor_plane.specs.declared.pointing.PointingState.{PointingState as StateView};
ghost use Rattle.sensor_plane.specs.Pointing.{drag_by, is_no_sensor, is_state_of};
ghost use Rattle.cascade_world.specs.Near.{is_near};
ghost use Rattle.cascade_world.specs.Answers.{answered, enabled_field, forgets, forgotten_by, is_met, met, nothing, pointer_at, touching, turns_off};
ghost use Rattle.cascade_world.specs.Insides.{inside_at, seen};
ghost use Rattle.cascade_world.specs.Pointer.{is_pressed, tracked_at, tracked_by};

use crate::aim::{AimedAt, Concerned, Inside, inside_at};
use crate::event::NodeEvent;
use crate::watched::{BLOCK, Watched};
use crate::world::WorldData;
use pick_core::{is_enabled, track_point};
use react_core::Outbox;
use scene_core::Scene;
use sensor_core::TOUCH_ENABLED;
use sensor_plane::{Drag, PLANE_ENABLED, PointingSlot, PointingState};
use std::alloc::{AllocError, Global};
use x3d_values::{Fields, NodeType, Pointer, Ray, Value, Vec3};

/// Returns the number of the field `enabled` of a pointing sensor.
fn enabled_field(node_type: NodeType) -> u16
    ensures { result ≡ enabled_field node_type }
{
    match node_type {
        NodeType::PlaneSensor => PLANE_ENABLED,
        _ => TOUCH_ENABLED,
    }
}

/// Reports whether an event turns a pointing sensor of this type off.
fn turns_off(node_type: NodeType, field: u16, value: &Value) -> bool
    ensures { result ≡ turns_off node_type field value.now }
{
    match value {
        Value::SFBool(on) => field == enabled_field(node_type) && !*on,
        _ => false,
    }
}

/// Reports whether a pointer isn't inside a sensor.
fn is_outside(aim: &AimedAt, sensor: u32) -> bool
    ensures { result ≡ is_none (inside_at aim.now.inside.sensors.items sensor) }
{
    inside_at(aim.inside.sensors.as_slice(), sensor).is_none()
}

/// Reports whether a pointer is inside a sensor of a block.
fn is_near(inside: &[Inside], block: u32) -> bool
    ensures { result ≡ list_any (is_near block) inside.now }
{
    inside.iter().any(|i| i.sensor / BLOCK == block)
}

/// Reports whether a pointer is inside no sensor of a block.
fn is_beside(aim: &AimedAt, block: u32) -> bool
    ensures { result ≡ not (list_any (is_near block) aim.now.inside.sensors.items) }
{
    !is_near(aim.inside.sensors.as_slice(), block)
}

/// Returns where a ray meets the plane of a drag, if there is a drag and the ray meets its plane.
fn tracked_by(scene: &Scene, fields: &[Fields], ray: Ray, drag: Option<Drag>) -> Option<Vec3>
    ensures { result ≡ tracked_by scene.now fields.now ray drag }
{
    let Some(drag) = drag else {
        return None;
    };
    track_point(scene, fields, drag.path.as_slice(), drag.start, ray)
}

/// Reports whether this is the state of a node of that node's type.
fn is_suited(scene: &Scene, node: u32, state: &PointingState) -> bool
    ensures { result
        ≡ option_map_or (λ kind. is_state_of kind state.now) (type_at scene.now node) false }
{
    match scene.type_at(node) {
        Some(node_type) => state.is_of(node_type),
        None => false,
    }
}

/// Keeps this state for the node of that number from now on. The state of a sensor is kept only if
/// the node has one.
fn keep(pointing: &mut Watched<PointingSlot>, node: usize, state: PointingState)
    requires place { node < length pointing.old }
    requires sensor { (kept : StateView) → slice_get pointing.old node ≡ Some kept
        → IsTrue (is_no_sensor kept) → IsTrue (is_no_sensor state) }
    ensures { pointing.new ≡ slice_set pointing.old node state }
{
    let mut slot = pointing.replace(node, PointingSlot::empty());
    slot.keep(state);
    pointing.set(node, slot);
}

impl WorldData {
    /// Lets a pointing sensor of this type forget its pointers.
    fn forget(&mut self, node_type: NodeType, node: u32, out: &mut Outbox)
        requires room { array_vec_len out.old + 2 ≤ 5 }
        ensures world { self.new ≡ record self.old {
          pointing = forgets self.old node node_type (slice_get self.old.pointing node);
        } }
        ensures replies { out.new.items
            ≡ out.old.items ++ forgotten_by node_type (slice_get self.old.pointing node) }
    {
        let Some(slot) = self.pointing.get(node as usize) else {
            return;
        };
        if !slot.is_of(node_type) {
            return;
        }
        let mut state = slot.state();
        state.forget(out);
        keep(&mut self.pointing, node as usize, state);
    }

    /// Handles an event at a pointing sensor.
    pub(crate) fn touch(
        &mut self,
        alloc: Global,
        event: &NodeEvent<'_>,
        out: &mut Outbox,
    ) -> Result<(), AllocError>
        requires sensor { is_pointing event.now.node_type ≡ true }
        requires empty { out.old.items ≡ [] }
        ensures world { OnOk result
            (self.new
            ≡ answered self.old
            (touching self.old event.now.target event.now.value.now event.now.node_type
            (slice_get self.old.fields event.now.target.node))) }
        ensures replies { OnOk result
            (out.new.items
            ≡ (touching self.old event.now.target event.now.value.now event.now.node_type
            (slice_get self.old.fields event.now.target.node)).replies) }
    {
        self.fields.react(alloc, event, self.last_time, out)?;
        if turns_off(event.node_type, event.target.field, event.value) {
            self.forget(event.node_type, event.target.node, out);
        }
        Ok(())
    }

    /// Handles a pointer at a pointing sensor and puts the replies into `out`. A sensor that isn't
    /// enabled is skipped.
    #[tactic(auto, unfolding(crate::specs::Answers::met))]
    pub fn meet(&mut self, scene: &Scene, concerned: Concerned, aim: &AimedAt, out: &mut Outbox)
        requires empty { out.old.items ≡ [] }
        ensures world { self.new
            ≡ answered self.old
            (met scene.now self.old concerned.sensor
            (pointer_at aim.now.pointer aim.now.before (seen aim.now.inside) concerned.tracked
            concerned.sensor)) }
        ensures replies { out.new.items
            ≡ (met scene.now self.old concerned.sensor
            (pointer_at aim.now.pointer aim.now.before (seen aim.now.inside) concerned.tracked
            concerned.sensor)).replies }
    {
        let node = concerned.sensor;
        let Some(slot) = self.pointing.get(node as usize) else {
            return;
        };
        let mut state = slot.state();
        if !self.is_met(scene, node, &state) {
            return;
        }
        let pointer = aim.at(concerned);
        self.fields
            .point(node, &mut state, &pointer, self.last_time, out);
        keep(&mut self.pointing, node as usize, state);
    }

    /// Reports whether a sensor with this state is enabled and of the state's type.
    fn is_met(&self, scene: &Scene, node: u32, state: &PointingState) -> bool
        ensures { result ≡ is_met scene.now self.now node state.now }
    {
        is_enabled(scene, self.fields.as_slice(), node) && is_suited(scene, node, state)
    }

    /// Reports whether a pointer does nothing at a pointing sensor: it isn't inside the sensor, and
    /// no pointer is over the sensor or presses it.
    pub fn passes(&self, concerned: Concerned, aim: &AimedAt) -> bool
        ensures { (scene : SceneView) → IsTrue result
            → met scene self.now concerned.sensor
            (pointer_at aim.now.pointer aim.now.before (seen aim.now.inside) concerned.tracked
            concerned.sensor)
            ≡ nothing self.now }
    {
        match self.pointing.get(concerned.sensor as usize) {
            Some(slot) => slot.is_resting() && is_outside(aim, concerned.sensor),
            None => false,
        }
    }

    /// Reports whether it is known that a pointer does nothing at any pointing sensor of a block of
    /// nodes.
    pub fn passes_block(&self, block: u32, aim: &AimedAt) -> bool
        ensures { (scene : SceneView) (sensor : ℕ) → IsTrue result → sensor / 32 ≡ block
            → met scene self.now sensor
            (pointer_at aim.now.pointer aim.now.before (seen aim.now.inside) None sensor)
            ≡ nothing self.now }
    {
        if !self.pointing.is_resting(block) {
            return false;
        }
        is_beside(aim, block)
    }

    /// Reports whether it is remembered that no viewer presses any pointing sensor of a block of
    /// nodes.
    pub fn is_untouched(&self, block: u32) -> bool
        ensures { (who : ℕ) (sensor : ℕ) → IsTrue result → sensor / 32 ≡ block
            → is_pressed self.now who sensor ≡ false }
    {
        self.pointing.is_resting(block)
    }

    /// Remembers whether no pointer is over any pointing sensor of a block of nodes and no viewer
    /// presses one.
    pub fn remember_pointing(&mut self, block: u32)
        ensures { self.new ≡ self.old }
    {
        self.pointing.look_at(block);
    }

    /// Reports whether a viewer presses the sensor of that number.
    pub fn is_pressed(&self, who: u8, sensor: u32) -> bool
        ensures { result ≡ is_pressed self.now who sensor }
    {
        match self.pointing.get(sensor as usize) {
            Some(slot) => slot.is_pressed_by(who),
            None => false,
        }
    }

    /// Returns the drag of a viewer at the sensor of that number, if there is one.
    fn drag_at(&self, who: u8, sensor: u32) -> Option<Drag>
        ensures { result
            ≡ option_and_then (λ state. drag_by state who) (slice_get self.now.pointing sensor) }
    {
        let Some(slot) = self.pointing.get(sensor as usize) else {
            return None;
        };
        slot.drag_by(who)
    }

    /// Returns where a viewer's ray meets the plane in which the viewer drags the sensor of that
    /// number, in the sensor's coordinates in millionths. Returns `None` if the viewer doesn't drag
    /// it or the ray doesn't meet the plane.
    #[tactic(auto, unfolding(crate::specs::Pointer::tracked_at))]
    pub fn tracked_at(&self, scene: &Scene, pointer: Pointer, sensor: u32) -> Option<Vec3>
        ensures { result ≡ tracked_at scene.now self.now pointer sensor }
    {
        let drag = self.drag_at(pointer.who(), sensor);
        tracked_by(scene, self.fields.as_slice(), pointer.ray(), drag)
    }
}
