//! Whether a snapshot of a scene can be of a world.

ghost use Rattle.std.specs.Prelude.{◌≡◌, ◌^◌, ◌==◌, ◌&&◌, false, length, nat_le, option_map, slice_get};
ghost use Rattle.std.specs.List.{list_all};
ghost use Rattle.std.specs.Option.{option_and_then, option_map_or};
ghost use Rattle.x3d_values.specs.Ranges.{max_inputs};
ghost use Rattle.x3d_values.specs.declared.ranges.TheConstants.{MAX_VIEWERS};
ghost use Rattle.snapshot_codec.specs.Fields.{kept_field, kept_fits};
ghost use Rattle.snapshot_codec.specs.Trace.{is_moment};
ghost use Rattle.scene_core.specs.Scene.{rows_at, shapes_of};
ghost use Rattle.scene_core.specs.Shape.{row_entry};
ghost use Rattle.sensor_plane.specs.Pointing.{pointing_fits};
ghost use Rattle.cascade_world.specs.Fits.{all_lead, drag_leads, leads, line_fits, node_fits, nodes_fit, output_type, position_fits, sent_type, time_fits, values_fit};

use crate::world::{VIEWERS, WorldData};
use cascade_trace::{LineHead, TestsLines};
use pick_core::leads_to;
use scene_core::{NodeField, Scene};
use sensor_core::TimeState;
use sensor_plane::{Drag, PointingSlot, PointingState};
use snapshot_codec::{is_moment, kept_field, kept_fits, place_fits, typed_fits};
use x3d_values::{FieldType, Fields, MAX_INPUTS, NodeType, Position, Value};

/// Reports whether a node may keep this value in its field of that number.
fn field_fits(
    scene: &Scene,
    node: u32,
    node_type: NodeType,
    number: u16,
    value: &Option<Value>,
) -> bool
    ensures { result
        ≡ option_map_or
        (λ row. kept_fits (kept_field node_type number row.access row.field_type) value.now)
        (slice_get (rows_at scene.now node) number) false }
{
    match scene.row(node, number) {
        Some(row) => kept_fits(
            kept_field(node_type, number, row.access, row.field_type),
            value,
        ),
        None => false,
    }
}

/// Reports whether there are `count` values.
fn are_many(values: &[Option<Value>], count: u32) -> bool
    ensures { result ≡ (length values.now == count) }
{
    values.len() == count as usize
}

/// Reports whether a node may keep these values in its fields.
fn values_fit(scene: &Scene, node: u32, node_type: NodeType, values: &[Option<Value>]) -> bool
    ensures { result ≡ values_fit node_type 0 (rows_at scene.now node) values.now }
{
    let count = scene.field_count(node);
    if !are_many(values, count) {
        return false;
    }
    for number in 0..count {
        let value = &values[number as usize];
        if !field_fits(scene, node, node_type, number as u16, value) {
            return false;
        }
    }
    true
}

/// Reports whether a node of this type may have sent the value at this position last.
fn position_fits(node_type: NodeType, position: Position) -> bool
    ensures { result ≡ position_fits node_type position }
{
    match node_type {
        NodeType::BooleanSequencer => place_fits(position.at),
        NodeType::IntegerSequencer => place_fits(position.at),
        _ => position.at.is_none(),
    }
}

/// Reports whether a node of this type may run this cycle, or no cycle.
fn time_fits(node_type: NodeType, time: TimeState) -> bool
    ensures { result ≡ time_fits node_type time }
{
    let cycle = time.cycle();
    match node_type {
        NodeType::TimeSensor => true,
        _ => cycle.is_none(),
    }
}

/// Reports whether a node may keep these fields.
fn fields_fit(scene: &Scene, node: u32, node_type: NodeType, fields: &Fields) -> bool
    ensures { result
        ≡ (values_fit node_type 0 (rows_at scene.now node) fields.now.values
        && position_fits node_type fields.now.position) }
{
    values_fit(scene, node, node_type, fields.values.as_slice())
        && position_fits(node_type, fields.position)
}

/// Reports whether a node of this type may keep this state outside its fields.
fn beside_fits(node_type: NodeType, time: TimeState, slot: &PointingSlot) -> bool
    ensures { result ≡ (time_fits node_type time && pointing_fits node_type slot.now) }
{
    time_fits(node_type, time) && slot.fits(node_type)
}

/// Reports whether the node of that number and type may keep this state.
fn typed_node_fits(
    scene: &Scene,
    node: u32,
    node_type: NodeType,
    fields: &Fields,
    time: TimeState,
    slot: &PointingSlot,
) -> bool
    ensures { result
        ≡ ((values_fit node_type 0 (rows_at scene.now node) fields.now.values
        && position_fits node_type fields.now.position)
        && (time_fits node_type time && pointing_fits node_type slot.now)) }
{
    fields_fit(scene, node, node_type, fields) && beside_fits(node_type, time, slot)
}

/// Reports whether the node of that number may keep this state.
fn node_fits(
    scene: &Scene,
    node: u32,
    fields: &Fields,
    time: TimeState,
    slot: &PointingSlot,
) -> bool
    ensures { result
        ≡ option_map_or (λ shape. node_fits shape fields.now time slot.now)
        (slice_get (shapes_of scene.now) node) false }
{
    match scene.type_at(node) {
        Some(node_type) => typed_node_fits(scene, node, node_type, fields, time, slot),
        None => false,
    }
}

/// Reports whether a world has the state of exactly `count` nodes.
fn has_nodes(world: &WorldData, count: usize) -> bool
    ensures { result
        ≡ ((length world.now.fields == count)
        && ((length world.now.sensors == count) && (length world.now.pointing == count))) }
{
    world.fields.as_slice().len() == count
        && world.sensors.len() == count
        && world.pointing.len() == count
}

/// Reports whether the `count` nodes of a scene may keep their state in a world.
fn nodes_fit(scene: &Scene, count: u32, world: &WorldData) -> bool
    requires { count ≡ length scene.now.nodes }
    ensures { result
        ≡ nodes_fit (shapes_of scene.now) world.now.fields world.now.sensors world.now.pointing }
{
    if !has_nodes(world, count as usize) {
        return false;
    }
    let fields = world.fields.as_slice();
    let sensors = world.sensors.as_slice();
    let pointing = world.pointing.as_slice();
    for node in 0..count {
        let at = node as usize;
        if !node_fits(scene, node, &fields[at], sensors[at], &pointing[at]) {
            return false;
        }
    }
    true
}

/// Reports whether the path kept for a drag leads to a list that holds the sensor.
fn drag_leads(scene: &Scene, node: u32, drag: Option<Drag>) -> bool
    ensures { result ≡ drag_leads scene.now node drag }
{
    let Some(drag) = drag else {
        return true;
    };
    leads_to(scene, drag.path.as_slice(), node)
}

fn leads(scene: &Scene, node: u32, state: &PointingState) -> bool
    ensures { result ≡ leads scene.now node state.now }
{
    match state {
        PointingState::Plane(plane) => drag_leads(scene, node, plane.drag()),
        PointingState::Touch(_) => true,
        PointingState::NoSensor => true,
    }
}

/// Reports whether the drags at the `count` nodes of a scene lead to their sensors.
pub fn all_lead(scene: &Scene, count: u32, pointing: &[PointingSlot]) -> bool
    requires { length pointing.now ≡ count }
    ensures { result ≡ all_lead scene.now 0 pointing.now }
{
    for node in 0..count {
        if !leads(scene, node, &pointing[node as usize].state()) {
            return false;
        }
    }
    true
}

/// Returns the type of the events that a field sends, if it sends any.
fn sent_type(row: NodeField<'_>) -> Option<FieldType>
    ensures { result ≡ sent_type (row_entry row.entry) }
{
    if row.access.sends() {
        Some(row.field_type)
    } else {
        None
    }
}

/// Returns the type of the events that a node sends by its field of that number, or `None` if it
/// sends none.
pub fn output_type(scene: &Scene, node: u32, field: u16) -> Option<FieldType>
    ensures { result ≡ output_type (shapes_of scene.now) node field }
{
    let row = scene.row(node, field)?;
    sent_type(row)
}

/// The events that a scene can have sent.
#[derive(Clone, Copy)]
struct SceneLines<'a> {
    scene: &'a Scene,
}

impl<'a> TestsLines for SceneLines<'a> {
    ghost use Rattle.scene_core.specs.Scene.{shapes_of};
    ghost use Rattle.cascade_world.specs.Fits.{line_fits};

    ghost passing = { λ lines. line_fits (shapes_of lines.scene.now) };

    fn passes(&self, head: LineHead, value: &Value) -> bool {
        if head.input > MAX_INPUTS || !is_moment(head.time) {
            return false;
        }
        let source = head.source;
        typed_fits(output_type(self.scene, source.node, source.field), value)
    }
}

/// Reports whether a world may have advanced this far, with a button for each viewer.
fn progress_fits(world: &WorldData) -> bool
    ensures counts { result
        ≡ (nat_le world.now.applied max_inputs && is_moment world.now.last_time) }
    ensures buttons { length world.now.buttons ≡ MAX_VIEWERS }
{
    let _buttons = world.buttons;
    world.applied <= MAX_INPUTS && is_moment(world.last_time)
}

impl WorldData {
    ghost use Rattle.std.specs.Prelude.{◌≡◌, ◌↔◌, IsTrue, length};
    ghost use Rattle.cascade_world.specs.Fits.{FitsScene};

    /// Reports whether a snapshot of the scene can be of this world. There is state for each node,
    /// each value is one of its field and in the range of the field's type, only TimeSensors run
    /// cycles, pointers are only over pointing sensors, drags lead to their sensors, and each event
    /// of the trace can have been sent by its output. The check takes no memory, and time in
    /// proportion to the scene and the world. No world fits a scene of 2^32 nodes or more.
    pub fn fits_scene(&self, scene: &Scene) -> bool
        ensures { IsTrue result ↔ FitsScene scene.now self.now }
    {
        match scene.count() {
            Ok(count) => self.fits_nodes(scene, count),
            Err(_) => false,
        }
    }

    /// Does the same for a scene of `count` nodes.
    fn fits_nodes(&self, scene: &Scene, count: u32) -> bool
        requires { count ≡ length scene.now.nodes }
        ensures { IsTrue result ↔ FitsScene scene.now self.now }
    {
        if !progress_fits(self) {
            return false;
        }
        if !nodes_fit(scene, count, self) {
            return false;
        }
        if !all_lead(scene, count, self.pointing.as_slice()) {
            return false;
        }
        let lines = SceneLines { scene };
        self.trace.all_pass(&lines)
    }
}
