//! Which worlds fit a scene: the world in which nothing has happened fits, and worlds with a change
//! that no snapshot of the scene can have do not.

use super::worlds::untold;
use super::{Row, all_hold};
use app_program::{OpenedScene, open_scene};
use cascade_core::{State, Watched, WorldData};
use scene_core::{End, Scene};
use sensor_core::{TimeState, TouchParts, TouchState};
use sensor_plane::{Drag, ListPath, PlaneParts, PlaneState, PointingSlot, PointingState};
use std::alloc::Global;
use x3d_values::{Items, MAX_INPUTS, Position, Value, Vec3};

/// A node of each kind that keeps more than its fields, and one that declares fields: 0 to 3. Then
/// a PlaneSensor below a Group, 4 and 5, and one next to the Group, 6.
const SCENE: &[u8] = b"#X3D V3.0 utf8
DEF T TimeSensor { cycleInterval 2 } DEF S TouchSensor {} DEF I IntegerSequencer {}
DEF A Script { inputOutput SFFloat level 1 inputOutput MFFloat levels [1] inputOnly SFBool mute }
Group { children [ DEF D PlaneSensor {} ] } DEF E PlaneSensor {}";

/// A value of a field.
#[derive(Clone, Copy)]
enum Held {
    Nothing,
    Truth(bool),
    Number(i64),
    Time(i64),
    /// A list of one number.
    Numbers(i64),
}

/// The pointing state of a node.
#[derive(Clone, Copy)]
enum Kept {
    Nothing,
    /// Of a TouchSensor: a pointer is over it; a viewer presses it.
    Over,
    Pressed,
    /// Of a PlaneSensor: a pointer is over it; a viewer drags it, along this path.
    OverPlane,
    Dragged(&'static [u32]),
}

/// How a world differs from the one in which nothing has happened.
#[derive(Clone, Copy)]
enum Change {
    Nothing,
    /// This many inputs were applied.
    Applied(u64),
    /// The last input was at this time.
    Last(i64),
    /// A node has this value in the field of this name.
    Field(u32, &'static str, Held),
    /// A node has one value fewer than fields, or one more.
    Shorter(u32),
    Longer(u32),
    /// A sequencer, or another node, last sent its value of this number.
    Position(u32, u32),
    /// A node runs a cycle.
    Runs(u32),
    /// A node has this pointing state.
    Pointing(u32, Kept),
    /// The list of fields, of sensors or of pointing states is empty.
    FewerFields,
    FewerSensors,
    FewerPointing,
    /// An event was sent from a node's field of this name, by the input of this number at this
    /// time.
    Sent(u64, i64, u32, &'static str, Held),
}

fn value_of(alloc: Global, held: Held) -> Option<Value> {
    match held {
        Held::Nothing => None,
        Held::Truth(truth) => Some(Value::SFBool(truth)),
        Held::Number(number) => Some(Value::SFFloat(number)),
        Held::Time(time) => Some(Value::SFTime(time)),
        Held::Numbers(number) => match Items::from_slice(alloc, &[number]) {
            Ok(numbers) => Some(Value::MFFloat(numbers)),
            Err(_) => None,
        },
    }
}

/// Returns the state of a scene with a change in the fields of a node.
fn state_with(alloc: Global, scene: &Scene, node: u32, change: Change) -> Option<State> {
    let Ok(mut fields) = scene.state(alloc) else {
        return None;
    };
    let count = scene.field_count(node) as usize;
    let at = node as usize;
    if at >= fields.len() {
        drop(fields);
        return None;
    }
    match change {
        Change::Field(_, name, held) => {
            if let Some(row) = scene.field_named(node, name)
                && (row.number as usize) < fields[at].values.len()
            {
                fields[at]
                    .values
                    .set(row.number as usize, value_of(alloc, held));
            }
        }
        Change::Shorter(_) => {
            let mut values = Items::new(alloc);
            for _ in 1..count {
                let _ = values.push(None);
            }
            fields[at].values = values;
        }
        Change::Longer(_) => {
            let _ = fields[at].values.push(None);
        }
        Change::Position(_, place) => fields[at].position = Position { at: Some(place) },
        _ => {}
    }
    Some(State::from_vec(fields))
}

fn touch_of(over: u64, presser: Option<u8>) -> Option<PointingState> {
    match TouchState::from_parts(TouchParts { over, presser }) {
        Some(touch) => Some(PointingState::Touch(touch)),
        None => None,
    }
}

fn plane_of(over: u64, drag: Option<Drag>) -> Option<PointingState> {
    match PlaneState::from_parts(PlaneParts { over, drag }) {
        Some(plane) => Some(PointingState::Plane(plane)),
        None => None,
    }
}

/// Returns a drag by viewer 63, with the largest coordinates.
fn drag_along(way: &[u32]) -> Option<Drag> {
    let far = Vec3 {
        x: GREATEST,
        y: -GREATEST,
        z: 0,
    };
    Some(Drag {
        presser: 63,
        start: far,
        last: far,
        path: ListPath::from_u32(way)?,
    })
}

fn kept_of(kept: Kept) -> Option<PointingState> {
    match kept {
        Kept::Nothing => Some(PointingState::NoSensor),
        Kept::Over => touch_of(1 << 63, None),
        Kept::Pressed => touch_of(0, Some(63)),
        Kept::OverPlane => plane_of(1 << 63, None),
        Kept::Dragged(way) => plane_of(0, Some(drag_along(way)?)),
    }
}

/// Returns the number of the field of this name, or 0.
fn number_of(scene: &Scene, node: u32, name: &str) -> u16 {
    match scene.field_named(node, name) {
        Some(row) => row.number,
        None => 0,
    }
}

/// Returns the world in which nothing has happened, with a change.
fn world_with(alloc: Global, scene: &Scene, change: Change) -> Option<WorldData> {
    let mut world = untold(alloc, scene)?;
    match change {
        Change::Nothing => {}
        Change::Applied(count) => world.applied = count,
        Change::Last(time) => world.last_time = time,
        Change::Field(node, _, _)
        | Change::Shorter(node)
        | Change::Longer(node)
        | Change::Position(node, _) => {
            if let Some(state) = state_with(alloc, scene, node, change) {
                world.fields = state;
            }
        }
        Change::Runs(node) => {
            if (node as usize) < world.sensors.len() {
                world.sensors.set(node as usize, TimeState::active(0));
            }
        }
        Change::Pointing(node, kept) => {
            if let Some(state) = kept_of(kept)
                && let Ok(slot) = PointingSlot::new(alloc, state)
                && (node as usize) < world.pointing.len()
            {
                world.pointing.set(node as usize, slot);
            }
        }
        Change::FewerFields => world.fields = State::from_vec(Vec::new(alloc)),
        Change::FewerSensors => world.sensors = Watched::from_vec(Vec::new(alloc)),
        Change::FewerPointing => world.pointing = Watched::from_vec(Vec::new(alloc)),
        Change::Sent(input, time, node, name, held) => {
            if let Some(value) = value_of(alloc, held) {
                let field = number_of(scene, node, name);
                let _ = world
                    .trace
                    .push(alloc, input, time, End { node, field }, &value);
                drop(value);
            }
        }
    }
    Some(world)
}

/// A change, and whether the changed world fits.
#[derive(Clone, Copy)]
struct Changed(Change, bool);

impl Row for Changed {
    fn holds(&self, alloc: Global) -> bool {
        let Ok(opened) = open_scene(alloc, SCENE) else {
            return false;
        };
        let OpenedScene { scene, routes } = opened;
        drop(routes);
        let Some(world) = world_with(alloc, &scene, self.0) else {
            drop(scene);
            return false;
        };
        let fits = world.fits_scene(&scene);
        drop(world);
        drop(scene);
        fits == self.1
    }
}

const LATEST: i64 = 1_000_000_000_000_000_000;

const GREATEST: i64 = 1_000_000_000_000_000;

const ROWS: [Changed; 60] = [
    Changed(Change::Nothing, true),
    // Counts and times.
    Changed(Change::Applied(MAX_INPUTS), true),
    Changed(Change::Applied(MAX_INPUTS + 1), false),
    Changed(Change::Last(LATEST), true),
    Changed(Change::Last(LATEST + 1), false),
    Changed(Change::Last(-1), false),
    // Fields: a value of the field's type, in its range, if the field is inputOutput.
    Changed(Change::Field(3, "level", Held::Number(GREATEST)), true),
    Changed(Change::Field(3, "level", Held::Number(-GREATEST)), true),
    Changed(Change::Field(3, "level", Held::Number(GREATEST + 1)), false),
    Changed(
        Change::Field(3, "level", Held::Number(-GREATEST - 1)),
        false,
    ),
    Changed(Change::Field(3, "level", Held::Time(1)), false),
    Changed(Change::Field(3, "level", Held::Nothing), false),
    Changed(Change::Field(3, "levels", Held::Numbers(GREATEST)), true),
    Changed(
        Change::Field(3, "levels", Held::Numbers(GREATEST + 1)),
        false,
    ),
    Changed(Change::Field(3, "mute", Held::Truth(true)), false),
    Changed(Change::Field(0, "cycleInterval", Held::Time(1)), true),
    Changed(Change::Field(0, "cycleInterval", Held::Time(0)), false),
    Changed(Change::Field(0, "startTime", Held::Time(-LATEST)), true),
    Changed(
        Change::Field(0, "startTime", Held::Time(-LATEST - 1)),
        false,
    ),
    Changed(Change::Field(0, "isActive", Held::Truth(false)), false),
    Changed(Change::Shorter(1), false),
    Changed(Change::Longer(1), false),
    // The position of a sequencer, and the cycle of a TimeSensor.
    Changed(Change::Position(2, 4_294_967_294), true),
    Changed(Change::Position(2, 4_294_967_295), false),
    Changed(Change::Position(0, 0), false),
    Changed(Change::Runs(0), true),
    Changed(Change::Runs(1), false),
    // Pointing states: what a node of its type may keep.
    Changed(Change::Pointing(0, Kept::Nothing), true),
    Changed(Change::Pointing(0, Kept::Over), false),
    Changed(Change::Pointing(1, Kept::Over), true),
    Changed(Change::Pointing(1, Kept::Pressed), true),
    Changed(Change::Pointing(1, Kept::Nothing), false),
    Changed(Change::Pointing(1, Kept::OverPlane), false),
    Changed(Change::Pointing(3, Kept::Pressed), false),
    Changed(Change::Pointing(4, Kept::OverPlane), true),
    Changed(Change::Pointing(4, Kept::Nothing), false),
    Changed(Change::Pointing(4, Kept::Pressed), false),
    Changed(Change::Pointing(5, Kept::OverPlane), false),
    // The path of a drag leads to a list that holds the sensor.
    Changed(Change::Pointing(4, Kept::Dragged(&[4])), true),
    Changed(Change::Pointing(4, Kept::Dragged(&[])), false),
    Changed(Change::Pointing(4, Kept::Dragged(&[3])), false),
    Changed(Change::Pointing(4, Kept::Dragged(&[6])), false),
    Changed(Change::Pointing(4, Kept::Dragged(&[4, 0])), false),
    Changed(Change::Pointing(6, Kept::Dragged(&[])), true),
    Changed(Change::Pointing(6, Kept::Dragged(&[4])), false),
    // Each list is as long as the scene.
    Changed(Change::FewerFields, false),
    Changed(Change::FewerSensors, false),
    Changed(Change::FewerPointing, false),
    // The trace: events that an output can have sent.
    Changed(Change::Sent(1, 1, 0, "isActive", Held::Truth(true)), true),
    Changed(Change::Sent(0, 0, 3, "levels", Held::Numbers(7)), true),
    Changed(
        Change::Sent(MAX_INPUTS + 1, 1, 0, "isActive", Held::Truth(true)),
        false,
    ),
    Changed(Change::Sent(1, -1, 0, "isActive", Held::Truth(true)), false),
    Changed(
        Change::Sent(1, LATEST + 1, 0, "isActive", Held::Truth(true)),
        false,
    ),
    Changed(Change::Sent(1, 1, 0, "isActive", Held::Number(1)), false),
    Changed(
        Change::Sent(1, 1, 3, "level", Held::Number(GREATEST + 1)),
        false,
    ),
    Changed(
        Change::Sent(1, 1, 3, "levels", Held::Numbers(GREATEST + 1)),
        false,
    ),
    Changed(Change::Sent(1, 1, 3, "mute", Held::Truth(true)), false),
    Changed(Change::Sent(1, 1, 4, "isActive", Held::Truth(true)), true),
    Changed(Change::Sent(1, 1, 4, "offset", Held::Number(1)), false),
    Changed(Change::Sent(1, 1, 7, "isActive", Held::Truth(true)), false),
];

#[test]
fn worlds_fit_or_not(rt: HostRuntime) {
    all_hold(&rt, rt.alloc(), &ROWS);
}
