//! Jobs of a host and two viewers, and what `run` prints for them.

use app_program::{RunOutput, run_job};
use app_words::Order;
use std::alloc::{AllocError, Global};
use x3d_values::{Point, Vec3};

/// `agree --viewers 2`.
pub(super) const ORDER: Order = Order::Agree {
    viewers: 2,
    turns: 1_000_000,
};

/// A job of a scene: its steps in the order in which they are numbered, and the steps of the host
/// and of each of two viewers, by address.
pub(super) struct Job {
    pub(super) scene: &'static str,
    pub(super) steps: &'static str,
    pub(super) parts: [&'static str; 3],
    /// The host's clocks, in microseconds.
    pub(super) clocks: &'static [i64],
    pub(super) points: [&'static [Point]; 2],
    pub(super) inputs: u64,
}

/// A clock that ticks every two seconds, and a switch that it toggles.
const CLOCKS: &str = "scene
#X3D V3.0 utf8
DEF T TimeSensor { cycleInterval 2 loop TRUE startTime 1 } DEF B BooleanTrigger {}
DEF G BooleanToggle {} ROUTE T.cycleTime TO B.set_triggerTime
ROUTE B.triggerTrue TO G.set_boolean";

/// A box with a sensor.
const BOX: &str = "scene
#X3D V3.0 utf8
Transform { translation 10 0 0 scale 2 2 2
children [ DEF S TouchSensor {} Shape { geometry Box {} } ] }";

/// `two-clocks`
pub(super) const TWO_CLOCKS: Job = Job {
    scene: CLOCKS,
    steps: "clock 1\nclock 2\n",
    parts: ["clock 1\nclock 2\n", "", ""],
    clocks: &[1_000_000, 2_000_000],
    points: [&[], &[]],
    inputs: 2,
};

const TEN: &str = "clock 1
clock 2
clock 3
clock 4
clock 5
clock 6
clock 7
clock 8
clock 9
clock 10
";

pub(super) const TEN_CLOCKS: Job = Job {
    scene: CLOCKS,
    steps: TEN,
    parts: [TEN, "", ""],
    clocks: &[
        1_000_000, 2_000_000, 3_000_000, 4_000_000, 5_000_000, 6_000_000, 7_000_000, 8_000_000,
        9_000_000, 10_000_000,
    ],
    points: [&[], &[]],
    inputs: 10,
};

const ORIGIN: Vec3 = Vec3 {
    x: 10_000_000,
    y: 0,
    z: 20_000_000,
};

const TOWARDS: Vec3 = Vec3 {
    x: 0,
    y: 0,
    z: -1_000_000,
};

const AWAY: Vec3 = Vec3 {
    x: 0,
    y: 0,
    z: 1_000_000,
};

/// At the box, pressed at the box, and away from it.
const POINTS: [Point; 3] = [
    Point {
        down: false,
        origin: ORIGIN,
        dir: TOWARDS,
    },
    Point {
        down: true,
        origin: ORIGIN,
        dir: TOWARDS,
    },
    Point {
        down: false,
        origin: ORIGIN,
        dir: AWAY,
    },
];

/// These points as steps of viewer 0.
const POINTED: &str = "point 0 0 10 0 20 0 0 -1
point 0 1 10 0 20 0 0 -1
point 0 0 10 0 20 0 0 1
";

pub(super) const ONE_POINTER: Job = Job {
    scene: BOX,
    steps: POINTED,
    parts: ["", POINTED, ""],
    clocks: &[],
    points: [&POINTS, &[]],
    inputs: 3,
};

/// `two-pointers`
pub(super) const TWO_POINTERS: Job = Job {
    scene: BOX,
    steps: "point 0 0 10 0 20 0 0 -1
point 1 0 10 0 20 0 0 -1
point 0 1 10 0 20 0 0 -1
point 1 1 10 0 20 0 0 -1
point 0 0 10 0 20 0 0 1
point 1 0 10 0 20 0 0 1
",
    parts: [
        "",
        POINTED,
        "point 1 0 10 0 20 0 0 -1
point 1 1 10 0 20 0 0 -1
point 1 0 10 0 20 0 0 1
",
    ],
    clocks: &[],
    points: [&POINTS, &POINTS],
    inputs: 6,
};

/// Returns steps, followed by a line `scene` and a scene.
pub(super) fn joined(alloc: Global, steps: &str, scene: &str) -> Result<Vec<u8>, AllocError> {
    let mut bytes = Vec::new(alloc);
    bytes.extend_from_slice(steps.as_bytes())?;
    bytes.extend_from_slice(scene.as_bytes())?;
    Ok(bytes)
}

/// Returns a line, and what `run` prints for a job's bytes unless it refuses them.
pub(super) fn run_of(alloc: Global, line: &str, job: &[u8]) -> Result<Vec<u8>, AllocError> {
    let mut reader = job;
    let mut out = Vec::new(alloc);
    out.extend_from_slice(line.as_bytes())?;
    let Ok(()) = run_job(alloc, RunOutput::TraceAndScene, &mut reader, &mut out) else {
        return Err(AllocError);
    };
    Ok(out)
}
