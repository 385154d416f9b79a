//! Boxes that count their calls, in a rehearsal, at a viewer that begins again, and in a run. No
//! contract says how often a box is called, since only its state matters.

ghost use Rattle.std.specs.Prelude.{◌≡◌, ◌∷◌, [], IfOk};
ghost use Rattle.cascade_core.specs.Apply.{opening};
ghost use Rattle.cascade_core.specs.Held.{Running};
ghost use Rattle.share_rehearsal.specs.Loaded.{AreFresh};

mod boxes;

use app_program::{Job, OpenedScene, RunOutput, attach, open_job, open_scene, run};
use boxes::{Calls, Count, Counted, NONE};
use cascade_core::{LoadFault, Stage};
use script_host::Behaviour;
use share_core::Viewer;
use share_law::{Step, Taken};
use share_rehearsal::rehearse;
use share_wire::{Body, Message, encode};
use std::alloc::{AllocError, Global};
use std::process::Abort;
use x3d_values::{Cause, Stamped, is_input_number, is_input_time};

/// A counter that a clock drives every two seconds, from the first second on.
const COUNTED: &str = "#X3D V3.0 utf8
DEF T TimeSensor { cycleInterval 2 loop TRUE startTime 1 } DEF B BooleanTrigger {}
DEF C Script { url \"x3dshare:counter\" inputOnly SFBool tick field SFInt32 start 5
field SFInt32 step 2 outputOnly SFInt32 count }
ROUTE T.cycleTime TO B.set_triggerTime ROUTE B.triggerTrue TO C.tick";

const MARK: [u8; 32] = *b"abcdefghijklmnopqrstuvwxyzABCDEF";

fn one_box<'a>(alloc: Global, script: Counted<'a>) -> Result<Vec<Counted<'a>>, AllocError> {
    Ok(vec![in alloc; script]?)
}

/// Returns the stage of the scene with this box, after input 0.
fn stage_of<'a>(alloc: Global, script: Counted<'a>) -> Result<Stage<Counted<'a>>, LoadFault>
    ensures { IfOk result (λ stage. stage.held ≡ Running (opening stage.scene stage.routes)) }
{
    let boxes = one_box(alloc, script)?;
    let Ok(opened) = open_scene(alloc, COUNTED.as_bytes()) else {
        drop(boxes);
        return Err(LoadFault::Memory);
    };
    let OpenedScene { scene, routes } = opened;
    let Ok(scripts) = attach(alloc, &scene, boxes) else {
        drop(routes);
        drop(scene);
        return Err(LoadFault::Memory);
    };
    Stage::load(alloc, scene, routes, scripts)
}

fn both<'a>(
    alloc: Global,
    first: Stage<Counted<'a>>,
    second: Stage<Counted<'a>>,
) -> Result<Vec<Stage<Counted<'a>>>, AllocError>
    ensures { IfOk result (λ stages. stages.items ≡ first.entry ∷ second.entry ∷ []) }
{
    Ok(vec![in alloc; first, second]?)
}

/// Returns two stages; the second one's box can't be restored.
fn two_stages<'a>(
    alloc: Global,
    first: &'a Count,
    second: &'a Count,
) -> Result<Vec<Stage<Counted<'a>>>, LoadFault>
    ensures { IfOk result (λ stages. AreFresh stages.items) }
{
    let first = stage_of(alloc, Counted::new(false, first))?;
    let Ok(second) = stage_of(alloc, Counted::new(true, second)) else {
        drop(first);
        return Err(LoadFault::Memory);
    };
    Ok(both(alloc, first, second)?)
}

/// Two clocks reach two viewers. Each viewer takes a snapshot between them, goes back to it, and
/// takes the second clock again.
static STEPS: [Step; 14] = [
    Step::HostClock { time: 1_000_000 },
    Step::HostClock { time: 3_000_000 },
    Step::HostPacket { input: 1 },
    Step::HostPacket { input: 2 },
    Step::ViewerTake {
        viewer: 0,
        packet: 0,
    },
    Step::ViewerTake {
        viewer: 1,
        packet: 0,
    },
    Step::ViewerSave { viewer: 0 },
    Step::ViewerSave { viewer: 1 },
    Step::ViewerTake {
        viewer: 0,
        packet: 1,
    },
    Step::ViewerTake {
        viewer: 1,
        packet: 1,
    },
    Step::ViewerRewind {
        viewer: 0,
        snapshot: 0,
        boot: 2,
    },
    Step::ViewerRewind {
        viewer: 1,
        snapshot: 1,
        boot: 2,
    },
    Step::ViewerTake {
        viewer: 0,
        packet: 1,
    },
    Step::ViewerTake {
        viewer: 1,
        packet: 1,
    },
];

const LINES: &str = "1 Numbered 1
2 Numbered 2
3 Packet 0
4 Packet 1
5 Applied 1
6 Applied 1
7 Saved 0
8 Saved 1
9 Applied 1
10 Applied 1
11 Rewound 1
12 Memory
13 Applied 1
14 Spoiled
viewer 0 at 2 boot 2
";

/// The state is read as the box is attached, and as the snapshot is taken.
const FIRST: Calls = Calls {
    initialize: 1,
    receive: 3,
    settle: 3,
    state: 2,
    restore: 1,
    ..NONE
};

/// The rewind is refused, and the viewer applies nothing afterwards.
const SECOND: Calls = Calls {
    receive: 2,
    settle: 2,
    ..FIRST
};

/// Returns the calls of a box up to its end.
fn ended(calls: Calls) -> Calls {
    Calls {
        shutdown: 1,
        dropped: 1,
        ..calls
    }
}

/// Reports whether the steps are answered as expected, by viewers whose boxes were called as often
/// as expected.
fn goes<'a>(alloc: Global, first: &'a Count, second: &'a Count) -> bool {
    let Ok(stages) = two_stages(alloc, first, second) else {
        return false;
    };
    let mut log = Vec::new(alloc);
    let left = rehearse(alloc, stages, MARK, &STEPS, &mut log);
    let answered = log.as_slice().starts_with(LINES.as_bytes());
    let called = first.get() == FIRST && second.get() == SECOND;
    drop(left);
    drop(log);
    answered && called
}

#[test]
fn a_rehearsal_calls_each_box(rt: HostRuntime) {
    let first = Count::new(NONE);
    let second = Count::new(NONE);
    let held = goes(rt.alloc(), &first, &second);
    assert!(rt; held);
    assert!(rt; first.get() == ended(FIRST) && second.get() == ended(SECOND));
}

/// Gives a viewer the clock of this number, at this many seconds. Reports whether it is applied.
fn takes_clock<B: Behaviour>(viewer: &mut Viewer<B>, number: u64, seconds: u32) -> bool {
    let time = i64::from(seconds) * 1_000_000;
    if !is_input_number(number) {
        return false;
    }
    if !is_input_time(time) {
        return false;
    }
    let body = Body::Input(Stamped::new(number, time, Cause::Clock));
    viewer.take(encode(&Message { mark: MARK, body }).as_slice()) == Ok(Taken::Applied(1))
}

/// Reports whether a viewer does what the first viewer of the rehearsal does.
fn begins_again<B: Behaviour>(viewer: &mut Viewer<B>, shot: &mut Vec<u8>) -> bool {
    takes_clock(viewer, 1, 1)
        && viewer.snapshot(shot).is_ok()
        && takes_clock(viewer, 2, 3)
        && viewer.rewind(shot.as_slice(), 2) == Ok(1)
        && takes_clock(viewer, 2, 3)
}

fn is_viewed<'a>(alloc: Global, count: &'a Count) -> bool {
    let Ok(stage) = stage_of(alloc, Counted::new(false, count)) else {
        return false;
    };
    let mut viewer = Viewer::start(stage, MARK, 0, 1);
    let mut shot = Vec::new(alloc);
    let held = begins_again(&mut viewer, &mut shot);
    let called = count.get() == FIRST;
    viewer.close();
    drop(shot);
    held && called
}

#[test]
fn a_viewer_calls_its_box(rt: HostRuntime) {
    let count = Count::new(NONE);
    let held = is_viewed(rt.alloc(), &count);
    assert!(rt; held);
    assert!(rt; count.get() == ended(FIRST));
}

/// Returns the job of both clocks and the scene.
fn job_of(alloc: Global) -> Result<Job, AllocError> {
    let mut bytes = Vec::new(alloc);
    bytes.extend_from_slice(b"clock 1\nclock 3\nscene\n")?;
    bytes.extend_from_slice(COUNTED.as_bytes())?;
    let job = open_job(alloc, bytes.as_slice());
    drop(bytes);
    match job {
        Ok(job) => Ok(job),
        Err(_fault) => Err(AllocError),
    }
}

/// Reports whether a job is run with a box that can't be restored.
fn is_run<'a>(alloc: Global, count: &'a Count) -> Result<bool, AllocError> {
    let boxes = one_box(alloc, Counted::new(true, count))?;
    let Ok(job) = job_of(alloc) else {
        drop(boxes);
        return Err(AllocError);
    };
    let mut out = Vec::new(alloc);
    let answer = run(alloc, RunOutput::TraceAndScene, job, boxes, &mut out);
    drop(out);
    Ok(answer.is_ok())
}

/// The state is read as the box is attached.
const RUN: Calls = Calls {
    initialize: 1,
    receive: 2,
    settle: 2,
    state: 1,
    ..NONE
};

#[test]
fn a_run_calls_each_box(rt: HostRuntime) {
    let count = Count::new(NONE);
    let held = is_run(rt.alloc(), &count);
    assert!(rt; held == Ok(true));
    assert!(rt; count.get() == ended(RUN));
}
