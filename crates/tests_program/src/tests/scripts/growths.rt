//! Memory that is refused, until there is enough, to a stage with scripts and to the functions that
//! make its boxes. Each box is shut down and dropped once.

use super::attaching::specs_of_kinds;
use super::holds;
use super::hosting::states_of;
use super::probe::{Log, Made, Probe, boxes_made};
use super::worlds::{COUNTERS, clock, stage_of, untold};
use app_program::{OpenedScene, attach, open_scene};
use cascade_core::{ApplyFault, LoadFault, PlaceFault, Stage, StatesFault, TextFault};
use script_boxes::boxes_of;
use script_host::{Behaviour, StateFault};
use script_running::script_list;
use snapshot_core::{SaveFault, SnapFault, load_into, save};
use std::alloc::Global;
use std::process::Abort;
use tests_memory::{Outcome, Spared, UsedUp, is_refused_until_enough};
use x3d_values::ScriptSpec;

const MARK: [u8; 32] = [7; 32];

const TWO: [Made; 2] = [Made::Counter(5), Made::Counter(5)];

/// Loads a stage with scripts, and drops it.
struct Loading;

/// Loads a stage of a scene with boxes that were made for it.
fn load(alloc: Global, boxes: Vec<Probe<'_>>, memory: &mut UsedUp) -> Outcome {
    let Ok(opened) = open_scene(alloc, COUNTERS.as_bytes()) else {
        drop(boxes);
        return Outcome::Wrong;
    };
    let OpenedScene { scene, routes } = opened;
    let Ok(scripts) = attach(alloc, &scene, boxes) else {
        drop(routes);
        drop(scene);
        return Outcome::Wrong;
    };
    memory.run_short();
    let fault = Stage::load(alloc, scene, routes, scripts).err();
    memory.come_back();
    Outcome::of(fault.is_none(), fault == Some(LoadFault::Memory))
}

/// Initialized boxes are shut down, and all boxes are dropped, once.
impl Spared<()> for Loading {
    fn work(&self, alloc: Global, _subject: &mut (), memory: &mut UsedUp) -> Outcome {
        let log = Log::new();
        let outcome = match boxes_made(alloc, &TWO, &log) {
            Ok(boxes) => load(alloc, boxes, memory),
            Err(_) => Outcome::Wrong,
        };
        let told = match outcome {
            Outcome::Done => log.get() == 12_45_78,
            _ => [78, 1_4_78, 12_45_78].contains(&log.get()),
        };
        outcome.where_so(told)
    }
}

#[test]
fn loading_is_refused_until_there_is_enough(rt: HostRuntime) {
    holds(
        &rt,
        is_refused_until_enough(rt.alloc(), &Loading, &mut (), 20),
    );
}

/// Reports whether a stage says that memory was refused earlier, with `applied` inputs applied.
fn is_spoiled<B: Behaviour>(alloc: Global, stage: &mut Stage<B>, applied: u64) -> bool {
    let mut out = Vec::new(alloc);
    let mut states = Vec::new(alloc);
    let texts = stage.scene_text(&mut out) == Err(TextFault::Spoiled)
        && stage.trace_text(&mut out) == Err(TextFault::Spoiled)
        && save(stage, &MARK, 1, &mut out) == Err(SaveFault::Spoiled)
        && stage.script_states(&mut states) == Err(StatesFault::Spoiled);
    let same = out.is_empty() && states.is_empty();
    drop(states);
    drop(out);
    texts && same && stage.spoiled() && stage.applied() == applied && stage.world().is_none()
}

/// The calls of a stage that take memory.
#[derive(Clone, Copy)]
enum Call {
    Apply,
    States,
    Replace,
    Restore,
    Install,
}

/// Applies an input. The stage is spoiled if memory is refused.
fn apply<B: Behaviour>(alloc: Global, stage: &mut Stage<B>, memory: &mut UsedUp) -> Outcome {
    let Some(input) = clock(1, 1) else {
        return Outcome::Wrong;
    };
    memory.run_short();
    let fault = stage.apply(&input).err();
    memory.come_back();
    let refused = fault == Some(ApplyFault::Memory);
    Outcome::of(fault.is_none(), refused && is_spoiled(alloc, stage, 0))
}

fn tell<B: Behaviour>(alloc: Global, stage: &Stage<B>, memory: &mut UsedUp) -> Outcome {
    let mut states = Vec::new(alloc);
    memory.run_short();
    let answer = stage.script_states(&mut states);
    memory.come_back();
    let told = states.len();
    drop(states);
    let refused = answer == Err(StatesFault::Memory) && told == 0;
    Outcome::of(answer == Ok(()) && told == 2, refused)
}

fn replace<'a>(stage: &mut Stage<Probe<'a>>, log: &'a Log, memory: &mut UsedUp) -> Outcome {
    let fresh = Probe::new(3, Made::Counter(0), log);
    memory.run_short();
    let answer = stage.replace_script(1, fresh);
    memory.come_back();
    let refused = answer == Err(PlaceFault::Memory) && !stage.spoiled();
    Outcome::of(answer == Ok(()), refused)
}

/// Restores the stage from its own snapshot. The stage is spoiled if memory is refused.
fn restore<B: Behaviour>(alloc: Global, stage: &mut Stage<B>, memory: &mut UsedUp) -> Outcome {
    let mut shot = Vec::new(alloc);
    let saved = save(stage, &MARK, 1, &mut shot).is_ok();
    memory.run_short();
    let fault = load_into(stage, &MARK, 2, shot.as_slice()).err();
    memory.come_back();
    drop(shot);
    let refused = fault == Some(SnapFault::Memory) && is_spoiled(alloc, stage, 0);
    Outcome::of(saved && fault.is_none(), refused)
}

/// Installs the world in which nothing has happened. The stage is spoiled if memory is refused.
fn install<B: Behaviour>(alloc: Global, stage: &mut Stage<B>, memory: &mut UsedUp) -> Outcome {
    let Some(world) = untold(alloc, stage.scene()) else {
        return Outcome::Wrong;
    };
    let states = states_of(alloc, &[20, 30]);
    memory.run_short();
    let answer = stage.install(world, states.as_slice());
    memory.come_back();
    drop(states);
    let refused = answer == Err(StateFault::Memory) && is_spoiled(alloc, stage, 0);
    Outcome::of(answer == Ok(()), refused)
}

fn call_on<'a>(
    alloc: Global,
    stage: &mut Stage<Probe<'a>>,
    log: &'a Log,
    call: Call,
    memory: &mut UsedUp,
) -> Outcome {
    match call {
        Call::Apply => apply(alloc, stage, memory),
        Call::States => tell(alloc, stage, memory),
        Call::Replace => replace(stage, log, memory),
        Call::Restore => restore(alloc, stage, memory),
        Call::Install => install(alloc, stage, memory),
    }
}

/// Returns the expected log of the boxes at the end.
fn digits(call: Call, outcome: Outcome) -> u64 {
    match (call, outcome) {
        (Call::Replace, Outcome::Done) => 12_58_46_79,
        (Call::Replace, _) => 12_9_45_78,
        _ => 12_45_78,
    }
}

impl Spared<()> for Call {
    fn work(&self, alloc: Global, _subject: &mut (), memory: &mut UsedUp) -> Outcome {
        let log = Log::new();
        let Ok(mut stage) = stage_of(alloc, COUNTERS.as_bytes(), &TWO, &log) else {
            return Outcome::Wrong;
        };
        let outcome = call_on(alloc, &mut stage, &log, *self, memory);
        stage.close();
        outcome.where_so(log.get() == digits(*self, outcome))
    }
}

/// The calls, and the least number of turns in which each is refused.
static CALLS: [(Call, usize); 5] = [
    (Call::Apply, 20),
    (Call::States, 8),
    (Call::Replace, 2),
    (Call::Restore, 30),
    (Call::Install, 2),
];

#[test]
fn calls_of_a_stage_are_refused_until_there_is_enough(rt: HostRuntime) {
    for (call, least) in &CALLS {
        let refused = is_refused_until_enough(rt.alloc(), call, &mut (), *least);
        assert!(rt; refused, "{least}");
    }
}

/// Lists the scripts of a scene.
struct Listing;

impl Spared<OpenedScene> for Listing {
    fn work(&self, alloc: Global, opened: &mut OpenedScene, memory: &mut UsedUp) -> Outcome {
        memory.run_short();
        let fault = script_list(alloc, &opened.scene).err();
        memory.come_back();
        Outcome::of(fault.is_none(), fault.is_some())
    }
}

#[test]
fn a_list_of_scripts_is_refused_until_there_is_enough(rt: HostRuntime) {
    let Ok(mut opened) = open_scene(rt.alloc(), COUNTERS.as_bytes()) else {
        panic!(rt; "there is no scene");
    };
    let refused = is_refused_until_enough(rt.alloc(), &Listing, &mut opened, 10);
    drop(opened);
    holds(&rt, refused);
}

/// Makes boxes for scripts.
struct Making;

impl Spared<Vec<ScriptSpec>> for Making {
    fn work(&self, alloc: Global, specs: &mut Vec<ScriptSpec>, memory: &mut UsedUp) -> Outcome {
        memory.run_short();
        let fault = boxes_of(alloc, specs.as_slice()).err();
        memory.come_back();
        Outcome::of(fault.is_none(), fault.is_some())
    }
}

#[test]
fn boxes_are_refused_until_there_is_enough(rt: HostRuntime) {
    let mut specs = specs_of_kinds(rt.alloc());
    let refused = is_refused_until_enough(rt.alloc(), &Making, &mut specs, 10);
    drop(specs);
    holds(&rt, refused);
}
