//! What is attached, and what happens to boxes that are refused.

use super::probe::{Log, Made, boxes_made};
use super::worlds::COUNTERS;
use super::{Row, all_hold, holds, list_of};
use app_program::{RunFault, attach, open_scene};
use scene_core::Scene;
use script_host::{AttachFault, Scripts};
use std::alloc::Global;
use std::process::Abort;
use tests_memory::{Outcome, Spared, UsedUp, is_refused_until_enough};
use x3d_values::{Kind, ScriptSpec};

/// The kind of a script, whether its interface fits the kind, and its start.
#[derive(Clone, Copy)]
struct Asked(Option<Kind>, bool, &'static [i64]);

/// A counter at 5 in steps of 2.
const COUNTER: Asked = Asked(Some(Kind::Counter), true, &[5, 2]);

/// Another step, another kind, an interface that doesn't fit, and an unknown kind.
const OTHER_STEP: Asked = Asked(Some(Kind::Counter), true, &[5, 3]);

const METER: Asked = Asked(Some(Kind::Meter), true, &[1, 2]);

const BATCH: Asked = Asked(Some(Kind::Batch), true, &[5, 2]);

const UNFIT: Asked = Asked(Some(Kind::Counter), false, &[]);

const UNKNOWN: Asked = Asked(None, true, &[]);

/// Returns the specs of the scripts, or fewer if memory is refused.
fn specs_of(alloc: Global, asked: &[Asked]) -> Vec<ScriptSpec> {
    let mut specs = Vec::new(alloc);
    for script in asked {
        let spec = ScriptSpec {
            node: 3,
            kind: script.0,
            fits: script.1,
            start: list_of(alloc, script.2),
        };
        let Ok(()) = specs.push(spec) else {
            return specs;
        };
    }
    specs
}

/// Returns `count` specs, up to two, of a counter at 5 in steps of 2.
pub(super) fn counter_specs(alloc: Global, count: usize) -> Vec<ScriptSpec> {
    specs_of(alloc, [COUNTER, COUNTER].get(..count).unwrap_or(&[]))
}

/// Returns the specs of a counter and of a meter.
pub(super) fn specs_of_kinds(alloc: Global) -> Vec<ScriptSpec> {
    specs_of(alloc, &[COUNTER, METER])
}

const TWO: [Made; 2] = [Made::Counter(5), Made::Counter(5)];

/// Scripts, and the fault with which two counters are refused for them.
struct Attached(&'static [Asked], AttachFault);

/// Reports whether two counters are refused for these scripts with this fault.
fn are_refused(alloc: Global, specs: &[ScriptSpec], log: &Log, fault: AttachFault) -> bool {
    let Ok(boxes) = boxes_made(alloc, &TWO, log) else {
        return false;
    };
    Scripts::attach(alloc, specs, boxes).err() == Some(fault)
}

/// Neither box is initialized, and both are dropped.
impl Row for Attached {
    fn holds(&self, alloc: Global) -> bool {
        let specs = specs_of(alloc, self.0);
        let log = Log::new();
        let refused = are_refused(alloc, specs.as_slice(), &log, self.1);
        drop(specs);
        refused && log.get() == 78
    }
}

static REFUSED: [Attached; 6] = [
    Attached(&[UNKNOWN], AttachFault::UnknownScript(0)),
    Attached(&[COUNTER], AttachFault::WrongCount),
    Attached(&[COUNTER, UNFIT, UNKNOWN], AttachFault::UnknownScript(2)),
    Attached(&[COUNTER, UNFIT], AttachFault::InterfaceMismatch(1)),
    Attached(&[COUNTER, BATCH], AttachFault::KindDiffers(1)),
    Attached(&[COUNTER, OTHER_STEP], AttachFault::StartMismatch(1)),
];

#[test]
fn refused_boxes_are_dropped(rt: HostRuntime) {
    all_hold(&rt, rt.alloc(), &REFUSED);
}

/// Attaches two counters for these scripts. Refused or not, the counters are dropped, with the
/// scripts.
struct Attaching;

impl Spared<Vec<ScriptSpec>> for Attaching {
    fn work(&self, alloc: Global, specs: &mut Vec<ScriptSpec>, memory: &mut UsedUp) -> Outcome {
        let log = Log::new();
        let Ok(boxes) = boxes_made(alloc, &TWO, &log) else {
            return Outcome::Wrong;
        };
        memory.run_short();
        let fault = Scripts::attach(alloc, specs.as_slice(), boxes).err();
        memory.come_back();
        Outcome::of(fault.is_none(), fault == Some(AttachFault::Memory)).where_so(log.get() == 78)
    }
}

/// A state is read, and a list of scripts is made.
#[test]
fn attaching_is_refused_until_there_is_enough(rt: HostRuntime) {
    let mut specs = counter_specs(rt.alloc(), 2);
    let refused = is_refused_until_enough(rt.alloc(), &Attaching, &mut specs, 10);
    drop(specs);
    holds(&rt, refused);
}

/// A scene, the boxes that are passed for its scripts, and why they are refused.
struct Faulty(&'static str, &'static [Made], AttachFault);

fn fault_of(alloc: Global, scene: &Scene, made: &[Made], log: &Log) -> Option<RunFault> {
    match boxes_made(alloc, made, log) {
        Ok(boxes) => attach(alloc, scene, boxes).err(),
        Err(_) => None,
    }
}

impl Row for Faulty {
    fn holds(&self, alloc: Global) -> bool {
        let Ok(opened) = open_scene(alloc, self.0.as_bytes()) else {
            return false;
        };
        let log = Log::new();
        let fault = fault_of(alloc, &opened.scene, self.1, &log);
        drop(opened);
        fault == Some(RunFault::Attach(self.2))
    }
}

/// A counter of the scene starts at 5.
static FAULTY: [Faulty; 3] = [
    Faulty(
        "#X3D V3.0 utf8
Script { url \"x3dshare:lamp\" }",
        &[Made::Counter(5)],
        AttachFault::UnknownScript(0),
    ),
    Faulty(COUNTERS, &[], AttachFault::WrongCount),
    Faulty(
        COUNTERS,
        &[Made::Counter(0), Made::Counter(5)],
        AttachFault::StartMismatch(0),
    ),
];

#[test]
fn attach_faults(rt: HostRuntime) {
    all_hold(&rt, rt.alloc(), &FAULTY);
}
