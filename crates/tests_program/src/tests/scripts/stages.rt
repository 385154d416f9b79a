//! What a stage does with its boxes, and the examples of worlds with scripts.

use super::hosting::{begin, states_of};
use super::probe::{Log, Made, Probe};
use super::worlds::{COUNTERS, clock, stage_of, untold};
use super::{Row, all_hold};
use cascade_core::{PlaceFault, Stage, Work};
use script_host::{Behaviour, StateFault};
use snapshot_core::{Saved, SnapFault, load_into, save};
use std::alloc::Global;
use std::process::Abort;

/// What is done with a stage, and the answer.
#[derive(Clone, Copy)]
enum Step {
    /// The clock of this number, at this many seconds.
    Clock(u64, u32),
    /// Like `Clock`, with the work of the input: how many outputs send, how many routes are
    /// followed, and how many scripts settle.
    Work(u64, u32, usize, usize, usize),
    /// The box of script `k` is replaced by box 3.
    Replace(usize, Made, Result<(), PlaceFault>),
    /// The stage is restored from its own snapshot, or refuses that for this reason.
    GoBack(Option<SnapFault>),
    /// The world in which nothing has happened is installed, with counters at these counts.
    Install(&'static [i64], Result<(), StateFault>),
    /// This many inputs were applied.
    Applied(u64),
    /// The states of two scripts begin with these numbers.
    Counts([i64; 2]),
    /// The trace is this.
    Trace(&'static str),
    /// The log of boxes up to now.
    Told(u64),
    /// How often boxes were called up to now: for an event, after the events of a timestamp, to be
    /// restored, and for their states.
    Called([u32; 4]),
}

pub(super) fn works<B: Behaviour>(stage: &mut Stage<B>, number: u64, seconds: u32) -> Option<Work> {
    stage.apply(&clock(number, seconds)?).ok()
}

fn goes_back<B: Behaviour>(alloc: Global, stage: &mut Stage<B>, wanted: Option<SnapFault>) -> bool {
    let applied = stage.applied();
    let mut shot = Vec::new(alloc);
    let saved = save(stage, &[7; 32], 1, &mut shot);
    let answer = load_into(stage, &[7; 32], 2, shot.as_slice());
    drop(shot);
    let wanted = match wanted {
        Some(fault) => Err(fault),
        None => Ok(Saved { boot: 1, applied }),
    };
    saved.is_ok() && answer == wanted
}

fn installs<B: Behaviour>(
    alloc: Global,
    stage: &mut Stage<B>,
    counts: &[i64],
    wanted: Result<(), StateFault>,
) -> bool {
    let Some(world) = untold(alloc, stage.scene()) else {
        return false;
    };
    let states = states_of(alloc, counts);
    let answer = stage.install(world, states.as_slice());
    drop(states);
    answer == wanted
}

/// Reports whether `count` inputs were applied.
fn is_at<B: Behaviour>(stage: &Stage<B>, count: u64) -> bool {
    match stage.world() {
        Some(world) => world.applied == count && stage.applied() == count && !stage.spoiled(),
        None => false,
    }
}

fn are_counts<B: Behaviour>(alloc: Global, stage: &Stage<B>, wanted: [i64; 2]) -> bool {
    let mut states = Vec::new(alloc);
    let answer = stage.script_states(&mut states);
    let held = begin(states.as_slice(), wanted);
    drop(states);
    answer.is_ok() && held
}

fn is_trace<B: Behaviour>(alloc: Global, stage: &Stage<B>, wanted: &str) -> bool {
    let mut text = Vec::new(alloc);
    let answer = stage.trace_text(&mut text);
    let same = text.as_slice() == wanted.as_bytes();
    drop(text);
    answer.is_ok() && same
}

fn does<'a>(alloc: Global, stage: &mut Stage<Probe<'a>>, log: &'a Log, step: Step) -> bool {
    match step {
        Step::Clock(number, seconds) => works(stage, number, seconds).is_some(),
        Step::Work(number, seconds, sends, deliveries, settles) => {
            let wanted = Work {
                sends,
                deliveries,
                settles,
            };
            works(stage, number, seconds) == Some(wanted)
        }
        Step::Replace(k, made, wanted) => {
            stage.replace_script(k, Probe::new(3, made, log)) == wanted
        }
        Step::GoBack(wanted) => goes_back(alloc, stage, wanted),
        Step::Install(counts, wanted) => installs(alloc, stage, counts, wanted),
        Step::Applied(count) => is_at(stage, count),
        Step::Counts(wanted) => are_counts(alloc, stage, wanted),
        Step::Trace(wanted) => is_trace(alloc, stage, wanted),
        Step::Told(digits) => log.get() == digits,
        Step::Called(calls) => log.calls() == calls,
    }
}

fn does_all<'a>(alloc: Global, stage: &mut Stage<Probe<'a>>, log: &'a Log, steps: &[Step]) -> bool {
    for step in steps {
        if !does(alloc, stage, log, *step) {
            return false;
        }
    }
    true
}

/// A scene and its boxes, what is done with the stage before it is closed, and the log of boxes
/// afterwards.
struct Story(&'static str, [Made; 2], &'static [Step], u64);

impl Row for Story {
    fn holds(&self, alloc: Global) -> bool {
        let log = Log::new();
        let Ok(mut stage) = stage_of(alloc, self.0.as_bytes(), &self.1, &log) else {
            return false;
        };
        let held = does_all(alloc, &mut stage, &log, self.2);
        stage.close();
        held && log.get() == self.3
    }
}

const TWO: [Made; 2] = [Made::Counter(5), Made::Counter(5)];

static BOXES: [Story; 3] = [
    Story(COUNTERS, TWO, &[Step::Told(12)], 12_45_78),
    // a refused box is dropped, and the others stay
    Story(
        COUNTERS,
        TWO,
        &[
            Step::Replace(2, Made::Counter(0), Err(PlaceFault::NoSuchScript)),
            Step::Replace(0, Made::Refusing(0), Err(PlaceFault::Memory)),
            Step::Told(12_99),
        ],
        1299_45_78,
    ),
    // the same at a spoiled stage
    Story(
        COUNTERS,
        [Made::Counter(5), Made::Refusing(5)],
        &[
            Step::GoBack(Some(SnapFault::Memory)),
            Step::Replace(0, Made::Counter(0), Err(PlaceFault::Spoiled)),
        ],
        129_45_78,
    ),
];

#[test]
fn each_box_is_shut_down_and_dropped_once(rt: HostRuntime) {
    all_hold(&rt, rt.alloc(), &BOXES);
}

const TRIGGERED: &str = "#X3D V3.0 utf8
DEF T TimeSensor { cycleInterval 2 loop TRUE startTime 1 }
DEF B1 BooleanTrigger {} DEF B2 BooleanTrigger {} DEF B3 BooleanTrigger {}
DEF X Script { url \"x3dshare:batch\" inputOnly SFBool item
outputOnly SFInt32 many outputOnly SFBool any }
DEF Y Script { url \"x3dshare:batch\" inputOnly SFBool item
outputOnly SFInt32 many outputOnly SFBool any }
ROUTE T.cycleTime TO B1.set_triggerTime ROUTE T.cycleTime TO B2.set_triggerTime
ROUTE T.cycleTime TO B3.set_triggerTime
ROUTE B1.triggerTrue TO X.item ROUTE B2.triggerTrue TO X.item ROUTE B3.triggerTrue TO X.item
ROUTE B1.triggerTrue TO Y.item ROUTE Y.any TO X.item";

/// What Y sends reaches X after X has settled, and waits. A script without an event does not
/// settle.
static BATCHES: [Story; 1] = [Story(
    TRIGGERED,
    [Made::Batch, Made::Batch],
    &[
        Step::Work(1, 1, 12, 8, 2),
        Step::Counts([1, 0]),
        Step::Work(2, 3, 11, 8, 2),
        Step::Counts([1, 0]),
        Step::Work(3, 4, 3, 0, 0),
        Step::Counts([1, 0]),
    ],
    12_45_78,
)];

#[test]
fn batches(rt: HostRuntime) {
    all_hold(&rt, rt.alloc(), &BATCHES);
}

const REPLACED: &str = "1 1 T.isActive TRUE
1 1 T.cycleTime 1
1 1 B.triggerTrue TRUE
1 1 C.count 7
1 1 D.count 7
1 1 T.fraction_changed 0
1 1 T.elapsedTime 0
1 1 T.time 1
2 3 T.cycleTime 3
2 3 B.triggerTrue TRUE
2 3 C.count 9
2 3 D.count 9
2 3 T.fraction_changed 1
2 3 T.elapsedTime 2
2 3 T.time 3
3 5 T.cycleTime 5
3 5 B.triggerTrue TRUE
3 5 C.count 11
3 5 D.count 11
3 5 T.fraction_changed 1
3 5 T.elapsedTime 4
3 5 T.time 5
";

static SCRIPT_REPLACED: [Story; 1] = [Story(
    COUNTERS,
    TWO,
    &[
        Step::Clock(1, 1),
        Step::Replace(0, Made::Counter(0), Ok(())),
        Step::Counts([7, 7]),
        Step::Told(12_47),
        Step::Clock(2, 3),
        Step::Replace(0, Made::Gate, Err(PlaceFault::KindDiffers)),
        Step::Clock(3, 5),
        Step::Trace(REPLACED),
        // the old box was asked for its state, and the new one was restored to it
        Step::Called([6, 6, 1, 5]),
    ],
    12479_65_98,
)];

#[test]
fn script_replaced(rt: HostRuntime) {
    all_hold(&rt, rt.alloc(), &SCRIPT_REPLACED);
}

/// Boxes are called once for each event. They are asked for their states when they are attached,
/// when a snapshot is taken and when states are read. They are restored only when the stage goes
/// back and when a world is installed: until then a box that can't be restored makes no difference.
static CALLED: [Story; 2] = [
    Story(
        COUNTERS,
        [Made::Refusing(5), Made::Refusing(5)],
        &[
            Step::Told(12),
            Step::Called([0, 0, 0, 2]),
            Step::Clock(1, 1),
            Step::Called([2, 2, 0, 2]),
            Step::Clock(2, 2),
            Step::Called([2, 2, 0, 2]),
            Step::Clock(3, 3),
            Step::Called([4, 4, 0, 2]),
            Step::Counts([9, 9]),
            Step::Told(12),
        ],
        12_45_78,
    ),
    Story(
        COUNTERS,
        TWO,
        &[
            Step::Clock(1, 1),
            Step::GoBack(None),
            Step::Called([2, 2, 2, 4]),
            Step::Applied(1),
            Step::Clock(2, 3),
            Step::Called([4, 4, 2, 4]),
            Step::Counts([9, 9]),
            Step::Install(&[20], Err(StateFault::StateLength)),
            Step::Called([4, 4, 2, 6]),
            Step::Applied(2),
            Step::Install(&[20, 30], Ok(())),
            Step::Called([4, 4, 4, 6]),
            Step::Applied(0),
            Step::Trace(""),
            Step::Counts([20, 30]),
            Step::Told(12),
        ],
        12_45_78,
    ),
];

#[test]
fn boxes_are_called_and_not_set(rt: HostRuntime) {
    all_hold(&rt, rt.alloc(), &CALLED);
}
