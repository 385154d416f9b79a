//! What a viewer does with its boxes as it takes inputs, goes back and has a box replaced.

use super::probe::{Log, Made, Probe};
use super::worlds::{COUNTERS, clock, stage_of};
use super::{Row, all_hold};
use cascade_core::PlaceFault;
use share_core::Viewer;
use share_law::{TakeFault, Taken};
use share_wire::{Body, Message, encode};
use std::alloc::Global;
use std::process::Abort;

const MARK: [u8; 32] = [7; 32];

/// What is done with a viewer, and the answer.
#[derive(Clone, Copy)]
enum Step {
    /// The clock of this number, at as many seconds, is applied.
    Take(u32),
    Save,
    /// The viewer rewinds to the saved snapshot, as this boot, with this many inputs applied.
    Rewind(u32, u64),
    /// The box of script `k` is replaced by box 3.
    Replace(usize, Made, Result<(), PlaceFault>),
    /// The trace is this.
    Trace(&'static str),
    /// The log of boxes up to now.
    Told(u64),
    /// How often boxes were called up to now: for an event, after the events of a timestamp, to be
    /// restored, and for their states.
    Called([u32; 4]),
}

fn take(viewer: &mut Viewer<Probe<'_>>, number: u32) -> Option<Result<Taken, TakeFault>> {
    let body = Body::Input(clock(u64::from(number), number)?);
    Some(viewer.take(encode(&Message { mark: MARK, body }).as_slice()))
}

fn saves(viewer: &Viewer<Probe<'_>>, shot: &mut Vec<u8>) -> bool {
    shot.clear();
    viewer.snapshot(shot).is_ok()
}

fn is_trace(alloc: Global, viewer: &Viewer<Probe<'_>>, wanted: &str) -> bool {
    let mut text = Vec::new(alloc);
    let answer = viewer.trace_text(&mut text);
    let same = text.as_slice() == wanted.as_bytes();
    drop(text);
    answer == Ok(()) && same
}

fn does<'a>(
    alloc: Global,
    viewer: &mut Viewer<Probe<'a>>,
    shot: &mut Vec<u8>,
    log: &'a Log,
    step: Step,
) -> bool {
    match step {
        Step::Take(number) => take(viewer, number) == Some(Ok(Taken::Applied(1))),
        Step::Save => saves(viewer, shot),
        Step::Rewind(boot, count) => viewer.rewind(shot.as_slice(), boot) == Ok(count),
        Step::Replace(k, made, wanted) => {
            viewer.replace_script(k, Probe::new(3, made, log)) == wanted
        }
        Step::Trace(wanted) => is_trace(alloc, viewer, wanted),
        Step::Told(digits) => log.get() == digits,
        Step::Called(calls) => log.calls() == calls,
    }
}

fn does_all<'a>(
    alloc: Global,
    viewer: &mut Viewer<Probe<'a>>,
    log: &'a Log,
    steps: &[Step],
) -> bool {
    let mut shot = Vec::new(alloc);
    let mut held = true;
    for step in steps {
        held &= does(alloc, viewer, &mut shot, log, *step);
    }
    drop(shot);
    held
}

/// What is done with a viewer of two counters before it is closed, and the log of boxes afterwards.
struct Story(&'static [Step], u64);

impl Row for Story {
    fn holds(&self, alloc: Global) -> bool {
        let log = Log::new();
        let boxes = [Made::Counter(5), Made::Counter(5)];
        let Ok(stage) = stage_of(alloc, COUNTERS.as_bytes(), &boxes, &log) else {
            return false;
        };
        let mut viewer = Viewer::start(stage, MARK, 0, 1);
        let held = does_all(alloc, &mut viewer, &log, self.0);
        viewer.close();
        held && log.get() == self.1
    }
}

const TRACE: &str = "1 1 T.isActive TRUE
1 1 T.cycleTime 1
1 1 B.triggerTrue TRUE
1 1 C.count 7
1 1 D.count 7
1 1 T.fraction_changed 0
1 1 T.elapsedTime 0
1 1 T.time 1
2 2 T.fraction_changed 0.5
2 2 T.elapsedTime 1
2 2 T.time 2
3 3 T.cycleTime 3
3 3 B.triggerTrue TRUE
3 3 C.count 9
3 3 D.count 9
3 3 T.fraction_changed 1
3 3 T.elapsedTime 2
3 3 T.time 3
";

/// Boxes are initialized once. They are called for their events, and again for the events after the
/// rewind, for which each box is restored once. A replaced box passes its state on.
static STORIES: [Story; 1] = [Story(
    &[
        Step::Told(12),
        Step::Called([0, 0, 0, 2]),
        Step::Take(1),
        Step::Called([2, 2, 0, 2]),
        Step::Save,
        Step::Called([2, 2, 0, 4]),
        Step::Take(2),
        Step::Take(3),
        Step::Called([4, 4, 0, 4]),
        Step::Rewind(2, 1),
        Step::Called([4, 4, 2, 4]),
        Step::Told(12),
        Step::Take(2),
        Step::Replace(2, Made::Counter(0), Err(PlaceFault::NoSuchScript)),
        Step::Replace(0, Made::Gate, Err(PlaceFault::KindDiffers)),
        Step::Told(12_99),
        Step::Called([4, 4, 2, 4]),
        Step::Replace(0, Made::Counter(0), Ok(())),
        Step::Told(12_99_47),
        Step::Called([4, 4, 3, 5]),
        Step::Take(3),
        Step::Called([6, 6, 3, 5]),
        Step::Trace(TRACE),
    ],
    12_99_47_65_98,
)];

#[test]
fn a_viewer_calls_its_boxes(rt: HostRuntime) {
    all_hold(&rt, rt.alloc(), &STORIES);
}
