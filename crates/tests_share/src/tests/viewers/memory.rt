//! Memory that is refused, until there is enough, to a viewer: to its texts and its snapshot, to
//! inputs, to a box, and to a new beginning.

use super::given::{CLOCKED, COUNTED, POINT, Trial, go_back, take_clock, try_on};
use cascade_core::{PlaceFault, TextFault};
use script_boxes::{Counter, StockScript};
use share_core::Viewer;
use share_law::{OfferFault, SaveFault, SnapFault, TakeFault, Taken};
use std::alloc::Global;
use std::process::Abort;
use tests_memory::{Outcome, Spared, UsedUp, is_refused_until_enough};

/// What a viewer appends.
#[derive(Clone, Copy)]
enum Text {
    Scene,
    Trace,
    Snapshot,
}

fn text_outcome(answer: Result<(), TextFault>) -> Outcome {
    Outcome::of(answer == Ok(()), answer == Err(TextFault::Memory))
}

fn append(text: Text, viewer: &Viewer<StockScript>, out: &mut Vec<u8>) -> Outcome {
    match text {
        Text::Scene => text_outcome(viewer.scene_text(out)),
        Text::Trace => text_outcome(viewer.trace_text(out)),
        Text::Snapshot => {
            let answer = viewer.snapshot(out);
            Outcome::of(answer == Ok(()), answer == Err(SaveFault::Memory))
        }
    }
}

/// If memory is refused the buffer is unchanged.
impl Spared<Viewer<StockScript>> for Text {
    fn work(
        &self,
        alloc: Global,
        viewer: &mut Viewer<StockScript>,
        memory: &mut UsedUp,
    ) -> Outcome {
        let mut out = Vec::new(alloc);
        let ready = out.push(b'x').is_ok();
        memory.run_short();
        let outcome = append(*self, viewer, &mut out);
        memory.come_back();
        let same = out.as_slice() == b"x".as_slice();
        drop(out);
        outcome.where_so(ready && same == (outcome == Outcome::Refused))
    }
}

/// All three are refused until there is enough.
struct Texts;

impl Trial for Texts {
    fn holds(&self, alloc: Global, viewer: &mut Viewer<StockScript>, _shot: &[u8]) -> bool {
        for text in [Text::Scene, Text::Trace, Text::Snapshot] {
            if !is_refused_until_enough(alloc, &text, viewer, 10) {
                return false;
            }
        }
        true
    }
}

#[test]
fn texts_are_refused_until_there_is_enough(rt: HostRuntime) {
    try_on(&rt, rt.alloc(), COUNTED, 3, &Texts);
}

/// Reports whether a viewer says at each call that memory was refused earlier, and has `applied`
/// inputs applied.
fn is_spoiled(alloc: Global, viewer: &mut Viewer<StockScript>, applied: u64) -> bool {
    let mut out = Vec::new(alloc);
    let texts = viewer.scene_text(&mut out) == Err(TextFault::Spoiled)
        && viewer.trace_text(&mut out) == Err(TextFault::Spoiled)
        && viewer.snapshot(&mut out) == Err(SaveFault::Spoiled);
    let same = out.is_empty();
    drop(out);
    let fresh = StockScript::Counter(Counter::new(0, 1));
    texts
        && same
        && viewer.take(&[]) == Err(TakeFault::Spoiled)
        && viewer.offer(POINT) == Err(OfferFault::Spoiled)
        && viewer.replace_script(0, fresh) == Err(PlaceFault::Spoiled)
        && viewer.applied() == applied
        && viewer.spoiled()
}

/// From this snapshot, after this many inputs, a viewer applies the next two inputs at once. If
/// memory is refused the viewer is spoiled, with the inputs that it had applied.
#[derive(Clone, Copy)]
struct Takes<'a>(&'a [u8], u32);

impl<'a> Spared<Viewer<StockScript>> for Takes<'a> {
    fn work(
        &self,
        alloc: Global,
        viewer: &mut Viewer<StockScript>,
        memory: &mut UsedUp,
    ) -> Outcome {
        let (before, first) = (self.1, self.1.saturating_add(1));
        let begun = go_back(viewer, self.0) == Ok(u64::from(before));
        let kept = take_clock(viewer, first.saturating_add(1)) == Some(Ok(Taken::Held));
        memory.run_short();
        let answer = take_clock(viewer, first);
        memory.come_back();
        let refused = answer == Some(Err(TakeFault::Memory));
        let applied = viewer.applied();
        let stands = if refused {
            is_spoiled(alloc, viewer, applied)
                && (applied == u64::from(before) || applied == u64::from(first))
        } else {
            applied == u64::from(first).saturating_add(1)
        };
        Outcome::of(answer == Some(Ok(Taken::Applied(2))), refused).where_so(
            begun && kept && stands,
        )
    }
}

/// How many clocks are applied before, and the least number of turns in which memory is refused.
struct Inputs(u32, usize);

impl Trial for Inputs {
    fn holds(&self, alloc: Global, viewer: &mut Viewer<StockScript>, shot: &[u8]) -> bool {
        is_refused_until_enough(alloc, &Takes(shot, self.0), viewer, self.1)
    }
}

/// The trace has 30 entries and room for 32. The second clock or the one before it needs more.
#[test]
fn a_refused_growth_spoils(rt: HostRuntime) {
    try_on(&rt, rt.alloc(), CLOCKED, 0, &Inputs(0, 10));
    try_on(&rt, rt.alloc(), COUNTED, 0, &Inputs(0, 10));
    try_on(&rt, rt.alloc(), COUNTED, 5, &Inputs(5, 5));
}

/// A viewer with a waiting offer begins again from this snapshot. If that is refused the viewer
/// keeps its boot and its offer.
#[derive(Clone, Copy)]
struct Rewinds<'a>(&'a [u8]);

impl<'a> Spared<Viewer<StockScript>> for Rewinds<'a> {
    fn work(
        &self,
        alloc: Global,
        viewer: &mut Viewer<StockScript>,
        memory: &mut UsedUp,
    ) -> Outcome {
        let ready = go_back(viewer, self.0) == Ok(3) && viewer.offer(POINT) == Ok(1);
        let boot = viewer.boot();
        memory.run_short();
        let answer = go_back(viewer, self.0);
        memory.come_back();
        let refused = answer == Err(SnapFault::Memory);
        let stands = if refused {
            is_spoiled(alloc, viewer, 3) && viewer.boot() == boot && viewer.waiting() == 1
        } else {
            viewer.boot() == boot.saturating_add(1) && viewer.waiting() == 0
        };
        Outcome::of(answer == Ok(3), refused).where_so(ready && stands)
    }
}

struct Beginnings;

impl Trial for Beginnings {
    fn holds(&self, alloc: Global, viewer: &mut Viewer<StockScript>, shot: &[u8]) -> bool {
        is_refused_until_enough(alloc, &Rewinds(shot), viewer, 20)
    }
}

#[test]
fn a_new_beginning_is_refused_until_there_is_enough(rt: HostRuntime) {
    try_on(&rt, rt.alloc(), COUNTED, 3, &Beginnings);
}

/// Reports whether the viewer still has this snapshot.
pub(super) fn is_unchanged(alloc: Global, viewer: &Viewer<StockScript>, shot: &[u8]) -> bool {
    let mut out = Vec::new(alloc);
    let saved = viewer.snapshot(&mut out).is_ok();
    let same = out.as_slice() == shot;
    drop(out);
    saved && same
}

/// A box is replaced. Whatever the answer, the world is unchanged, with this snapshot.
#[derive(Clone, Copy)]
struct Replaces<'a>(&'a [u8]);

impl<'a> Spared<Viewer<StockScript>> for Replaces<'a> {
    fn work(
        &self,
        alloc: Global,
        viewer: &mut Viewer<StockScript>,
        memory: &mut UsedUp,
    ) -> Outcome {
        let fresh = StockScript::Counter(Counter::new(0, 1));
        memory.run_short();
        let answer = viewer.replace_script(0, fresh);
        memory.come_back();
        Outcome::of(answer == Ok(()), answer == Err(PlaceFault::Memory)).where_so(is_unchanged(
            alloc, viewer, self.0,
        ))
    }
}

struct Boxes;

impl Trial for Boxes {
    fn holds(&self, alloc: Global, viewer: &mut Viewer<StockScript>, shot: &[u8]) -> bool {
        is_refused_until_enough(alloc, &Replaces(shot), viewer, 1)
    }
}

#[test]
fn a_box_is_refused_until_there_is_enough(rt: HostRuntime) {
    try_on(&rt, rt.alloc(), COUNTED, 3, &Boxes);
}
