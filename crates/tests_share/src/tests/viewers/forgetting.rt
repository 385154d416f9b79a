//! What a viewer and a stage forget: the lines of their trace of old inputs.

use super::given::{CLOCKED, Trial, stage_in, take_clock, try_on};
use cascade_core::ForgetFault;
use script_boxes::StockScript;
use share_core::Viewer;
use share_law::Taken;
use std::alloc::Global;
use std::process::Abort;

/// Reports whether the trace of a viewer is the end of `whole` that begins with `first`, or empty
/// without `first`.
fn is_left(alloc: Global, viewer: &Viewer<StockScript>, whole: &[u8], first: Option<&str>) -> bool {
    let mut left = Vec::new(alloc);
    let written = viewer.trace_text(&mut left).is_ok();
    let is_end = whole.ends_with(&left);
    let begins = match first {
        Some(first) => left.starts_with(first.as_bytes()),
        None => left.is_empty(),
    };
    drop(left);
    written && is_end && begins
}

/// Three clocks, a second apart: the lines of all, of the last two, of the last and of none.
struct Fewer;

impl Trial for Fewer {
    fn holds(&self, alloc: Global, viewer: &mut Viewer<StockScript>, _shot: &[u8]) -> bool {
        let mut whole = Vec::new(alloc);
        let written = viewer.trace_text(&mut whole).is_ok();
        let all = is_left(alloc, viewer, &whole, Some("1 1 T"));
        viewer.forget_all_but(3);
        let three = is_left(alloc, viewer, &whole, Some("1 1 T"));
        viewer.forget_all_but(2);
        let two = is_left(alloc, viewer, &whole, Some("2 2 T"));
        viewer.forget_all_but(1);
        let one = is_left(alloc, viewer, &whole, Some("3 3 T"));
        viewer.forget_all_but(2);
        let still = is_left(alloc, viewer, &whole, Some("3 3 T"));
        viewer.forget_all_but(0);
        let none = is_left(alloc, viewer, &whole, None);
        drop(whole);
        written && all && three && two && one && still && none
    }
}

#[test]
fn lines_of_the_last_inputs_stay(rt: HostRuntime) {
    try_on(&rt, rt.alloc(), CLOCKED, 3, &Fewer);
}

/// A viewer that forgot all lines goes on with those of the next input.
struct Later;

impl Trial for Later {
    fn holds(&self, alloc: Global, viewer: &mut Viewer<StockScript>, _shot: &[u8]) -> bool {
        viewer.forget_all_but(0);
        let applied = take_clock(viewer, 4) == Some(Ok(Taken::Applied(1)));
        let mut left = Vec::new(alloc);
        let written = viewer.trace_text(&mut left).is_ok();
        let begins = left.starts_with(b"4 4 T");
        drop(left);
        applied && written && begins
    }
}

#[test]
fn a_viewer_that_forgot_goes_on(rt: HostRuntime) {
    try_on(&rt, rt.alloc(), CLOCKED, 3, &Later);
}

#[test]
fn a_stage_forgets_nothing_beyond_the_next_input(rt: HostRuntime) {
    let Some(mut stage) = stage_in(rt.alloc(), CLOCKED) else {
        panic!(rt; "there is no stage");
    };
    let next = stage.forget(1);
    let ahead = stage.forget(2);
    stage.spoil();
    let spoiled = stage.forget(2);
    stage.close();
    assert!(rt; next == Ok(()));
    assert!(rt; ahead == Err(ForgetFault::Ahead));
    assert!(rt; spoiled == Err(ForgetFault::Spoiled));
}
