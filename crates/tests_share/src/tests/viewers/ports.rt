//! A port that fails ends a viewer's turns.

use super::given::{EMPTY, POINT, Trial, try_on};
use script_boxes::StockScript;
use share_core::Viewer;
use share_turns::{FakePort, Port, SeriesFault, TurnFault, view_until};
use std::alloc::Global;
use std::process::Abort;
use x3d_values::Point;

/// The port of the host.
const HOST: u16 = 5000;

/// A point for each turn.
const POINTS: [Point; 3] = [POINT; 3];

/// Reports whether three turns end with `fault` over a port that fails at call `call`, with
/// `failures` failures. The port must have recorded each call before.
fn ends(
    alloc: Global,
    viewer: &mut Viewer<StockScript>,
    call: u64,
    fault: SeriesFault,
    failures: u64,
) -> bool {
    let mut port = FakePort::failing_at(alloc, call);
    let answer = view_until(viewer, &POINTS, 1, None, 3, HOST, &mut port);
    let failed = port.failures();
    let told = port.traffic().len() as u64;
    drop(port);
    answer == Err(fault) && failed == failures && told + 1 == call
}

/// A turn is a receive, an offer and an ask. The port fails at each of them in turn.
struct Calls;

impl Trial for Calls {
    fn holds(&self, alloc: Global, viewer: &mut Viewer<StockScript>, _shot: &[u8]) -> bool {
        let fault = SeriesFault::Turn(TurnFault::Port);
        for call in 1..=9 {
            if !ends(alloc, viewer, call, fault, 1) {
                return false;
            }
        }
        ends(alloc, viewer, 10, SeriesFault::TurnsUsedUp, 0)
    }
}

#[test]
fn a_port_that_fails_ends_the_turns(rt: HostRuntime) {
    try_on(&rt, rt.alloc(), EMPTY, 0, &Calls);
}
