//! How much work an input causes.

use super::super::texts::{Part, made};
use super::probe::Log;
use super::stages::works;
use super::worlds::stage_of;
use super::{Row, all_hold};
use cascade_core::Work;
use std::alloc::Global;
use std::process::Abort;

/// A scene without scripts, and the work of its first input, a clock at 1 second.
struct Worked(&'static [Part], Work);

fn first_work(alloc: Global, text: &[u8]) -> Option<Work> {
    let log = Log::new();
    let Ok(mut stage) = stage_of(alloc, text, &[], &log) else {
        return None;
    };
    let work = works(&mut stage, 1, 1);
    stage.close();
    work
}

impl Row for Worked {
    fn holds(&self, alloc: Global) -> bool {
        let Ok(text) = made(alloc, self.0) else {
            return false;
        };
        let work = first_work(alloc, text.as_slice());
        drop(text);
        work == Some(self.1)
    }
}

/// The trigger sends to both filters, and both send to one toggle, which sends once. Then a chain
/// of 20,000 filters, each of which sends two events, the first of them to the next filter.
static WORKED: [Worked; 2] = [
    Worked(
        &[Part(
            1,
            "#X3D V3.0 utf8
DEF T TimeSensor { cycleInterval 2 loop TRUE startTime 1 } DEF B BooleanTrigger {}
DEF F1 BooleanFilter {} DEF F2 BooleanFilter {} DEF G BooleanToggle { toggle TRUE }
ROUTE T.cycleTime TO B.set_triggerTime
ROUTE B.triggerTrue TO F1.set_boolean ROUTE B.triggerTrue TO F2.set_boolean
ROUTE F1.inputTrue TO G.set_boolean ROUTE F2.inputTrue TO G.set_boolean",
        )],
        Work {
            sends: 11,
            deliveries: 5,
            settles: 0,
        },
    ),
    Worked(
        &[
            Part(
                1,
                "#X3D V3.0 utf8
DEF T TimeSensor { cycleInterval 2 loop TRUE startTime 1 } DEF B BooleanTrigger {}
ROUTE T.cycleTime TO B.set_triggerTime
",
            ),
            Part(20_000, "DEF F~ BooleanFilter {}\n"),
            Part(1, "ROUTE B.triggerTrue TO F0.set_boolean\n"),
            Part(19_999, "ROUTE F~.inputTrue TO F%.set_boolean\n"),
        ],
        Work {
            sends: 40_006,
            deliveries: 20_001,
            settles: 0,
        },
    ),
];

#[test]
fn diamond_and_long_chain(rt: HostRuntime) {
    all_hold(&rt, rt.alloc(), &WORKED);
}
