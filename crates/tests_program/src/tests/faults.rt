//! The line and the status of refusals, and the messages of faults.

use super::{Row, all_hold};
use app_jobs::JobFault;
use app_program::{Failure, RunFault, ShareFault, refusal_line, status_of};
use app_words::OrderFault;
use classic_text::{ReadFault, ReadFaultKind};
use proto_flat::{ExpandFault, ExpandFaultKind};
use route_core::{RouteFault, RouteFaultKind};
use scene_core::{SceneFault, SceneFaultKind};
use script_host::AttachFault;
use std::alloc::{AllocError, Global};
use std::process::Abort;

/// A failure, its status, its refusal line, and its own message.
struct Told(Failure, u8, &'static str, &'static str);

impl Row for Told {
    fn holds(&self, alloc: Global) -> Result<bool, AllocError> {
        let words = format!(in alloc; "{}", self.0)?;
        let line = refusal_line(&self.0);
        Ok(status_of(&self.0) == self.1 && line.as_str() == self.2 && words.as_str() == self.3)
    }
}

static TOLD: [Told; 16] = [
    Told(
        Failure::Order(OrderFault::Memory),
        5,
        "refused Memory",
        "memory was refused",
    ),
    Told(
        Failure::Job(JobFault::BadJob(7)),
        2,
        "refused BadJob line 7",
        "line 7 is not a step",
    ),
    Told(
        Failure::Job(JobFault::Read(ReadFault {
            kind: ReadFaultKind::UnexpectedEnd,
            line: 4_294_967_295,
        })),
        1,
        "refused UnexpectedEnd line 4294967295",
        "line 4294967295: the text ends too early",
    ),
    Told(
        Failure::Job(JobFault::Read(ReadFault {
            kind: ReadFaultKind::Memory,
            line: 0,
        })),
        5,
        "refused Memory",
        "memory was refused",
    ),
    Told(
        Failure::Job(JobFault::Expand(ExpandFault {
            kind: ExpandFaultKind::FieldTwice,
            line: 3,
        })),
        1,
        "refused FieldTwice line 3",
        "line 3: the field is given twice",
    ),
    Told(
        Failure::Job(JobFault::Scene(SceneFault {
            kind: SceneFaultKind::ValueRange,
            line: 5,
        })),
        1,
        "refused ValueRange line 5",
        "line 5: a number is out of its range",
    ),
    Told(
        Failure::Job(JobFault::Route(RouteFault {
            kind: RouteFaultKind::TypesDiffer,
            line: 4,
        })),
        1,
        "refused TypesDiffer line 4",
        "line 4: the fields have different types",
    ),
    Told(
        Failure::Run(RunFault::Attach(AttachFault::UnknownScript(2))),
        1,
        "refused UnknownScript",
        "the kind of script 2 is unknown",
    ),
    Told(
        Failure::Run(RunFault::Device),
        4,
        "refused Device",
        "the output failed",
    ),
    Told(
        Failure::Share(ShareFault::Port),
        4,
        "refused Port",
        "a port failed",
    ),
    Told(
        Failure::Share(ShareFault::TurnsUsedUp),
        3,
        "refused TurnsUsedUp",
        "all turns were used up",
    ),
    Told(
        Failure::Share(ShareFault::BootsSpent),
        2,
        "refused BootsSpent",
        "no boot is left for this viewer",
    ),
    Told(
        Failure::Share(ShareFault::OtherRun),
        3,
        "refused OtherRun",
        "the host is of another run",
    ),
    Told(
        Failure::Share(ShareFault::OtherList),
        3,
        "refused OtherList",
        "an input is of another list",
    ),
    Told(
        Failure::Share(ShareFault::NoWelcome),
        3,
        "refused NoWelcome",
        "the host didn't welcome the viewer",
    ),
    Told(
        Failure::Share(ShareFault::Spoiled),
        5,
        "refused Spoiled",
        "memory was refused before",
    ),
];

#[test]
fn refusals_are_told(rt: HostRuntime) {
    all_hold(&rt, rt.alloc(), &TOLD);
}
