//! Reading of jobs, schedules and words: with memory that is refused until there is enough, and a
//! schedule that is read.

use super::texts::{Part, made};
use super::{Row, all_hold, holds};
use app_jobs::{JobFault, Schedule, job_of, schedule_of};
use app_program::{StreamFault, read_schedule, read_whole};
use app_words::{Order, OrderFault, Request, request_of};
use share_law::Step;
use std::alloc::{AllocError, Global};
use std::process::Abort;
use tests_memory::{Outcome, Spared, UsedUp, is_refused_until_enough};
use x3d_values::{Point, Vec3};

/// A function that reads bytes.
#[derive(Clone, Copy)]
enum Reading {
    Whole,
    Job,
    Schedule,
}

fn read(alloc: Global, reading: Reading, bytes: &[u8]) -> Outcome {
    let mut reader = bytes;
    match reading {
        Reading::Whole => {
            let fault = read_whole(alloc, &mut reader).err();
            Outcome::of(fault.is_none(), fault == Some(StreamFault::Memory))
        }
        Reading::Job => {
            let fault = job_of(alloc, bytes).err();
            Outcome::of(fault.is_none(), fault == Some(JobFault::Memory))
        }
        Reading::Schedule => {
            let fault = schedule_of(alloc, bytes).err();
            Outcome::of(fault.is_none(), fault == Some(JobFault::Memory))
        }
    }
}

impl Spared<Vec<u8>> for Reading {
    fn work(&self, alloc: Global, bytes: &mut Vec<u8>, memory: &mut UsedUp) -> Outcome {
        memory.run_short();
        let outcome = read(alloc, *self, bytes.as_slice());
        memory.come_back();
        outcome
    }
}

/// The function, the parts that it reads, and the least number of turns in which it is refused.
struct Refused(Reading, &'static [Part], usize);

impl Row for Refused {
    fn holds(&self, alloc: Global) -> Result<bool, AllocError> {
        let mut bytes = made(alloc, self.1)?;
        Ok(is_refused_until_enough(alloc, &self.0, &mut bytes, self.2))
    }
}

/// A list has room for 4, and then doubles again and again, up to 128.
static REFUSED: [Refused; 3] = [
    Refused(Reading::Whole, &[Part(1_000, "clock %\n")], 500),
    Refused(
        Reading::Job,
        &[Part(100, "clock %\n"), Part(1, "scene\n")],
        400,
    ),
    Refused(
        Reading::Schedule,
        &[Part(100, "ask 0\n"), Part(1, "scene\n")],
        400,
    ),
];

#[test]
fn inputs_are_refused_until_there_is_enough(rt: HostRuntime) {
    all_hold(&rt, rt.alloc(), &REFUSED);
}

/// Returns the order of a request, if the request is an order.
fn order_of(request: Result<Request, OrderFault>) -> Result<Order, OrderFault> {
    match request {
        Ok(Request::Order(order)) => Ok(order),
        Ok(Request::Text(_)) => Err(OrderFault::Words),
        Err(fault) => Err(fault),
    }
}

/// Reports whether a text is asked for.
fn shows(request: Result<Request, OrderFault>) -> Result<bool, OrderFault> {
    match request {
        Ok(Request::Text(_)) => Ok(true),
        Ok(Request::Order(_)) => Ok(false),
        Err(fault) => Err(fault),
    }
}

/// Words that ask for a run.
struct Words;

impl Spared<()> for Words {
    fn work(&self, alloc: Global, _subject: &mut (), memory: &mut UsedUp) -> Outcome {
        memory.run_short();
        let order = order_of(request_of(alloc, &["x3d_share", "run"]));
        memory.come_back();
        Outcome::of(
            order == Ok(Order::Run { no_trace: false }),
            order == Err(OrderFault::Memory),
        )
    }
}

/// Words that ask for help.
struct Help;

impl Spared<()> for Help {
    fn work(&self, alloc: Global, _subject: &mut (), memory: &mut UsedUp) -> Outcome {
        memory.run_short();
        let text = shows(request_of(alloc, &["x3d_share", "--help"]));
        memory.come_back();
        Outcome::of(text == Ok(true), text == Err(OrderFault::Memory))
    }
}

#[test]
fn words_are_refused_until_there_is_enough(rt: HostRuntime) {
    assert!(rt; is_refused_until_enough(rt.alloc(), &Words, &mut (), 100));
    assert!(rt; is_refused_until_enough(rt.alloc(), &Help, &mut (), 100));
}

/// A step of each kind.
static STEPS: [Step; 10] = [
    Step::HostClock { time: 1_500_000 },
    Step::ViewerOffer {
        viewer: 1,
        point: Point {
            down: true,
            origin: Vec3 {
                x: 0,
                y: -500_000,
                z: 10_000_000,
            },
            dir: Vec3 {
                x: 0,
                y: 0,
                z: -1_000_000,
            },
        },
    },
    Step::ViewerResend {
        viewer: 2,
        place: 3,
    },
    Step::ViewerAsk { viewer: 4 },
    Step::HostPacket { input: 5 },
    Step::HostAck { viewer: 6 },
    Step::HostTake { packet: 7 },
    Step::ViewerTake {
        viewer: 8,
        packet: 9,
    },
    Step::ViewerSave { viewer: 10 },
    Step::ViewerRewind {
        viewer: 11,
        snapshot: 12,
        boot: 13,
    },
];

const LINES: &[u8] = b"clock 1.5
offer 1 1 0 -0.5 10 0 0 -1
resend 2 3
ask 4
packet 5
ack 6
give 7 host
give 9 8
save 10
rewind 11 12 13
scene
#X3D V3.0 utf8
";

fn is_whole(schedule: &Schedule) -> bool {
    schedule.steps.as_slice() == STEPS.as_slice()
        && schedule.scene.as_slice() == b"#X3D V3.0 utf8\n".as_slice()
}

fn is_read(alloc: Global) -> Result<bool, AllocError> {
    let mut reader = LINES;
    let Ok(schedule) = read_schedule(alloc, &mut reader) else {
        return Ok(false);
    };
    Ok(is_whole(&schedule))
}

#[test]
fn a_schedule_is_read(rt: HostRuntime) {
    holds(&rt, is_read(rt.alloc()));
}
