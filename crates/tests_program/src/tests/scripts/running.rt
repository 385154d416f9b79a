//! What a run does with the boxes that are passed to it.

use super::super::texts::{Part, made};
use super::probe::{Log, Made, boxes_made};
use super::worlds::COUNTERS;
use super::{Row, all_hold};
use app_program::{RunFault, RunOutput, read_job, run, run_job};
use script_host::AttachFault;
use std::alloc::Global;
use std::process::Abort;

/// Two clocks that drive both counters.
static JOB: [Part; 2] = [Part(1, "clock 1\nclock 3\nscene\n"), Part(1, COUNTERS)];

/// Boxes for a job, why they are refused, their log, and how often they were called: for an event,
/// after the events of a timestamp, to be restored, and for their states.
struct Boxed(&'static [Made], Option<RunFault>, u64, [u32; 4]);

/// Returns why a job of these bytes isn't run with these boxes, or `None` if there is no job.
fn fault_of(
    alloc: Global,
    bytes: &[u8],
    made: &[Made],
    log: &Log,
    out: &mut Vec<u8>,
) -> Option<Option<RunFault>> {
    let mut reader = bytes;
    let Ok(job) = read_job(alloc, &mut reader) else {
        return None;
    };
    let Ok(boxes) = boxes_made(alloc, made, log) else {
        drop(job);
        return None;
    };
    Some(run(alloc, RunOutput::TraceAndScene, job, boxes, out).err())
}

/// Reports whether `out` is what the job prints with boxes of the stock, or nothing if it isn't
/// run.
fn is_printed(alloc: Global, bytes: &[u8], out: &[u8], is_run: bool) -> bool {
    if !is_run {
        return out.is_empty();
    }
    let mut reader = bytes;
    let mut wanted = Vec::new(alloc);
    let answer = run_job(alloc, RunOutput::TraceAndScene, &mut reader, &mut wanted).err();
    let same = out == wanted.as_slice();
    drop(wanted);
    answer.is_none() && same
}

impl Boxed {
    fn is_run(&self, alloc: Global, bytes: &[u8]) -> bool {
        let log = Log::new();
        let mut out = Vec::new(alloc);
        let fault = fault_of(alloc, bytes, self.0, &log, &mut out);
        let printed = is_printed(alloc, bytes, out.as_slice(), self.1.is_none());
        drop(out);
        fault == Some(self.1) && printed && log.get() == self.2 && log.calls() == self.3
    }
}

impl Row for Boxed {
    fn holds(&self, alloc: Global) -> bool {
        let Ok(bytes) = made(alloc, &JOB) else {
            return false;
        };
        let held = self.is_run(alloc, bytes.as_slice());
        drop(bytes);
        held
    }
}

/// Boxes are asked for their states as they are attached, and never restored. Refused boxes are
/// dropped, and not initialized.
static BOXED: [Boxed; 3] = [
    Boxed(
        &[Made::Counter(5), Made::Refusing(5)],
        None,
        12_45_78,
        [4, 4, 0, 2],
    ),
    Boxed(
        &[Made::Counter(5), Made::Gate],
        Some(RunFault::Attach(AttachFault::KindDiffers(1))),
        78,
        [0, 0, 0, 1],
    ),
    Boxed(
        &[],
        Some(RunFault::Attach(AttachFault::WrongCount)),
        0,
        [0, 0, 0, 0],
    ),
];

#[test]
fn a_run_calls_its_boxes(rt: HostRuntime) {
    all_hold(&rt, rt.alloc(), &BOXED);
}
