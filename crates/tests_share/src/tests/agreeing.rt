//! The rounds of a host and two viewers over a cable. They agree on what `run` prints, and if a
//! port fails they end at that call.

ghost use Rattle.std.specs.Prelude.{◌≡◌, length};

use super::cable::{End, HOST, laid};
use super::given::{Job, ORDER, TWO_CLOCKS, TWO_POINTERS, joined, run_of};
use super::{Row, all_hold};
use app_commands::{JointJob, agree_job, joint_job};
use app_program::ShareFault;
use share_turns::Port;
use std::alloc::{AllocError, Global};
use std::process::Abort;

/// Whether rounds printed the expected text, or why they ended; the number of sends and receives;
/// and how many of these failed.
type Ending = (Result<bool, ShareFault>, u64, u64);

/// Runs rounds over a cable whose call of number `fails_at` fails; 0 for none.
fn rounds(alloc: Global, job: &mut JointJob, lossy: bool, fails_at: u64, wanted: &[u8]) -> Ending
    requires { length job.old.viewers.items ≡ 2 }
{
    let cable = laid(alloc, lossy, fails_at);
    let mut port = End::new(&cable, HOST);
    let mut ports = [End::new(&cable, 1), End::new(&cable, 2)];
    let printed = match agree_job(alloc, job, 10_000, HOST, &mut port, &mut ports) {
        Ok(text) => Ok(text.as_slice() == wanted),
        Err(fault) => Err(fault),
    };
    let failed = port.failures().saturating_add(ports[0].failures());
    let failed = failed.saturating_add(ports[1].failures());
    let cable = cable.into_inner();
    let calls = cable.calls;
    drop(cable);
    (printed, calls, failed)
}

/// Returns how the rounds of a job's bytes end, or `None` if there is no job.
fn ending_of(
    alloc: Global,
    bytes: &[u8],
    lossy: bool,
    fails_at: u64,
    wanted: &[u8],
) -> Option<Ending> {
    let Ok(mut job) = joint_job(alloc, bytes, &ORDER, 2) else {
        return None;
    };
    let ending = rounds(alloc, &mut job, lossy, fails_at, wanted);
    drop(job);
    Some(ending)
}

/// Reports whether rounds print `wanted`; end at each call that fails; and print it again if a
/// later call would fail, and over a lossy cable.
fn agree(alloc: Global, bytes: &[u8], wanted: &[u8]) -> bool {
    let whole = ending_of(alloc, bytes, false, 0, wanted);
    let Some((Ok(true), calls, 0)) = whole else {
        return false;
    };
    for call in 1..=calls {
        let failed = Some((Err(ShareFault::Port), call, 1));
        if ending_of(alloc, bytes, false, call, wanted) != failed {
            return false;
        }
    }
    let later = ending_of(alloc, bytes, false, calls.saturating_add(1), wanted);
    let lossy = ending_of(alloc, bytes, true, 0, wanted);
    later == whole && matches!(lossy, Some((Ok(true), _, 0)))
}

/// A job, and the line before what `run` prints of it.
struct Agreed(&'static Job, &'static str);

impl Row for Agreed {
    fn holds(&self, alloc: Global) -> Result<bool, AllocError> {
        let bytes = joined(alloc, self.0.steps, self.0.scene)?;
        let wanted = run_of(alloc, self.1, bytes.as_slice())?;
        Ok(agree(alloc, bytes.as_slice(), wanted.as_slice()))
    }
}

static AGREED: [Agreed; 2] = [
    Agreed(&TWO_CLOCKS, "agreed 2\n"),
    Agreed(&TWO_POINTERS, "agreed 6\n"),
];

#[test]
fn viewers_agree_on_what_a_run_prints(rt: HostRuntime) {
    all_hold(&rt, rt.alloc(), &AGREED);
}
