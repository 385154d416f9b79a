//! The commands in which several peers do a job in one process: in memory, or each at a port of
//! this machine.

ghost use Rattle.std.specs.Prelude.{◌≡◌, ◌≤◌, IfOk, length};
ghost use Rattle.x3d_values.specs.Ranges.{max_viewers};

use app_commands::{JointJob, agree_job, bound, bound_free, joint_job, number_of, rehearse_job};
use app_jobs::JobFault;
use app_program::{Failure, RunFault, ShareFault, read_whole, write_whole};
use app_words::Order;
use std::io;
use std::net::Net;

fn print<R: Print>(rt: &R, text: &[u8]) -> Result<(), RunFault> {
    Ok(write_whole(&mut io::writer(rt), text)?)
}

/// Reads a schedule, and returns its log.
fn read_log<R: AllocGlobal + Input>(rt: &R, viewers: u8) -> Result<Vec<u8>, JobFault>
    requires some { 1 ≤ viewers }
    requires most { viewers ≤ max_viewers }
{
    let bytes = read_whole(rt.alloc(), &mut rt.reader())?;
    rehearse_job(rt.alloc(), bytes.as_slice(), viewers)
}

/// Reads a schedule, runs a host and viewers in memory through it, and prints its log.
pub fn rehearse<R: AllocGlobal + Input + Print>(rt: &R, viewers: u8) -> Result<(), Failure>
    requires some { 1 ≤ viewers }
    requires most { viewers ≤ max_viewers }
{
    let log = read_log(rt, viewers)?;
    print(rt, log.as_slice())?;
    Ok(())
}

/// Reads a job, and makes its viewers.
fn read_joint<R: AllocGlobal + Input>(
    rt: &R,
    order: &Order,
    viewers: u8,
) -> Result<JointJob, JobFault>
    requires some { 1 ≤ viewers }
    requires most { viewers ≤ max_viewers }
    ensures { IfOk result (λ j. length j.viewers.items ≡ viewers) }
{
    let bytes = read_whole(rt.alloc(), &mut rt.reader())?;
    joint_job(rt.alloc(), bytes.as_slice(), order, viewers)
}

/// Runs the host and the viewers of a job, each at a free port of this machine, and returns the
/// text.
fn agreed<R: AllocGlobal + Net>(
    rt: &R,
    job: &mut JointJob,
    turns: u32,
) -> Result<Vec<u8>, ShareFault>
    requires some { 1 ≤ length job.old.viewers.items }
    requires most { length job.old.viewers.items ≤ max_viewers }
{
    let mut port = bound(rt, 0)?;
    let own = number_of(&port)?;
    let mut ports = bound_free(rt, rt.alloc(), job.viewers.len())?;
    agree_job(rt.alloc(), job, turns, own, &mut port, &mut ports)
}

/// Reads a job, runs a host and viewers over UDP, and prints `agreed`, the trace and the scene.
pub fn agree<R: AllocGlobal + Input + Print + Net>(
    rt: &R,
    order: &Order,
    viewers: u8,
    turns: u32,
) -> Result<(), Failure>
    requires some { 1 ≤ viewers }
    requires most { viewers ≤ max_viewers }
{
    let mut job = read_joint(rt, order, viewers)?;
    let text = agreed(rt, &mut job, turns);
    // For the prover: an explicit call. The drop of a job would be proved at each exit.
    job.close();
    print(rt, text?.as_slice())?;
    Ok(())
}
