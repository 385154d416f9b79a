//! A viewer with its job, and the boot that it takes.

ghost use Rattle.std.specs.Prelude.{◌≤◌};
ghost use Rattle.app_words.specs.Words.{ViewInRange};

use app_commands::{Seat, boot_beyond, boot_now, first_boot, seated_job};
use app_jobs::JobFault;
use app_program::{Failure, ShareFault, read_whole};
use app_words::{Order, ViewOrder};
use std::alloc::Global;
use std::mem;
use std::time::Clock;

/// A viewer, and the job that it was made of.
#[derive(Drop)]
pub struct Seated<'a> {
    pub seat: Seat,
    order: &'a Order,
    job: Vec<u8>,
    /// The boot with which it takes part.
    pub boot: u32,
}

impl Seated<'_> {
    /// Drops the viewer.
    pub fn close(self) {
        drop(self);
    }
}

/// Returns the boot with which a viewer takes part if its host knows none of it.
fn own_boot<C: Clock>(clock: &C, asked: &ViewOrder) -> u32
    requires { ViewInRange asked.now }
    ensures { 1 ≤ result }
{
    match asked.boot {
        Some(boot) => boot,
        None => boot_now(clock),
    }
}

/// Returns the viewer of a job that takes part with this boot, before any input.
fn seat_of(
    alloc: Global,
    job: &[u8],
    order: &Order,
    asked: &ViewOrder,
    boot: u32,
) -> Result<Seat, JobFault>
    requires asked { ViewInRange asked.now }
    requires boot { 1 ≤ boot }
{
    seated_job(alloc, job, order, asked.who, first_boot(boot, asked.join))
}

/// Reads a job of points, and makes its viewer.
pub fn read_seated<'a, R: AllocGlobal + Clock + Input>(
    rt: &R,
    order: &'a Order,
    asked: &ViewOrder,
) -> Result<Seated<'a>, JobFault>
    requires { ViewInRange asked.now }
{
    let job = read_whole(rt.alloc(), &mut rt.reader())?;
    let boot = own_boot(rt, asked);
    let seat = seat_of(rt.alloc(), job.as_slice(), order, asked, boot)?;
    Ok(Seated {
        seat,
        order,
        job,
        boot,
    })
}

/// Makes a viewer again, with this boot.
fn take_boot(
    alloc: Global,
    viewer: &mut Seated<'_>,
    asked: &ViewOrder,
    boot: u32,
) -> Result<(), JobFault>
    requires asked { ViewInRange asked.now }
    requires boot { 1 ≤ boot }
{
    let seat = seat_of(alloc, viewer.job.as_slice(), viewer.order, asked, boot)?;
    viewer.boot = boot;
    mem::replace(&mut viewer.seat, seat).close();
    Ok(())
}

/// Has a viewer to which no boot was given take one above the last that its host knows of it.
/// Fails with `BootsSpent` if there is none.
pub fn rise(
    alloc: Global,
    viewer: &mut Seated<'_>,
    asked: &ViewOrder,
    kept: Option<u32>,
) -> Result<(), Failure>
    requires { ViewInRange asked.now }
{
    let Some(kept) = kept else {
        return Ok(());
    };
    if asked.boot.is_some() {
        return Ok(());
    }
    match boot_beyond(kept, viewer.boot) {
        Some(boot) if boot == viewer.boot => Ok(()),
        Some(boot) => Ok(take_boot(alloc, viewer, asked, boot)?),
        None => Err(Failure::Share(ShareFault::BootsSpent)),
    }
}
