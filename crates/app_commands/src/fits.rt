//! Which steps the job of a command may have.

ghost use Rattle.std.specs.Prelude.{◌≡◌};
ghost use Rattle.std.specs.Option.{option_copied};
ghost use Rattle.app_commands.specs.Fits.{is_beyond, is_point, is_foreign};
ghost use Rattle.app_commands.specs.Fits.{refuses, first_refused, fits};

use app_jobs::{JobFault, JobInputs};
use app_words::Order;
use x3d_values::{Cause, Stamped};

fn is_point(cause: Cause) -> bool
    ensures { result ≡ is_point cause }
{
    match cause {
        Cause::Clock => false,
        Cause::Pointer(_) => true,
    }
}

/// Reports whether the cause is anything but a point of this viewer.
fn is_foreign(who: u8, cause: Cause) -> bool
    ensures { result ≡ is_foreign who cause }
{
    match cause {
        Cause::Clock => true,
        Cause::Pointer(pointer) => pointer.who() != who,
    }
}

/// Reports whether the cause is a point of a viewer that isn't below `viewers`.
fn is_beyond(viewers: u8, cause: Cause) -> bool
    ensures { result ≡ is_beyond viewers cause }
{
    match cause {
        Cause::Clock => false,
        Cause::Pointer(pointer) => pointer.who() >= viewers,
    }
}

/// Reports whether the job of a command may not have this step.
fn refuses(order: &Order, input: &Stamped) -> bool
    ensures { result ≡ refuses order.now input.now }
{
    match order {
        Order::Agree { viewers, .. } => is_beyond(*viewers, input.cause()),
        Order::Host(_) => is_point(input.cause()),
        Order::View(asked) => is_foreign(asked.who, input.cause()),
        _ => false,
    }
}

fn first_refused<'a>(order: &Order, inputs: &'a [Stamped]) -> Option<&'a Stamped>
    ensures { option_copied result ≡ first_refused order.now inputs.now }
{
    inputs.iter().find(|input| refuses(order, input))
}

/// Checks whether the job of a command may have these steps. A job of `agree` may have clocks and
/// points of its viewers, one of `host` clocks only, and one of `view` points of its viewer only.
/// Other commands take every step.
///
/// Fails with `BadJob` and the line of the first step that is refused. Allocates no memory.
pub fn job_fits(inputs: &JobInputs, order: &Order) -> Result<(), JobFault>
    ensures { result ≡ fits order.now inputs.now }
{
    match first_refused(order, inputs.as_slice()) {
        None => Ok(()),
        Some(input) => Err(JobFault::BadJob(input.number())),
    }
}
