//! The numbers that C sees for the answers of a host that was resumed.

ghost use Rattle.std.specs.Prelude.{◌≡◌};
ghost use Rattle.embed_world.specs.LogStatus as spec;
ghost use Rattle.embed_world.specs.PeerStatus.{status_by};

use crate::lasting::AppendFault;
use crate::status::{DONE, MEMORY};
use share_pending::AppendAnswer;

const NOT_LASTING: u8 = 62;

const NOT_AWAITED: u8 = 63;

/// The number for why an append wasn't begun, or its answer wasn't taken.
pub fn status_of_append(fault: AppendFault) -> u8
    ensures { result ≡ spec.status_of_append fault }
{
    match fault {
        AppendFault::NotLasting => NOT_LASTING,
        AppendFault::NotAwaited => NOT_AWAITED,
        AppendFault::Memory => MEMORY,
    }
}

/// The number for whether the answer of a log was taken, or why not.
pub fn status_of_answer(answer: Result<bool, AppendFault>) -> u8
    ensures { result ≡ status_by spec.status_of_append answer }
{
    match answer {
        Ok(_goes_on) => DONE,
        Err(fault) => status_of_append(fault),
    }
}

/// Returns the answer of a log with this number: 0 is `Stored`, 1 `Taken` and 2 `InDoubt`.
pub fn answer_of(number: u8) -> Option<AppendAnswer>
    ensures { result ≡ spec.answer_of number }
{
    match number {
        0 => Some(AppendAnswer::Stored),
        1 => Some(AppendAnswer::Taken),
        2 => Some(AppendAnswer::InDoubt),
        _ => None,
    }
}
