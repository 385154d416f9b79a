//! Why no host begins with the bytes of a log.

ghost use Rattle.std.specs.Prelude.{◌≡◌};
ghost use Rattle.embed_world.specs.LogStatus as spec;

use crate::status::{MEMORY, RANGE, WRONG_SCENE};
use std::fmt;
use thiserror::Error;

const NOT_A_LOG: u8 = 60;

const LOG_GAP: u8 = 61;

/// Why no host begins with the bytes of a log, in order of precedence.
#[derive(Clone, Copy, Debug, PartialEq, Eq, Error)]
pub enum LogFault {
    #[error("a host has 1 to 64 viewers")]
    Viewers,
    #[error("the log is of another scene")]
    WrongScene,
    /// Where this entry should be is another number.
    #[error("entry {0} is missing")]
    Gap(u64),
    /// No host of this world wrote the entry with this number there.
    #[error("entry {0} is not one that a host wrote there")]
    NotALog(u64),
    #[error("memory was refused")]
    Memory,
}

/// The number for why no host begins.
pub fn status_of_log(fault: LogFault) -> u8
    ensures { result ≡ spec.status_of_log fault }
{
    match fault {
        LogFault::Viewers => RANGE,
        LogFault::WrongScene => WRONG_SCENE,
        LogFault::Gap(_) => LOG_GAP,
        LogFault::NotALog(_) => NOT_A_LOG,
        LogFault::Memory => MEMORY,
    }
}

/// Writes the number of the first wrong entry, if the fault has one.
pub fn tell_entry(fault: LogFault, entry: &mut u64)
    ensures { entry.new ≡ spec.entry_of_log entry.old fault }
{
    match fault {
        LogFault::Gap(number) => *entry = number,
        LogFault::NotALog(number) => *entry = number,
        LogFault::Viewers => {}
        LogFault::WrongScene => {}
        LogFault::Memory => {}
    }
}
