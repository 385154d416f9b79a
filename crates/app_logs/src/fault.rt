//! Why a log isn't used, and why a host over it ends.

ghost use Rattle.std.specs.Prelude.{◌≡◌};
ghost use Rattle.app_logs.specs.Faults.{append_fault_of, open_fault_of};
ghost use Rattle.app_logs.specs.declared.fault.LogFault.TheVariants.{Memory};
ghost use Rattle.app_logs.specs.declared.fault.RunFault.TheVariants.{Turn};

use share_file::OpenFault;
use share_logged::{LoggedFault, ResumeFault};
use share_store::AppendFault;
use std::alloc::AllocError;
use thiserror::Error;

/// Why the file of a log isn't used.
#[derive(Clone, Copy, Debug, Drop, PartialEq, Eq, Error)]
pub enum LogFault {
    #[error("there is no such file")]
    NoLog,
    #[error("another host has the log")]
    LogBusy,
    #[error("a log is to be made in a file that isn't empty")]
    NotEmpty,
    #[error("the file doesn't begin with the head of a log")]
    BadHead,
    #[error("the log is of another scene")]
    WrongScene,
    #[error("the log is of another number of viewers")]
    WrongSeats,
    #[error("frame {0} of the log is damaged")]
    LogDamaged(u64),
    #[error("entry {0} is not one that a host wrote there")]
    NotALog(u64),
    #[error("the log has its entries up to {0} as a base alone")]
    HasBase(u64),
    #[error("the log is full")]
    LogFull,
    #[error("the log's device failed")]
    Device,
    #[error("memory was refused")]
    Memory,
}

impl From<AllocError> for LogFault {
    ghost from_gives = { λ _ fault. fault ≡ Memory };

    fn from(_refused: AllocError) -> LogFault {
        LogFault::Memory
    }
}

impl From<ResumeFault> for LogFault {
    ghost use Rattle.app_logs.specs.Faults.{resume_fault_of};

    ghost from_gives = { λ why fault. fault ≡ resume_fault_of why };

    fn from(fault: ResumeFault) -> LogFault {
        match fault {
            ResumeFault::NotALog(number) => LogFault::NotALog(number),
            ResumeFault::Memory => LogFault::Memory,
        }
    }
}

/// Why the turns of a host over a log end early.
#[derive(Clone, Copy, Debug, Drop, PartialEq, Eq, Error)]
pub enum RunFault {
    #[error("{0}")]
    Turn(LoggedFault),
    #[error("all turns were used up")]
    TurnsUsedUp,
}

impl From<LoggedFault> for RunFault {
    ghost use Rattle.std.specs.Prelude.{◌≡◌};

    ghost from_gives = { λ turn fault. fault ≡ Turn turn };

    fn from(fault: LoggedFault) -> RunFault {
        RunFault::Turn(fault)
    }
}

/// Returns why a file isn't opened as a log, or made one.
pub(crate) fn open_fault_of(fault: OpenFault) -> LogFault
    ensures { result ≡ open_fault_of fault }
{
    match fault {
        OpenFault::Device => LogFault::Device,
        OpenFault::NotEmpty => LogFault::NotEmpty,
        OpenFault::BadHead(_) => LogFault::BadHead,
        OpenFault::WrongScene => LogFault::WrongScene,
        OpenFault::WrongSeats => LogFault::WrongSeats,
        OpenFault::LogDamaged(frame) => LogFault::LogDamaged(frame),
        OpenFault::Memory => LogFault::Memory,
    }
}

/// Returns why entries weren't appended. A log that has other entries, or is in doubt, is a device
/// that failed: the next start goes on with what the file has.
pub fn append_fault_of(fault: AppendFault) -> LogFault
    ensures { result ≡ append_fault_of fault }
{
    match fault {
        AppendFault::Taken => LogFault::Device,
        AppendFault::InDoubt => LogFault::Device,
        AppendFault::Memory => LogFault::Memory,
        AppendFault::Full => LogFault::LogFull,
    }
}
