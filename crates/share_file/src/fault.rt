//! Why a file isn't opened as a log.

ghost use Rattle.std.specs.Prelude.{◌≡◌, ◌⊎◌};
ghost use Rattle.share_file.specs.declared.fault.OpenFault.TheVariants.{Device, Memory};

use share_entries::HeadFault;
use share_log::LogFault;
use std::alloc::{AllocError, AllocFailed};
use std::io;

/// Why a file isn't opened as a log, or made one. The checks run in this order, and the first that
/// fails is reported; `Device` and `Memory` are reported when they happen.
#[derive(Clone, Copy, Debug, Drop, PartialEq, Eq)]
pub enum OpenFault {
    /// A call of the disk failed.
    Device,
    /// A log is to be made in a file that has more than one byte. Nothing was written.
    NotEmpty,
    /// The first frame is missing, or it isn't the head of a log. Nothing was cut.
    BadHead(HeadFault),
    /// The log is of another scene. Nothing was cut.
    WrongScene,
    /// The log is of another number of viewers. Nothing was cut.
    WrongSeats,
    /// This frame is damaged, counted from the head, which is 0. Nothing was cut.
    LogDamaged(u64),
    /// Memory was refused.
    Memory,
}

impl From<AllocError> for OpenFault {
    ghost from_gives = { λ _ e. e ≡ Memory };

    fn from(_: AllocError) -> Self {
        OpenFault::Memory
    }
}

impl<T: Drop> From<AllocFailed<T>> for OpenFault {
    ghost from_gives = { λ _ e. e ≡ Memory };

    fn from(_: AllocFailed<T>) -> Self {
        OpenFault::Memory
    }
}

impl From<io::Error> for OpenFault {
    ghost from_gives = { λ _ e. e ≡ Device };

    fn from(_: io::Error) -> Self {
        OpenFault::Device
    }
}

// Opening never reports that a number is taken, or that the log is full.
impl From<LogFault> for OpenFault {
    ghost from_gives = { λ _ e. (e ≡ Device) ⊎ (e ≡ Memory) };

    fn from(fault: LogFault) -> Self {
        match fault {
            LogFault::Memory => OpenFault::Memory,
            _ => OpenFault::Device,
        }
    }
}
