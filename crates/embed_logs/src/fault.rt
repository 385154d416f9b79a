//! Why a log in a file doesn't do what it was asked, and the numbers that C sees.

ghost use Rattle.std.specs.Prelude.{◌≡◌};
ghost use Rattle.embed_logs.specs.LogFaults as spec;

use embed_disk::FileFault;
use share_file::OpenFault;
use std::fmt;
use thiserror::Error;

const MEMORY: u8 = 5;

const RANGE: u8 = 11;

const WRONG_SCENE: u8 = 33;

const NO_LOG: u8 = 70;

const LOG_BUSY: u8 = 71;

const DEVICE: u8 = 72;

const NOT_EMPTY: u8 = 73;

const BAD_HEAD: u8 = 74;

const WRONG_SEATS: u8 = 75;

const LOG_DAMAGED: u8 = 76;

const NOT_ENTRIES: u8 = 77;

const LOG_FULL: u8 = 78;

const IN_DOUBT: u8 = 79;

const HAS_BASE: u8 = 80;

/// Why a log in a file doesn't do what it was asked.
#[derive(Clone, Copy, Debug, Drop, PartialEq, Eq, Error)]
pub enum LogFileFault {
    #[error("a world has 1 to 64 viewers")]
    Viewers,
    #[error("there is no such file")]
    NoLog,
    #[error("another host has the log")]
    LogBusy,
    #[error("the log's device failed")]
    Device,
    #[error("a log is to be made in a file that isn't empty")]
    NotEmpty,
    #[error("the file doesn't begin with the head of a log")]
    BadHead,
    #[error("the log is of another scene")]
    WrongScene,
    #[error("the log is of another number of viewers")]
    WrongSeats,
    #[error("frame {0} of the log is damaged")]
    LogDamaged(u64),
    #[error("the log's first entries are known by a base alone")]
    HasBase,
    #[error("the bytes are not the next entries of the log")]
    NotEntries,
    #[error("the log is full")]
    LogFull,
    #[error("entries may be in the log, or not")]
    InDoubt,
    #[error("memory was refused")]
    Memory,
}

/// Returns why a log's file isn't there.
pub(crate) fn fault_of_file(fault: FileFault) -> LogFileFault
    ensures { result ≡ spec.fault_of_file fault }
{
    match fault {
        FileFault::Missing => LogFileFault::NoLog,
        FileFault::Busy => LogFileFault::LogBusy,
        FileFault::Device => LogFileFault::Device,
        FileFault::Memory => LogFileFault::Memory,
    }
}

/// Returns why a file isn't opened as a log, or made one.
pub(crate) fn fault_of_open(fault: OpenFault) -> LogFileFault
    ensures { result ≡ spec.fault_of_open fault }
{
    match fault {
        OpenFault::Device => LogFileFault::Device,
        OpenFault::NotEmpty => LogFileFault::NotEmpty,
        OpenFault::BadHead(_) => LogFileFault::BadHead,
        OpenFault::WrongScene => LogFileFault::WrongScene,
        OpenFault::WrongSeats => LogFileFault::WrongSeats,
        OpenFault::LogDamaged(frame) => LogFileFault::LogDamaged(frame),
        OpenFault::Memory => LogFileFault::Memory,
    }
}

/// The number for why a log in a file didn't do what it was asked.
pub fn status_of_log_file(fault: LogFileFault) -> u8
    ensures { result ≡ spec.status_of_log_file fault }
{
    match fault {
        LogFileFault::Viewers => RANGE,
        LogFileFault::NoLog => NO_LOG,
        LogFileFault::LogBusy => LOG_BUSY,
        LogFileFault::Device => DEVICE,
        LogFileFault::NotEmpty => NOT_EMPTY,
        LogFileFault::BadHead => BAD_HEAD,
        LogFileFault::WrongScene => WRONG_SCENE,
        LogFileFault::WrongSeats => WRONG_SEATS,
        LogFileFault::LogDamaged(_) => LOG_DAMAGED,
        LogFileFault::HasBase => HAS_BASE,
        LogFileFault::NotEntries => NOT_ENTRIES,
        LogFileFault::LogFull => LOG_FULL,
        LogFileFault::InDoubt => IN_DOUBT,
        LogFileFault::Memory => MEMORY,
    }
}

/// Writes the number of the damaged frame, if the fault has one.
pub fn tell_frame(fault: LogFileFault, place: &mut u64)
    ensures { place.new ≡ spec.frame_of place.old fault }
{
    if let LogFileFault::LogDamaged(frame) = fault {
        *place = frame;
    }
}
