//! Why a world isn't opened, and why a log isn't read.

ghost use Rattle.std.specs.Prelude.{◌≡◌};
ghost use Rattle.share_engine.specs.declared.fault.ReadingFault.TheVariants.{Memory};
ghost use Rattle.share_engine.specs.Faults as spec;

use share_store::ReadFault;
use std::alloc::{AllocError, AllocFailed};
use thiserror::Error;

/// Why a world isn't opened. `Silent`, `Malformed` and `Memory` are reported when they happen. The
/// others are tested in the order in which they stand here, and the first that fails is reported.
#[derive(Clone, Copy, Debug, Drop, PartialEq, Eq, Error)]
pub enum WorldFault {
    /// No answer came. If the world was to be made, it may have been.
    #[error("the store doesn't answer")]
    Silent,
    /// The answer isn't one of etcd, or the keys of the world have values that no host puts there.
    #[error("the store's answer is malformed")]
    Malformed,
    /// The world's head isn't the head of a log.
    #[error("the world's head is damaged")]
    BadHead,
    /// The log is of another scene.
    #[error("the log is of another scene")]
    WrongScene,
    /// The log is of another number of viewers.
    #[error("the log is of another number of viewers")]
    WrongSeats,
    /// The entry of this number, counted from 1, isn't read: it is missing or damaged.
    #[error("the log is damaged at entry {0}")]
    Damaged(u64),
    /// Memory was refused. If the world was to be made, it may have been.
    #[error("memory was refused")]
    Memory,
}

/// Why a log gets no base.
#[derive(Clone, Copy, Debug, Drop, PartialEq, Eq, Error)]
pub enum BasingFault {
    /// The base isn't of this place of the log. Nothing was asked.
    #[error("the base is of another place")]
    OtherPlace,
    /// The log has another base since, or other entries: nothing was done.
    #[error("another host was first")]
    Taken,
    /// The base may be there or not. The handle takes no append before it has read on.
    #[error("the store's answer is missing")]
    InDoubt,
    /// Memory was refused. Nothing was asked.
    #[error("memory was refused")]
    Memory,
}

/// Why a log isn't read.
#[derive(Clone, Copy, PartialEq, Eq)]
pub(crate) enum ReadingFault {
    /// No answer came.
    Silent,
    /// The answer isn't one to a reading of this world.
    Malformed,
    /// The world isn't there or has another head, or the next entry isn't read.
    NotNext,
    /// Memory was refused.
    Memory,
}

impl From<AllocError> for ReadingFault {
    ghost from_gives = { λ _ e. e ≡ Memory };

    fn from(_: AllocError) -> Self {
        ReadingFault::Memory
    }
}

impl<T: Drop> From<AllocFailed<T>> for ReadingFault {
    ghost from_gives = { λ _ e. e ≡ Memory };

    fn from(_: AllocFailed<T>) -> Self {
        ReadingFault::Memory
    }
}

/// Returns what a log that is read on reports.
pub(crate) fn read_fault(fault: ReadingFault) -> ReadFault
    ensures { result ≡ spec.read_fault fault }
{
    match fault {
        ReadingFault::Silent => ReadFault::Silent,
        ReadingFault::Malformed => ReadFault::Silent,
        ReadingFault::NotNext => ReadFault::Device,
        ReadingFault::Memory => ReadFault::Memory,
    }
}

/// Returns what opening reports, if `next` is the number of the first entry that isn't read.
pub(crate) fn world_fault(fault: ReadingFault, next: u64) -> WorldFault
    ensures { result ≡ spec.world_fault fault next }
{
    match fault {
        ReadingFault::Silent => WorldFault::Silent,
        ReadingFault::Malformed => WorldFault::Malformed,
        ReadingFault::NotNext => WorldFault::Damaged(next),
        ReadingFault::Memory => WorldFault::Memory,
    }
}
