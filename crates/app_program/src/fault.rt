//! Why a host and viewers don't finish a job.

use thiserror::Error;

/// Why a host and viewers don't do a job together.
#[derive(Clone, Copy, Debug, PartialEq, Eq, Error)]
pub enum ShareFault {
    #[error("a port failed")]
    Port,
    #[error("all turns were used up")]
    TurnsUsedUp,
    #[error("the boot is not above that of the snapshot")]
    BootNotNew,
    #[error("no boot is left for this viewer")]
    BootsSpent,
    #[error("what was gathered is not a snapshot of the scene")]
    BadSnapshot,
    #[error("the host is of another run")]
    OtherRun,
    #[error("an input is of another list")]
    OtherList,
    #[error("the host didn't welcome the viewer")]
    NoWelcome,
    #[error("memory was refused before")]
    Spoiled,
    #[error("memory was refused")]
    Memory,
}
