//! Why a log doesn't append or read.

use thiserror::Error;

/// Why entries weren't appended.
#[derive(Clone, Copy, Debug, Drop, PartialEq, Eq, Error)]
pub enum AppendFault {
    /// The log has other entries after those that this handle knows. Nothing was added. The handle
    /// takes no append before it has read on.
    #[error("the log has other entries there")]
    Taken,
    /// The entries may be in the log, all of them or none. The handle takes no append before it has
    /// read on.
    #[error("the log's answer is missing")]
    InDoubt,
    /// Memory was refused. Nothing was added.
    #[error("memory was refused")]
    Memory,
    /// The log takes no more entries. Nothing was added.
    #[error("the log is full")]
    Full,
}

/// Why a log wasn't read.
#[derive(Clone, Copy, Debug, Drop, PartialEq, Eq, Error)]
pub enum ReadFault {
    /// The log doesn't answer now: read on later.
    #[error("the log doesn't answer")]
    Silent,
    /// The device failed: open the log again.
    #[error("the log's device failed")]
    Device,
    /// Memory was refused.
    #[error("memory was refused")]
    Memory,
}
