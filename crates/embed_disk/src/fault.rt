//! Why a file isn't opened.

use std::{fmt, io};
use thiserror::Error;

/// Why a file isn't opened.
#[derive(Clone, Copy, Debug, Drop, PartialEq, Eq, Error)]
pub enum FileFault {
    /// There is no file of this name, or no folder for one.
    #[error("there is no such file")]
    Missing,
    /// Another program, or another handle of this one, has the file open.
    #[error("another program has the file")]
    Busy,
    /// A call of the system failed, or the name isn't that of a file with bytes.
    #[error("the device failed")]
    Device,
    /// Memory was refused.
    #[error("memory was refused")]
    Memory,
}
