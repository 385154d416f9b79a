//! Why a request has no answer.

use http1::WriteError;
use share_engine::EngineFault;
use std::alloc::AllocError;

/// Why a request has no answer.
#[derive(Clone, Copy, Debug, Drop, PartialEq, Eq)]
pub(crate) enum PostFault {
    /// Nothing was sent.
    NotSent,
    /// Something was sent, and no whole answer came in time.
    Silent,
    /// Memory was refused, and nothing was sent.
    Memory,
}

impl From<AllocError> for PostFault {
    fn from(_: AllocError) -> PostFault {
        PostFault::Memory
    }
}

impl From<WriteError> for PostFault {
    fn from(_: WriteError) -> PostFault {
        PostFault::NotSent
    }
}

impl From<PostFault> for EngineFault {
    fn from(fault: PostFault) -> EngineFault {
        match fault {
            PostFault::Memory => EngineFault::Memory,
            PostFault::NotSent | PostFault::Silent => EngineFault::Silent,
        }
    }
}
