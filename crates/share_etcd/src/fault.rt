//! Why an answer isn't read.

ghost use Rattle.std.specs.Prelude.{◌≡◌};
ghost use Rattle.share_etcd.specs.declared.fault.AnswerFault.TheVariants.{Memory};

use std::alloc::{AllocError, AllocFailed};
use thiserror::Error;

/// Why an answer wasn't read.
#[derive(Clone, Copy, Debug, Drop, PartialEq, Eq, Error)]
pub enum AnswerFault {
    /// The answer isn't what etcd answers to a reading of this world, or the keys of the world have
    /// values that no host puts there.
    #[error("the answer is malformed")]
    Malformed,
    /// Memory was refused.
    #[error("memory was refused")]
    Memory,
}

impl From<AllocError> for AnswerFault {
    ghost from_gives = { λ _ e. e ≡ Memory };

    fn from(_: AllocError) -> Self {
        AnswerFault::Memory
    }
}

impl<T: Drop> From<AllocFailed<T>> for AnswerFault {
    ghost from_gives = { λ _ e. e ≡ Memory };

    fn from(_: AllocFailed<T>) -> Self {
        AnswerFault::Memory
    }
}
