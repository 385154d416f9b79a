//! Why a rehearsal ends early.

ghost use Rattle.std.specs.Prelude.{◌≡◌};
ghost use Rattle.share_rehearsal.specs.declared.fault.RehearseFault.TheVariants.{Memory};

use std::alloc::AllocError;
use thiserror::Error;

/// Why a rehearsal ends early.
#[derive(Clone, Copy, Debug, PartialEq, Eq, Error)]
pub enum RehearseFault {
    #[error("there are no viewers")]
    NoViewers,
    #[error("there are more viewers than a world may have")]
    TooManyViewers,
    #[error("memory was refused")]
    Memory,
}

impl From<AllocError> for RehearseFault {
    ghost from_gives = { λ _ fault. fault ≡ Memory };

    fn from(_refused: AllocError) -> RehearseFault {
        RehearseFault::Memory
    }
}
