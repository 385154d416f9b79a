//! Why bytes are not a snapshot.

ghost use Rattle.snapshot_codec.specs.declared.fault.PartFault.TheVariants.{Memory};

use std::alloc::{AllocError, AllocFailed};
use thiserror::Error;

/// Why a part of a snapshot wasn't read: the bytes aren't those of a value in its range
/// (`NotCanonical`), or memory ran out (`Memory`).
#[derive(Clone, Copy, Debug, PartialEq, Eq, Error)]
pub enum PartFault {
    #[error("the bytes are not those of a value in its range")]
    NotCanonical,
    #[error("memory was refused")]
    Memory,
}

impl From<AllocError> for PartFault {
    ghost use Rattle.std.specs.Prelude.{◌≡◌};

    ghost from_gives = { λ _ fault. fault ≡ Memory };

    fn from(_refused: AllocError) -> PartFault {
        PartFault::Memory
    }
}

impl<T: Drop> From<AllocFailed<T>> for PartFault {
    ghost use Rattle.std.specs.Prelude.{◌≡◌};

    ghost from_gives = { λ _ fault. fault ≡ Memory };

    fn from(_refused: AllocFailed<T>) -> PartFault {
        PartFault::Memory
    }
}
