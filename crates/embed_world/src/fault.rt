//! Why nothing was read of a world.

ghost use Rattle.std.specs.Prelude.{◌≡◌};
ghost use Rattle.embed_world.specs.declared.fault.LookFault.TheVariants as look;

use std::alloc::AllocError;
use std::fmt;
use thiserror::Error;

/// Why nothing was read of a world, in order of precedence.
#[derive(Clone, Copy, Debug, PartialEq, Eq, Error)]
pub enum LookFault {
    #[error("memory was refused at an earlier input")]
    Spoiled,
    #[error("there is no node of that number")]
    NoSuchNode,
    #[error("the node has no field of that number")]
    NoSuchField,
    #[error("the field holds no value")]
    NoValue,
    #[error("memory was refused")]
    Memory,
}

impl From<AllocError> for LookFault {
    ghost from_gives = { λ _ fault. fault ≡ look.Memory };

    fn from(_refused: AllocError) -> LookFault {
        LookFault::Memory
    }
}
