//! Why a raw value can't be read as a value of a type.

ghost use Rattle.std.specs.Prelude.{◌≡◌};
ghost use Rattle.scene_values.specs.FaultName.{fault_name};
ghost use Rattle.scene_values.specs.declared.fault.ValueFault.TheVariants.{Memory};

use std::alloc::AllocError;
use thiserror::Error;

/// Why a raw value can't be read as a value of a type, in the order of precedence. `Memory` may be
/// reported instead of any of the others.
#[derive(Clone, Copy, Debug, PartialEq, Eq, Error)]
pub enum ValueFault {
    #[error("the value has not the form of its type")]
    WrongType,
    #[error("a number is out of the range of its type")]
    ValueRange,
    #[error("a rotation that turns is not supported")]
    RotationUnsupported,
    #[error("memory was refused")]
    Memory,
}

impl ValueFault {
    /// Returns the name of the variant.
    pub fn name(self) -> &'static str
        ensures { result.now ≡ fault_name self }
    {
        match self {
            ValueFault::WrongType => "WrongType",
            ValueFault::ValueRange => "ValueRange",
            ValueFault::RotationUnsupported => "RotationUnsupported",
            ValueFault::Memory => "Memory",
        }
    }
}

impl From<AllocError> for ValueFault {
    ghost from_gives = { λ _ fault. fault ≡ Memory };

    fn from(_refused: AllocError) -> ValueFault {
        ValueFault::Memory
    }
}
