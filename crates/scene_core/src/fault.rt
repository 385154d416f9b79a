//! Faults of a scene: why a scene can't be made from a document.

ghost use Rattle.std.specs.Prelude.{◌≡◌};
ghost use Rattle.scene_core.specs.Faults.{fault_name, fault, memory};

use classic_lex::write_on_line;
use std::alloc::{AllocError, AllocFailed};
use std::{error, fmt};
use thiserror::Error;

/// A fault of a scene, and the line where it was found.
#[derive(Clone, Copy, Debug, PartialEq, Eq)]
pub struct SceneFault {
    pub kind: SceneFaultKind,
    /// The line number, counted from 1, or 0 if the fault has no place in the text.
    pub line: u32,
}

/// The kinds of faults of a scene. The first fault found is reported: faults of fields first, by
/// node number and then field number, and at one field in the order of this list; then those of
/// roots and helpers; then TooDeep, and then TooMany. TooDeep is a chain of more than 64 nodes.
/// TooMany is more than 65,536 places, 64 sensors in one list (but a Switch's), or 65,536 fields of
/// one node.
#[derive(Clone, Copy, Debug, PartialEq, Eq, Error)]
pub enum SceneFaultKind {
    #[error("the value has not the form of its field's type")]
    WrongType,
    #[error("a number is out of its range")]
    ValueRange,
    #[error("a rotation that turns is not supported")]
    RotationUnsupported,
    #[error("an input or output holds no value")]
    NotInitial,
    #[error("a node of this kind may not stand here")]
    BadChild,
    #[error("nodes are nested too deep")]
    TooDeep,
    #[error("there are too many places, sensors or fields")]
    TooMany,
    #[error("memory was refused")]
    Memory,
}

impl SceneFaultKind {
    /// Returns the name of the variant.
    pub fn name(self) -> &'static str
        ensures { result.now ≡ fault_name self }
    {
        match self {
            SceneFaultKind::WrongType => "WrongType",
            SceneFaultKind::ValueRange => "ValueRange",
            SceneFaultKind::RotationUnsupported => "RotationUnsupported",
            SceneFaultKind::NotInitial => "NotInitial",
            SceneFaultKind::BadChild => "BadChild",
            SceneFaultKind::TooDeep => "TooDeep",
            SceneFaultKind::TooMany => "TooMany",
            SceneFaultKind::Memory => "Memory",
        }
    }
}

/// Returns the fault of kind `kind` on line `line`.
pub(crate) fn fault(kind: SceneFaultKind, line: u32) -> SceneFault
    ensures { result ≡ fault kind line }
{
    SceneFault { kind, line }
}

impl From<AllocError> for SceneFault {
    ghost from_gives = { λ _ e. e ≡ memory };

    fn from(_refused: AllocError) -> SceneFault {
        fault(SceneFaultKind::Memory, 0)
    }
}

impl<T: Drop> From<AllocFailed<T>> for SceneFault {
    ghost from_gives = { λ _ e. e ≡ memory };

    fn from(_refused: AllocFailed<T>) -> SceneFault {
        fault(SceneFaultKind::Memory, 0)
    }
}

impl fmt::Display for SceneFault {
    fn fmt<W: fmt::Write>(&self, f: &mut fmt::Formatter<W>) -> fmt::Result {
        write_on_line(&self.kind, self.line, f)
    }
}

impl error::Error for SceneFault {}
