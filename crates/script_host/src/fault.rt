//! Why boxes are refused.

ghost use Rattle.std.specs.Prelude.{◌≡◌};
ghost use Rattle.script_host.specs.Faults.{attach_fault_name, replace_fault_name};
ghost use Rattle.script_host.specs.declared.fault.AttachFault.TheVariants as attach;
ghost use Rattle.script_host.specs.declared.fault.ReplaceFault.TheVariants as replace;

use std::alloc::{AllocError, AllocFailed};
use std::fmt;
use thiserror::Error;

/// Why boxes are not those of a world's scripts. The first script of an unknown kind is reported
/// first, then a wrong number of boxes, then the first box that isn't what its script asks for. The
/// number is the script's place, from 0.
#[derive(Clone, Copy, Debug, PartialEq, Eq, Error)]
pub enum AttachFault {
    #[error("the kind of script {0} is unknown")]
    UnknownScript(usize),
    #[error("there are not as many boxes as scripts")]
    WrongCount,
    #[error("the box of script {0} is of another kind")]
    KindDiffers(usize),
    #[error("the interface of script {0} is not that of its kind")]
    InterfaceMismatch(usize),
    #[error("the box of script {0} is not in the state in which it starts")]
    StartMismatch(usize),
    #[error("memory was refused")]
    Memory,
}

impl AttachFault {
    /// Returns the name of the fault.
    pub fn name(self) -> &'static str
        ensures { result.now ≡ attach_fault_name self }
    {
        match self {
            AttachFault::UnknownScript(_) => "UnknownScript",
            AttachFault::WrongCount => "WrongCount",
            AttachFault::KindDiffers(_) => "KindDiffers",
            AttachFault::InterfaceMismatch(_) => "InterfaceMismatch",
            AttachFault::StartMismatch(_) => "StartMismatch",
            AttachFault::Memory => "Memory",
        }
    }
}

impl From<AllocError> for AttachFault {
    ghost from_gives = { λ _ fault. fault ≡ attach.Memory };

    fn from(_refused: AllocError) -> AttachFault {
        AttachFault::Memory
    }
}

/// Why a box doesn't replace a script's box. The first fault that applies is reported.
#[derive(Clone, Copy, Debug, PartialEq, Eq, Error)]
pub enum ReplaceFault {
    #[error("there is no such script")]
    NoSuchScript,
    #[error("the new box is of another kind")]
    KindDiffers,
    #[error("memory was refused")]
    Memory,
}

impl ReplaceFault {
    /// Returns the name of the fault.
    pub fn name(self) -> &'static str
        ensures { result.now ≡ replace_fault_name self }
    {
        match self {
            ReplaceFault::NoSuchScript => "NoSuchScript",
            ReplaceFault::KindDiffers => "KindDiffers",
            ReplaceFault::Memory => "Memory",
        }
    }
}

impl From<AllocError> for ReplaceFault {
    ghost from_gives = { λ _ fault. fault ≡ replace.Memory };

    fn from(_refused: AllocError) -> ReplaceFault {
        ReplaceFault::Memory
    }
}
