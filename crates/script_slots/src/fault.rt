//! Why a state is refused.

ghost use Rattle.std.specs.Prelude.{◌≡◌};
ghost use Rattle.script_slots.specs.Faults.{state_fault_name};
ghost use Rattle.script_slots.specs.declared.fault.StateFault.TheVariants as state;

use std::alloc::{AllocError, AllocFailed};
use std::fmt;
use thiserror::Error;

/// Why a list of numbers is not a state of a script. The first fault that applies is reported.
#[derive(Clone, Copy, Debug, PartialEq, Eq, Error)]
pub enum StateFault {
    #[error("the state has another length")]
    StateLength,
    #[error("a number of the state is out of range")]
    StateRange,
    #[error("memory was refused")]
    Memory,
}

impl StateFault {
    /// Returns the name of the fault.
    pub fn name(self) -> &'static str
        ensures { result.now ≡ state_fault_name self }
    {
        match self {
            StateFault::StateLength => "StateLength",
            StateFault::StateRange => "StateRange",
            StateFault::Memory => "Memory",
        }
    }
}

impl From<AllocError> for StateFault {
    ghost from_gives = { λ _ fault. fault ≡ state.Memory };

    fn from(_refused: AllocError) -> StateFault {
        StateFault::Memory
    }
}
