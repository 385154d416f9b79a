//! The faults of a stage.

ghost use Rattle.std.specs.Prelude.{◌≡◌};
ghost use Rattle.cascade_core.specs.FaultNames.{load_fault_name, apply_fault_name, text_fault_name, states_fault_name, place_fault_name};
ghost use Rattle.cascade_core.specs.declared.fault.LoadFault.TheVariants.{Memory};
ghost use Rattle.cascade_core.specs.declared.fault.TextFault.TheVariants as text_fault;
ghost use Rattle.cascade_core.specs.declared.fault.StatesFault.TheVariants as states_fault;
ghost use Rattle.cascade_core.specs.Placing.{place_fault_of};

use script_host::ReplaceFault;
use std::alloc::AllocError;
use std::fmt;
use thiserror::Error;

/// Why a stage was not made.
#[derive(Clone, Copy, Debug, PartialEq, Eq, Error)]
pub enum LoadFault {
    #[error("memory was refused")]
    Memory,
}

/// Why an input was not applied, in the order of precedence.
#[derive(Clone, Copy, Debug, PartialEq, Eq, Error)]
pub enum ApplyFault {
    #[error("memory was refused at an earlier input")]
    Spoiled,
    #[error("the input's number is not the next one")]
    NotNext,
    #[error("the input's time is not later than that of the last one")]
    TimeNotLater,
    #[error("memory was refused")]
    Memory,
}

/// Why a text was not written, in the order of precedence.
#[derive(Clone, Copy, Debug, PartialEq, Eq, Error)]
pub enum TextFault {
    #[error("memory was refused at an earlier input")]
    Spoiled,
    #[error("memory was refused")]
    Memory,
}

/// Why the states of scripts were not given, in the order of precedence.
#[derive(Clone, Copy, Debug, PartialEq, Eq, Error)]
pub enum StatesFault {
    #[error("memory was refused at an earlier input")]
    Spoiled,
    #[error("memory was refused")]
    Memory,
}

/// Why a script was not replaced, in the order of precedence.
#[derive(Clone, Copy, Debug, PartialEq, Eq, Error)]
pub enum PlaceFault {
    #[error("memory was refused at an earlier input")]
    Spoiled,
    #[error("there is no script of that number")]
    NoSuchScript,
    #[error("the script is of another kind")]
    KindDiffers,
    #[error("memory was refused")]
    Memory,
}

/// Why lines of a trace were not forgotten, in the order of precedence.
#[derive(Clone, Copy, Debug, PartialEq, Eq, Error)]
pub enum ForgetFault {
    #[error("memory was refused at an earlier input")]
    Spoiled,
    #[error("the number is above that of the next input")]
    Ahead,
}

impl From<AllocError> for LoadFault {
    ghost from_gives = { λ _ fault. fault ≡ Memory };

    fn from(_refused: AllocError) -> LoadFault {
        LoadFault::Memory
    }
}

impl From<AllocError> for TextFault {
    ghost from_gives = { λ _ fault. fault ≡ text_fault.Memory };

    fn from(_refused: AllocError) -> TextFault {
        TextFault::Memory
    }
}

impl From<AllocError> for StatesFault {
    ghost from_gives = { λ _ fault. fault ≡ states_fault.Memory };

    fn from(_refused: AllocError) -> StatesFault {
        StatesFault::Memory
    }
}

impl From<ReplaceFault> for PlaceFault {
    ghost from_gives = { λ refused fault. fault ≡ place_fault_of refused };

    fn from(refused: ReplaceFault) -> PlaceFault {
        match refused {
            ReplaceFault::NoSuchScript => PlaceFault::NoSuchScript,
            ReplaceFault::KindDiffers => PlaceFault::KindDiffers,
            ReplaceFault::Memory => PlaceFault::Memory,
        }
    }
}

impl LoadFault {
    /// Returns the name of the variant.
    pub fn name(self) -> &'static str
        ensures { result.now ≡ load_fault_name self }
    {
        match self {
            LoadFault::Memory => "Memory",
        }
    }
}

impl ApplyFault {
    /// Returns the name of the variant.
    pub fn name(self) -> &'static str
        ensures { result.now ≡ apply_fault_name self }
    {
        match self {
            ApplyFault::Spoiled => "Spoiled",
            ApplyFault::NotNext => "NotNext",
            ApplyFault::TimeNotLater => "TimeNotLater",
            ApplyFault::Memory => "Memory",
        }
    }
}

impl TextFault {
    /// Returns the name of the variant.
    pub fn name(self) -> &'static str
        ensures { result.now ≡ text_fault_name self }
    {
        match self {
            TextFault::Spoiled => "Spoiled",
            TextFault::Memory => "Memory",
        }
    }
}

impl StatesFault {
    /// Returns the name of the variant.
    pub fn name(self) -> &'static str
        ensures { result.now ≡ states_fault_name self }
    {
        match self {
            StatesFault::Spoiled => "Spoiled",
            StatesFault::Memory => "Memory",
        }
    }
}

impl PlaceFault {
    /// Returns the name of the variant.
    pub fn name(self) -> &'static str
        ensures { result.now ≡ place_fault_name self }
    {
        match self {
            PlaceFault::Spoiled => "Spoiled",
            PlaceFault::NoSuchScript => "NoSuchScript",
            PlaceFault::KindDiffers => "KindDiffers",
            PlaceFault::Memory => "Memory",
        }
    }
}
