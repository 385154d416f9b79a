//! Why a turn ends early.

ghost use Rattle.std.specs.Prelude.{◌≡◌};
ghost use Rattle.share_turns.specs.Views.{turn_fault_of};
ghost use Rattle.share_turns.specs.declared.fault.SeriesFault.TheVariants.{Turn};
ghost use Rattle.share_turns.specs.declared.fault.TurnFault.TheVariants.{Memory, Port};

use crate::port::PortFault;
use cascade_core::TextFault;
use share_law::SnapFault;
use std::alloc::AllocError;
use thiserror::Error;

/// Why a turn ends early.
#[derive(Clone, Copy, Debug, PartialEq, Eq, Error)]
pub enum TurnFault {
    #[error("the port failed")]
    Port,
    #[error("memory was refused before")]
    Spoiled,
    #[error("memory was refused")]
    Memory,
}

impl From<PortFault> for TurnFault {
    ghost use Rattle.std.specs.Prelude.{◌≡◌};

    ghost from_gives = { λ _ fault. fault ≡ Port };

    fn from(_failed: PortFault) -> TurnFault {
        TurnFault::Port
    }
}

impl From<TextFault> for TurnFault {
    ghost from_gives = { λ text fault. fault ≡ turn_fault_of text };

    fn from(fault: TextFault) -> TurnFault {
        match fault {
            TextFault::Spoiled => TurnFault::Spoiled,
            TextFault::Memory => TurnFault::Memory,
        }
    }
}

impl From<AllocError> for TurnFault {
    ghost from_gives = { λ _ fault. fault ≡ Memory };

    fn from(_refused: AllocError) -> TurnFault {
        TurnFault::Memory
    }
}

/// Why a series of turns didn't reach its end: one turn ended early, the turns were too few, or a
/// viewer couldn't start from the snapshot that it gathered, for a cause other than memory.
#[derive(Clone, Copy, Debug, PartialEq, Eq, Error)]
pub enum SeriesFault {
    #[error(transparent)]
    Turn(TurnFault),
    #[error("the turns are used up")]
    TurnsUsedUp,
    #[error("{0}")]
    Join(SnapFault),
}

impl From<TurnFault> for SeriesFault {
    ghost from_gives = { λ turn fault. fault ≡ Turn turn };

    fn from(fault: TurnFault) -> SeriesFault {
        SeriesFault::Turn(fault)
    }
}
