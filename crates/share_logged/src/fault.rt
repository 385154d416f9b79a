//! Why a host doesn't begin, and why a turn ends early.

ghost use Rattle.std.specs.Prelude.{◌≡◌};
ghost use Rattle.share_logged.specs.declared.fault.LoggedFault.TheVariants.{Log, Turn};

use share_store::AppendFault;
use share_turns::{PortFault, TurnFault};
use thiserror::Error;

/// Why a host doesn't begin with the entries of a log.
#[derive(Clone, Copy, Debug, Drop, PartialEq, Eq, Error)]
pub enum ResumeFault {
    /// No host of this world wrote the entry with this number there.
    #[error("entry {0} is not one that a host wrote there")]
    NotALog(u64),
    #[error("memory was refused")]
    Memory,
}

/// Why a turn of a host over a log ends early. The host is then dropped: begin again from the log.
#[derive(Clone, Copy, Debug, Drop, PartialEq, Eq, Error)]
pub enum LoggedFault {
    /// The port failed, or memory was refused to a clock or to an offer.
    #[error("{0}")]
    Turn(TurnFault),
    /// The log didn't store what was numbered, and nothing was sent.
    #[error("{0}")]
    Log(AppendFault),
}

impl From<TurnFault> for LoggedFault {
    ghost use Rattle.std.specs.Prelude.{◌≡◌};

    ghost from_gives = { λ turn fault. fault ≡ Turn turn };

    fn from(fault: TurnFault) -> LoggedFault {
        LoggedFault::Turn(fault)
    }
}

impl From<AppendFault> for LoggedFault {
    ghost use Rattle.std.specs.Prelude.{◌≡◌};

    ghost from_gives = { λ log fault. fault ≡ Log log };

    fn from(fault: AppendFault) -> LoggedFault {
        LoggedFault::Log(fault)
    }
}
