//! Why a host over a shared log ends.

ghost use Rattle.std.specs.Prelude.{◌≡◌};
ghost use Rattle.app_standby.specs.declared.fault.SharedFault.TheVariants.{Resume};

use share_logged::{LoggedFault, ResumeFault};
use share_store::ReadFault;
use thiserror::Error;

/// Why the turns of a host over a shared log end early.
#[derive(Clone, Copy, Debug, Drop, PartialEq, Eq, Error)]
pub enum SharedFault {
    #[error("all turns were used up")]
    TurnsUsedUp,
    /// A turn ended early, but not since the log has other entries or is in doubt; or the port
    /// didn't learn what other hosts have stored.
    #[error("{0}")]
    Turn(LoggedFault),
    /// The log wasn't read: `Device` or `Memory`.
    #[error("{0}")]
    Read(ReadFault),
    /// No host of this world wrote an entry that was read, or memory was refused to it.
    #[error("{0}")]
    Resume(ResumeFault),
}

impl From<ResumeFault> for SharedFault {
    ghost use Rattle.std.specs.Prelude.{◌≡◌};

    ghost from_gives = { λ resume fault. fault ≡ Resume resume };

    fn from(fault: ResumeFault) -> SharedFault {
        SharedFault::Resume(fault)
    }
}
