//! Why turns end early, as faults of the program.

ghost use Rattle.std.specs.Prelude.{◌≡◌};
ghost use Rattle.app_commands.specs.Hosting.{join_fault, series_fault, share_fault};

use app_program::ShareFault;
use share_law::SnapFault;
use share_turns::{SeriesFault, TurnFault};

/// Returns why a turn ended early, as a fault of the program.
pub(crate) fn share_fault(fault: TurnFault) -> ShareFault
    ensures { result ≡ share_fault fault }
{
    match fault {
        TurnFault::Port => ShareFault::Port,
        TurnFault::Spoiled => ShareFault::Spoiled,
        TurnFault::Memory => ShareFault::Memory,
    }
}

/// Returns why a viewer can't begin from what it gathered, as a fault of the program.
fn join_fault(fault: SnapFault) -> ShareFault
    ensures { result ≡ join_fault fault }
{
    match fault {
        SnapFault::BootNotNew => ShareFault::BootNotNew,
        _ => ShareFault::BadSnapshot,
    }
}

/// Returns why a series of turns ended early, as a fault of the program.
pub(crate) fn series_fault(fault: SeriesFault) -> ShareFault
    ensures { result ≡ series_fault fault }
{
    match fault {
        SeriesFault::Turn(fault) => share_fault(fault),
        SeriesFault::TurnsUsedUp => ShareFault::TurnsUsedUp,
        SeriesFault::Join(fault) => join_fault(fault),
    }
}
