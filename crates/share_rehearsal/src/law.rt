//! What holds for every rehearsal.

ghost use Rattle.share_rehearsal.specs.Laws.{HostHolds, JoinersStand, MemoryIsLogged};
ghost use Rattle.share_rehearsal.specs.Laws.{OfRehearsals, PiecesHold, TimesRise};
ghost use Rattle.share_rehearsal.specs.Laws.{ViewersAgree, ViewersHold, WindowsHold};

use share_law::agreement_law;

/// States what holds for the nodes that a rehearsal leaves, by the law of shared worlds, and for
/// its log.
pub fn rehearsal_law()
    // A running viewer that has applied n inputs holds the world of the first n inputs that the
    // host numbered.
    ensures equality { OfRehearsals ViewersHold }
    // Two running viewers that have applied the same number of inputs hold the same world and write
    // the same texts.
    ensures two_viewers { OfRehearsals ViewersAgree }
    // A running viewer's window lacks its next input. Of the 63 inputs after it, the window holds
    // only ones that the host numbered.
    ensures window { OfRehearsals WindowsHold }
    // The times of the host's inputs rise.
    ensures times { OfRehearsals TimesRise }
    // The host holds its inputs from its floor on.
    ensures floor { OfRehearsals HostHolds }
    // The pieces that a viewer gathers come from one snapshot that was taken. Once complete, they
    // are that snapshot.
    ensures pieces { OfRehearsals PiecesHold }
    // A viewer that joins with a snapshot is in the state of the viewer that took it.
    ensures joins { JoinersStand }
    // A line says `Memory` exactly when its step ran out of memory.
    ensures memory { MemoryIsLogged }
{
    agreement_law();
}
