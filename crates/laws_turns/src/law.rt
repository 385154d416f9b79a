//! The law of turns.

ghost use Rattle.laws_turns.specs.Turns.{HostRunsAreCalls, HostTurnsAreCalls};
ghost use Rattle.laws_turns.specs.Turns.{ViewerRunsAreCalls, ViewerTurnsAreCalls};
ghost use Rattle.laws_turns.specs.Steps.{ForgettingsAreMoves, HostDoingsAreSteps};
ghost use Rattle.laws_turns.specs.Steps.{ViewerDoingsAreSteps};
ghost use Rattle.share_turns.specs.Seats.{ways_of};
ghost use Rattle.laws_turns.specs.Rounds.{RoundsAreCalls};

use share_law::steps_law;
use share_turns::Port;

/// States that turns, and runs of turns, are calls one after another. The port records exactly the
/// datagrams that these calls took and made.
pub fn turns_law()
    // What `host_turn` does.
    ensures host_turns { HostTurnsAreCalls }
    // What `host_run` does.
    ensures host_runs { HostRunsAreCalls }
    // What `viewer_turn` does.
    ensures viewer_turns { ViewerTurnsAreCalls }
    // What `view_run` does.
    ensures viewer_runs { ViewerRunsAreCalls }
{}

/// States that rounds, over any port, are such calls: on the host and on each viewer.
pub fn rounds_law<P: Port>()
    ensures { RoundsAreCalls (ways_of P.told P.failure_count) }
{}

/// States that each of these calls is its step of the network of share_law, in every network that
/// has the peer, if what it takes is a packet of that network.
pub fn doings_law()
    ensures host { HostDoingsAreSteps }
    ensures viewer { ViewerDoingsAreSteps }
    // A viewer that forgets makes a move of laws_forget's network.
    ensures forgettings { ForgettingsAreMoves }
{
    steps_law();
}
