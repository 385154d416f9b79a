//! What holds of real peers, whatever they called.

ghost use Rattle.laws_calls.specs.Begins.{NewPeersBegin, SentStays, ViewersAgree, ViewersHold};

use share_law::agreement_law;

/// States how peers begin, and what their calls keep.
pub fn peers_law()
    // A new host and new viewers are the peers of the network before the first step.
    ensures begins { NewPeersBegin }
    // Packets and snapshots keep their numbers at every step.
    ensures stays { SentStays }
    // A running viewer that has applied n inputs holds the world of the first n that the host
    // numbered.
    ensures equality { ViewersHold }
    // Two running viewers that have applied the same number of inputs hold the same world and write
    // the same texts.
    ensures two_viewers { ViewersAgree }
{
    agreement_law();
}
