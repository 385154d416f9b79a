//! What holds for the worlds of a host's viewers, and for the snapshots that they took.

ghost use Rattle.laws_worlds.specs.Networks.{RunningHaveSnapshots, SavedHaveSnapshots};

/// Each world that a viewer saved has a snapshot that can be read again, and so does each world
/// that a viewer runs with.
pub fn saved_worlds_load_again()
    ensures saved { SavedHaveSnapshots }
    ensures running { RunningHaveSnapshots }
{}
