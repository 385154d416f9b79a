//! How a viewer rewinds to a snapshot that was taken.

ghost use Rattle.laws_worlds.specs.Rewinding.{TakenSnapshotsRewind};

/// A viewer that rewinds to the bytes of a snapshot that was taken does the network's step for it,
/// whichever world the snapshot holds.
pub fn taken_snapshots_rewind()
    ensures { TakenSnapshotsRewind }
{}
