//! Laws of worlds. Each is the contract of a function that does nothing.

ghost use Rattle.laws_worlds.specs.Opened.{OpenedAreDocuments};
ghost use Rattle.laws_worlds.specs.TextRewinding.{
  TakenSnapshotsOfTextsJoin,
  TakenSnapshotsOfTextsRewind,
};
ghost use Rattle.laws_worlds.specs.NetworkWorlds.{
  RunningOfTextsHaveSnapshots,
  SavedOfTextsHaveSnapshots,
  WorldsOfTextsFit,
  WorldsOfTextsHaveSnapshots,
};

/// The scene of a text is a document: it has few enough nodes and short enough values.
pub fn texts_have_documents()
    ensures { OpenedAreDocuments }
{}

/// Each world that inputs in turn lead to in the scene of a text fits, and has a snapshot.
pub fn worlds_of_texts_fit()
    ensures fit { WorldsOfTextsFit }
    ensures snapshots { WorldsOfTextsHaveSnapshots }
{}

/// Each world of the scene of a text that a viewer saved has a snapshot that can be read again, and
/// so does each world that a viewer runs with.
pub fn saved_worlds_of_texts_load_again()
    ensures saved { SavedOfTextsHaveSnapshots }
    ensures running { RunningOfTextsHaveSnapshots }
{}

/// A viewer of the scene of a text that rewinds to the bytes of a snapshot that was taken does the
/// network's step for it.
pub fn taken_snapshots_of_texts_rewind()
    ensures { TakenSnapshotsOfTextsRewind }
{}

/// A viewer of the scene of a text that gathered the bytes of a snapshot that was taken, and joins
/// with them, does the network's step for that snapshot.
pub fn taken_snapshots_of_texts_join()
    ensures { TakenSnapshotsOfTextsJoin }
{}
