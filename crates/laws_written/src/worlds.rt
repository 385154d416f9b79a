//! Laws of written worlds. Each is the contract of a function that does nothing.

ghost use Rattle.laws_written.specs.Kept.{FittingAreKeepable};
ghost use Rattle.laws_written.specs.WrittenWorlds.{RunningWorldsSpell, WrittenWorldsSpell};

/// What the nodes of a world keep can be written, if each value is in the range of its field.
pub fn fitting_worlds_are_kept()
    ensures { FittingAreKeepable }
{}

/// The text of the scene, in every world that inputs in turn lead to in the scene of a text and in
/// the world of every running viewer, spells the document that it is written as.
pub fn written_worlds_spell()
    ensures reached { WrittenWorldsSpell }
    ensures running { RunningWorldsSpell }
{}
