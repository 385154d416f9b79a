//! A law of scenes. It is the contract of a function that does nothing.

ghost use Rattle.laws_worlds.specs.Scenes.{ScenesAreShort};

/// No text and no list in the scene of a text is longer than 16 MiB.
pub fn scenes_are_short()
    ensures { ScenesAreShort }
{}
