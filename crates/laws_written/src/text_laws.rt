//! Laws of written scenes. Each is the contract of a function that does nothing.

ghost use Rattle.laws_written.specs.Defaults.{DefaultsAreLeftOut, LeftOutAreDefaults};
ghost use Rattle.laws_written.specs.Headers.{HeadersAreKept};
ghost use Rattle.laws_written.specs.Labels.{LabelsAreDistinct};
ghost use Rattle.laws_written.specs.Values.{WrittenNodesAreTyped, WrittenValuesAreTyped};
ghost use Rattle.laws_written.specs.WrittenTexts.{DocumentScenesSpell, ScenesAreWritable, WrittenScenesSpell};

/// A value, written and read again by the type of its field, is the same value.
pub fn values_are_typed()
    ensures plain { WrittenValuesAreTyped }
    ensures nodes { WrittenNodesAreTyped }
{}

/// The fields that are left out are exactly those that hold their default.
pub fn fields_are_left_out()
    ensures defaults { LeftOutAreDefaults }
    ensures all { DefaultsAreLeftOut }
{}

/// No two nodes of a document's scene have the same label.
pub fn labels_are_distinct()
    ensures { LabelsAreDistinct }
{}

/// The text of a writable scene spells the document that the scene is written as. So does the text
/// of the scene of any document that some text spells.
pub fn written_scenes_spell()
    ensures writable { WrittenScenesSpell }
    ensures documents { DocumentScenesSpell }
{}

/// The scene of a document is writable if the document's names are names and its texts are UTF-8.
pub fn scenes_are_writable()
    ensures { ScenesAreWritable }
{}

/// A scene that was written and read again has the same header statements.
pub fn headers_are_kept()
    ensures { HeadersAreKept }
{}
