//! Laws of the flat forms of texts, each the contract of a function that does nothing.

ghost use Rattle.laws_documents.specs.Lengths.{FlatsAreShort, TextsAreShort};
ghost use Rattle.laws_documents.specs.Named.{SpelledFlatsAreNamed};

/// The flat form of a document that some text spells has valid names, and its texts are UTF-8.
pub fn spelled_flats_are_named()
    ensures { SpelledFlatsAreNamed }
{}

/// The texts and lists of the flat form of a text are no longer than the text, which has at most 16
/// MiB.
pub fn flats_are_short()
    ensures values { FlatsAreShort }
    ensures texts { TextsAreShort }
{}
