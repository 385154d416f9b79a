//! A law of texts that the exact reader takes.

ghost use Rattle.classic_lenient.specs.Lenient.{ReadTextsStay};

/// A text that the exact reader takes is read as the same document, and nothing is left out.
pub fn texts_that_are_read_stay()
    ensures { ReadTextsStay }
{}
