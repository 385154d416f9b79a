//! Laws of documents without prototypes, each the contract of a function that does nothing.

ghost use Rattle.laws_documents.specs.Faults.{PlainDocumentsFail};
ghost use Rattle.laws_documents.specs.Sound.{SoundDocumentsAreFlat};

/// A document without prototypes fails for an unknown node or field, a field given twice, a USE of
/// no node, or its size.
pub fn plain_documents_fail()
    ensures { PlainDocumentsFail }
{}

/// A document of known nodes, whose fields are known and given once, and in which each USE names a
/// node, has a flat form, or is too large.
pub fn sound_documents_are_flat()
    ensures { SoundDocumentsAreFlat }
{}
