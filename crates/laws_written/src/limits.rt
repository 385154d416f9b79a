//! A law of whether a written scene has a flat form. It is the contract of a function that does
//! nothing.

ghost use Rattle.laws_written.specs.LimitsWritten.{WrittenScenesAreFlat};

use crate::nodes::written_nodes_are_read;
use laws_documents::sound_documents_are_flat;

/// The document that a document's scene is written as has a flat form, or is too large.
pub fn written_scenes_are_flat()
    ensures { WrittenScenesAreFlat }
{
    sound_documents_are_flat();
    written_nodes_are_read();
}
