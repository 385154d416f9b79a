//! Laws of scenes that were written and read again. Each is the contract of a function that does
//! nothing.

ghost use Rattle.laws_written.specs.Again.{WrittenScenesAreAgain};
ghost use Rattle.laws_written.specs.Begins.{KeptAgain};
ghost use Rattle.laws_written.specs.Room.{ScenesAgainHaveRoom};
ghost use Rattle.laws_written.specs.Sound.{DocumentScenesAreSound, OpeningsAreOfType};

use crate::fields::written_fields_stay;
use crate::nodes::{written_nodes_close, written_nodes_stay};
use crate::text_laws::{
    fields_are_left_out, headers_are_kept, labels_are_distinct, values_are_typed,
};
use x3d_values::table_law;

/// The scene of the flat form of a written scene, if there is one, is the written scene.
pub fn written_scenes_are_again()
    ensures { WrittenScenesAreAgain }
{
    table_law();
    headers_are_kept();
    labels_are_distinct();
    values_are_typed();
    fields_are_left_out();
    written_nodes_close();
    written_nodes_stay();
    written_fields_stay();
}

/// The values that the scene of a document gives its fields are sound, if the document's names are
/// names and its texts are UTF-8.
pub fn document_scenes_are_sound()
    ensures { DocumentScenesAreSound }
{}

/// What the nodes of a document's scene keep before any event has the type of its field.
pub fn openings_are_of_type()
    ensures { OpeningsAreOfType }
{
    table_law();
}

/// Each value that nodes kept when a scene was written, they keep again before any event.
pub fn values_are_kept_again()
    ensures { KeptAgain }
{}

/// If the scene of what is written of a scene exists, a Switch has room above the helpers.
pub fn scenes_again_have_room()
    ensures { ScenesAgainHaveRoom }
{}
