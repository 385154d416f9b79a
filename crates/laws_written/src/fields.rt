//! Laws of the fields in a written scene. Each is the contract of a function that does nothing.

ghost use Rattle.laws_written.specs.FieldsFlats.{WrittenFieldsStay};
ghost use Rattle.laws_written.specs.FieldsWritten.{WrittenShapes};

use crate::nodes::{written_nodes_close, written_nodes_stay};
use laws_documents::{nodes_tell_the_rest, shapes_stay};

/// The braces of each node of a written scene contain its fields, by their numbers.
pub fn written_shapes()
    ensures { WrittenShapes }
{}

/// The nodes in the flat form of a written scene, if there is one, have the fields of the scene's
/// nodes.
pub fn written_fields_stay()
    ensures { WrittenFieldsStay }
{
    shapes_stay();
    nodes_tell_the_rest();
    written_nodes_close();
    written_nodes_stay();
}
