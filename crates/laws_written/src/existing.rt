//! Laws of scenes that were written and read again. Each is the contract of a function that does
//! nothing.

ghost use Rattle.laws_written.specs.Exist.{OpeningsAreInRange, WrittenScenesExist};

use crate::fields::written_fields_stay;
use crate::nodes::{written_nodes_close, written_nodes_stay};
use crate::text_laws::{fields_are_left_out, values_are_typed};
use x3d_values::table_law;

/// The flat form of a written scene, if there is one, has a scene, unless it exceeds a limit of
/// size.
pub fn written_scenes_exist()
    ensures { WrittenScenesExist }
{
    table_law();
    values_are_typed();
    fields_are_left_out();
    written_nodes_close();
    written_nodes_stay();
    written_fields_stay();
}

/// What the nodes of a document's scene keep before any event is in the range of its field.
pub fn openings_are_in_range()
    ensures { OpeningsAreInRange }
{}
