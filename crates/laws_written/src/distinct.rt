//! Laws of the names of fields. Each is the contract of a function that does nothing.

ghost use Rattle.laws_written.specs.Interfaces.{InterfacesAreDistinct};
ghost use Rattle.laws_written.specs.Scenes.{DocumentFieldsStay, FieldsAreDistinct};

use crate::fields::written_fields_stay;
use x3d_values::table_law;

/// The fields that a node of a document's flat form declares have distinct names, and none has the
/// name of a field of the node's type. Only a Script declares fields.
pub fn interfaces_are_distinct()
    ensures { InterfacesAreDistinct }
{}

/// The fields of each node of a document's scene have distinct names.
pub fn fields_are_distinct()
    ensures { FieldsAreDistinct }
{
    table_law();
}

/// The nodes in the flat form of the written scene of a document, if there is one, have the fields
/// of the scene's nodes.
pub fn document_fields_stay()
    ensures { DocumentFieldsStay }
{
    fields_are_distinct();
    written_fields_stay();
}
