//! Laws of the fields of nodes, each the contract of a function that does nothing.

ghost use Rattle.laws_documents.specs.PlainLaws.{FieldsAreRead, ShapesStay};

/// The nodes of the flat form of a document without instances have the fields between their braces,
/// in the order of the text, each with its number and its value, in which each node is its number.
/// A Script has the fields that are declared there.
pub fn fields_are_read()
    ensures { FieldsAreRead }
{}

/// The fields of those nodes, and their values except for the nodes in them, are those in the tree;
/// no names are read.
pub fn shapes_stay()
    ensures { ShapesStay }
{}
