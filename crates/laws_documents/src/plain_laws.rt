//! Laws of flat forms, each the contract of a function that does nothing.

ghost use Rattle.laws_documents.specs.PlainLaws.{DocumentsAreReadPlainly, FlatsAreOrdered};
ghost use Rattle.laws_documents.specs.PlainLaws.{LinesAreForFaults, NodesClose};
ghost use Rattle.laws_documents.specs.PlainLaws.{RoutesAreRead, UsesAreNamed};
ghost use Rattle.laws_documents.specs.Without.{DeclarationsPutNothingIn};

/// A document without instances is read plainly; each PROTO is passed over.
pub fn documents_are_read_plainly()
    ensures { DocumentsAreReadPlainly }
{}

/// The flat form of a document without instances has a node for each pair of braces, in the order
/// in which these close, with the type that the word before the braces names, and the name of its
/// DEF.
pub fn nodes_close()
    ensures { NodesClose }
{}

/// The flat form of a document without instances has each node where the text has it: between its
/// braces or as a root. Each USE is the nearest node before it of that name whose braces are
/// closed.
pub fn uses_are_named()
    ensures { UsesAreNamed }
{}

/// The flat form of a document without instances has a route for each ROUTE, in the order of the
/// text. Each end is the nearest DEF of its name before the ROUTE.
pub fn routes_are_read()
    ensures { RoutesAreRead }
{}

/// What a flat document names exists in it, and what a node holds has a lower number.
pub fn flats_are_ordered()
    ensures { FlatsAreOrdered }
{}

/// Documents that differ only in lines have flat forms that differ only in lines, or faults of one
/// kind.
pub fn lines_are_for_faults()
    ensures { LinesAreForFaults }
{}

/// Prototypes that no braces name add nothing: without them the flat form is the same.
pub fn declarations_put_nothing_in()
    ensures { DeclarationsPutNothingIn }
{}
