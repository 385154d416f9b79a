//! Laws about what flat forms hold, each the contract of a function that does nothing.

ghost use Rattle.laws_documents.specs.PlainLaws.{FlatsAreLimited, FlatsAreWritten};
ghost use Rattle.laws_documents.specs.PlainLaws.{HeadersStay, HelpersAreOfInstances, NamesAreApart};

/// The nodes of a flat form have names, declared fields and values that are in the text.
pub fn flats_are_written()
    ensures { FlatsAreWritten }
{}

/// A flat form has at most 65,536 nodes and routes.
pub fn flats_are_limited()
    ensures { FlatsAreLimited }
{}

/// No two fields of a node of a flat form have the same name.
pub fn names_are_apart()
    ensures { NamesAreApart }
{}

/// A flat form has the header of its document.
pub fn headers_stay()
    ensures { HeadersStay }
{}

/// The flat form of a document without instances has no helpers.
pub fn helpers_are_of_instances()
    ensures { HelpersAreOfInstances }
{}
