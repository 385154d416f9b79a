//! A law of flat documents, the contract of a function that does nothing.

ghost use Rattle.laws_documents.specs.Shapes.{NodesTellTheRest};

/// Nodes of flat documents have the same fields if their fields are the same except for the nodes
/// in them, and these nodes are the same too.
pub fn nodes_tell_the_rest()
    ensures { NodesTellTheRest }
{}
