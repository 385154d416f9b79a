//! What resolved trees stand for; each law is the contract of a function that does nothing.

ghost use Rattle.proto_meaning.specs.trees.TreeLaws.{PrototypesAreTheSame, TextsStandForTheSame};

/// The statements of a text and its resolved tree give the same: nodes, roots, helpers, routes,
/// what is counted on the way, and the fault with its line.
pub fn texts_stand_for_the_same()
    ensures { TextsStandForTheSame }
{}

/// An instance of a declared prototype is what its resolved tree says.
pub fn prototypes_are_the_same()
    ensures { PrototypesAreTheSame }
{}
