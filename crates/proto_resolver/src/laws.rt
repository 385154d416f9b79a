//! What resolved texts stand for; each law is the contract of a function that does nothing.

ghost use Rattle.proto_resolver.specs.Laws.{NumbersMeanTheirTrees, ResolvedTextsStandForTheSame};

/// The statements of a text and of its tree give the same: nodes, roots, helpers, routes, what is
/// counted on the way, and the fault with its line.
pub fn resolved_texts_stand_for_the_same()
    ensures { ResolvedTextsStandForTheSame }
{}

/// A number in a tree means a prototype whose instance is what the tree of that number says.
pub fn numbers_mean_their_trees()
    ensures { NumbersMeanTheirTrees }
{}
