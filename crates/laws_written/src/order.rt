//! Laws of the order of a written scene. They are the contract of a function that does nothing.

ghost use Rattle.laws_written.specs.Order.{HelpersInOrder, NodesInOrder, RootsInOrder};

/// After each node, after the roots and after the helpers, the nodes that have appeared in the text
/// are those that have appeared in the numbering.
pub fn scenes_are_written_in_order()
    ensures nodes { NodesInOrder }
    ensures roots { RootsInOrder }
    ensures helpers { HelpersInOrder }
{}
