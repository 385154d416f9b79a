//! Laws of the numbers of a scene's nodes. Each is the contract of a function that does nothing.

ghost use Rattle.laws_written.specs.ScenesAgain.{NumberedAgain, NumberedUnderRoot};
ghost use Rattle.laws_written.specs.Children.{ChildrenAreLower};

/// The nodes in the fields of a node have lower numbers than the node.
pub fn children_are_lower()
    ensures { ChildrenAreLower }
{}

/// Nodes with the children of a scene's nodes get the same numbers as in the scene: each node's
/// number is its place. This also holds if the helpers are in one more node after them, which is
/// one more root.
pub fn scenes_are_numbered_again()
    ensures same { NumberedAgain }
    ensures under_root { NumberedUnderRoot }
{}
