//! Laws of the nodes of a written scene. Each is the contract of a function that does nothing.

ghost use Rattle.laws_written.specs.Braces.{WrittenNodesClose};
ghost use Rattle.laws_written.specs.NodesFlats.{WrittenNodesStay};
ghost use Rattle.laws_written.specs.Nodes.{WrittenNodesAreRead};

use crate::text_laws::labels_are_distinct;

/// Each node of a written scene is read with its own number, and each USE is read as its node.
pub fn written_nodes_are_read()
    ensures { WrittenNodesAreRead }
{
    labels_are_distinct();
}

/// The braces of each node have the node's type, and its label if it needs a name.
pub fn written_nodes_close()
    ensures { WrittenNodesClose }
{}

/// The flat form of a written scene, if there is one, has the scene's nodes under their numbers.
pub fn written_nodes_stay()
    ensures { WrittenNodesStay }
{
    labels_are_distinct();
}
