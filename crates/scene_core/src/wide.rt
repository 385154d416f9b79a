//! The limit of the fields of a node.

ghost use Rattle.std.specs.Prelude.{◌≡◌};
ghost use Rattle.scene_core.specs.Wide as spec;

use crate::scene::SceneNode;
use x3d_values::{MAX_FIELDS, fields_of};

/// Reports whether a node declares more fields than there are numbers for.
fn is_wide(node: &SceneNode) -> bool
    ensures { result ≡ spec.is_wide node.now }
{
    MAX_FIELDS - fields_of(node.node_type).len() < node.declared.len()
}

/// Reports whether any node declares more fields than there are numbers for.
pub(crate) fn is_any_wide(nodes: &[SceneNode]) -> bool
    ensures { result ≡ spec.any_wide nodes.now }
{
    nodes.iter().any(is_wide)
}
