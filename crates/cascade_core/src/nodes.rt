//! The nodes of a scene by their types.

ghost use Rattle.std.specs.Prelude.{◌≡◌};
ghost use Rattle.scene_core.specs.Scene.{types_of};
ghost use Rattle.cascade_world.specs.Nodes.{is_clock};

use scene_core::Scene;
use x3d_values::NodeType;

/// Reports whether the node of that number is a TimeSensor.
pub fn is_clock(scene: &Scene, node: u32) -> bool
    ensures { result ≡ is_clock (types_of scene.now) node }
{
    match scene.type_at(node) {
        Some(node_type) => node_type == NodeType::TimeSensor,
        None => false,
    }
}
