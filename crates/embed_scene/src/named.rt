//! A node by its name.

ghost use Rattle.std.specs.Prelude.{◌≡◌, ◌-◌, ◌^◌, length, min};
ghost use Rattle.embed_scene.specs.Named as spec;

use scene_core::Scene;

/// Reports whether a node has this name.
fn is_named(scene: &Scene, node: u32, name: &[u8]) -> bool
    ensures { result ≡ spec.is_named scene.now name.now node }
{
    match scene.def_name(node) {
        Some(label) => label.as_str().as_bytes() == name,
        None => false,
    }
}

/// Returns the number of nodes, or `u32::MAX` if there are more, which no scene has.
fn node_count(scene: &Scene) -> u32
    ensures { result ≡ min (length scene.now.nodes) (2 ^ 32 - 1) }
{
    match u32::try_from(scene.node_count()) {
        Ok(count) => count,
        Err(_above) => u32::MAX,
    }
}

/// Returns the first of the nodes below `count` that has this name.
fn first_named(scene: &Scene, count: u32, name: &[u8]) -> Option<u32>
    ensures { spec.IsFirst (spec.is_named scene.now name.now) count result }
{
    for node in 0..count {
        if is_named(scene, node, name) {
            return Some(node);
        }
    }
    None
}

/// Returns the node with this name: a DEF name that one node alone has. `None` if there is none.
pub fn node_named(scene: &Scene, name: &[u8]) -> Option<u32>
    ensures { spec.IsNodeNamed scene.now name.now result }
{
    first_named(scene, node_count(scene), name)
}
