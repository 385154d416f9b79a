//! Finds a field by its name.

ghost use Rattle.std.specs.Prelude.{◌≡◌};
ghost use Rattle.embed_world.specs.Names as spec;

use scene_core::Scene;

/// Returns the number of a node's field with this name: a field of its type, or one that a Script
/// declares. `None` if the node has no such field, there is no such node, or the bytes are not
/// UTF-8.
pub fn number_named(scene: &Scene, node: u32, name: &[u8]) -> Option<u16>
    ensures { result ≡ spec.number_named scene.now node name.now }
{
    let Ok(name) = str::from_utf8(name) else {
        return None;
    };
    let Some(row) = scene.field_named(node, name) else {
        return None;
    };
    Some(row.number)
}
