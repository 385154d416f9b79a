//! The fields of a node that a snapshot holds.

ghost use Rattle.std.specs.Prelude.{◌≡◌, ◌<◌, ◌++◌, [], ◌∷◌, OnOk, length, slice_get};
ghost use Rattle.std.specs.Option.{option_map_or};
ghost use Rattle.scene_core.specs.Scene.{rows_at};
ghost use Rattle.snapshot_codec.specs.Fields.{kept_field};
ghost use Rattle.snapshot_core.specs.Nodes.{kept_fields, shape_in};

use scene_core::Scene;
use snapshot_codec::{KeptField, kept_field};
use std::alloc::AllocError;
use x3d_values::NodeType;

/// Appends what a snapshot holds of the field of that number of a node of this type, if the node
/// has such a field.
fn push_kept(
    scene: &Scene,
    node: u32,
    node_type: NodeType,
    number: u16,
    kept: &mut Vec<KeptField>,
) -> Result<(), AllocError>
    ensures { OnOk result (kept.new.items
        ≡ kept.old.items
        ++ option_map_or
        (λ row. kept_field node_type number row.access row.field_type ∷ [])
        (slice_get (rows_at scene.now node) number) []) }
{
    match scene.row(node, number) {
        Some(row) => {
            kept.push(kept_field(node_type, number, row.access, row.field_type))?;
            Ok(())
        }
        None => Ok(()),
    }
}

/// Replaces the list by what a snapshot holds of each field of a node.
pub(crate) fn list_kept(
    scene: &Scene,
    node: u32,
    kept: &mut Vec<KeptField>,
) -> Result<(), AllocError>
    requires { node < length scene.now.nodes }
    ensures { OnOk result (kept.new.items ≡ kept_fields (shape_in scene.now node)) }
{
    kept.clear();
    let node_type = scene.node_type(node);
    for number in 0..scene.field_count(node) {
        push_kept(scene, node, node_type, number as u16, kept)?;
    }
    Ok(())
}
