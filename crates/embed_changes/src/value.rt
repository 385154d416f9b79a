//! The current value of a field.

ghost use Rattle.std.specs.Prelude.{◌≡◌, slice_get};
ghost use Rattle.std.specs.Option.{option_copied};
ghost use Rattle.embed_changes.specs.Values as spec;

use scene_core::Scene;
use x3d_values::{Fields, Value};

/// Returns what a node keeps of a field.
fn kept_value(state: &[Fields], node: u32, field: u16) -> Option<&Value>
    ensures { option_copied result ≡ spec.kept_value state.now node field }
{
    let Some(fields) = state.get(node as usize) else {
        return None;
    };
    fields.value(field)
}

/// Returns the current value of a node's field, if `state` holds what each node of the scene keeps.
/// `None` if the field holds no value, because it only sends or receives, or if there is no such
/// field.
pub fn value_now<'a>(
    scene: &'a Scene,
    state: &'a [Fields],
    node: u32,
    field: u16,
) -> Option<&'a Value>
    ensures { option_copied result ≡ spec.value_now scene.now state.now node field }
{
    if let Some(value) = kept_value(state, node, field) {
        return Some(value);
    }
    scene.value(node, field)
}
