//! The values that the fields of a node hold before any event, by the names of the fields.

ghost use Rattle.std.specs.Prelude.{◌≡◌, ◌∷◌, []};
ghost use Rattle.std.specs.Option.{option_copied};
ghost use Rattle.script_running.specs.Scripts.{integer_in, place_in, strings_in, truth_in, value_named};

use scene_core::Scene;
use x3d_values::{Text, Value, Vec3};

/// Returns the opening value of the field with that name, or `None` if the node has no such field
/// or the field has no value.
pub fn value_named<'a>(scene: &'a Scene, node: u32, name: &str) -> Option<&'a Value>
    ensures { option_copied result ≡ value_named scene.now node name.now }
{
    let row = scene.field_named(node, name)?;
    scene.value(node, row.number)
}

/// Returns the strings of the field with that name; none if it doesn't hold strings.
pub fn strings_named<'a>(scene: &'a Scene, node: u32, name: &str) -> &'a [Text]
    ensures { result.now ≡ strings_in (value_named scene.now node name.now) }
{
    match value_named(scene, node, name) {
        Some(Value::MFString(strings)) => strings.as_slice(),
        _ => &[],
    }
}

/// Returns the integer of the field with that name, or 0 if it doesn't hold an integer.
pub fn integer_named(scene: &Scene, node: u32, name: &str) -> i64
    ensures { result ≡ integer_in (value_named scene.now node name.now) }
{
    match value_named(scene, node, name) {
        Some(Value::SFInt32(number)) => i64::from(*number),
        _ => 0,
    }
}

/// Returns 1 if the field with that name holds TRUE, otherwise 0.
pub fn truth_named(scene: &Scene, node: u32, name: &str) -> i64
    ensures { result ≡ truth_in (value_named scene.now node name.now) }
{
    match value_named(scene, node, name) {
        Some(Value::SFBool(true)) => 1,
        _ => 0,
    }
}

/// Returns the place in the field with that name, or zeros if it doesn't hold a place.
pub fn place_named(scene: &Scene, node: u32, name: &str) -> Vec3
    ensures { result.x ∷ result.y ∷ result.z ∷ []
        ≡ place_in (value_named scene.now node name.now) }
{
    match value_named(scene, node, name) {
        Some(Value::SFVec3f(place)) => *place,
        _ => Vec3 { x: 0, y: 0, z: 0 },
    }
}
