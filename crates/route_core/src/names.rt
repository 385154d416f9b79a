//! Fields of a node by the names that routes give them (ISO/IEC 19775-1, field semantics).

ghost use Rattle.std.specs.Prelude.{◌≡◌};
ghost use Rattle.x3d_values.specs.Aliases.{changed_alias, set_alias};
ghost use Rattle.scene_core.specs.Scene.{rows_at};
ghost use Rattle.route_core.specs.Named.{AreTables};
ghost use Rattle.route_core.specs.Names as spec;

use crate::named::{RowTables, field_named};
use scene_core::Scene;
use x3d_values::{FieldRow, FieldType};

/// Returns the field that a route's source names: by the field's own name, or by the name of an
/// inputOutput field followed by `_changed`. Rotations count as missing.
#[tactic(auto, unfolding(crate::specs::Names::source_field))]
pub(crate) fn source_field(
    scene: &Scene,
    tables: &RowTables<'_>,
    node: u32,
    name: &str,
) -> Option<FieldRow>
    requires { AreTables scene.now tables.now }
    ensures { result ≡ spec.source_field (rows_at scene.now node) name.now }
{
    if let Some(output) = exact(scene, tables, node, name) {
        return Some(output);
    }
    changed_alias(scene, tables, node, name)
}

/// Returns the field that a route's destination names: by the field's own name, or by `set_`
/// followed by the name of an inputOutput field. Rotations count as missing.
#[tactic(auto, unfolding(crate::specs::Names::target_field))]
pub(crate) fn target_field(
    scene: &Scene,
    tables: &RowTables<'_>,
    node: u32,
    name: &str,
) -> Option<FieldRow>
    requires { AreTables scene.now tables.now }
    ensures { result ≡ spec.target_field (rows_at scene.now node) name.now }
{
    if let Some(input) = exact(scene, tables, node, name) {
        return Some(input);
    }
    set_alias(scene, tables, node, name)
}

/// Returns the field with the name. Rotations count as missing.
fn exact(scene: &Scene, tables: &RowTables<'_>, node: u32, name: &str) -> Option<FieldRow>
    requires { AreTables scene.now tables.now }
    ensures { result ≡ spec.exact (rows_at scene.now node) name.now }
{
    let row = field_named(scene, tables, node, name)?;
    if row.field_type == FieldType::SFRotation {
        return None;
    }
    Some(row)
}

/// Returns the inputOutput field with the name.
fn exposed(scene: &Scene, tables: &RowTables<'_>, node: u32, name: &str) -> Option<FieldRow>
    requires { AreTables scene.now tables.now }
    ensures { result ≡ spec.exposed (rows_at scene.now node) name.now }
{
    let row = exact(scene, tables, node, name)?;
    if row.access.is_exposed() {
        return Some(row);
    }
    None
}

/// Returns the inputOutput field whose name follows `set_`.
fn set_alias(scene: &Scene, tables: &RowTables<'_>, node: u32, name: &str) -> Option<FieldRow>
    requires { AreTables scene.now tables.now }
    ensures { result ≡ set_alias (spec.exposed (rows_at scene.now node)) name.now }
{
    let name = name.strip_prefix("set_")?;
    exposed(scene, tables, node, name)
}

/// Returns the inputOutput field whose name precedes `_changed`.
fn changed_alias(scene: &Scene, tables: &RowTables<'_>, node: u32, name: &str) -> Option<FieldRow>
    requires { AreTables scene.now tables.now }
    ensures { result ≡ changed_alias (spec.exposed (rows_at scene.now node)) name.now }
{
    let name = name.strip_suffix("_changed")?;
    exposed(scene, tables, node, name)
}
