//! What the ends of a document's route refer to in its scene.

ghost use Rattle.std.specs.Prelude.{◌≡◌, ◌^◌, ◌<◌, IfOk, IfSome};
ghost use Rattle.route_core.specs.Ends as spec;
ghost use Rattle.route_core.specs.Named.{AreTables};

use crate::fault::RouteFaultKind;
use crate::named::RowTables;
use crate::names::{source_field, target_field};
use proto_flat::{FlatEnd, FlatRoute};
use scene_core::{End, Route, Scene};
use x3d_values::{FieldRow, FieldType};

/// A field of a node of the scene, and its type.
#[derive(Clone, Copy)]
pub(crate) struct SceneField {
    pub(crate) end: End,
    pub(crate) field_type: FieldType,
}

/// Returns the route in the scene. Fails with the source's fault, the target's, or that of both
/// together.
pub(crate) fn route_of(
    scene: &Scene,
    tables: &RowTables<'_>,
    route: &FlatRoute,
) -> Result<Route, RouteFaultKind>
    requires { AreTables scene.now tables.now }
    ensures exact { result ≡ spec.route_of scene.now route.now }
    ensures known { IfOk result (λ r. spec.IsKnown scene.now r.source) }
{
    let source = source_of(scene, tables, &route.source)?;
    let target = target_of(scene, tables, &route.target)?;
    joined(source, target)
}

/// Returns the number in the scene of a node of the document, if the scene has the node.
fn node_of(scene: &Scene, node: u32) -> Option<u32>
    ensures exact { result ≡ spec.node_of scene.now node }
    ensures numbered { IfSome result (λ n. n < 2 ^ 32) }
{
    let number = scene.number(node)?;
    if (number as usize) < scene.node_count() {
        return Some(number);
    }
    None
}

fn field_at(node: u32, row: FieldRow) -> SceneField
    ensures { result ≡ spec.field_at node row }
{
    SceneField {
        end: End {
            node,
            field: row.number,
        },
        field_type: row.field_type,
    }
}

fn output_named(
    scene: &Scene,
    tables: &RowTables<'_>,
    node: u32,
    name: &str,
) -> Result<SceneField, RouteFaultKind>
    requires { AreTables scene.now tables.now }
    ensures exact { result ≡ spec.output_named scene.now name.now (spec.node_of scene.now node) }
    ensures known { IfOk result (λ field. spec.IsKnown scene.now field.end) }
{
    let Some(node) = node_of(scene, node) else {
        return Err(RouteFaultKind::NoSuchNode);
    };
    let Some(row) = source_field(scene, tables, node, name) else {
        return Err(RouteFaultKind::NoSuchField);
    };
    if row.access.sends() {
        return Ok(field_at(node, row));
    }
    Err(RouteFaultKind::NotOutput)
}

fn input_named(
    scene: &Scene,
    tables: &RowTables<'_>,
    node: u32,
    name: &str,
) -> Result<SceneField, RouteFaultKind>
    requires { AreTables scene.now tables.now }
    ensures { result ≡ spec.input_named scene.now name.now (spec.node_of scene.now node) }
{
    let Some(node) = node_of(scene, node) else {
        return Err(RouteFaultKind::NoSuchNode);
    };
    let Some(row) = target_field(scene, tables, node, name) else {
        return Err(RouteFaultKind::NoSuchField);
    };
    if row.access.receives() {
        return Ok(field_at(node, row));
    }
    Err(RouteFaultKind::NotInput)
}

/// Returns the output that a source names.
fn source_of(
    scene: &Scene,
    tables: &RowTables<'_>,
    end: &FlatEnd,
) -> Result<SceneField, RouteFaultKind>
    requires { AreTables scene.now tables.now }
    ensures exact { result ≡ spec.source_of scene.now end.now }
    ensures known { IfOk result (λ field. spec.IsKnown scene.now field.end) }
{
    match end {
        FlatEnd::At(node, name) => output_named(scene, tables, *node, name.as_str()),
        FlatEnd::NoNode => Err(RouteFaultKind::NoSuchNode),
        FlatEnd::NoField => Err(RouteFaultKind::NoSuchField),
        FlatEnd::WrongWay => Err(RouteFaultKind::NotOutput),
    }
}

/// Returns the input that a destination names.
fn target_of(
    scene: &Scene,
    tables: &RowTables<'_>,
    end: &FlatEnd,
) -> Result<SceneField, RouteFaultKind>
    requires { AreTables scene.now tables.now }
    ensures { result ≡ spec.target_of scene.now end.now }
{
    match end {
        FlatEnd::At(node, name) => input_named(scene, tables, *node, name.as_str()),
        FlatEnd::NoNode => Err(RouteFaultKind::NoSuchNode),
        FlatEnd::NoField => Err(RouteFaultKind::NoSuchField),
        FlatEnd::WrongWay => Err(RouteFaultKind::NotInput),
    }
}

/// Joins two ends that have the same type and hold no nodes.
fn joined(source: SceneField, target: SceneField) -> Result<Route, RouteFaultKind>
    ensures { result ≡ spec.joined source target }
{
    if source.field_type != target.field_type {
        return Err(RouteFaultKind::TypesDiffer);
    }
    if source.field_type.holds_nodes() {
        return Err(RouteFaultKind::NodeEvent);
    }
    Ok(Route {
        source: source.end,
        target: target.end,
    })
}
