//! The limits of places and sensors.

ghost use Rattle.std.specs.Prelude.{◌≡◌, ℕ, codes, ◌+◌, ◌<◌, ◌≤◌, ◌==◌, true, false, min, map, length, IfOk, nat_lt, slice_index_or};
ghost use Rattle.std.specs.List.{list_any, sum_by};
ghost use Rattle.x3d_values.specs.Ranges.{max_depth, max_places, max_sensors};
ghost use Rattle.x3d_values.specs.Tables.{row_named, rows};
ghost use Rattle.scene_core.specs.Deep.{too_deep};
ghost use Rattle.scene_core.specs.Places as spec;

use crate::at::number_at;
use crate::scene::SceneNode;
use arrayvec::ArrayVec;
use std::alloc::{AllocError, Global};
use x3d_values::{FieldRow, MAX_DEPTH, MAX_PLACES, MAX_SENSORS, NodeType, Value, field_at};

/// Counts of places stop here.
const ENOUGH: u32 = MAX_PLACES + 1;

/// Returns the list `children` of a grouping node.
pub(crate) fn own_children(node: &SceneNode) -> &[u32]
    ensures { result.now ≡ spec.own_children node.now }
{
    let Some(row) = children_row(node.node_type) else {
        return &[];
    };
    match node.values.get(row.number as usize) {
        Some(Some(Value::MFNode(nodes))) => nodes.as_slice(),
        _ => &[],
    }
}

/// Returns the field `children` of a grouping node.
fn children_row(node_type: NodeType) -> Option<FieldRow>
    ensures { result ≡ row_named 0 (codes "children") (rows node_type) }
{
    match node_type {
        NodeType::Group => field_at(node_type, 3),
        NodeType::Transform => field_at(node_type, 4),
        NodeType::Switch => field_at(node_type, 3),
        _ => None,
    }
}

/// Reports whether there are too many places, if no chain is too long.
pub(crate) fn has_too_many_places(
    alloc: Global,
    nodes: &[SceneNode],
    roots: &[u32],
) -> Result<bool, AllocError>
    requires { too_deep nodes.now ≡ false }
    ensures { IfOk result
        (λ many. many ≡ nat_lt max_places (spec.places max_depth nodes.now roots.now)) }
{
    let counts = counts_of(alloc, nodes)?;
    Ok(MAX_PLACES < together(counts.as_slice(), roots))
}

/// Reports whether the list of the roots or any node's siblings have too many sensors.
pub(crate) fn is_any_crowded(nodes: &[SceneNode], roots: &[u32]) -> bool
    ensures { result ≡ spec.any_crowded nodes.now roots.now }
{
    is_crowded(nodes, roots) || has_crowded(nodes)
}

/// Returns the sum, at most `ENOUGH`.
fn plus(a: u32, b: u32) -> u32
    ensures { result ≡ min (a + b) ENOUGH }
{
    a.saturating_add(b).min(ENOUGH)
}

/// Returns the sum of the counts of these nodes, at most `ENOUGH`.
fn together(counts: &[u32], nodes: &[u32]) -> u32
    ensures { result ≡ min (sum_by (λ n. slice_index_or counts.now n 0) nodes.now) ENOUGH }
{
    let mut sum = 0;
    for n in nodes {
        sum = plus(sum, number_at(counts, *n));
    }
    sum
}

/// Returns the number of places from one place of the node down.
fn counted(counts: &[u32], node: &SceneNode) -> u32
    ensures { result ≡ spec.counted counts.now node.now }
{
    plus(1, together(counts, own_children(node)))
}

/// Returns the counts one level deeper.
fn one_deeper(alloc: Global, nodes: &[SceneNode], counts: &[u32]) -> Result<Vec<u32>, AllocError>
    ensures { IfOk result (λ more. more.items ≡ map (spec.counted counts.now) nodes.now) }
{
    nodes
        .iter()
        .map(|node| counted(counts, node))
        .collect(alloc)
}

/// Returns counts in one pass. They are right if each node comes after its children.
fn counts_in_order(alloc: Global, nodes: &[SceneNode]) -> Result<Vec<u32>, AllocError>
    ensures { IfOk result (λ counts. length counts.items ≡ length nodes.now) }
{
    let mut counts = Vec::with_capacity(alloc, nodes.len())?;
    for node in nodes {
        counts.push(counted(counts.as_slice(), node))?;
    }
    Ok(counts)
}

/// Returns for each node the number of places from one place of it down, at most `ENOUGH`.
fn counts_of(alloc: Global, nodes: &[SceneNode]) -> Result<Vec<u32>, AllocError>
    requires { too_deep nodes.now ≡ false }
    ensures { IfOk result
        (λ counts. (n : ℕ) → slice_index_or counts.items n 0
        ≡ min (slice_index_or (spec.places_below nodes.now max_depth) n 0) spec.enough) }
{
    let mut counts = counts_in_order(alloc, nodes)?;
    for _level in 0..MAX_DEPTH {
        let more = one_deeper(alloc, nodes, counts.as_slice())?;
        if more == counts {
            return Ok(counts);
        }
        counts = more;
    }
    Ok(counts)
}

/// Reports whether nodes of this type are pointing device sensors (ISO/IEC 19775-1, pointing device
/// sensor component).
pub fn is_pointing(node_type: NodeType) -> bool
    ensures { result ≡ spec.is_pointing node_type }
{
    match node_type {
        NodeType::TouchSensor | NodeType::PlaneSensor => true,
        _ => false,
    }
}

/// Reports whether the node with number `n` is a pointing sensor.
pub(crate) fn is_sensor(nodes: &[SceneNode], n: u32) -> bool
    ensures { result ≡ spec.is_sensor nodes.now n }
{
    match nodes.get(n as usize) {
        Some(node) => is_pointing(node.node_type),
        None => false,
    }
}

fn is_in(sensors: &[u32], n: u32) -> bool
    ensures { result ≡ list_any (λ m. m == n) sensors.now }
{
    sensors.iter().any(|sensor| *sensor == n)
}

/// Adds a node to the sensors if it is a sensor that isn't among them. Returns false if there is no
/// room.
fn add_sensor(nodes: &[SceneNode], sensors: &mut ArrayVec<u32, MAX_SENSORS>, n: u32) -> bool
    requires { length sensors.old.items ≤ max_sensors }
    ensures few { length sensors.new.items ≤ max_sensors }
    ensures fits { result ≡ true → sensors.new.items
        ≡ spec.with_sensor nodes.now sensors.old.items n }
    ensures full { result ≡ false
        → max_sensors < length (spec.with_sensor nodes.now sensors.old.items n) }
{
    if !is_sensor(nodes, n) {
        return true;
    }
    if is_in(sensors.as_slice(), n) {
        return true;
    }
    match sensors.try_push(n) {
        Ok(()) => true,
        Err(_) => false,
    }
}

/// Reports whether a list has too many sensors, each counted once.
fn is_crowded(nodes: &[SceneNode], list: &[u32]) -> bool
    ensures { result ≡ spec.is_crowded nodes.now list.now }
{
    let mut sensors: ArrayVec<u32, MAX_SENSORS> = ArrayVec::new();
    for n in list {
        if !add_sensor(nodes, &mut sensors, *n) {
            return true;
        }
    }
    false
}

/// Returns the children that are siblings to a pointing device: none in a Switch, which shows at
/// most one child, so no shape is shown beside a sensor.
fn own_siblings(node: &SceneNode) -> &[u32]
    ensures { result.now ≡ spec.own_siblings node.now }
{
    match node.node_type {
        NodeType::Switch => &[],
        _ => own_children(node),
    }
}

fn has_crowded(nodes: &[SceneNode]) -> bool
    ensures { result
        ≡ list_any (λ node. spec.is_crowded nodes.now (spec.own_siblings node)) nodes.now }
{
    nodes
        .iter()
        .any(|node| is_crowded(nodes, own_siblings(node)))
}
