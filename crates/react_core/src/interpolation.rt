//! Interpolation between the values of keys.

ghost use Rattle.std.specs.Prelude.{◌≡◌, ◌≢◌, ◌<◌, ◌≤◌, ◌+◌, ◌*◌, length, map, slice_get, IfOk, IsOk};
ghost use Rattle.std.specs.List.{zip};
ghost use Rattle.react_core.specs.declared.place.Between.{Between};
ghost use Rattle.react_core.specs.Interpolation.{number_way, point_way, vector_way, between, group, vectors_way, vectors_between, interpolated};
ghost use Rattle.x3d_values.specs.declared.node_type.NodeType.TheVariants.{ScalarInterpolator, PositionInterpolator, PositionInterpolator2D, CoordinateInterpolator};

use crate::part::part_way;
use crate::place::{Between, place_of, point_way, vector_way};
use crate::stored::{numbers_of, points_of, vectors_of};
use std::alloc::{AllocError, Global};
use x3d_values::{Items, NodeType, Value, Vec2, Vec3};

/// Returns the value that an interpolator with these keys and values sends for a fraction. Keys and
/// fraction are in millionths.
///
/// Returns `None` if there are no keys, if a key is below the previous one, if the number of values
/// isn't that of the keys (or a multiple of it, for a CoordinateInterpolator), or if the node
/// doesn't interpolate. Only a CoordinateInterpolator takes memory; fails if that memory is
/// refused.
pub fn interpolate(
    alloc: Global,
    node_type: NodeType,
    keys: &[i64],
    values: &Value,
    fraction: i64,
) -> Result<Option<Value>, AllocError>
    ensures value { IfOk result
        (λ value. value ≡ interpolated node_type keys.now values.now fraction) }
    ensures no_memory { node_type ≢ CoordinateInterpolator → IsOk result }
{
    let NodeType::CoordinateInterpolator = node_type else {
        return Ok(interpolate_one(node_type, keys, values, fraction));
    };
    let Some(vectors) = vectors_of(values) else {
        return Ok(None);
    };
    let between = vectors_between(alloc, keys, vectors.as_slice(), fraction)?;
    match between {
        Some(vectors) => Ok(Some(Value::MFVec3f(vectors))),
        None => Ok(None),
    }
}

fn item<T: Copy>(values: &[T], at: usize) -> Option<T>
    ensures { result ≡ slice_get values.now at }
{
    values.get(at).copied()
}

/// A type with values part of the way between two others.
trait OnTheWay: Copy {
    ghost way: { Between → Self → Self → Self };

    fn on_the_way(place: Between, from: Self, to: Self) -> Self
        requires is_part { place.part ≤ place.whole }
        requires is_whole { 0 < place.whole }
        ensures { result ≡ way place from to };
}

impl OnTheWay for i64 {
    ghost way = { number_way };

    fn on_the_way(place: Between, from: i64, to: i64) -> i64 {
        part_way(place.part, place.whole, from, to)
    }
}

impl OnTheWay for Vec2 {
    ghost way = { point_way };

    fn on_the_way(place: Between, from: Vec2, to: Vec2) -> Vec2 {
        point_way(place, from, to)
    }
}

impl OnTheWay for Vec3 {
    ghost way = { vector_way };

    fn on_the_way(place: Between, from: Vec3, to: Vec3) -> Vec3 {
        vector_way(place, from, to)
    }
}

/// Returns the value at a fraction, if there is one value for each key.
#[tactic(auto, using(crate::proofs::Ways::passed), unfolding(crate::specs::Interpolation::between))]
fn between<T: OnTheWay>(keys: &[i64], values: &[T], fraction: i64) -> Option<T>
    ensures { result ≡ between T.way keys.now values.now fraction }
{
    if values.len() != keys.len() {
        return None;
    }
    let place = place_of(keys, fraction)?;
    let from = item(values, place.from)?;
    let to = item(values, place.to)?;
    Some(T::on_the_way(place, from, to))
}

/// Returns the vectors at `place` on the way between two lists.
fn vectors_way(
    alloc: Global,
    place: Between,
    from: &[Vec3],
    to: &[Vec3],
) -> Result<Vec<Vec3>, AllocError>
    requires is_part { place.part ≤ place.whole }
    requires is_whole { 0 < place.whole }
    ensures { IfOk result (λ vectors. vectors.items ≡ vectors_way place from.now to.now) }
{
    from.iter()
        .zip(to)
        .map(|(one, other)| vector_way(place, *one, *other))
        .collect(alloc)
}

/// Returns the vectors of item `item`, if each item has `many` vectors.
fn group(values: &[Vec3], many: usize, item: usize) -> &[Vec3]
    requires { item * many + many ≤ length values.now }
    ensures { result.now ≡ group values.now many item }
{
    &values[item * many..item * many + many]
}

/// Returns the vectors at a fraction, if each key has the same number of vectors, at least one.
#[tactic(auto, unfolding(crate::specs::Interpolation::vectors_between))]
fn vectors_between(
    alloc: Global,
    keys: &[i64],
    values: &[Vec3],
    fraction: i64,
) -> Result<Option<Items<Vec3>>, AllocError>
    ensures { IfOk result (λ vectors. vectors ≡ vectors_between keys.now values.now fraction) }
{
    let Some(place) = place_of(keys, fraction) else {
        return Ok(None);
    };
    if values.is_empty() || values.len() % keys.len() != 0 {
        return Ok(None);
    }
    let many = values.len() / keys.len();
    let from = group(values, many, place.from);
    let to = group(values, many, place.to);
    let vectors = vectors_way(alloc, place, from, to)?;
    Ok(Some(Items::from_vec(vectors)))
}

/// Returns the value that an interpolator of single values sends. A CoordinateInterpolator has
/// lists of values instead.
fn interpolate_one(
    node_type: NodeType,
    keys: &[i64],
    values: &Value,
    fraction: i64,
) -> Option<Value>
    requires { node_type ≢ CoordinateInterpolator }
    ensures { result ≡ interpolated node_type keys.now values.now fraction }
{
    match node_type {
        NodeType::ScalarInterpolator => number_at(keys, values, fraction),
        NodeType::PositionInterpolator => vector_at(keys, values, fraction),
        NodeType::PositionInterpolator2D => point_at(keys, values, fraction),
        _ => None,
    }
}

fn number_at(keys: &[i64], values: &Value, fraction: i64) -> Option<Value>
    ensures { result ≡ interpolated ScalarInterpolator keys.now values.now fraction }
{
    let numbers = numbers_of(values)?;
    let number = between(keys, numbers.as_slice(), fraction)?;
    Some(Value::SFFloat(number))
}

fn vector_at(keys: &[i64], values: &Value, fraction: i64) -> Option<Value>
    ensures { result ≡ interpolated PositionInterpolator keys.now values.now fraction }
{
    let vectors = vectors_of(values)?;
    let vector = between(keys, vectors.as_slice(), fraction)?;
    Some(Value::SFVec3f(vector))
}

fn point_at(keys: &[i64], values: &Value, fraction: i64) -> Option<Value>
    ensures { result ≡ interpolated PositionInterpolator2D keys.now values.now fraction }
{
    let points = points_of(values)?;
    let point = between(keys, points.as_slice(), fraction)?;
    Some(Value::SFVec2f(point))
}
