//! What a ray sees of a node: the part that the scene fixes, and the part that the state says.

ghost use Rattle.std.specs.Prelude.{◌≡◌, slice_get};
ghost use Rattle.std.specs.Option.{option_copied};
ghost use Rattle.scene_core.specs.Scene.{type_at, value_at};
ghost use Rattle.pick_core.specs.Looks as spec;

use crate::numbers::{CENTER, GEOMETRY, SCALE, SIZE, TRANSLATION, WHICH_CHOICE};
use scene_core::Scene;
use x3d_values::{Fields, NodeType, Value, Vec3};

/// The role of a node for a ray. A Shape may hold a Box of a size.
#[derive(Clone, Copy)]
pub(crate) enum Role {
    Group,
    Transform,
    Switch,
    Shape(Option<Vec3>),
    Other,
}

/// How a Transform moves what is inside it, in millionths.
#[derive(Clone, Copy)]
pub struct Motion {
    pub translation: Vec3,
    pub scale: Vec3,
    pub center: Vec3,
}

const ORIGIN: Vec3 = Vec3 { x: 0, y: 0, z: 0 };

const ONES: Vec3 = Vec3 {
    x: 1_000_000,
    y: 1_000_000,
    z: 1_000_000,
};

/// Returns the size of a geometry if it is a Box.
fn size_of(scene: &Scene, geometry: u32) -> Option<Vec3>
    ensures { result ≡ spec.size_as scene.now geometry (type_at scene.now geometry) }
{
    match scene.type_at(geometry) {
        Some(NodeType::Box) => match scene.value(geometry, SIZE) {
            Some(Value::SFVec3f(size)) => Some(*size),
            _ => None,
        },
        _ => None,
    }
}

/// Returns the size of the Box in a Shape, if the Shape holds one.
fn size_in(scene: &Scene, shape: u32) -> Option<Vec3>
    ensures { result ≡ spec.size_of scene.now (spec.node_in (value_at scene.now shape GEOMETRY)) }
{
    match scene.value(shape, GEOMETRY) {
        Some(Value::SFNode(Some(geometry))) => size_of(scene, *geometry),
        _ => None,
    }
}

/// Returns the role of a node for a ray.
#[tactic(auto, unfolding(crate::specs::Looks::kind_of))]
pub(crate) fn kind_of(scene: &Scene, node: u32) -> Role
    ensures { result ≡ spec.kind_of scene.now node }
{
    match scene.type_at(node) {
        Some(NodeType::Group) => Role::Group,
        Some(NodeType::Transform) => Role::Transform,
        Some(NodeType::Switch) => Role::Switch,
        Some(NodeType::Shape) => Role::Shape(size_in(scene, node)),
        _ => Role::Other,
    }
}

/// Returns the nodes in the list `children` of a node.
#[tactic(auto, unfolding(crate::specs::Looks::listed))]
pub(crate) fn listed(scene: &Scene, node: u32) -> &[u32]
    ensures { result.now ≡ spec.listed scene.now node }
{
    scene.children(node)
}

fn vector_at(own: Option<&Fields>, number: u16, default: Vec3) -> Vec3
    ensures { result ≡ spec.vector_or default (spec.value_in (option_copied own.entry) number) }
{
    let Some(fields) = own else {
        return default;
    };
    match fields.value(number) {
        Some(Value::SFVec3f(vector)) => *vector,
        _ => default,
    }
}

/// Returns how a Transform with these fields moves what is inside it. A missing field moves
/// nothing.
#[tactic(auto, unfolding(crate::specs::Looks::motion_of))]
pub fn motion_of(own: Option<&Fields>) -> Motion
    ensures { result ≡ spec.motion_of (option_copied own.entry) }
{
    Motion {
        translation: vector_at(own, TRANSLATION, ORIGIN),
        scale: vector_at(own, SCALE, ONES),
        center: vector_at(own, CENTER, ORIGIN),
    }
}

/// Returns the position of the child that a Switch with these fields shows. A negative number shows
/// no child.
#[tactic(auto, unfolding(crate::specs::Looks::choice_of))]
pub(crate) fn choice_of(own: Option<&Fields>) -> i32
    ensures { result ≡ spec.choice_of (option_copied own.entry) }
{
    let Some(fields) = own else {
        return -1;
    };
    match fields.value(WHICH_CHOICE) {
        Some(Value::SFInt32(which)) => *which,
        _ => -1,
    }
}
