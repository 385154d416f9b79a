//! The states in which scripts start.

ghost use Rattle.std.specs.Prelude.{◌≡◌, ◌++◌, IfOk, codes};
ghost use Rattle.script_running.specs.Scripts.{place_in, start_of as start_by, start_where as start_by_fit, value_named};

use crate::held::{integer_named, place_named, truth_named};
use scene_core::Scene;
use std::alloc::{AllocError, Global};
use x3d_values::{Items, Kind};

/// Returns the places from which and to which a mover moves.
fn way(alloc: Global, scene: &Scene, node: u32) -> Result<Items<i64>, AllocError>
    ensures { IfOk result (λ state. state ≡ place_in (value_named scene.now node (codes "from"))
        ++ place_in (value_named scene.now node (codes "to"))) }
{
    let from = place_named(scene, node, "from");
    let to = place_named(scene, node, "to");
    Items::from_slice(alloc, &[from.x, from.y, from.z, to.x, to.y, to.z])
}

/// Returns the state in which a script of the kind starts at that node.
fn start_of(alloc: Global, scene: &Scene, node: u32, kind: Kind) -> Result<Items<i64>, AllocError>
    ensures { IfOk result (λ state. state ≡ start_by scene.now node kind) }
{
    match kind {
        Kind::Counter => {
            let start = integer_named(scene, node, "start");
            let step = integer_named(scene, node, "step");
            Items::from_slice(alloc, &[start, step])
        }
        Kind::Gate => Items::from_slice(alloc, &[truth_named(scene, node, "startOpen")]),
        Kind::Adder => Items::from_slice(alloc, &[0, 0]),
        Kind::Batch => Items::from_slice(alloc, &[0]),
        Kind::Mover => way(alloc, scene, node),
        Kind::Meter => Ok(Items::new(alloc)),
    }
}

/// Returns the state in which a script starts; an empty list if its interface doesn't fit its kind.
/// Fails if memory runs out.
pub fn start_where(
    alloc: Global,
    scene: &Scene,
    node: u32,
    kind: Kind,
    fits: bool,
) -> Result<Items<i64>, AllocError>
    ensures { IfOk result (λ state. state ≡ start_by_fit scene.now node kind fits) }
{
    if fits {
        start_of(alloc, scene, node, kind)
    } else {
        Ok(Items::new(alloc))
    }
}
