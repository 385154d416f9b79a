//! The scripts of a scene as a world runs them.

ghost use Rattle.std.specs.Prelude.{◌≡◌, ◌≤◌, IfOk, length, map};
ghost use Rattle.x3d_values.specs.Tables.{entry};
ghost use Rattle.scene_core.specs.Scene.{rows_at};
ghost use Rattle.script_running.specs.Runs as spec;

use crate::ports::{MAX_PORTS, Ports};
use arrayvec::ArrayVec;
use scene_core::Scene;
use script_host::{inputs, outputs};
use std::alloc::{AllocError, Global};
use x3d_values::{Field, Kind, ScriptSpec};

/// A script of a scene.
#[derive(Debug, Drop)]
pub struct Run {
    /// The number of the script's node.
    pub node: u32,
    /// The fields of the node that are the script's inputs and outputs.
    pub ports: Ports,
}

/// Returns the number of the node's field with that name, or 0 if there is none.
fn number_of(scene: &Scene, node: u32, field: &Field) -> u16
    ensures { result ≡ spec.number_in (rows_at scene.now node) (entry field.now) }
{
    match scene.field_named(node, field.name) {
        Some(row) => row.number,
        None => 0,
    }
}

/// Returns the numbers of the node's fields with these names.
fn numbers_of(scene: &Scene, node: u32, fields: &[Field]) -> ArrayVec<u16, MAX_PORTS>
    requires { length fields.now ≤ 2 }
    ensures { result.items ≡ map (spec.number_in (rows_at scene.now node)) (map entry fields.now) }
{
    let mut numbers = ArrayVec::new();
    match fields {
        [] => {}
        [only] => numbers.push(number_of(scene, node, only)),
        [first, second] => {
            numbers.push(number_of(scene, node, first));
            numbers.push(number_of(scene, node, second));
        }
        _ => unreachable!(),
    }
    numbers
}

/// Returns the fields of a node that are inputs and outputs of a script of the kind.
fn ports_of(scene: &Scene, node: u32, kind: Kind) -> Ports
    ensures { result ≡ spec.ports_of (rows_at scene.now node) kind }
{
    let inputs = numbers_of(scene, node, inputs(kind));
    let outputs = numbers_of(scene, node, outputs(kind));
    Ports::new(inputs, outputs)
}

/// Like `ports_of`; an unknown kind has no ports.
fn ports_by(scene: &Scene, node: u32, kind: Option<Kind>) -> Ports
    ensures { result ≡ spec.ports_by (rows_at scene.now node) kind }
{
    match kind {
        Some(kind) => ports_of(scene, node, kind),
        None => Ports::new(ArrayVec::new(), ArrayVec::new()),
    }
}

/// Returns a script that is asked for as a world runs it.
fn run_of(scene: &Scene, asked: &ScriptSpec) -> Run
    ensures { result ≡ spec.run_of scene.now asked.now }
{
    Run {
        node: asked.node,
        ports: ports_by(scene, asked.node, asked.kind),
    }
}

/// Returns the scripts that are asked for as a world runs them. Fails if memory runs out.
pub fn runs_of(alloc: Global, scene: &Scene, specs: &[ScriptSpec]) -> Result<Vec<Run>, AllocError>
    ensures { IfOk result (λ runs. runs.items ≡ map (spec.run_of scene.now) specs.now) }
{
    let mut runs = Vec::new(alloc);
    for asked in specs {
        runs.push(run_of(scene, asked))?;
    }
    Ok(runs)
}
