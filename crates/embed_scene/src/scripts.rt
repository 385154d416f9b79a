//! The scripts that a scene runs, as numbers.

ghost use Rattle.std.specs.Prelude.{◌≡◌, ◌++◌, OnOk};
ghost use Rattle.std.specs.List.{flat_map};
ghost use Rattle.embed_scene.specs.Scripts as spec;

use scene_core::Scene;
use script_running::script_list;
use std::alloc::{AllocError, Global};
use x3d_values::{Kind, ScriptSpec};

/// Returns the number of a kind.
fn kind_number(kind: Option<Kind>) -> u8
    ensures { result ≡ spec.kind_number kind }
{
    match kind {
        Some(Kind::Counter) => 0,
        Some(Kind::Gate) => 1,
        Some(Kind::Adder) => 2,
        Some(Kind::Batch) => 3,
        Some(Kind::Mover) => 4,
        Some(Kind::Meter) => 5,
        None => 255,
    }
}

fn push_script(script: &ScriptSpec, out: &mut Vec<i64>) -> Result<(), AllocError>
    ensures { OnOk result (out.new.items ≡ out.old.items ++ spec.script_numbers script.now) }
{
    out.extend_from_slice(&[i64::from(script.node), i64::from(kind_number(script.kind))])
}

fn push_all(scripts: &[ScriptSpec], out: &mut Vec<i64>) -> Result<(), AllocError>
    ensures { OnOk result
        (out.new.items ≡ out.old.items ++ flat_map spec.script_numbers scripts.now) }
{
    for script in scripts {
        push_script(script, out)?;
    }
    Ok(())
}

/// Appends the node and the kind of each script that the scene runs, in the order of their numbers.
/// On an error, part of them may be appended.
pub fn push_scripts(alloc: Global, scene: &Scene, out: &mut Vec<i64>) -> Result<(), AllocError>
    ensures { OnOk result (out.new.items ≡ out.old.items ++ spec.scripts_in scene.now) }
{
    let scripts = script_list(alloc, scene)?;
    push_all(scripts.as_slice(), out)
}
