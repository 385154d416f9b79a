//! Boxes for the scripts of a scene.

ghost use Rattle.std.specs.Prelude.{◌≡◌, OnOk, IfOk, IfErr, map};
ghost use Rattle.cascade_core.specs.Scripts.{scripts_in};
ghost use Rattle.script_running.specs.Scripts.{script_list};
ghost use Rattle.script_host.specs.Attaching.{Fits};
ghost use Rattle.script_host.specs.Hosting.{fresh_record};
ghost use Rattle.app_program.specs.Boxes.{IsRefused};
ghost use Rattle.app_program.specs.declared.run_fault.RunFault.TheVariants.{Memory};

use crate::run_fault::RunFault;
use scene_core::Scene;
use script_host::{Behaviour, Scripts};
use script_running::script_list;
use std::alloc::Global;

/// Returns the scripts of a scene with these boxes, none of which is initialized, as a stage of the
/// scene takes them.
///
/// Fails with `Attach` if the boxes are not those that the scene's scripts ask for, and with
/// `Memory` if memory is refused. On failure the boxes are dropped.
pub fn attach<B: Behaviour>(
    alloc: Global,
    scene: &Scene,
    boxes: Vec<B>,
) -> Result<Scripts<B>, RunFault>
    ensures fits { IfOk result (λ scripts. Fits (script_list scene.now) scripts) }
    ensures fresh { IfOk result (λ scripts. scripts ≡ scripts_in scene.now) }
    ensures boxes { OnOk result
        (Fits (script_list scene.now) (map (fresh_record B.kind_of B.numbers) boxes.items)) }
    ensures takes { Fits (script_list scene.now)
        (map (fresh_record B.kind_of B.numbers) boxes.items) → IfErr result (λ f. f ≡ Memory) }
    ensures refused { IfErr result
        (IsRefused scene.now (map (fresh_record B.kind_of B.numbers) boxes.items)) }
{
    let specs = script_list(alloc, scene)?;
    Ok(Scripts::attach(alloc, specs.as_slice(), boxes)?)
}
