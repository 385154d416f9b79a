//! A list of inputs, applied to a scene.

ghost use Rattle.std.specs.Prelude.{◌≡◌, ◌⊎◌, IfOk, IfErr, None, OnOk, Some};
ghost use Rattle.cascade_core.specs.Apply.{opening, world};
ghost use Rattle.cascade_core.specs.Scripts.{scripts_in};
ghost use Rattle.cascade_core.specs.Held.{Running, after_all, refusal_in};
ghost use Rattle.cascade_core.specs.InOrder.{AreInOrder};
ghost use Rattle.script_running.specs.Scripts.{script_list};
ghost use Rattle.script_host.specs.Attaching.{Fits};

use crate::fault::ApplyFault;
use crate::stage::Stage;
use route_core::Routes;
use scene_core::Scene;
use script_host::{Behaviour, Scripts};
use std::alloc::Global;
use x3d_values::Stamped;

impl<B: Behaviour> Stage<B> {
    /// Applies inputs in order, up to the first that is refused.
    pub(crate) fn apply_all(&mut self, inputs: &[Stamped]) -> Result<(), ApplyFault>
        ensures ok { OnOk result (self.new ≡ after_all self.old inputs.now) }
        ensures taken { OnOk result (refusal_in self.old inputs.now ≡ None) }
        ensures err { IfErr result (λ fault. (fault ≡ ApplyFault.Memory)
            ⊎ (refusal_in self.old inputs.now ≡ Some fault)) }
    {
        for input in inputs {
            self.apply(input)?;
        }
        Ok(())
    }
}

/// Makes the stage of a scene and applies these inputs. Returns the fault of the first input that
/// is refused, or `Memory` if memory runs out.
#[tactic(auto, using(crate::proofs::Runs::after_all_running))]
pub fn run<B: Behaviour>(
    alloc: Global,
    scene: Scene,
    routes: Routes,
    scripts: Scripts<B>,
    inputs: &[Stamped],
) -> Result<Stage<B>, ApplyFault>
    requires fits { Fits (script_list scene) scripts }
    requires fresh { scripts ≡ scripts_in scene }
    ensures ok { IfOk result (λ stage. stage
        ≡ record {
          scene = scene;
          routes = routes;
          held = Running (world scene routes inputs.now);
        }) }
    // The only fault of an input is that of the first refused one.
    ensures taken { OnOk result
        (refusal_in
        (record { scene = scene; routes = routes; held = Running (opening scene routes) })
        inputs.now ≡ None) }
    ensures err { IfErr result (λ fault. (fault ≡ ApplyFault.Memory)
        ⊎ (refusal_in
        (record { scene = scene; routes = routes; held = Running (opening scene routes) })
        inputs.now ≡ Some fault)) }
    // Inputs in order are not refused.
    ensures in_order { AreInOrder inputs.now → IfErr result (λ fault. fault ≡ ApplyFault.Memory) }
{
    let Ok(mut stage) = Stage::load(alloc, scene, routes, scripts) else {
        return Err(ApplyFault::Memory);
    };
    if let Err(fault) = stage.apply_all(inputs) {
        drop(stage);
        return Err(fault);
    }
    Ok(stage)
}
