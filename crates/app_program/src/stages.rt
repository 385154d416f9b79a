//! Stages with boxes of the stock.

ghost use Rattle.std.specs.Prelude.{◌≡◌, ◌⊎◌, IfOk, IfErr, OnOk, None, Some};
ghost use Rattle.cascade_core.specs.Scripts.{scripts_in};
ghost use Rattle.script_running.specs.Scripts.{script_list};
ghost use Rattle.script_host.specs.Attaching.{Fits};
ghost use Rattle.x3d_lists.specs.Answers.{Gives};
ghost use Rattle.app_program.specs.Stages.{IsFresh, IsStage, fresh, opened_stage, scripts_refusal, staged, staged_scene};
ghost use Rattle.app_jobs.specs.declared.fault.JobFault.TheVariants.{Memory};

use crate::open::{OpenedScene, open_scene};
use app_jobs::JobFault;
use cascade_core::Stage;
use scene_core::Scene;
use script_boxes::{StockScript, attach_stock};
use script_host::Scripts;
use script_running::script_list;
use std::alloc::{AllocError, Global};

/// Returns boxes of the stock for the scripts of a scene, none of which is initialized.
fn scripts_of(alloc: Global, scene: &Scene) -> Result<Scripts<StockScript>, JobFault>
    ensures fits { IfOk result (λ scripts. Fits (script_list scene.now) scripts) }
    ensures fresh { IfOk result (λ scripts. scripts ≡ scripts_in scene.now) }
    ensures taken { OnOk result (scripts_refusal scene.now ≡ None) }
    ensures refused { IfErr result (λ f. (f ≡ Memory) ⊎ (scripts_refusal scene.now ≡ Some f)) }
{
    let specs = script_list(alloc, scene)?;
    Ok(attach_stock(alloc, specs.as_slice())?)
}

/// Returns the stage of a scene with these scripts before any input.
fn loaded(
    alloc: Global,
    opened: OpenedScene,
    scripts: Scripts<StockScript>,
) -> Result<Stage<StockScript>, AllocError>
    requires fits { Fits (script_list opened.scene) scripts }
    requires fresh { scripts ≡ scripts_in opened.scene }
    ensures { IfOk result (λ s. s ≡ fresh opened) }
{
    match Stage::load(alloc, opened.scene, opened.routes, scripts) {
        Ok(stage) => Ok(stage),
        Err(_refused) => Err(AllocError),
    }
}

/// Returns the stage of a scene before any input, with boxes of the stock for its scripts. Fails
/// with `Memory` if memory is refused, or else with the first fault of the scripts.
pub fn fresh_stage(alloc: Global, opened: OpenedScene) -> Result<Stage<StockScript>, JobFault>
    ensures exact { Gives Memory (λ s. s) result (staged opened) }
    ensures ok { IfOk result (λ s. s ≡ fresh opened) }
    ensures taken { OnOk result (scripts_refusal opened.scene ≡ None) }
    ensures err { IfErr result (λ f. (f ≡ Memory) ⊎ (scripts_refusal opened.scene ≡ Some f)) }
{
    match scripts_of(alloc, &opened.scene) {
        Ok(scripts) => Ok(loaded(alloc, opened, scripts)?),
        // For the prover: an explicit call. At an exit, the drop of a scene is proved in place.
        Err(fault) => {
            drop(opened);
            Err(fault)
        }
    }
}

/// Returns the stage of a text's scene before any input, with boxes of the stock for its scripts.
/// Fails with `Memory` if memory is refused, or else with the first fault of the text or of its
/// scripts.
#[tactic(auto, unfolding(crate::specs::Stages::opened_stage, crate::specs::Stages::staged_scene))]
pub fn stage_of(alloc: Global, text: &[u8]) -> Result<Stage<StockScript>, JobFault>
    ensures exact { Gives Memory (λ s. s) result (opened_stage text.now) }
    ensures fresh { IfOk result IsFresh }
    ensures ok { IfOk result (IsStage text.now) }
    ensures err { IfErr result (λ f. (f ≡ Memory) ⊎ (staged_scene text.now ≡ Err f)) }
{
    let opened = open_scene(alloc, text)?;
    fresh_stage(alloc, opened)
}
