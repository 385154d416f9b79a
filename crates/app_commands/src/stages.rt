//! Stages of a text's scene, one for each viewer, with boxes of the stock for its scripts.

ghost use Rattle.std.specs.Prelude.{◌≡◌, ◌≤◌, ◌⊎◌, IfOk, IfErr, Err, length};
ghost use Rattle.app_commands.specs.Stages.{AreStages, IsStage};
ghost use Rattle.app_program.specs.Stages.{staged_scene};
ghost use Rattle.share_rehearsal.specs.Loaded.{AreFresh};
ghost use Rattle.app_jobs.specs.declared.fault.JobFault.TheVariants.{Memory};

use app_jobs::JobFault;
use app_program::stage_of;
use cascade_core::Stage;
use script_boxes::StockScript;
use std::alloc::Global;

/// Returns `count` stages of a text's scene, the first of which is given. Fails with `Memory`
/// alone.
pub(crate) fn with_others(
    alloc: Global,
    text: &[u8],
    first: Stage<StockScript>,
    count: u8,
) -> Result<Vec<Stage<StockScript>>, JobFault>
    requires some { 1 ≤ count }
    requires first { IsStage text.now first }
    ensures stages { IfOk result (λ v. AreStages count text.now v.items) }
    ensures fresh { IfOk result (λ v. AreFresh v.items) }
    ensures count { IfOk result (λ v. length v.items ≡ count) }
    ensures err { IfErr result (λ f. f ≡ Memory) }
{
    let mut stages = Vec::new(alloc);
    stages.push(first)?;
    for _stage in 1..count {
        stages.push(stage_of(alloc, text)?)?;
    }
    Ok(stages)
}

/// Returns `count` stages of a text's scene, at least one, before any input.
pub(crate) fn stages_of(
    alloc: Global,
    text: &[u8],
    count: u8,
) -> Result<Vec<Stage<StockScript>>, JobFault>
    requires { 1 ≤ count }
    ensures stages { IfOk result (λ v. AreStages count text.now v.items) }
    ensures fresh { IfOk result (λ v. AreFresh v.items) }
    ensures count { IfOk result (λ v. length v.items ≡ count) }
    ensures err { IfErr result (λ f. (f ≡ Memory) ⊎ (staged_scene text.now ≡ Err f)) }
{
    let first = stage_of(alloc, text)?;
    with_others(alloc, text, first, count)
}
