//! What the stage of a host forgets: the lines of its trace of inputs before the last ones.

ghost use Rattle.std.specs.Prelude.{◌≡◌, ◌≤◌, ◌+◌, ◌-◌};
ghost use Rattle.x3d_values.specs.Ranges.{max_inputs};
ghost use Rattle.cascade_core.specs.Held.{applied_of};
ghost use Rattle.share_keeping.specs.Forgetting as spec;

use cascade_core::Stage;
use script_host::Behaviour;
use x3d_values::MAX_INPUTS;

/// The least number of inputs from one time that lines are forgotten to the next. As many lines are
/// moved as are kept, so they are forgotten in portions.
const PORTION: u64 = 64;

/// What a stage forgets, and when.
#[derive(Clone, Copy)]
pub struct Forgetting {
    /// How many of the last inputs keep their lines of the trace; `None` keeps all.
    pub last: Option<u64>,
    /// After how many inputs lines were forgotten last.
    pub since: u64,
}

/// Returns the number of the first of the last `last` inputs of `applied`.
fn first_of_last(applied: u64, last: u64) -> u64
    requires { applied ≤ max_inputs }
    ensures { result ≡ applied + 1 - last }
{
    (applied + 1).saturating_sub(last)
}

/// Forgets the lines of the trace of all inputs but the last `last`. A spoiled stage stays as it
/// is, and one of more than `MAX_INPUTS` inputs.
fn forget_all_but<B: Behaviour>(stage: &mut Stage<B>, last: u64)
    ensures { stage.new ≡ spec.stage_but last stage.old }
{
    let applied = stage.applied();
    if applied > MAX_INPUTS {
        return;
    }
    let _refused_if_spoiled = stage.forget(first_of_last(applied, last));
}

/// Forgets the lines of the trace of all inputs but the last `forget`, if that is a number.
fn forget_as<B: Behaviour>(stage: &mut Stage<B>, forget: Option<u64>)
    ensures { stage.new ≡ spec.forgot_as forget stage.old }
{
    if let Some(last) = forget {
        forget_all_but(stage, last);
    }
}

/// Returns how many inputs are applied from one time that lines are forgotten to the next.
fn portion_of(forget: Option<u64>) -> u64
    ensures { result ≡ spec.portion_of forget }
{
    match forget {
        Some(last) => { if last < PORTION { PORTION } else { last } }
        None => PORTION,
    }
}

/// Returns what a stage forgets that forgot lines after `applied` inputs.
fn begun(forget: Option<u64>, applied: u64) -> Forgetting
    ensures { result ≡ spec.begun forget applied }
{
    Forgetting {
        last: forget,
        since: applied,
    }
}

/// Reports whether lines aren't forgotten again after `applied` inputs.
fn is_early(forgetting: &Forgetting, applied: u64) -> bool
    ensures { result ≡ spec.is_early forgetting.now applied }
{
    applied < forgetting.since || applied - forgetting.since < portion_of(forgetting.last)
}

/// Has a stage forget the lines of the trace of all inputs but the last `forget`. Returns when it
/// forgets again.
pub(crate) fn begin_forgetting<B: Behaviour>(
    stage: &mut Stage<B>,
    forget: Option<u64>,
) -> Forgetting
    ensures stage { stage.new ≡ spec.forgot_as forget stage.old }
    ensures next { result ≡ spec.begun forget (applied_of stage.old.held) }
{
    let applied = stage.applied();
    forget_as(stage, forget);
    begun(forget, applied)
}

/// Has a stage forget as it began to, once that is due.
pub(crate) fn forget_if_due<B: Behaviour>(stage: &mut Stage<B>, forgetting: &mut Forgetting)
    ensures stage { stage.new ≡ spec.forgot_if_due forgetting.old stage.old }
    ensures next { forgetting.new ≡ spec.due_next forgetting.old stage.old }
{
    if !is_early(forgetting, stage.applied()) {
        *forgetting = begin_forgetting(stage, forgetting.last);
    }
}
