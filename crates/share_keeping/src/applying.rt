//! A log's entries, applied to a stage.

ghost use Rattle.std.specs.Prelude.{◌≡◌, ◌⊎◌, IfErr, None, OnOk, Some};
ghost use Rattle.share_logged.specs.Logged.{cause_of};
ghost use Rattle.share_keeping.specs.Applying as spec;

use cascade_core::{ApplyFault, Stage};
use script_host::Behaviour;
use share_entries::{Entry, Source};
use x3d_values::{Cause, MAX_INPUTS, Stamped};

fn cause_of(source: Source) -> Cause
    ensures { result ≡ cause_of source }
{
    match source {
        Source::Clock => Cause::Clock,
        Source::Offer(offer) => Cause::Pointer(offer.pointer()),
    }
}

/// Returns the input that a host shows for an entry after `applied` others, if there is one.
fn shown(applied: u64, entry: &Entry) -> Option<Stamped>
    ensures { result ≡ spec.shown_next applied entry.now }
{
    if applied >= MAX_INPUTS {
        return None;
    }
    let cause = cause_of(entry.source());
    Some(Stamped::new(applied + 1, entry.time(), cause))
}

/// Applies the input of the next entry.
fn apply_one<B: Behaviour>(stage: &mut Stage<B>, entry: &Entry) -> Result<(), ApplyFault>
    ensures ok { OnOk result (stage.new ≡ spec.after_entry stage.old entry.now) }
    ensures taken { OnOk result (spec.refusal_of_entry stage.old entry.now ≡ None) }
    ensures err { IfErr result (λ fault. (fault ≡ ApplyFault.Memory)
        ⊎ (spec.refusal_of_entry stage.old entry.now ≡ Some fault)) }
{
    let Some(input) = shown(stage.applied(), entry) else {
        return Err(ApplyFault::NotNext);
    };
    match stage.apply(&input) {
        Ok(_work) => Ok(()),
        Err(fault) => Err(fault),
    }
}

/// Applies the inputs of the next entries of a log, up to the first that is refused.
pub(crate) fn apply_all<B: Behaviour>(
    stage: &mut Stage<B>,
    entries: &[Entry],
) -> Result<(), ApplyFault>
    ensures ok { OnOk result (stage.new ≡ spec.after_entries stage.old entries.now) }
    ensures taken { OnOk result (spec.refusal_in stage.old entries.now ≡ None) }
    ensures err { IfErr result (λ fault. (fault ≡ ApplyFault.Memory)
        ⊎ (spec.refusal_in stage.old entries.now ≡ Some fault)) }
{
    for entry in entries {
        apply_one(stage, entry)?;
    }
    Ok(())
}
