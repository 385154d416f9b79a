//! A stage, and the window of the next inputs, which are applied in order.

ghost use Rattle.std.specs.Prelude.{◌≡◌, ◌≤◌, ◌+◌, ◌^◌, ℕ, List, false, length};
ghost use Rattle.x3d_values.specs.Ranges.{max_inputs};
ghost use Rattle.cascade_core.specs.Course.{Scripted};
ghost use Rattle.cascade_core.specs.Held.{Running, applied_of, is_spoiled};
ghost use Rattle.share_rules.specs.Window.{window_places};
ghost use Rattle.share_wire.specs.declared.message.Body.TheVariants as body;
ghost use Rattle.share_law.specs.Calls.{IsTake};
ghost use Rattle.share_law.specs.Cascade.{cascade};
ghost use Rattle.share_core.specs.Ahead.{InPlace, IsDrained, IsNext};
ghost use Rattle.share_core.specs.Viewer.{view_of};
ghost use Rattle.share_core.specs.Waiting.{Offers, with_offers};

use cascade_core::{ApplyFault, Stage};
use script_host::Behaviour;
use share_law::{TakeFault, Taken};
use share_rules::{Window, place_of};
use x3d_values::Stamped;

/// Applies the next input, if it is there. Returns whether it was.
fn apply_next<B: Behaviour>(stage: &mut Stage<B>, window: &mut Window) -> Result<bool, TakeFault>
    requires runs { is_spoiled stage.old.held ≡ false }
    requires place { InPlace (applied_of stage.old.held + 1) window.old }
    requires most { applied_of stage.old.held ≤ max_inputs }
    ensures scene { stage.new.scene ≡ stage.old.scene }
    ensures routes { stage.new.routes ≡ stage.old.routes }
    ensures place { InPlace (applied_of stage.new.held + 1) window.new }
    ensures most { applied_of stage.new.held ≤ max_inputs }
    ensures places { length window.old ≡ window_places }
    ensures step { (mark : List ℕ) (w : Scripted) → stage.old.held ≡ Running w
        → IsNext (cascade mark stage.old.scene stage.old.routes) w window.old result
        stage.new.held window.new }
{
    let Some(input) = window.next() else {
        return Ok(false);
    };
    match stage.apply(&input) {
        Ok(_) => {
            window.advance();
            Ok(true)
        }
        Err(ApplyFault::TimeNotLater) => {
            window.drop_next();
            Err(TakeFault::TimeNotLater)
        }
        Err(ApplyFault::Memory) => Err(TakeFault::Memory),
        Err(ApplyFault::Spoiled) => unreachable!(),
        Err(ApplyFault::NotNext) => unreachable!(),
    }
}

/// Applies the next inputs, up to the first that is missing.
fn apply_ready<B: Behaviour>(stage: &mut Stage<B>, window: &mut Window) -> Result<Taken, TakeFault>
    requires runs { is_spoiled stage.old.held ≡ false }
    requires place { InPlace (applied_of stage.old.held + 1) window.old }
    requires most { applied_of stage.old.held ≤ max_inputs }
    ensures scene { stage.new.scene ≡ stage.old.scene }
    ensures routes { stage.new.routes ≡ stage.old.routes }
    ensures place { InPlace (applied_of stage.new.held + 1) window.new }
    ensures most { applied_of stage.new.held ≤ max_inputs }
    ensures step { (mark : List ℕ) (w : Scripted) → stage.old.held ≡ Running w
        → IsDrained (cascade mark stage.old.scene stage.old.routes) w window.old result
        stage.new.held window.new }
{
    let mut count = 0;
    while apply_next(stage, window)? {
        count += 1;
    }
    if count == 0 {
        Ok(Taken::Held)
    } else {
        Ok(Taken::Applied(count))
    }
}

/// Takes an input that arrived.
pub(crate) fn take_input<B: Behaviour>(
    stage: &mut Stage<B>,
    window: &mut Window,
    input: Stamped,
) -> Result<Taken, TakeFault>
    requires runs { is_spoiled stage.old.held ≡ false }
    requires place { InPlace (applied_of stage.old.held + 1) window.old }
    requires most { applied_of stage.old.held ≤ max_inputs }
    ensures scene { stage.new.scene ≡ stage.old.scene }
    ensures routes { stage.new.routes ≡ stage.old.routes }
    ensures place { InPlace (applied_of stage.new.held + 1) window.new }
    ensures most { applied_of stage.new.held ≤ max_inputs }
    ensures step { (mark : List ℕ) (o : Offers)
        → IsTake (cascade mark stage.old.scene stage.old.routes) o.who
        (with_offers o (view_of stage.old.held window.old)) (body.Input input) result
        (with_offers o (view_of stage.new.held window.new)) }
{
    let applied = stage.applied();
    let number = input.number();
    if number <= applied {
        return Ok(Taken::Old);
    }
    let Some(place) = place_of(applied, number) else {
        return Ok(Taken::Beyond);
    };
    window.keep(place as usize, input);
    apply_ready(stage, window)
}
