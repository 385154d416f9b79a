//! Puts scripts into saved states.

ghost use Rattle.std.specs.Prelude.{◌≡◌, ℕ, length, take, OnOk, OnErr, IfErr};
ghost use Rattle.script_host.specs.Restoring.{AreStates, IsFirstFault, with_states};

use script_slots::{Behaviour, Slot, StateFault};
use std::alloc::AllocError;
use x3d_values::Items;

/// Checks that each of the states is a state of its script; returns the fault of the first that
/// isn't. Allocates nothing.
pub fn all_fit<B: Behaviour>(slots: &[Slot<B>], states: &[Items<i64>]) -> Result<(), StateFault>
    requires { length slots.now ≡ length states.now }
    ensures ok { OnOk result (AreStates slots.now states.now) }
    ensures err { IfErr result (λ fault. IsFirstFault fault slots.now states.now) }
{
    for (k, slot) in slots.iter().enumerate() {
        slot.fits(states[k].as_slice())?;
    }
    Ok(())
}

/// Puts each script into its state, in order. If memory runs out, the first scripts have their new
/// states and the others their old ones.
pub fn restore_each<B: Behaviour>(
    slots: &mut [Slot<B>],
    states: &[Items<i64>],
) -> Result<(), AllocError>
    requires { AreStates slots.old states.now }
    ensures ok { OnOk result (slots.new ≡ with_states slots.old states.now) }
    ensures err { OnErr result ((k : ℕ) × (slots.new ≡ with_states slots.old (take k states.now))) }
{
    for (k, state) in states.iter().enumerate() {
        slots[k].restore(state.as_slice())?;
    }
    Ok(())
}
