//! The contract of a script.

ghost use Rattle.std.specs.Prelude.{◌≡◌, ◌++◌, ◌⊎◌, ℤ, List, IsTrue, OnOk, OnErr, IfErr};
ghost use Rattle.x3d_values.specs.declared.script.Kind.{Kind as KindOf};
ghost use Rattle.script_slots.specs.Behaviour.{behave, Initialize, Receive, Settle};
ghost use Rattle.script_slots.specs.Events.{takes_event};
ghost use Rattle.script_slots.specs.States.{state_fault};
ghost use Rattle.script_slots.specs.declared.fault.StateFault.TheVariants.{Memory};

use crate::fault::StateFault;
use crate::reply::Replies;
use std::alloc::AllocError;
use x3d_values::Kind;

/// A script that a world runs. A script means its kind and its state, a list of whole numbers.
/// `behave` gives the state after a call and what the call sends. Only `state` and `restore` may
/// allocate memory.
pub trait Behaviour: Drop {
    ghost kind_of: { Self → KindOf };

    ghost numbers: { Self → List ℤ };

    fn kind(&self) -> Kind
        ensures { result ≡ kind_of self.now };

    /// Initializes the script. Called once, before all other calls, unless the script replaces one
    /// that was already initialized.
    fn initialize(&mut self) -> Replies
        ensures kind { kind_of self.new ≡ kind_of self.old }
        ensures state { numbers self.new ≡
            (behave (kind_of self.old) Initialize (numbers self.old)).state }
        ensures replies { result.items ≡
            (behave (kind_of self.old) Initialize (numbers self.old)).replies };

    /// Receives a value at an input. `takes_event` tests that the value is of the input's type.
    fn receive(&mut self, input: u32, event: [i64; 3]) -> Replies
        requires { IsTrue (takes_event (kind_of self.old) input event) }
        ensures kind { kind_of self.new ≡ kind_of self.old }
        ensures state { let call = Receive input event in
            numbers self.new ≡ (behave (kind_of self.old) call (numbers self.old)).state }
        ensures replies { let call = Receive input event in
            result.items ≡ (behave (kind_of self.old) call (numbers self.old)).replies };

    /// Called after the events of a timestamp were received (ISO/IEC 19775-1, scripting component).
    fn events_processed(&mut self) -> Replies
        ensures kind { kind_of self.new ≡ kind_of self.old }
        ensures state { numbers self.new ≡
            (behave (kind_of self.old) Settle (numbers self.old)).state }
        ensures replies { result.items ≡
            (behave (kind_of self.old) Settle (numbers self.old)).replies };

    /// Shuts the script down. This is the last call.
    fn shutdown(&mut self)
        ensures kind { kind_of self.new ≡ kind_of self.old }
        ensures state { numbers self.new ≡ numbers self.old };

    /// Appends the state to `out`. On an error, `out` is unchanged.
    fn state(&self, out: &mut Vec<i64>) -> Result<(), AllocError>
        ensures ok { OnOk result (out.new.items ≡ out.old.items ++ numbers self.now) }
        ensures err { OnErr result (out.new.items ≡ out.old.items) }
        ensures valid { state_fault (kind_of self.now) (numbers self.now) ≡ None };

    /// Checks that a list of numbers is a state of this kind; returns why it isn't. Allocates
    /// nothing.
    fn fits(&self, state: &[i64]) -> Result<(), StateFault>
        ensures ok { OnOk result (state_fault (kind_of self.now) state.now ≡ None) }
        ensures err { IfErr result (λ fault.
            state_fault (kind_of self.now) state.now ≡ Some fault) };

    /// Puts the script into a state. On an error, its state is unchanged: the list isn't a state of
    /// this kind, or memory ran out (`Memory`).
    fn restore(&mut self, state: &[i64]) -> Result<(), StateFault>
        ensures kind { kind_of self.new ≡ kind_of self.old }
        ensures ok { OnOk result (numbers self.new ≡ state.now) }
        ensures valid { OnOk result (state_fault (kind_of self.old) state.now ≡ None) }
        ensures err { OnErr result (numbers self.new ≡ numbers self.old) }
        ensures fault { IfErr result (λ fault.
            (fault ≡ Memory) ⊎ (state_fault (kind_of self.old) state.now ≡ Some fault)) };
}
