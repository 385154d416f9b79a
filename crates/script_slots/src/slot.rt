//! One script of a world, and whether it counts as initialized.

ghost use Rattle.std.specs.Prelude.{◌≡◌, ◌<◌, length, IsTrue, false, OnOk, OnErr, IfOk, IfErr, Some, None};
ghost use Rattle.script_slots.specs.Behaviour.{Initialize, Receive, Settle};
ghost use Rattle.script_slots.specs.Events.{takes_event};
ghost use Rattle.script_slots.specs.Hosting.{answer_of, after_call, fresh_record, CalledAt, TakesAt};
ghost use Rattle.script_slots.specs.States.{state_fault};

use crate::behaviour::Behaviour;
use crate::fault::StateFault;
use crate::reply::Replies;
use std::alloc::{AllocError, Global};
use std::marker::Model;
use std::mem;
use x3d_values::{Items, Kind};

/// Puts a script into a state of its kind. Fails only if memory runs out.
fn put<B: Behaviour>(script: &mut B, state: &[i64]) -> Result<(), AllocError>
    requires { state_fault (B.kind_of script.old) state.now ≡ None }
    ensures kind { B.kind_of script.new ≡ B.kind_of script.old }
    ensures ok { OnOk result (B.numbers script.new ≡ state.now) }
    ensures err { OnErr result (B.numbers script.new ≡ B.numbers script.old) }
{
    match script.restore(state) {
        Ok(()) => Ok(()),
        Err(StateFault::Memory) => Err(AllocError),
        Err(StateFault::StateLength | StateFault::StateRange) => unreachable!(),
    }
}

/// One script of a world: its box, and whether it counts as initialized.
#[derive(Drop)]
pub struct Slot<B: Behaviour> {
    script: B,
    initialized: bool,
}

impl<B: Behaviour> Model for Slot<B> {
    ghost use Rattle.script_slots.specs.Hosting.{SlotView};

    ghost Value = { SlotView };

    ghost view = { λ s. record {
      kind = B.kind_of s.script;
      state = B.numbers s.script;
      initialized = s.initialized;
    } };
}

impl<B: Behaviour> Slot<B> {
    /// Creates the slot of a script that doesn't count as initialized.
    pub fn new(script: B) -> Slot<B>
        ensures { result ≡ fresh_record B.kind_of B.numbers script }
    {
        Slot {
            script,
            initialized: false,
        }
    }

    /// Returns the kind of the script.
    pub fn kind(&self) -> Kind
        ensures { result ≡ self.now.kind }
    {
        self.script.kind()
    }

    /// Initializes the script, which then counts as initialized. Returns what it sends.
    pub fn initialize(&mut self) -> Replies
        ensures after { self.new ≡ after_call Initialize self.old }
        ensures replies { result.items ≡ (answer_of Initialize self.old).replies }
    {
        self.initialized = true;
        self.script.initialize()
    }

    /// Hands an event to the script at one of its inputs, and returns what it sends. `takes_event`
    /// tests that the event is of the input's type.
    pub fn receive(&mut self, input: u32, event: [i64; 3]) -> Replies
        requires { IsTrue (takes_event self.old.kind input event) }
        ensures after { self.new ≡ after_call (Receive input event) self.old }
        ensures replies { result.items ≡ (answer_of (Receive input event) self.old).replies }
    {
        self.script.receive(input, event)
    }

    /// Settles the script after the events of a timestamp, and returns what it sends.
    pub fn settle(&mut self) -> Replies
        ensures after { self.new ≡ after_call Settle self.old }
        ensures replies { result.items ≡ (answer_of Settle self.old).replies }
    {
        self.script.events_processed()
    }

    /// Shuts the script down if it counts as initialized. Afterwards it doesn't count as
    /// initialized.
    pub fn shutdown(&mut self)
        ensures { self.new ≡ record self.old { initialized = false } }
    {
        if self.initialized {
            self.initialized = false;
            self.script.shutdown();
        }
    }

    /// Returns the state of the script. Fails if memory runs out.
    pub fn state(&self, alloc: Global) -> Result<Items<i64>, AllocError>
        ensures value { IfOk result (λ state. state ≡ self.now.state) }
        ensures valid { state_fault self.now.kind self.now.state ≡ None }
    {
        let mut state = Vec::new(alloc);
        self.script.state(&mut state)?;
        Ok(Items::from_vec(state))
    }

    /// Checks that a list of numbers is a state of the script; returns why it isn't.
    pub fn fits(&self, state: &[i64]) -> Result<(), StateFault>
        ensures ok { OnOk result (state_fault self.now.kind state.now ≡ None) }
        ensures err { IfErr result (λ fault. state_fault self.now.kind state.now ≡ Some fault) }
    {
        self.script.fits(state)
    }

    /// Puts the script into a state of its kind. If memory runs out, nothing changes.
    pub fn restore(&mut self, state: &[i64]) -> Result<(), AllocError>
        requires { state_fault self.old.kind state.now ≡ None }
        ensures ok { OnOk result (self.new ≡ record self.old { state = state.now }) }
        ensures err { OnErr result (self.new ≡ self.old) }
    {
        put(&mut self.script, state)
    }

    /// Replaces the script with one of any kind, in a state of the new one's kind. The old script
    /// is shut down if it counts as initialized; the new one then counts as initialized without a
    /// call. If memory runs out, nothing changes.
    pub fn take(&mut self, mut script: B, state: &[i64]) -> Result<(), AllocError>
        requires { state_fault (B.kind_of script) state.now ≡ None }
        // `script` is the new script, so its kind may differ from the old one's.
        ensures ok { OnOk result (self.new
            ≡ record self.old { kind = B.kind_of script; state = state.now }) }
        ensures err { OnErr result (self.new ≡ self.old) }
    {
        put(&mut script, state)?;
        let mut old = mem::replace(&mut self.script, script);
        if self.initialized {
            old.shutdown();
        }
        Ok(())
    }
}

/// Hands an event to the k-th script, and returns what the script sends.
pub fn receive_at<B: Behaviour>(
    slots: &mut [Slot<B>],
    k: usize,
    input: u32,
    event: [i64; 3],
) -> Replies
    requires there { k < length slots.old }
    requires fits { TakesAt k input event slots.old }
    ensures { CalledAt (Receive input event) k slots.old slots.new result.items }
{
    slots[k].receive(input, event)
}
