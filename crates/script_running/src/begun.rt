//! The scripts of a stage, all of which were initialized.

ghost use Rattle.std.specs.Prelude.{◌≡◌};

use crate::acting;
use crate::ports::Ports;
use react_core::Outbox;
use script_host::{Behaviour, ReplaceFault, Scripts, StateFault};
use script_slots::DueScripts;
use std::alloc::AllocError;
use std::marker::Model;
use x3d_values::{Items, Value};

/// The scripts of a world, each of which was initialized.
#[derive(Drop)]
pub struct BegunScripts<B: Behaviour> {
    scripts: Scripts<B>,
}

impl<B: Behaviour> Model for BegunScripts<B> {
    ghost use Rattle.std.specs.Prelude.{◌≡◌, List, true};
    ghost use Rattle.script_host.specs.Hosting.{SlotView};
    ghost use Rattle.script_running.specs.Running.{are_begun};

    ghost Value = { List SlotView };

    ghost view = { λ s. s.scripts };

    ghost invariant = { λ s. are_begun s.scripts ≡ true };
}

impl<B: Behaviour> BegunScripts<B> {
    ghost use Rattle.std.specs.Prelude.{◌≡◌, ◌++◌, ◌<◌, [], IfErr, IsSomeAnd, OnErr, OnOk, is_some, length, map, slice_get, true};
    ghost use Rattle.script_slots.specs.Settling.{unsettled};
    ghost use Rattle.script_host.specs.Attaching.{RefusesPlace};
    ghost use Rattle.script_host.specs.Behaviour.{Settle};
    ghost use Rattle.script_host.specs.Restoring.{AreStates, RefusesStates};
    ghost use Rattle.script_running.specs.Acting.{act, call_of, kinds_of, receive as received};
    ghost use Rattle.script_running.specs.Running.{are_begun, running, states_of};

    /// Wraps scripts that were all initialized.
    pub fn new(scripts: Scripts<B>) -> BegunScripts<B>
        requires { are_begun scripts ≡ true }
        ensures { result ≡ scripts }
    {
        BegunScripts { scripts }
    }

    /// Returns the number of scripts.
    pub fn len(&self) -> usize
        ensures { result ≡ length self.now }
    {
        self.scripts.len()
    }

    /// Begins a timestamp: no script has received an event in it.
    #[tactic(auto, using(crate::proofs::Initialized::begun_running))]
    pub fn begin(&self, settling: &mut DueScripts)
        requires counted { settling.old.count ≡ length self.now }
        ensures settling { settling.new ≡ unsettled (length self.now) }
        ensures begun { self.now ≡ running (kinds_of self.now) (states_of self.now) }
    {
        let _ = &self.scripts;
        settling.begin();
    }

    /// Hands an event at a field of its node to the k-th script, and adds to `out` what the node
    /// sends. Reports whether the script received the event.
    #[tactic(auto, using(crate::proofs::Initialized::receive_begun))]
    pub fn receive(
        &mut self,
        k: usize,
        ports: &Ports,
        field: u16,
        value: &Value,
        out: &mut Outbox,
    ) -> bool
        requires there { k < length self.old }
        requires empty { out.old.items ≡ [] }
        ensures received { result ≡ is_some (call_of ports.now k field value.now self.old) }
        ensures scripts { self.new ≡ (received ports.now k field value.now self.old).scripts }
        ensures replies { out.new.items
            ≡ (received ports.now k field value.now self.old).replies }
        ensures kinds { kinds_of self.new ≡ kinds_of self.old }
    {
        acting::receive(&mut self.scripts, k, ports, field, value, out)
    }

    /// Settles the k-th script after the events of a timestamp, and adds to `out` what its node
    /// sends.
    #[tactic(auto, using(crate::proofs::Initialized::act_begun))]
    pub fn settle(&mut self, k: usize, ports: &Ports, out: &mut Outbox)
        requires there { k < length self.old }
        requires empty { out.old.items ≡ [] }
        ensures scripts { self.new ≡ (act ports.now Settle k self.old).scripts }
        ensures replies { out.new.items ≡ (act ports.now Settle k self.old).replies }
        ensures kinds { kinds_of self.new ≡ kinds_of self.old }
    {
        acting::settle(&mut self.scripts, k, ports, out);
    }

    /// Appends the states of all scripts to `out`. If memory runs out, `out` is unchanged.
    pub fn states(&self, out: &mut Vec<Items<i64>>) -> Result<(), AllocError>
        ensures ok { OnOk result (out.new.items ≡ out.old.items ++ states_of self.now) }
        ensures err { OnErr result (out.new.items ≡ out.old.items) }
    {
        self.scripts.states(out)
    }

    /// Puts each script into the state at its place in `states`. If a list isn't a state of its
    /// script, or the number of states is wrong, nothing changes. If memory runs out, the first
    /// scripts may have their new states.
    #[tactic(auto, using(crate::proofs::Initialized::restores))]
    pub fn restore(&mut self, states: &[Items<i64>]) -> Result<(), StateFault>
        ensures fit { OnOk result (AreStates self.old states.now) }
        ensures ok { OnOk result (self.new ≡ running (kinds_of self.old) states.now) }
        ensures refused { IfErr result (λ fault. RefusesStates fault self.old states.now self.new) }
        ensures kinds { kinds_of self.new ≡ kinds_of self.old }
    {
        self.scripts.restore_all(states)
    }

    /// Replaces the k-th box with one of the same kind, in the state of the old one. Fails if there
    /// is no such script, if the kinds differ, or if memory runs out.
    pub fn replace(&mut self, k: usize, script: B) -> Result<(), ReplaceFault>
        ensures same { self.new ≡ self.old }
        ensures ok { OnOk result
            (IsSomeAnd (slice_get self.old k) (λ r. B.kind_of script ≡ r.kind)) }
        ensures refused { IfErr result (λ fault.
            RefusesPlace fault (slice_get self.old k) (B.kind_of script)) }
    {
        self.scripts.replace(k, script)
    }
}
