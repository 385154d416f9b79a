//! The scripts of one world, in order.

ghost use Rattle.std.specs.Prelude.{◌≡◌, ◌<◌, ◌↔◌, ◌++◌, [], length, map, IsTrue, OnOk, OnErr, IfOk, IfErr, IsOkUnless, IsSomeAnd, slice_get, Some};
ghost use Rattle.script_host.specs.Attaching.{Fits, Refuses, RefusesPlace};
ghost use Rattle.script_host.specs.Behaviour.{Initialize, Receive, Settle};
ghost use Rattle.script_host.specs.Growing.{Grows};
ghost use Rattle.script_host.specs.Hosting.{fresh_record, CalledAt, TakesAt};
ghost use Rattle.script_host.specs.Pairs.{PairsBelow};
ghost use Rattle.script_host.specs.Restoring.{AreStates, IsStateOf, RefusesStates, with_states};
ghost use Rattle.script_host.specs.declared.fault.AttachFault.TheVariants.{Memory};

use crate::fault::{AttachFault, ReplaceFault};
use crate::{attach, restore};
use script_slots::{Behaviour, Replies, Slot, StateFault, receive_at};
use std::alloc::{AllocError, Global};
use std::marker::Model;
use x3d_values::{Items, Kind, ScriptSpec};

/// The scripts of a world. Callers see the kind and the state of each script, and whether it counts
/// as initialized.
///
/// When this is dropped or closed, the scripts that count as initialized are shut down in order,
/// and then all boxes are dropped.
pub struct Scripts<B: Behaviour> {
    slots: Vec<Slot<B>>,
}

impl<B: Behaviour> Model for Scripts<B> {
    ghost use Rattle.std.specs.Prelude.{List};
    ghost use Rattle.script_host.specs.Hosting.{SlotView};

    ghost Value = { List SlotView };

    ghost view = { λ s. s.slots.items };
}

/// Replaces a box with one of the same kind, in the state of the old one.
fn put_in<B: Behaviour>(slot: &mut Slot<B>, alloc: Global, script: B) -> Result<(), ReplaceFault>
    ensures same { slot.new ≡ slot.old }
    ensures ok { OnOk result (B.kind_of script ≡ slot.old.kind) }
    ensures refused { IfErr result (λ fault.
        RefusesPlace fault (Some slot.old) (B.kind_of script)) }
{
    if script.kind() != slot.kind() {
        return Err(ReplaceFault::KindDiffers);
    }
    let state = slot.state(alloc)?;
    slot.take(script, state.as_slice())?;
    Ok(())
}

impl<B: Behaviour> Scripts<B> {
    fn from_boxes(alloc: Global, boxes: Vec<B>) -> Result<Scripts<B>, AllocError>
        ensures { IfOk result (λ scripts.
            scripts ≡ map (fresh_record B.kind_of B.numbers) boxes.items) }
    {
        let slots = boxes
            .into_iter()
            .map(|script| Slot::new(script))
            .collect(alloc)?;
        Ok(Scripts { slots })
    }

    /// Takes the boxes that a world's scripts ask for. None of the scripts counts as initialized.
    /// If the boxes are refused, they are dropped without a call that changes them.
    pub fn attach(
        alloc: Global,
        specs: &[ScriptSpec],
        boxes: Vec<B>,
    ) -> Result<Scripts<B>, AttachFault>
        // The result consists of the boxes, and the boxes are what the scripts ask for.
        ensures boxes { IfOk result (λ scripts.
            scripts ≡ map (fresh_record B.kind_of B.numbers) boxes.items) }
        ensures fits { IfOk result (λ scripts. Fits specs.now scripts) }

        // Boxes that are what the scripts ask for are refused only if memory runs out. Other boxes
        // are refused with the first fault.
        ensures takes { Fits specs.now (map (fresh_record B.kind_of B.numbers) boxes.items)
            → IsOkUnless result Memory }
        ensures refused { IfErr result (λ fault.
            Refuses fault specs.now (map (fresh_record B.kind_of B.numbers) boxes.items)) }
    {
        if let Err(fault) = attach::check(alloc, specs, boxes.as_slice()) {
            drop(boxes);
            return Err(fault);
        }
        Ok(Scripts::from_boxes(alloc, boxes)?)
    }

    /// Returns the number of scripts.
    pub fn len(&self) -> usize
        ensures { result ≡ length self.now }
    {
        self.slots.len()
    }

    /// Reports whether there are no scripts.
    pub fn is_empty(&self) -> bool
        ensures { IsTrue result ↔ (self.now ≡ []) }
    {
        self.slots.is_empty()
    }

    /// Returns the kind of the k-th script.
    pub fn kind(&self, k: usize) -> Kind
        requires { k < length self.now }
        ensures { IsSomeAnd (slice_get self.now k) (λ r. result ≡ r.kind) }
    {
        self.slots[k].kind()
    }

    /// Initializes the k-th script, and returns what it sends.
    pub fn call_initialize(&mut self, k: usize) -> Replies
        requires { k < length self.old }
        ensures { CalledAt Initialize k self.old self.new result.items }
    {
        self.slots[k].initialize()
    }

    /// Hands an event to input `input` of the k-th script, and returns what the script sends.
    /// `takes_event` for the script's kind tests that the script takes the event.
    pub fn call_receive(&mut self, k: usize, input: u32, event: [i64; 3]) -> Replies
        requires there { k < length self.old }
        requires fits { TakesAt k input event self.old }
        ensures { CalledAt (Receive input event) k self.old self.new result.items }
    {
        receive_at(self.slots.as_mut_slice(), k, input, event)
    }

    /// Settles the k-th script after the events of a timestamp, and returns what it sends.
    pub fn call_settle(&mut self, k: usize) -> Replies
        requires { k < length self.old }
        ensures { CalledAt Settle k self.old self.new result.items }
    {
        self.slots[k].settle()
    }

    fn push_states(&self, out: &mut Vec<Items<i64>>) -> Result<(), AllocError>
        ensures ok { OnOk result (out.new.items ≡ out.old.items ++ map (λ r. r.state) self.now) }
        ensures fit { OnOk result
            (PairsBelow IsStateOf self.now (map (λ r. r.state) self.now) (length self.now)) }
        ensures kept { Grows out.old.items out.new.items }
    {
        let alloc = *out.allocator();
        for slot in &self.slots {
            out.push(slot.state(alloc)?)?;
        }
        Ok(())
    }

    /// Appends the states of all scripts to `out`. If memory runs out, `out` is unchanged.
    pub fn states(&self, out: &mut Vec<Items<i64>>) -> Result<(), AllocError>
        ensures ok { OnOk result (out.new.items ≡ out.old.items ++ map (λ r. r.state) self.now) }
        ensures fit { OnOk result (AreStates self.now (map (λ r. r.state) self.now)) }
        ensures err { OnErr result (out.new.items ≡ out.old.items) }
    {
        let len = out.len();
        let pushed = self.push_states(out);
        if pushed.is_err() {
            out.truncate(len);
        }
        pushed
    }

    /// Puts each script into the state at its place in `states`. If a list isn't a state of its
    /// script, or the number of states is wrong, nothing changes. If memory runs out, the first
    /// scripts may have their new states.
    pub fn restore_all(&mut self, states: &[Items<i64>]) -> Result<(), StateFault>
        ensures fit { OnOk result (AreStates self.old states.now) }
        ensures ok { OnOk result (self.new ≡ with_states self.old states.now) }
        ensures refused { IfErr result (λ fault. RefusesStates fault self.old states.now self.new) }
    {
        if self.slots.len() != states.len() {
            return Err(StateFault::StateLength);
        }
        restore::all_fit(self.slots.as_slice(), states)?;
        restore::restore_each(self.slots.as_mut_slice(), states)?;
        Ok(())
    }

    /// Replaces the k-th box with one of the same kind, in the state of the old one. The old box is
    /// shut down if it counts as initialized, and is dropped; the new one then counts as
    /// initialized without a call. A box that is refused is dropped: there is no such script, the
    /// kinds differ, or memory ran out.
    pub fn replace(&mut self, k: usize, script: B) -> Result<(), ReplaceFault>
        ensures same { self.new ≡ self.old }
        ensures ok { OnOk result
            (IsSomeAnd (slice_get self.old k) (λ r. B.kind_of script ≡ r.kind)) }
        ensures refused { IfErr result (λ fault.
            RefusesPlace fault (slice_get self.old k) (B.kind_of script)) }
    {
        let alloc = *self.slots.allocator();
        if k >= self.slots.len() {
            return Err(ReplaceFault::NoSuchScript);
        }
        put_in(&mut self.slots[k], alloc, script)
    }

    /// Shuts down the scripts that count as initialized, in order, and then drops the boxes.
    pub fn close(self) {
        drop(self);
    }
}

impl<B: Behaviour> Drop for Scripts<B> {
    fn drop(self) {
        let Scripts { mut slots } = self;
        for slot in slots.iter_mut() {
            slot.shutdown();
        }
    }
}
