//! The scripts that have received an event in a timestamp, and those of them still to be settled.

ghost use Rattle.std.specs.Prelude.{◌≡◌, ◌≤◌, [], length};
ghost use Rattle.script_slots.specs.Table.{AreFlags};

use std::alloc::{AllocError, Global};
use std::collections::BTreeSet;
use std::marker::Model;

/// The scripts that have received an event in a timestamp, and those that were settled in it.
///
/// Each call takes time logarithmic in the number of scripts, except `begin`, which is linear in
/// the number of scripts that have received an event.
#[derive(Drop)]
pub struct DueScripts {
    /// Whether each script has received an event, by the script's number.
    has_received: Vec<bool>,
    /// The scripts that have received an event.
    received: Vec<usize>,
    settled: Vec<usize>,
    /// The scripts that have received an event and aren't settled.
    due: BTreeSet<usize>,
}

impl Model for DueScripts {
    ghost use Rattle.std.specs.Prelude.{length};
    ghost use Rattle.script_slots.specs.Settling.{DueScriptsView};
    ghost use Rattle.script_slots.specs.Table.{IsTable};

    ghost Value = { DueScriptsView };

    ghost view = { λ s.
        record {
          count = length s.has_received.items;
          received = s.received.items;
          settled = s.settled.items;
        } };

    ghost invariant = { λ s.
        IsTable s.has_received.items s.due
        (record {
          count = length s.has_received.items;
          received = s.received.items;
          settled = s.settled.items;
        }) };
}

impl DueScripts {
    ghost use Rattle.std.specs.Prelude.{◌≡◌, ◌<◌, IfOk, OnOk, OnErr, true, length};
    ghost use Rattle.script_slots.specs.Settling.{is_due, lowest_due, unsettled, with_received, with_settled};

    /// Creates the table for `count` scripts, none of which has received an event.
    pub fn new(alloc: Global, count: usize) -> Result<DueScripts, AllocError>
        ensures { IfOk result (λ s. s ≡ unsettled count) }
    {
        Ok(DueScripts {
            has_received: vec![in alloc; false; count]?,
            received: Vec::new(alloc),
            settled: Vec::new(alloc),
            due: BTreeSet::new(alloc),
        })
    }

    /// Notes that a script received an event. If memory runs out, nothing changes.
    pub fn receive(&mut self, script: usize) -> Result<(), AllocError>
        requires { script < self.old.count }
        ensures ok { OnOk result (self.new ≡ with_received self.old script) }
        ensures err { OnErr result (self.new ≡ self.old) }
    {
        if self.has_received[script] {
            return Ok(());
        }
        self.received.push(script)?;
        if self.due.insert(script).is_err() {
            self.received.pop();
            return Err(AllocError);
        }
        self.has_received[script] = true;
        Ok(())
    }

    /// Returns the lowest script that has received an event and isn't settled, if there is one.
    pub fn next(&self) -> Option<usize>
        ensures { result ≡ lowest_due self.now }
    {
        self.due.first().copied()
    }

    /// Notes that a script that is due was settled. If memory runs out, nothing changes.
    pub fn settle(&mut self, script: usize) -> Result<(), AllocError>
        requires { is_due self.old script ≡ true }
        ensures ok { OnOk result (self.new ≡ with_settled self.old script) }
        ensures err { OnErr result (self.new ≡ self.old) }
    {
        self.settled.push(script)?;
        self.due.remove(&script);
        Ok(())
    }

    /// Returns how many scripts were settled.
    pub fn settles(&self) -> usize
        ensures { result ≡ length self.now.settled }
    {
        self.settled.len()
    }

    /// Begins another timestamp: no script has received an event in it.
    pub fn begin(&mut self)
        ensures { self.new ≡ unsettled self.old.count }
    {
        unmark(&mut self.has_received, &self.received);
        self.received.clear();
        self.settled.clear();
        self.due.clear();
    }
}

/// Clears the flags of these scripts.
fn unmark(flags: &mut [bool], scripts: &[usize])
    requires { AreFlags flags.old scripts.now }
    ensures cleared { AreFlags flags.new [] }
    ensures len { length flags.new ≡ length flags.old }
{
    for script in scripts {
        flags[*script] = false;
    }
}
