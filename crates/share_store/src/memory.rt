//! A log in memory, with several handles, that fails where its plan says.

ghost use Rattle.std.specs.Prelude.{◌≡◌, ◌<◌, ◌≤◌, ◌++◌, [], true, false, List, length, slice_set, IfOk, IsTrue, OnOk, OnErr};
ghost use Rattle.share_entries.specs.Entry.{EntryView};
ghost use Rattle.share_store.specs.OneLog.{AreOfOneLog};
ghost use Rattle.share_store.specs.Memory.{MemoryView, known_by, is_open_by, knowns_of, IsAppend};

use crate::fault::{AppendFault, ReadFault};
use share_entries::Entry;
use std::alloc::{AllocError, Global};
use std::marker::Model;

/// What becomes of an append.
#[derive(Clone, Copy, Debug, PartialEq, Eq)]
pub enum Outcome {
    /// The entries are added, and the answer is `Ok`.
    Stored,
    /// Nothing is added, and the answer is `Taken`.
    Taken,
    /// The entries are added, and the answer is `InDoubt`.
    InDoubtStored,
    /// Nothing is added, and the answer is `InDoubt`.
    InDoubtLost,
    /// Nothing is added, and the answer is `Memory`, until `go_on` is called.
    Refused,
}

/// How far a handle has read.
#[derive(Clone, Copy, PartialEq, Eq)]
pub struct Standing {
    /// The number of entries that it has read or stored.
    pub known: usize,
    /// It has read on since an answer was `Taken` or `InDoubt`.
    pub is_open: bool,
}

/// A log in memory. It has a number of handles, which take turns.
#[derive(Drop)]
pub struct MemoryLog {
    entries: Vec<Entry>,
    handles: Vec<Standing>,
    appends: usize,
    plan: Vec<Outcome>,
}

impl Model for MemoryLog {
    ghost use Rattle.share_store.specs.Memory.{MemoryView};

    ghost Value = { MemoryView };

    ghost view = { λ m. record {
      entries = m.entries.items;
      handles = m.handles.items;
      appends = m.appends;
      plan = m.plan.items;
    } };
}

impl MemoryLog {
    /// Makes a log without entries, with this number of handles. The append or reading number k,
    /// counted from 0, has the outcome number k of the plan; after the last all succeed. Fails if
    /// memory is refused.
    pub fn new(alloc: Global, handles: usize, plan: Vec<Outcome>) -> Result<MemoryLog, AllocError>
        ensures entries { IfOk result (λ m. m.entries ≡ []) }
        ensures handles { IfOk result (λ m. length m.handles ≡ handles) }
        ensures plan { IfOk result (λ m. (m.plan ≡ plan.items) × (m.appends ≡ 0)) }
    {
        let fresh = Standing {
            known: 0,
            is_open: true,
        };
        let handles = vec![in alloc; fresh; handles]?;
        Ok(MemoryLog {
            entries: Vec::new(alloc),
            handles,
            appends: 0,
            plan,
        })
    }

    /// What the handles know is the beginning of one list.
    pub fn is_one_log(&self)
        ensures { AreOfOneLog (knowns_of self.now) self.now.entries }
    {
        let _ = &self.entries;
    }

    /// Returns the entries, in order.
    pub fn entries(&self) -> &[Entry]
        ensures { result.now ≡ self.now.entries }
    {
        &self.entries
    }

    /// Ends the refusals of an append.
    pub fn go_on(&mut self)
        ensures entries { self.new.entries ≡ self.old.entries }
        ensures handles { self.new.handles ≡ self.old.handles }
    {
        self.appends = self.appends.saturating_add(1);
    }

    pub(crate) fn is_open_by(&self, number: usize) -> bool
        ensures { result ≡ is_open_by self.now number }
    {
        match self.handles.get(number) {
            None => false,
            Some(handle) => handle.is_open,
        }
    }

    /// Returns the number of entries that a handle has read.
    pub(crate) fn len_by(&self, number: usize) -> usize
        ensures { result ≡ length (known_by self.now number) }
    {
        match self.handles.get(number) {
            None => 0,
            Some(handle) => handle.known.min(self.entries.len()),
        }
    }

    /// Returns the entries that a handle has read.
    pub(crate) fn known_by(&self, number: usize) -> &[Entry]
        ensures { result.now ≡ known_by self.now number }
    {
        match self.handles.get(number) {
            None => &[],
            Some(handle) => &self.entries[..handle.known.min(self.entries.len())],
        }
    }

    fn outcome(&self) -> Outcome {
        match self.plan.get(self.appends) {
            None => Outcome::Stored,
            Some(outcome) => *outcome,
        }
    }

    /// Notes how far a handle has read, and counts an append.
    fn set(&mut self, number: usize, known: usize, is_open: bool)
        requires { number < length self.old.handles }
        ensures entries { self.new.entries ≡ self.old.entries }
        ensures handles { self.new.handles
            ≡ slice_set self.old.handles number (record { known = known; is_open = is_open }) }
    {
        self.handles[number] = Standing { known, is_open };
        self.appends = self.appends.saturating_add(1);
    }

    /// Closes a handle.
    fn close(&mut self, number: usize)
        requires { IsTrue (is_open_by self.old number) }
        ensures entries { self.new.entries ≡ self.old.entries }
        ensures known { known_by self.new number ≡ known_by self.old number }
        ensures closed { is_open_by self.new number ≡ false }
    {
        let known = self.len_by(number);
        self.set(number, known, false);
    }

    /// Adds entries.
    fn add(&mut self, entries: &[Entry]) -> Result<(), AllocError>
        ensures entries { OnOk result (self.new.entries ≡ self.old.entries ++ entries.now) }
        ensures handles { OnOk result (self.new.handles ≡ self.old.handles) }
        ensures refused { OnErr result (self.new ≡ self.old) }
    {
        self.entries.extend_from_slice(entries)
    }

    /// Adds entries after those that a handle knows, which are all.
    fn store(&mut self, number: usize, entries: &[Entry]) -> Result<(), AllocError>
        requires open { IsTrue (is_open_by self.old number) }
        requires all { known_by self.old number ≡ self.old.entries }
        ensures entries { OnOk result (self.new.entries ≡ self.old.entries ++ entries.now) }
        ensures known { OnOk result (known_by self.new number ≡ self.new.entries) }
        ensures open { OnOk result (IsTrue (is_open_by self.new number)) }
        ensures refused { OnErr result (self.new ≡ self.old) }
    {
        self.add(entries)?;
        let all = self.entries.len();
        self.set(number, all, true);
        Ok(())
    }

    /// Adds entries after those that a handle knows, which are all, and closes the handle.
    fn doubt(&mut self, number: usize, entries: &[Entry]) -> Result<(), AllocError>
        requires open { IsTrue (is_open_by self.old number) }
        requires all { known_by self.old number ≡ self.old.entries }
        ensures entries { OnOk result (self.new.entries ≡ self.old.entries ++ entries.now) }
        ensures known { OnOk result (known_by self.new number ≡ self.old.entries) }
        ensures closed { OnOk result (is_open_by self.new number ≡ false) }
        ensures refused { OnErr result (self.new ≡ self.old) }
    {
        let known = self.entries.len();
        self.add(entries)?;
        self.set(number, known, false);
        Ok(())
    }

    /// Appends as the plan has it.
    fn append_planned(&mut self, number: usize, entries: &[Entry]) -> Result<(), AppendFault>
        requires open { IsTrue (is_open_by self.old number) }
        requires all { known_by self.old number ≡ self.old.entries }
        ensures { IsAppend number entries.now result self.old self.new }
    {
        match self.outcome() {
            Outcome::Stored => match self.store(number, entries) {
                Ok(()) => Ok(()),
                Err(_) => Err(AppendFault::Memory),
            },
            Outcome::Taken => {
                self.close(number);
                Err(AppendFault::Taken)
            }
            Outcome::InDoubtStored => match self.doubt(number, entries) {
                Ok(()) => Err(AppendFault::InDoubt),
                Err(_) => Err(AppendFault::Memory),
            },
            Outcome::InDoubtLost => {
                self.close(number);
                Err(AppendFault::InDoubt)
            }
            Outcome::Refused => Err(AppendFault::Memory),
        }
    }

    /// Appends by a handle.
    pub(crate) fn append_by(&mut self, number: usize, entries: &[Entry]) -> Result<(), AppendFault>
        requires { IsTrue (is_open_by self.old number) }
        ensures { IsAppend number entries.now result self.old self.new }
    {
        if self.len_by(number) < self.entries.len() {
            self.close(number);
            return Err(AppendFault::Taken);
        }
        self.append_planned(number, entries)
    }

    /// Adds to `into` what a handle hasn't read.
    pub(crate) fn read_by(&mut self, number: usize, into: &mut Vec<Entry>) -> Result<(), ReadFault>
        ensures entries { self.new.entries ≡ self.old.entries }
        ensures known { OnOk result (known_by self.new number ≡ self.new.entries) }
        ensures read { OnOk result ((more : List EntryView)
            × (self.new.entries ≡ known_by self.old number ++ more)
            × (into.new.items ≡ into.old.items ++ more)) }
        ensures open { OnOk result (IsTrue (is_open_by self.new number)) }
        ensures refused { OnErr result (self.new ≡ self.old) }
        ensures kept { OnErr result (into.new.items ≡ into.old.items) }
    {
        if number >= self.handles.len() {
            return Err(ReadFault::Device);
        }
        let known = self.len_by(number);
        if into.extend_from_slice(&self.entries[known..]).is_err() {
            return Err(ReadFault::Memory);
        }
        let all = self.entries.len();
        self.set(number, all, true);
        Ok(())
    }
}
