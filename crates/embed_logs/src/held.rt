//! A log that is open, with the entries that it has.

ghost use Rattle.std.specs.Prelude.{◌≡◌, ◌≤◌, ◌++◌, IfErr, IfOk, IsTrue, OnOk, length, true};
ghost use Rattle.x3d_values.specs.Ranges.{max_inputs};
ghost use Rattle.share_store.specs.OneLog.{Last};
ghost use Rattle.embed_entries.specs.Appends.{log_text};
ghost use Rattle.embed_logs.specs.Appending.{AddFails, AppendFails, IsAppended, NextFails};

use crate::fault::LogFileFault;
use crate::reading::entries_in;
use crate::storing::store_all;
use embed_entries::append_bytes;
use share_entries::{Entry, Head};
use share_store::{AppendFault, Log};
use std::alloc::{AllocError, Global};
use x3d_values::MAX_INPUTS;

/// A log that is open, with its head and its entries: at most 2^48 - 1, those of a world.
#[derive(Drop)]
pub struct EmbeddedLog<L: Log> {
    log: L,
    head: Head,
    entries: Vec<Entry>,
    /// No append was in doubt.
    is_open: bool,
    ghost taking: { IsTrue is_open → IsTrue (L.is_open log) },
    ghost same: { IsTrue (L.is_clean log) → L.known log ≡ entries.items },
    ghost few: { length entries.items ≤ max_inputs },
}

impl<L: Log> EmbeddedLog<L> {
    /// Goes on with a log that has these entries.
    pub(crate) fn of(log: L, head: Head, entries: Vec<Entry>) -> EmbeddedLog<L>
        requires open { IsTrue (L.is_open log) }
        requires same { IsTrue (L.is_clean log) → L.known log ≡ entries.items }
        requires few { length entries.items ≤ max_inputs }
        ensures log { result.log ≡ log }
        ensures head { result.head ≡ head }
        ensures entries { result.entries.items ≡ entries.items }
        ensures open { result.is_open ≡ true }
    {
        EmbeddedLog {
            log,
            head,
            entries,
            is_open: true,
        }
    }

    /// Returns the number of entries.
    pub fn count(&self) -> u64
        ensures { result ≡ length self.now.entries.items }
    {
        self.entries.len() as u64
    }

    /// Returns the number of viewers, 1 to 64.
    pub fn viewers(&self) -> u8
        ensures { result ≡ self.now.head.viewers }
    {
        self.head.viewers
    }

    /// Returns what names the log: 16 bytes.
    pub fn run(&self) -> [u8; 16]
        ensures { result ≡ self.now.head.run }
    {
        self.head.run
    }

    /// Returns the bytes of the log: those of its appends, one after another. Fails if memory is
    /// refused.
    pub fn text(&self, alloc: Global) -> Result<Vec<u8>, AllocError>
        ensures { IfOk result
            (λ v. v.items ≡ log_text self.now.head.mark self.now.entries.items) }
    {
        append_bytes(alloc, &self.head.mark, 1, &self.entries)
    }

    /// Stores entries after those that the log has. Fails with `Full` if there would be more than a
    /// world has.
    fn add(&mut self, more: &[Entry]) -> Result<(), AppendFault>
        requires open { IsTrue self.old.is_open }
        ensures head { self.new.head ≡ self.old.head }
        ensures stored { OnOk result (self.new.entries.items ≡ self.old.entries.items ++ more.now) }
        ensures open { OnOk result (self.new.is_open ≡ true) }
        ensures refused { IfErr result (λ fault. AddFails fault self.new.is_open
            self.old.entries.items more.now self.new.entries.items) }
        ensures clean { IsTrue (L.is_clean self.new.log) → IsTrue (L.is_clean self.old.log) }
        ensures lasts { IsTrue (L.is_clean self.new.log)
            → Last (L.may_leave self.old.log) self.old.entries.items
            → Last (L.may_leave self.new.log) self.new.entries.items }
    {
        if more.len() > MAX_INPUTS as usize - self.entries.len() {
            return Err(AppendFault::Full);
        }
        match store_all(&mut self.log, &mut self.entries, more) {
            Ok(()) => Ok(()),
            Err(AppendFault::Memory) => Err(AppendFault::Memory),
            Err(AppendFault::Full) => Err(AppendFault::Full),
            Err(AppendFault::Taken) => {
                self.is_open = false;
                Err(AppendFault::InDoubt)
            }
            Err(AppendFault::InDoubt) => {
                self.is_open = false;
                Err(AppendFault::InDoubt)
            }
        }
    }

    /// Stores the entries of an append, and returns the fault as the log of a file has it.
    fn add_next(&mut self, more: &[Entry]) -> Result<(), LogFileFault>
        requires open { IsTrue self.old.is_open }
        ensures head { self.new.head ≡ self.old.head }
        ensures stored { OnOk result (self.new.entries.items ≡ self.old.entries.items ++ more.now) }
        ensures open { OnOk result (self.new.is_open ≡ true) }
        ensures refused { IfErr result (λ fault. NextFails fault self.new.is_open
            self.old.entries.items more.now self.new.entries.items) }
        ensures clean { IsTrue (L.is_clean self.new.log) → IsTrue (L.is_clean self.old.log) }
        ensures lasts { IsTrue (L.is_clean self.new.log)
            → Last (L.may_leave self.old.log) self.old.entries.items
            → Last (L.may_leave self.new.log) self.new.entries.items }
    {
        match self.add(more) {
            Ok(()) => Ok(()),
            Err(AppendFault::Memory) => Err(LogFileFault::Memory),
            Err(AppendFault::Full) => Err(LogFileFault::LogFull),
            Err(AppendFault::Taken) => Err(LogFileFault::InDoubt),
            Err(AppendFault::InDoubt) => Err(LogFileFault::InDoubt),
        }
    }

    /// Appends the bytes of entries: each after its number, which is the next of the log, and
    /// before the first of a log the mark of its scene. After `Ok` they stay, whatever crashes. No
    /// bytes are no entries. Doesn't test whether a host wrote them.
    ///
    /// Fails with `InDoubt` if the log is in doubt: then it has the first of the entries, none or
    /// all of them, and takes no append. Fails with `NotEntries`, `LogFull` if there would be over
    /// 2^48 - 1 entries, or `Memory`; nothing changes then.
    pub fn append(&mut self, alloc: Global, bytes: &[u8]) -> Result<(), LogFileFault>
        ensures head { self.new.head ≡ self.old.head }
        ensures stored { OnOk result (IsAppended self.old.head.mark self.old.entries.items bytes.now
            self.new.entries.items) }
        ensures open { OnOk result (self.new.is_open ≡ true) }
        ensures refused { IfErr result (λ fault. AppendFails self.old.head.mark self.old.is_open
            self.old.entries.items bytes.now fault self.new.is_open self.new.entries.items) }
        ensures clean { IsTrue (L.is_clean self.new.log) → IsTrue (L.is_clean self.old.log) }
        // What lasted lasts, and so does what was stored.
        ensures lasts { IsTrue (L.is_clean self.new.log)
            → Last (L.may_leave self.old.log) self.old.entries.items
            → Last (L.may_leave self.new.log) self.new.entries.items }
    {
        if !self.is_open {
            return Err(LogFileFault::InDoubt);
        }
        let first = u64::from(self.count()) + 1;
        match entries_in(alloc, &self.head.mark, first, bytes) {
            Ok(more) => self.add_next(&more),
            Err(fault) => Err(fault),
        }
    }
}
