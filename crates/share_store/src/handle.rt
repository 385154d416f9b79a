//! A handle of a log in memory.

ghost use Rattle.std.specs.Prelude.{◌≡◌, true};
ghost use Rattle.share_store.specs.Memory.{known_by, is_open_by};

use crate::fault::{AppendFault, ReadFault};
use crate::log::{Log, Remembers};
use crate::memory::MemoryLog;
use share_entries::Entry;

/// The turn of one of the handles of a log in memory.
#[derive(Drop)]
pub struct MemoryHandle<'a> {
    pub log: &'a mut MemoryLog,
    /// Which handle, counted from 0.
    pub number: usize,
}

impl MemoryLog {
    /// Returns a handle, by its number from 0.
    pub fn handle(&mut self, number: usize) -> MemoryHandle<'_>
        ensures same_reference { result.log.ghost_name ≡ self.entry.ghost_name }
        ensures log { result.log.now ≡ self.old }
        ensures number { result.number ≡ number }
    {
        MemoryHandle { log: self, number }
    }
}

impl Log for MemoryHandle<'_> {
    ghost known = { λ h. known_by h.log.now h.number };

    ghost may_leave = { λ h entries. entries ≡ h.log.now.entries };

    ghost is_open = { λ h. is_open_by h.log.now h.number };

    ghost is_clean = { λ _. true };

    fn takes_appends(&self) -> bool {
        self.log.is_open_by(self.number)
    }

    fn len(&self) -> u64 {
        self.log.len_by(self.number) as u64
    }

    fn append(&mut self, entries: &[Entry]) -> Result<(), AppendFault> {
        self.log.append_by(self.number, entries)
    }

    fn read_on(&mut self, into: &mut Vec<Entry>) -> Result<(), ReadFault> {
        self.log.read_by(self.number, into)
    }
}

impl Remembers for MemoryHandle<'_> {
    fn entries(&self) -> &[Entry] {
        self.log.known_by(self.number)
    }
}
