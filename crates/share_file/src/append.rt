//! A log in a file, as `Log`.

ghost use Rattle.std.specs.Prelude.{◌≡◌, ◌⊎◌, ◌+◌, ◌<◌, ◌≤◌, ◌^◌, ◌++◌, ℕ, List, true, false, length, IsTrue, IsErrOf, OnOk, OnErr, Ok};
ghost use Rattle.std.proofs.Props.{props};
ghost use Rattle.share_entries.specs.Chain.{chain_after};
ghost use Rattle.share_log.specs.Frames.{frames_of};
ghost use Rattle.share_log.specs.Log.{IsReady};
ghost use Rattle.share_store.specs.OneLog.{Last, max_entries};
ghost use Rattle.share_file.specs.Entries.{entries_among, start_among};
ghost use Rattle.share_file.specs.Keeping.{IsKept, IsMore, LeavesEntries, OldOrMore, known_in};

use crate::frames::append_frame;
use crate::known::Known;
use share_entries::{Chain, Entry, Start, chain_after};
use share_store::{AppendFault, Log, ReadFault};
use sqlite_disk::Disk;
use std::alloc::Global;

/// The largest number of an entry after which more are appended.
const MAX_NUMBER: u64 = 1 << 48;

/// A log in a file, which no one else appends to.
#[derive(Drop)]
pub struct FileLog<D: Disk> {
    log: share_log::Log<D>,
    alloc: Global,
    start: Start,
    /// The chain after the last entry.
    chain: Chain,
    /// The number of entries after the start.
    count: u64,
    is_open: bool,
    ghost kept: { IsKept D.seen D.may_leave D.is_usable D.is_clean log start chain count is_open } by { Prim.hlevel props },
}

impl<D: Disk> FileLog<D> {
    /// Goes on with a log that has these entries.
    pub(crate) fn new(
        alloc: Global,
        log: share_log::Log<D>,
        start: Start,
        known: &Known,
    ) -> FileLog<D>
        requires ready { IsReady D.seen D.may_leave D.is_usable D.is_clean log }
        requires named { IsTrue (D.is_clean log.disk)
            → start_among (frames_of (D.seen log.disk)) ≡ Ok start }
        requires reads { IsTrue (D.is_clean log.disk)
            → entries_among start (frames_of (D.seen log.disk)) ≡ Ok known.now.entries.items }
        requires chain { known.now.chain ≡ chain_after start.chain known.now.entries.items }
        ensures known { IsTrue (D.is_clean log.disk)
            → known_in start result.count (D.seen log.disk) ≡ known.now.entries.items }
        ensures log { result.log ≡ log }
        ensures start { result.start ≡ start }
        ensures count { result.count ≡ length known.now.entries.items }
        ensures open { result.is_open ≡ true }
    {
        FileLog {
            log,
            alloc,
            start,
            chain: known.chain,
            count: known.entries.len() as u64,
            is_open: true,
        }
    }

    /// Returns the disk.
    pub fn into_disk(self) -> D
        ensures { result ≡ self.log.disk }
    {
        self.log.disk
    }

    /// Returns the frames of the log.
    pub(crate) fn into_frames(self) -> share_log::Log<D>
        ensures value { result ≡ self.log }
        ensures ready { IsTrue self.is_open
            → IsReady D.seen D.may_leave D.is_usable D.is_clean result }
    {
        self.log
    }

    /// Returns where the entries begin.
    pub fn start(&self) -> Start
        ensures { result ≡ self.now.start }
    {
        self.start
    }

    /// Returns the chain after the last entry that this handle knows.
    pub fn chain(&self) -> Chain
        ensures { IsTrue (D.is_clean self.now.log.disk) → result ≡ chain_after self.now.start.chain
            (known_in self.now.start self.now.count (D.seen self.now.log.disk)) }
    {
        self.chain
    }

    /// Appends entries, which `append` of `Log` says more of.
    pub(crate) fn store(&mut self, entries: &[Entry]) -> Result<(), AppendFault>
        requires open { IsTrue self.old.is_open }
        requires most { length entries.now ≤ max_entries }
        ensures start { self.new.start ≡ self.old.start }
        ensures open { OnOk result (IsTrue self.new.is_open) }
        ensures count { OnOk result (self.new.count ≡ self.old.count + length entries.now) }
        ensures count_err { OnErr result (self.new.count ≡ self.old.count) }
        // The frame of these entries is the last.
        ensures added { OnOk result (IsTrue (D.is_clean self.new.log.disk)
            → IsMore self.old.chain (self.old.start.below + self.old.count + 1) entries.now
            (frames_of (D.seen self.old.log.disk)) (frames_of (D.seen self.new.log.disk))) }
        // Whatever the answer, a crash leaves the old frames, with or without the new one, whole.
        ensures any_crash { IsTrue (D.is_clean self.new.log.disk) → (c : List ℕ)
            → D.may_leave self.new.log.disk c
            → OldOrMore self.old.chain (self.old.start.below + self.old.count + 1) entries.now
            (frames_of (D.seen self.old.log.disk)) (frames_of c) }
        ensures taken { IsErrOf result AppendFault.Taken → ⊥ }
        ensures in_doubt { IsErrOf result AppendFault.InDoubt → self.new.is_open ≡ false }
        ensures memory { IsErrOf result AppendFault.Memory → self.new ≡ self.old }
        ensures full { IsErrOf result AppendFault.Full → self.new ≡ self.old }
        ensures clean { D.is_clean self.new.log.disk ≡ D.is_clean self.old.log.disk }
    {
        if self.start.below.saturating_add(self.count) >= MAX_NUMBER {
            return Err(AppendFault::Full);
        }
        let first = self.start.below + self.count + 1;
        let chain = self.chain;
        match append_frame(self.alloc, &mut self.log, &chain, first, entries) {
            Ok(()) => {
                self.chain = chain_after(&chain, entries);
                self.count += entries.len() as u64;
                Ok(())
            }
            Err(AppendFault::InDoubt) => {
                self.is_open = false;
                Err(AppendFault::InDoubt)
            }
            Err(AppendFault::Memory) => Err(AppendFault::Memory),
            Err(AppendFault::Full) => Err(AppendFault::Full),
            Err(AppendFault::Taken) => unreachable!(),
        }
    }
}

impl<D: Disk> Log for FileLog<D> {
    ghost known = { λ f. known_in f.start f.count (D.seen f.log.disk) };

    ghost may_leave = { λ f. LeavesEntries f.start (D.may_leave f.log.disk) };

    ghost is_open = { λ f. f.is_open };

    ghost is_clean = { λ f. D.is_clean f.log.disk };

    fn takes_appends(&self) -> bool {
        self.is_open
    }

    fn len(&self) -> u64 {
        self.count
    }

    fn append(&mut self, entries: &[Entry]) -> Result<(), AppendFault> {
        self.store(entries)
    }

    fn read_on(&mut self, _into: &mut Vec<Entry>) -> Result<(), ReadFault> {
        if self.is_open {
            return Ok(());
        }
        Err(ReadFault::Device)
    }
}
