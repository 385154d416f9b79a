//! The entries that a handle knows.

ghost use Rattle.std.specs.Prelude.{◌≡◌, ◌<◌, ◌≤◌, ◌⊎◌, ◌+◌, ◌^◌, [], ◌∷◌, ◌++◌, List, drop, length, map, take, None, Some, IfErr, MatchResult, OnErr, OnOk};
ghost use Rattle.share_entries.specs.declared.frame.FrameFault.TheVariants.{Memory as NoMemory};
ghost use Rattle.share_entries.specs.Chain.{chain_after};
ghost use Rattle.share_engine.specs.declared.fault.ReadingFault.TheVariants.{NotNext, Memory};
ghost use Rattle.share_engine.specs.Reading.{entries_from, next_in};
ghost use Rattle.share_store.specs.OneLog.{Begins};
ghost use Rattle.share_etcd.specs.Contents.{FrameView};
ghost use Rattle.share_etcd.specs.Views.{frame_view};

use crate::fault::ReadingFault;
use share_entries::{Chain, Entry, FrameFault, Start, chain_after, frame_of};
use share_etcd::Frame;
use std::alloc::{AllocError, Global};
use std::marker::Model;

/// Entries of a log from where it starts on, and the chain after them.
#[derive(Drop)]
pub(crate) struct Known {
    start: Start,
    entries: Vec<Entry>,
    chain: Chain,
}

impl Model for Known {
    ghost use Rattle.std.specs.Prelude.{◌≡◌, ◌<◌, ◌^◌};
    ghost use Rattle.share_entries.specs.Chain.{chain_after};
    ghost use Rattle.share_engine.specs.Reading.{KnownView};

    ghost Value = { KnownView };

    ghost view = { λ k. record { start = k.start; entries = k.entries.items } };

    ghost invariant = { λ k. (k.chain ≡ chain_after k.start.chain k.entries.items)
        × (k.start.below < 2 ^ 48) };
}

/// Returns the fault of a frame that isn't read.
fn fault_of(fault: FrameFault) -> ReadingFault
    ensures memory { fault ≡ NoMemory → result ≡ Memory }
    ensures either { (result ≡ Memory) ⊎ (result ≡ NotNext) }
{
    match fault {
        FrameFault::Memory => ReadingFault::Memory,
        _ => ReadingFault::NotNext,
    }
}

impl Known {
    /// Knows no entry of a log that starts there.
    pub(crate) fn new(alloc: Global, start: Start) -> Known
        requires { start.below < 2 ^ 48 }
        ensures { result ≡ record { start = start; entries = [] } }
    {
        let chain = start.chain;
        Known {
            start,
            entries: Vec::new(alloc),
            chain,
        }
    }

    /// Returns where the entries start.
    pub(crate) fn start(&self) -> Start
        ensures value { result ≡ self.now.start }
        ensures low { result.below < 2 ^ 48 }
    {
        self.start
    }

    /// Returns the number of entries.
    pub(crate) fn len(&self) -> usize
        ensures { result ≡ length self.now.entries }
    {
        self.entries.len()
    }

    /// Returns the number of the last entry, counted from 1; how many are below the start, if none
    /// is known.
    pub(crate) fn last_number(&self) -> u64
        ensures { result ≡ self.now.start.below + length self.now.entries }
    {
        self.start.below + self.entries.len() as u64
    }

    /// Returns the number of the next entry, counted from 1.
    pub(crate) fn next_number(&self) -> u64
        ensures { result ≡ self.now.start.below + length self.now.entries + 1 }
    {
        self.start.below + self.entries.len() as u64 + 1
    }

    /// Returns the entries.
    pub(crate) fn entries(&self) -> &[Entry]
        ensures { result.now ≡ self.now.entries }
    {
        &self.entries
    }

    /// Returns the chain after the entries.
    pub(crate) fn chain(&self) -> Chain
        ensures { result ≡ chain_after self.now.start.chain self.now.entries }
    {
        self.chain
    }

    /// Makes room for more entries. Fails if memory is refused.
    pub(crate) fn reserve(&mut self, count: usize) -> Result<(), AllocError>
        ensures { self.new ≡ self.old }
    {
        self.entries.reserve(count)
    }

    /// Adds entries. Takes no memory if there is room for them.
    pub(crate) fn add(&mut self, entries: &[Entry]) -> Result<(), AllocError>
        ensures ok { OnOk result (self.new
            ≡ record { start = self.old.start; entries = self.old.entries ++ entries.now }) }
        ensures err { OnErr result (self.new ≡ self.old) }
    {
        let chain = chain_after(&self.chain, entries);
        self.entries.extend_from_slice(entries)?;
        self.chain = chain;
        Ok(())
    }

    /// Forgets the entries after the first `count`, after which the chain was this.
    pub(crate) fn cut(&mut self, count: usize, chain: Chain)
        requires { chain ≡ chain_after self.old.start.chain (take count self.old.entries) }
        ensures { self.new
            ≡ record { start = self.old.start; entries = take count self.old.entries } }
    {
        self.entries.truncate(count);
        self.chain = chain;
    }

    /// Forgets the first `count` entries: the log starts after them. Fails if memory is refused.
    pub(crate) fn forget(&mut self, alloc: Global, count: usize) -> Result<(), AllocError>
        requires within { count ≤ length self.old.entries }
        requires low { self.old.start.below + count < 2 ^ 48 }
        ensures ok { OnOk result (self.new ≡ record {
          start = record {
            below = self.old.start.below + count;
            chain = chain_after self.old.start.chain (take count self.old.entries);
          };
          entries = drop count self.old.entries;
        }) }
        ensures err { OnErr result (self.new ≡ self.old) }
    {
        let (gone, rest) = self.entries.split_at(count);
        let start = Start {
            below: self.start.below + count as u64,
            chain: chain_after(&self.start.chain, gone),
        };
        let entries = Vec::from_slice(alloc, rest)?;
        self.entries = entries;
        self.start = start;
        Ok(())
    }

    /// Reads the next frame.
    fn next(&self, alloc: Global, frame: &Frame) -> Result<Vec<Entry>, ReadingFault>
        ensures { MatchResult result
            (λ v. next_in self.now.start self.now.entries (frame_view frame.now) ≡ Some v.items)
            (λ e. (e ≡ Memory) ⊎ ((e ≡ NotNext)
            × (next_in self.now.start self.now.entries (frame_view frame.now) ≡ None))) }
    {
        let first = self.next_number();
        if frame.first != first {
            return Err(ReadingFault::NotNext);
        }
        match frame_of(alloc, &self.chain, first, &frame.bytes) {
            Ok(entries) => Ok(entries),
            Err(fault) => Err(fault_of(fault)),
        }
    }

    /// Adds the entries of the next frame.
    fn add_frame(&mut self, alloc: Global, frame: &Frame) -> Result<(), ReadingFault>
        ensures start { self.new.start ≡ self.old.start }
        ensures grows { Begins self.old.entries self.new.entries }
        ensures next { OnOk result ((fs : List FrameView)
            → entries_from self.old.start self.old.entries (frame_view frame.now ∷ fs)
            ≡ entries_from self.old.start self.new.entries fs) }
        ensures fault { IfErr result (λ e. (e ≡ Memory) ⊎ ((e ≡ NotNext)
            × ((fs : List FrameView) → entries_from self.old.start self.old.entries
            (frame_view frame.now ∷ fs) ≡ None))) }
    {
        let entries = self.next(alloc, frame)?;
        self.add(&entries)?;
        Ok(())
    }

    /// Adds the entries of frames, up to the first that isn't the next.
    pub(crate) fn add_frames(&mut self, alloc: Global, frames: &[Frame]) -> Result<(), ReadingFault>
        ensures start { self.new.start ≡ self.old.start }
        ensures grows { Begins self.old.entries self.new.entries }
        ensures read { OnOk result (entries_from self.old.start self.old.entries
            (map frame_view frames.now) ≡ Some self.new.entries) }
        ensures fault { IfErr result (λ e. (e ≡ Memory) ⊎ ((e ≡ NotNext)
            × (entries_from self.old.start self.old.entries (map frame_view frames.now) ≡ None))) }
    {
        for frame in frames {
            self.add_frame(alloc, frame)?;
        }
        Ok(())
    }
}
