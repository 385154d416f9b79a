//! The entries of a log's frames.

ghost use Rattle.std.specs.Prelude.{◌≡◌, ◌⊎◌, ◌<◌, ◌≤◌, ◌^◌, [], ◌∷◌, suc, ℕ, List, IfOk, MatchResult, OnOk, Ok, Err};
ghost use Rattle.share_entries.specs.declared.frame.FrameFault.TheVariants.{Memory as NoMemory};
ghost use Rattle.share_entries.specs.Chain.{chain_after};
ghost use Rattle.share_log.specs.Log.{payloads};
ghost use Rattle.share_file.specs.declared.fault.OpenFault.TheVariants.{Memory, LogDamaged};
ghost use Rattle.share_file.specs.Entries.{next_in, entries_from};

use crate::fault::OpenFault;
use share_entries::{Chain, Entry, FrameFault, Start, chain_after, frame_of};
use std::alloc::Global;

/// Entries from the first of a log on, and the chain after them.
#[derive(Drop)]
pub(crate) struct Known {
    pub(crate) entries: Vec<Entry>,
    pub(crate) chain: Chain,
}

/// Returns the fault of a frame that isn't read: it is damaged, unless memory was refused.
fn fault_of(fault: FrameFault, number: u64) -> OpenFault
    ensures memory { fault ≡ NoMemory → result ≡ Memory }
    ensures either { (result ≡ Memory) ⊎ (result ≡ LogDamaged number) }
{
    match fault {
        FrameFault::Memory => OpenFault::Memory,
        _ => OpenFault::LogDamaged(number),
    }
}

impl Known {
    /// Returns the entries of the next frame, which has this number.
    fn next(
        &self,
        alloc: Global,
        start: &Start,
        number: u64,
        frame: &[u8],
    ) -> Result<Vec<Entry>, OpenFault>
        requires low { start.now.below < 2 ^ 48 }
        requires linked { self.now.chain ≡ chain_after start.now.chain self.now.entries.items }
        ensures { MatchResult result
            (λ v. next_in start.now self.now.entries.items frame.now ≡ Ok v.items)
            (λ e. (e ≡ Memory) ⊎ ((e ≡ LogDamaged number) × ((frames : List (List ℕ))
            → entries_from start.now self.now.entries.items number (frame.now ∷ frames)
            ≡ Err number))) }
    {
        let first = start.below + self.entries.len() as u64 + 1;
        match frame_of(alloc, &self.chain, first, frame) {
            Ok(entries) => Ok(entries),
            Err(fault) => Err(fault_of(fault, number)),
        }
    }

    /// Adds the entries of the next frame, which has this number.
    fn add(
        &mut self,
        alloc: Global,
        start: &Start,
        number: u64,
        frame: &[u8],
    ) -> Result<(), OpenFault>
        requires low { start.now.below < 2 ^ 48 }
        requires linked { self.old.chain ≡ chain_after start.now.chain self.old.entries.items }
        ensures chain { OnOk result
            (self.new.chain ≡ chain_after start.now.chain self.new.entries.items) }
        ensures next { (frames : List (List ℕ)) → MatchResult result
            (λ _. entries_from start.now self.old.entries.items number (frame.now ∷ frames)
            ≡ entries_from start.now self.new.entries.items (suc number) frames)
            (λ e. (e ≡ Memory) ⊎ ((e ≡ LogDamaged number)
            × (entries_from start.now self.old.entries.items number (frame.now ∷ frames)
            ≡ Err number))) }
    {
        let mut entries = self.next(alloc, start, number, frame)?;
        let chain = chain_after(&self.chain, &entries);
        self.entries.append(&mut entries)?;
        self.chain = chain;
        Ok(())
    }
}

/// Reads frames of entries, the first of a log, of which the first has this number.
pub(crate) fn entries_of(
    alloc: Global,
    start: &Start,
    number: u64,
    frames: &[Vec<u8>],
) -> Result<Known, OpenFault>
    requires low { start.now.below < 2 ^ 48 }
    requires number { number ≤ 2 }
    ensures chain { IfOk result (λ k. k.chain ≡ chain_after start.now.chain k.entries.items) }
    ensures read { MatchResult result
        (λ k. entries_from start.now [] number (payloads frames.now) ≡ Ok k.entries.items)
        (λ e. (e ≡ Memory) ⊎ ((n : ℕ) × (e ≡ LogDamaged n)
        × (entries_from start.now [] number (payloads frames.now) ≡ Err n))) }
{
    let mut known = Known {
        entries: Vec::new(alloc),
        chain: start.chain,
    };
    for (i, frame) in frames.iter().enumerate() {
        if let Err(fault) = known.add(alloc, start, number + i as u64, frame) {
            drop(known);
            return Err(fault);
        }
    }
    Ok(known)
}
