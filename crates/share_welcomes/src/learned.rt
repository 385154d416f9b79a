//! The entries of a log that a port has learned and may still send, with their chains.

ghost use Rattle.std.specs.Prelude.{◌≡◌, ◌≤◌, ◌-◌, ℕ, List, length, min};
ghost use Rattle.x3d_values.specs.Ranges.{max_viewers};
ghost use Rattle.share_entries.specs.Chain.{chain_after};
ghost use Rattle.share_entries.specs.Entry.{EntryView};
ghost use Rattle.share_welcomes.specs.Learned.{linked};
ghost use Rattle.share_welcomes.specs.Learned as spec;

use share_entries::{Base, Chain, Entry, Source, link};
use share_rules::SeatCount;
use share_session::{Input2, Number, Run};
use std::alloc::{AllocError, Global};
use std::marker::Model;

/// One place for each viewer.
const PLACES: usize = 64;

/// The fewest entries that are dropped at once.
const MIN_DROPPED: usize = 1_024;

/// An entry, and the chain before it.
#[derive(Clone, Copy)]
pub struct Link {
    pub chain: Chain,
    pub entry: Entry,
}

/// The entries of the log of a run, without the first of them.
#[derive(Drop)]
pub struct Learned {
    run: Run,
    /// How many first entries were dropped.
    dropped: u64,
    /// The chain after these.
    before: Chain,
    /// The others.
    links: Vec<Link>,
    /// The chain after the last entry.
    next: Chain,
    /// The boot of each viewer's last offer, or 0.
    boots: [u32; PLACES],
}

impl Model for Learned {
    ghost use Rattle.std.specs.Prelude.{◌≡◌};
    ghost use Rattle.share_entries.specs.Chain.{chain_after};
    ghost use Rattle.share_welcomes.specs.Learned.{LearnedView, entries_of, linked};

    ghost Value = { LearnedView };

    ghost view = { λ l. record {
      run = l.run;
      dropped = l.dropped;
      before = l.before;
      entries = entries_of l.links.items;
      boots = l.boots;
    } };

    ghost invariant = { λ l.
        (l.links.items ≡ linked l.before (entries_of l.links.items))
        × (l.next ≡ chain_after l.before (entries_of l.links.items)) };
}

/// Notes the boot of an entry, if a viewer offered it.
fn note_boot(boots: &mut [u32; PLACES], entry: &Entry)
    ensures { boots.new ≡ spec.boot_noted boots.old entry.now }
{
    let Source::Offer(offer) = entry.source() else {
        return;
    };
    let who = offer.pointer().who();
    boots[who as usize] = offer.boot();
}

/// Returns the boots that a base keeps of its viewers.
fn boots_of(kept: &[SeatCount]) -> [u32; PLACES]
    requires { length kept.now ≤ max_viewers }
    ensures { result ≡ spec.boots_of kept.now }
{
    let mut boots = [0; PLACES];
    for (place, seat) in kept.iter().enumerate() {
        boots[place] = seat.boot;
    }
    boots
}

/// Returns how many entries are below the number of an input, if `dropped` others were dropped and
/// `kept` are kept.
fn gone_below(floor: u64, dropped: u64, kept: usize) -> usize
    ensures { result ≡ min (floor - 1 - dropped) kept }
{
    let below = floor.saturating_sub(1).saturating_sub(dropped);
    below.min(kept as u64) as usize
}

/// Reports whether it is due to drop these many entries.
fn is_due(gone: usize, kept: usize) -> bool
    ensures { result ≡ spec.is_due gone kept }
{
    gone >= MIN_DROPPED && kept.saturating_sub(gone) <= gone
}

/// Returns the chain before the first of these entries, or `next`, the chain after them, if there
/// are none.
fn first_chain(links: &[Link], next: Chain) -> Chain
    ensures { (chain : List ℕ) (entries : List EntryView) → links.now ≡ linked chain entries
        → next ≡ chain_after chain entries → result ≡ chain }
{
    match links.first() {
        Some(known) => known.chain,
        None => next,
    }
}

impl Learned {
    ghost use Rattle.std.specs.Prelude.{◌≡◌, ◌≤◌, ◌<◌, ◌∷◌, [], OnErr, OnOk, ℕ, length, take};
    ghost use Rattle.share_session.specs.Ranges.{max_number};
    ghost use Rattle.share_welcomes.specs.Learned as spec;

    /// Returns what is known of a run that has no entries.
    pub fn none(alloc: Global, run: Run) -> Learned
        ensures { result ≡ spec.none_learned run }
    {
        Learned {
            run,
            dropped: 0,
            before: run,
            links: Vec::new(alloc),
            next: run,
            boots: [0; PLACES],
        }
    }

    /// Returns what is known of a run whose log has this base and no entries after it.
    pub fn from_base(alloc: Global, run: Run, base: &Base) -> Learned
        ensures { result ≡ spec.base_learned run base.now }
    {
        Learned {
            run,
            dropped: base.number(),
            before: base.chain(),
            links: Vec::new(alloc),
            next: base.chain(),
            boots: boots_of(base.kept()),
        }
    }

    /// Learns the next entry. Fails if memory is refused; nothing changes then.
    fn learn_one(&mut self, entry: &Entry) -> Result<(), AllocError>
        ensures ok { OnOk result (self.new ≡ spec.learned_more self.old (entry.now ∷ [])) }
        ensures err { OnErr result (self.new ≡ self.old) }
    {
        let entry = *entry;
        let chain = self.next;
        self.links.push(Link { chain, entry })?;
        self.next = link(&chain, &entry);
        note_boot(&mut self.boots, &entry);
        Ok(())
    }

    /// Learns the next entries. Fails if memory is refused; then it has learned the first of them,
    /// and not all.
    pub fn learn(&mut self, entries: &[Entry]) -> Result<(), AllocError>
        ensures ok { OnOk result (self.new ≡ spec.learned_more self.old entries.now) }
        ensures err { OnErr result ((count : ℕ) × (count < length entries.now)
            × (self.new ≡ spec.learned_more self.old (take count entries.now))) }
    {
        for entry in entries {
            self.learn_one(entry)?;
        }
        Ok(())
    }

    /// Drops the entries below the number of an input, if at least `MIN_DROPPED` are, and no more
    /// stay than go. So its time is linear in what was learned. Fails if memory is refused; nothing
    /// changes then.
    pub(crate) fn drop_below(&mut self, floor: u64) -> Result<(), AllocError>
        ensures ok { OnOk result (self.new ≡ spec.dropped_below floor self.old) }
        ensures err { OnErr result (self.new ≡ self.old) }
    {
        let gone = gone_below(floor, self.dropped, self.links.len());
        if !is_due(gone, self.links.len()) {
            return Ok(());
        }
        let left = self.links.split_off(gone)?;
        self.before = first_chain(&left, self.next);
        self.dropped += gone as u64;
        self.links = left;
        Ok(())
    }

    /// Returns the boot of a viewer's last offer, or 0.
    pub fn boot(&self, who: u8) -> u32
        ensures { result ≡ spec.last_boot who self.now }
    {
        match self.boots.get(who as usize) {
            Some(boot) => *boot,
            None => 0,
        }
    }

    /// Returns the chain after the first `count` entries, if it is known: not if one of the entries
    /// after it was dropped, nor if there are fewer entries.
    pub fn chain(&self, count: u64) -> Option<Chain>
        ensures { result ≡ spec.chain_at self.now count }
    {
        if count < self.dropped {
            return None;
        }
        let place = (count - self.dropped) as usize;
        if place > self.links.len() {
            return None;
        }
        match self.links.get(place) {
            Some(known) => Some(known.chain),
            None => Some(self.next),
        }
    }

    /// Returns the input of this number, at most 2^48, as the host of the log sends it, if its
    /// entry is kept.
    pub fn input(&self, number: u64) -> Option<Input2>
        requires { number ≤ max_number }
        ensures { result ≡ spec.input_at self.now number }
    {
        if number <= self.dropped {
            return None;
        }
        let place = number - 1 - self.dropped;
        let Some(known) = self.links.get(place as usize) else {
            return None;
        };
        Some(Input2 {
            chain: known.chain,
            number: Number::new(number),
            entry: known.entry,
        })
    }
}
