//! What a viewer of a run knows of its list of inputs.

ghost use Rattle.std.specs.Prelude.{◌≡◌, ◌+◌, ◌++◌, ◌∷◌, ◌==◌, [], length, OnErr, OnOk, nat_le, nat_lt, slice_get};
ghost use Rattle.share_runs.specs.Known as spec;

use share_entries::Chain;
use share_session::Prefix;
use share_wire::Body;
use std::alloc::{AllocError, Global};

/// The most places at which a viewer may start.
pub const MAX_STARTS: usize = 64;

/// How many of the last chains a viewer keeps, once it had twice as many.
const KEPT_CHAINS: usize = 1_024;

/// The chains that a viewer of a run knows: after `from` inputs and after each input after them,
/// and, before it has asked for an input, at each number of inputs at which it may start: 0, and
/// those of the snapshots whose pieces came.
#[derive(Drop)]
pub struct KnownList {
    pub(crate) from: u64,
    pub(crate) chains: Vec<Chain>,
    pub(crate) starts: Vec<Prefix>,
}

fn item_at<T: Copy>(items: &[T], place: u64) -> Option<T>
    ensures { result ≡ slice_get items.now place }
{
    items.get(place as usize).copied()
}

fn chain_in(from: u64, chains: &[Chain], n: u64) -> Option<Chain>
    ensures { result ≡ spec.chain_in from chains.now n }
{
    if n < from {
        return None;
    }
    item_at(chains, n - from)
}

fn is_early(from: u64, count: u64, number: u64) -> bool
    ensures { result ≡ nat_lt (from + count) number }
{
    number > from && number - from > count
}

fn is_next(from: u64, count: u64, number: u64) -> bool
    ensures { result ≡ ((from + count) == number) }
{
    number >= from && number - from == count
}

fn is_needed(from: u64, count: u64, number: u64) -> bool
    ensures { result ≡ nat_le (from + count) number }
{
    number >= from && number - from >= count
}

fn start_at(starts: &[Prefix], n: u64) -> Option<Chain>
    ensures { result ≡ spec.start_at starts.now n }
{
    let Some(start) = starts.iter().find(|start| start.applied == n) else {
        return None;
    };
    Some(start.chain)
}

impl KnownList {
    ghost use Rattle.std.specs.Prelude.{◌≡◌, ◌++◌, ◌∷◌, ◌==◌, [], length, OnErr, OnOk, nat_le};
    ghost use Rattle.share_runs.specs.Forgetting.{MayForget};
    ghost use Rattle.share_runs.specs.Known as spec;
    ghost use Rattle.share_runs.specs.Saying.{IsAsked};

    /// Reports whether an input has a number after the next one.
    pub(crate) fn is_early(&self, number: u64) -> bool
        ensures { result ≡ spec.is_early self.now.from self.now.chains.items number }
    {
        is_early(self.from, self.chains.len() as u64, number)
    }

    /// Reports whether an input has the next number.
    pub(crate) fn is_next(&self, number: u64) -> bool
        ensures { result ≡ ((self.now.from + length self.now.chains.items) == number) }
    {
        is_next(self.from, self.chains.len() as u64, number)
    }

    /// Reports whether an input has the next number or a later one.
    pub(crate) fn is_needed(&self, number: u64) -> bool
        ensures { result ≡ nat_le (self.now.from + length self.now.chains.items) number }
    {
        is_needed(self.from, self.chains.len() as u64, number)
    }

    /// Returns the chain after `n` inputs, if it is known there.
    pub(crate) fn chain_in(&self, n: u64) -> Option<Chain>
        ensures { result ≡ spec.chain_in self.now.from self.now.chains.items n }
    {
        chain_in(self.from, &self.chains, n)
    }

    /// Returns the chain after `n` inputs, if it is known there or may be started from.
    pub(crate) fn chain_at(&self, n: u64) -> Option<Chain>
        ensures { result
            ≡ spec.chain_at self.now.from self.now.chains.items self.now.starts.items n }
    {
        match self.chain_in(n) {
            Some(chain) => Some(chain),
            None => start_at(&self.starts, n),
        }
    }

    /// Adds the chain after the next input. Fails if memory is refused; then nothing changes.
    pub(crate) fn add_next(&mut self, chain: Chain) -> Result<(), AllocError>
        ensures from { self.new.from ≡ self.old.from }
        ensures starts { self.new.starts ≡ self.old.starts }
        ensures ok { OnOk result
            (self.new.chains.items ≡ self.old.chains.items ++ chain ∷ []) }
        ensures err { OnErr result (self.new.chains.items ≡ self.old.chains.items) }
    {
        self.chains.push(chain)?;
        Ok(())
    }

    /// Forgets old chains, if there are twice as many as `KEPT_CHAINS`: these many stay. If memory
    /// is refused all stay, until it is called again.
    pub(crate) fn forget_old(&mut self)
        ensures { MayForget self.old self.new }
    {
        if self.chains.len() < 2 * KEPT_CHAINS {
            return;
        }
        let gone = self.chains.len() - KEPT_CHAINS;
        let Some(from) = self.from.checked_add(gone as u64) else {
            return;
        };
        let Ok(left) = self.chains.split_off(gone) else {
            return;
        };
        self.chains = left;
        self.from = from;
    }

    /// Adds a place at which a viewer may start. Fails if there are `MAX_STARTS`, or if memory is
    /// refused; then nothing changes.
    pub(crate) fn add_start(&mut self, start: Prefix) -> Result<(), AllocError>
        ensures from { self.new.from ≡ self.old.from }
        ensures chains { self.new.chains ≡ self.old.chains }
        ensures ok { OnOk result
            (self.new.starts.items ≡ self.old.starts.items ++ start ∷ []) }
        ensures err { OnErr result (self.new.starts.items ≡ self.old.starts.items) }
    {
        if self.starts.len() >= MAX_STARTS {
            return Err(AllocError);
        }
        self.starts.push(start)?;
        Ok(())
    }

    /// Notes that the viewer asks for the input after `n`. Unless it knows the chain after `n` inputs
    /// it starts from the chain there, if it may: so does a viewer that joins, whatever it asked for
    /// before. Fails if memory is refused; then nothing changes.
    pub(crate) fn begin(&mut self, n: u64) -> Result<(), AllocError>
        ensures starts { self.new.starts ≡ self.old.starts }
        ensures ok { OnOk result ((self.new.from, self.new.chains.items)
            ≡ spec.begun self.old.from self.old.chains.items self.old.starts.items n) }
        ensures err { OnErr result ((self.new.from ≡ self.old.from)
            × (self.new.chains.items ≡ self.old.chains.items)) }
    {
        if self.chain_in(n).is_some() {
            return Ok(());
        }
        match start_at(&self.starts, n) {
            Some(chain) => self.begin_with(n, chain),
            None => Ok(()),
        }
    }

    /// Knows the chain after `n` inputs alone. Fails if memory is refused; then nothing changes.
    fn begin_with(&mut self, n: u64, chain: Chain) -> Result<(), AllocError>
        ensures starts { self.new.starts ≡ self.old.starts }
        ensures ok { OnOk result
            ((self.new.from ≡ n) × (self.new.chains.items ≡ chain ∷ [])) }
        ensures err { OnErr result ((self.new.from ≡ self.old.from)
            × (self.new.chains.items ≡ self.old.chains.items)) }
    {
        if self.chains.is_empty() {
            self.chains.push(chain)?;
        } else {
            self.chains.truncate(1);
            self.chains[0] = chain;
        }
        self.from = n;
        Ok(())
    }

    /// Notes what the viewer sends: an ask may begin the list that it knows, unless memory is
    /// refused.
    pub(crate) fn note(&mut self, body: &Body)
        ensures starts { self.new.starts ≡ self.old.starts }
        ensures noted { IsAsked self.old body.now self.new }
    {
        if let Body::Ask(ask) = body {
            let _begun = self.begin(ask.next() - 1);
        }
    }
}
