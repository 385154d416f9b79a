//! The highest number that each viewer has asked from.

ghost use Rattle.std.specs.Prelude.{◌≡◌, ◌<◌, ℕ, get_or, length, max};
ghost use Rattle.x3d_values.specs.Ranges.{max_viewers};
ghost use Rattle.share_turns.specs.Heard.{asked, hear, heard_count, lower, lowest, nobody};
ghost use Rattle.share_turns.specs.Heard.{number_of};

use std::marker::Model;
use x3d_values::MAX_VIEWERS;

/// The number of places: one for each possible viewer.
pub(crate) const PLACES: usize = MAX_VIEWERS as usize;

/// What a host has heard of its viewers. Place v has the highest number that viewer v has asked
/// from, or 0 if viewer v hasn't asked.
#[derive(Drop)]
pub struct Heard {
    nexts: [u64; PLACES],
}

impl Model for Heard {
    ghost use Rattle.std.specs.Prelude.{◌≡◌, List, ℕ, length};
    ghost use Rattle.x3d_values.specs.Ranges.{max_viewers};

    ghost Value = { List ℕ };

    ghost view = { λ h. h.nexts };

    ghost invariant = { λ h. length h.nexts ≡ max_viewers };
}

/// Returns the number that a place holds, if its viewer has asked.
fn number_of(next: u64) -> Option<u64>
    ensures { result ≡ number_of next }
{
    if next == 0 { None } else { Some(next) }
}

/// Returns the lower of `next` and `others`. A `next` of 0 doesn't count.
pub(crate) fn lower(next: u64, others: Option<u64>) -> Option<u64>
    ensures { result ≡ lower next others }
{
    if next == 0 {
        return others;
    }
    match others {
        Some(other) => Some(other.min(next)),
        None => Some(next),
    }
}

fn lowest(nexts: &[u64]) -> Option<u64>
    ensures { result ≡ lowest nexts.now }
{
    match nexts {
        [] => None,
        [next, others @ ..] => lower(*next, lowest(others)),
    }
}

/// Raises each number to the other's at its place.
fn raise(nexts: &mut [u64; PLACES], others: &[u64; PLACES])
    ensures { (who : ℕ) → who < max_viewers
        → get_or nexts.new who 0 ≡ max (get_or nexts.old who 0) (get_or others.now who 0) }
{
    for who in 0..PLACES {
        nexts[who] = nexts[who].max(others[who]);
    }
}

fn heard_count(nexts: &[u64]) -> usize
    ensures { result ≡ heard_count nexts.now }
{
    nexts.iter().filter(|next| **next > 0).count()
}

impl Heard {
    /// Returns the record of a host that has heard of no viewer.
    pub fn nobody() -> Heard
        ensures { result ≡ nobody }
    {
        Heard { nexts: [0; PLACES] }
    }

    /// Notes that viewer `who` asks for the inputs from number `next`, at least 1, on. Ignored if
    /// `who` isn't below `MAX_VIEWERS`.
    pub fn hear(&mut self, who: u8, next: u64)
        ensures { self.new ≡ hear self.old who next }
    {
        let place = who as usize;
        if place < PLACES {
            self.nexts[place] = self.nexts[place].max(next);
        }
    }

    /// Returns the highest number that viewer `who` asked from: it has all inputs below it. Returns
    /// `None` if the viewer wasn't heard of, or if `who` isn't below `MAX_VIEWERS`.
    pub fn asked(&self, who: u8) -> Option<u64>
        ensures { result ≡ asked self.now who }
    {
        let place = who as usize;
        if place < PLACES {
            number_of(self.nexts[place])
        } else {
            None
        }
    }

    /// Returns the lowest number that a viewer asked from: all viewers heard of have asked past the
    /// inputs below it. Returns `None` if no viewer was heard of.
    pub fn lowest(&self) -> Option<u64>
        ensures { result ≡ lowest self.now }
    {
        lowest(&self.nexts)
    }

    /// Notes all that another record has heard.
    pub(crate) fn join(&mut self, other: &Heard)
        ensures numbers { (who : ℕ) → who < max_viewers
            → get_or self.new who 0 ≡ max (get_or self.old who 0) (get_or other.now who 0) }
        ensures places { length self.new ≡ max_viewers }
    {
        raise(&mut self.nexts, &other.nexts);
    }

    /// Returns the number of each viewer, or 0 if it wasn't heard of.
    pub(crate) fn numbers(&self) -> &[u64; PLACES]
        ensures { result.now ≡ self.now }
    {
        &self.nexts
    }

    /// Returns how many viewers were heard of.
    pub fn count(&self) -> usize
        ensures { result ≡ heard_count self.now }
    {
        heard_count(&self.nexts)
    }
}
