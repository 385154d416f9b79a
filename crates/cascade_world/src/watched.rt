//! Items by their numbers, most of which are at rest. One mark says so for many items at once.

ghost use Rattle.std.specs.Prelude.{◌≡◌, ◌<◌, ◌^◌, ◌/◌, ℕ, Bool, IsTrue, Some, true, false, length, option_copied, slice_get, slice_set};
ghost use Rattle.std.specs.List.{list_all};

use std::alloc::AllocError;
use std::marker::Model;
use std::mem;

/// The number of items that one mark covers.
pub const BLOCK: u32 = 32;

pub(crate) const WIDTH: usize = BLOCK as usize;

/// An item that may be at rest.
pub trait Rests: Drop {
    /// Whether the item is at rest.
    ghost rests: { Self → Bool };

    fn is_at_rest(&self) -> bool
        ensures { result ≡ rests self.now };
}

/// Items by their numbers, with marks for those known to be at rest. Contracts see only the items.
#[derive(Drop)]
pub struct Watched<T: Rests> {
    items: Vec<T>,
    /// For each block of 32 items, whether all of them are known to be at rest.
    resting: Vec<bool>,
}

impl<T: Rests> Model for Watched<T> {
    ghost use Rattle.std.specs.Prelude.{List};
    ghost use Rattle.std.specs.Coded.{coded_list};
    ghost use Rattle.cascade_world.specs.Blocks.{AreResting};

    ghost Value = { List T };

    ghost coded = { coded_list T.code };

    ghost view = { λ w. w.items.items };

    ghost invariant = { λ w. AreResting T.rests w.items.items w.resting.items };
}

/// Reports whether every item is at rest.
fn all_rest<T: Rests>(items: &[T]) -> bool
    ensures { result ≡ list_all T.rests items.now }
{
    match items {
        [] => true,
        [first, others @ ..] => {
            if !first.is_at_rest() {
                return false;
            }
            all_rest(others)
        }
    }
}

/// Forgets what is known of a block.
fn unmark(resting: &mut [bool], block: usize)
    ensures { resting.new ≡ slice_set resting.old block false }
{
    if block < resting.len() {
        resting[block] = false;
    }
}

impl<T: Rests> Watched<T> {
    /// Makes a list of these items; none is known to be at rest.
    pub fn from_vec(items: Vec<T>) -> Watched<T>
        ensures { result ≡ items.items }
    {
        let resting = Vec::new(*items.allocator());
        Watched { items, resting }
    }

    /// Returns the items.
    pub fn as_slice(&self) -> &[T]
        ensures { result.now ≡ self.now }
    {
        self.items.as_slice()
    }

    /// Returns the number of items.
    pub fn len(&self) -> usize
        ensures { result ≡ length self.now }
    {
        self.items.len()
    }

    /// Returns the item at a place, if there is one.
    pub fn get(&self, at: usize) -> Option<&T>
        ensures { option_copied result ≡ slice_get self.now at }
    {
        self.items.get(at)
    }

    /// Replaces the item at a place.
    pub fn set(&mut self, at: usize, item: T)
        requires { at < length self.old }
        ensures { self.new ≡ slice_set self.old at item }
    {
        drop(self.replace(at, item));
    }

    /// Replaces the item at a place and returns the old one.
    pub fn replace(&mut self, at: usize, item: T) -> T
        requires { at < length self.old }
        ensures before { Some result ≡ slice_get self.old at }
        ensures after { self.new ≡ slice_set self.old at item }
    {
        unmark(&mut self.resting, at / WIDTH);
        mem::replace(&mut self.items[at], item)
    }

    /// Reports whether every item of a block is known to be at rest.
    pub fn is_resting(&self, block: u32) -> bool
        ensures { (i : ℕ) (x : T) → IsTrue result → i / 32 ≡ block
            → slice_get self.now i ≡ Some x → T.rests x ≡ true }
    {
        match self.resting.get(block as usize) {
            Some(resting) => *resting,
            None => false,
        }
    }

    /// Makes room for the marks. If room is made, nothing is known of any block afterwards.
    fn make_room(&mut self) -> Result<(), AllocError>
        ensures { self.new ≡ self.old }
    {
        let blocks = self.items.len() / WIDTH + 1;
        if self.resting.len() == blocks {
            return Ok(());
        }
        let alloc = *self.resting.allocator();
        self.resting = vec![in alloc; false; blocks]?;
        Ok(())
    }

    /// Remembers whether every item of a block is at rest. Remembers nothing if memory for that is
    /// refused.
    pub fn look_at(&mut self, block: u32)
        ensures { self.new ≡ self.old }
    {
        if self.make_room().is_err() {
            return;
        }
        let block = block as usize;
        let start = block * WIDTH;
        if start >= self.items.len() || block >= self.resting.len() {
            return;
        }
        let end = (start + WIDTH).min(self.items.len());
        let resting = all_rest(&self.items[start..end]);
        self.resting[block] = resting;
    }
}
