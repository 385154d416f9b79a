//! The inputs that a host numbered.

ghost use Rattle.std.specs.Prelude.{◌≡◌, ◌≤◌, ◌+◌, ◌^◌, [], drop, slice_get, pos, ◌+ℤ◌, ◌≤ℤ◌};
ghost use Rattle.x3d_values.specs.Ranges.{max_inputs, max_time};
ghost use Rattle.share_law.specs.Parts.{fault_behind};
ghost use Rattle.share_core.specs.Host.{dropped, entry};
ghost use Rattle.share_core.specs.Steps.{IsListed};

use share_law::NumberFault;
use std::alloc::Global;
use std::collections::VecDeque;
use std::marker::Model;
use x3d_values::{Cause, MAX_INPUTS, MAX_TIME, Stamped};

/// The inputs of a world from its floor on, in the order of their numbers, with the number of all
/// inputs and the time of the last in microseconds.
#[derive(Drop)]
pub(crate) struct HostInputs {
    rest: VecDeque<Stamped>,
    floor: u64,
    count: u64,
    last: i64,
}

impl Model for HostInputs {
    ghost use Rattle.std.specs.Prelude.{◌≤◌, ◌+◌, ◌^◌, pos, ◌≤ℤ◌};
    ghost use Rattle.x3d_values.specs.Ranges.{max_inputs, max_time};
    ghost use Rattle.share_core.specs.Host.{HostInputsView};

    ghost Value = { HostInputsView };

    ghost view = { λ i. record {
      floor = i.floor;
      rest = i.rest.items;
      count = i.count;
      last = i.last;
    } };

    ghost invariant = { λ i. (1 ≤ i.floor) × (i.floor ≤ i.count + 1) × (i.count ≤ max_inputs)
        × (pos 0 ≤ℤ i.last) × (i.last ≤ℤ pos max_time) };
}

/// Removes the first `count` inputs. Their places are reused, and freed once few inputs are left.
fn drop_front(list: &mut VecDeque<Stamped>, count: usize)
    ensures { list.new.items ≡ drop count list.old.items }
{
    for _gone in 0..count {
        list.pop_front();
    }
    free_most(list);
}

/// Frees places if more than three of four are empty.
fn free_most(list: &mut VecDeque<Stamped>)
    ensures { list.new.items ≡ list.old.items }
{
    if list.capacity() / 4 > list.len() {
        list.shrink_to(2 * list.len());
    }
}

impl HostInputs {
    /// Returns the inputs of a new world: none. Takes no memory.
    pub(crate) fn new(alloc: Global) -> HostInputs
        ensures { result ≡ record { floor = 1; rest = []; count = 0; last = pos 0 } }
    {
        HostInputs {
            rest: VecDeque::new(alloc),
            floor: 1,
            count: 0,
            last: 0,
        }
    }

    /// Returns the inputs of a world with this many, the last at a time in microseconds, of which
    /// none is there. Takes no memory.
    pub(crate) fn behind(alloc: Global, count: u64, last: i64) -> HostInputs
        requires few { count ≤ max_inputs }
        requires from { pos 0 ≤ℤ last }
        requires to { last ≤ℤ pos max_time }
        ensures { result ≡ record { floor = count + 1; rest = []; count = count; last = last } }
    {
        HostInputs {
            rest: VecDeque::new(alloc),
            floor: count + 1,
            count,
            last,
        }
    }

    /// Returns the number of all inputs, including those below the floor.
    pub(crate) fn len(&self) -> u64
        ensures value { result ≡ self.now.count }
        ensures fits { self.now.count ≤ max_inputs }
    {
        self.count
    }

    /// Returns the time of the last input in microseconds, or 0.
    pub(crate) fn last(&self) -> i64
        ensures value { result ≡ self.now.last }
        ensures from { pos 0 ≤ℤ self.now.last }
    {
        self.last
    }

    /// Returns the number of the first input that is there, or else of the next input.
    pub(crate) fn floor(&self) -> u64
        ensures value { result ≡ self.now.floor }
        ensures from { 1 ≤ self.now.floor }
        ensures to { self.now.floor ≤ self.now.count + 1 }
    {
        self.floor
    }

    /// Returns the input with this number, if it is there.
    pub(crate) fn get(&self, number: u64) -> Option<Stamped>
        ensures { result ≡ entry self.now number }
    {
        if number < self.floor {
            return None;
        }
        at(&self.rest, number - self.floor)
    }

    /// Returns why no input is numbered at this time, unless memory runs out.
    #[tactic(auto, unfolding(share_law::specs::Parts::fault_behind))]
    fn fault_at(&self, time: i64) -> Option<NumberFault>
        ensures { result ≡ fault_behind self.now.count self.now.last time }
    {
        if self.count >= MAX_INPUTS {
            Some(NumberFault::WorldFull)
        } else if time <= self.last {
            Some(NumberFault::TimeNotLater)
        } else if time > MAX_TIME {
            Some(NumberFault::TimeRange)
        } else {
            None
        }
    }

    /// Numbers an input at this time, in microseconds. Returns its number.
    pub(crate) fn add(&mut self, time: i64, cause: Cause) -> Result<u64, NumberFault>
        ensures { IsListed self.old time cause result self.new }
    {
        if let Some(fault) = self.fault_at(time) {
            return Err(fault);
        }
        let number = self.count + 1;
        match self.rest.push_back(Stamped::new(number, time, cause)) {
            Ok(()) => {
                self.count = number;
                self.last = time;
                Ok(number)
            }
            Err(_) => Err(NumberFault::Memory),
        }
    }

    /// Numbers an input 1 microsecond after the last one. Returns its number.
    pub(crate) fn add_next(&mut self, cause: Cause) -> Result<u64, NumberFault>
        ensures { IsListed self.old (self.old.last +ℤ pos 1) cause result self.new }
    {
        let time = self.last + 1;
        self.add(time, cause)
    }

    /// Drops the inputs below number `floor`. Takes no memory.
    pub(crate) fn drop_below(&mut self, floor: u64)
        requires from { self.old.floor ≤ floor }
        requires to { floor ≤ self.old.count + 1 }
        ensures { self.new ≡ dropped self.old floor }
    {
        drop_front(&mut self.rest, (floor - self.floor) as usize);
        self.floor = floor;
    }
}

/// Returns the input at a place, counted from 0, if there is one.
fn at(list: &VecDeque<Stamped>, place: u64) -> Option<Stamped>
    ensures { result ≡ slice_get list.now.items place }
{
    list.get(place as usize).copied()
}
