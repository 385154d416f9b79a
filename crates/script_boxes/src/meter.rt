//! A meter: sends the mean of its last readings.

ghost use Rattle.std.specs.Prelude.{◌≡◌, ◌≤◌, ◌<◌, ◌∷◌, ◌++◌, [], length, vec_len, vec_capacity, None, Some, IsTrue, IfOk, OnOk, IfErr};
ghost use Rattle.std.specs.List.{list_all};
ghost use Rattle.script_host.specs.Behaviour.{last_eight};
ghost use Rattle.script_host.specs.States.{meter_fault};
ghost use Rattle.x3d_values.specs.Ranges.{coordinate_fits};
ghost use Rattle.x3d_values.specs.declared.script.Kind.TheVariants as kinds;

use crate::numbers::mean;
use crate::replies::one;
use script_host::{Behaviour, Replies, Reply, StateFault};
use std::alloc::{AllocError, Global};
use std::marker::Model;
use x3d_values::{Kind, coordinate_fits};

/// The input `reading`.
const READING: u32 = 0;

/// The output `mean`.
const MEAN: u32 = 0;

/// The most readings that are kept.
const MAX_READINGS: usize = 8;

/// The last readings, oldest first: at most 8, each at most 10^15 millionths in absolute value.
/// There is room for 8, so a reading allocates nothing.
#[derive(Debug, Drop)]
pub struct Meter {
    readings: Vec<i64>,
}

impl Model for Meter {
    ghost use Rattle.std.specs.Prelude.{ℤ, List, ◌≤◌, IsTrue, vec_len, vec_capacity};
    ghost use Rattle.std.specs.List.{list_all};
    ghost use Rattle.x3d_values.specs.Ranges.{coordinate_fits};

    ghost Value = { List ℤ };

    ghost view = { λ m. m.readings.items };

    ghost invariant = { λ m.
        (vec_len m.readings ≤ 8)
        × (8 ≤ vec_capacity m.readings)
        × IsTrue (list_all coordinate_fits m.readings.items) };
}

fn all_fit(readings: &[i64]) -> bool
    ensures { result ≡ list_all coordinate_fits readings.now }
{
    readings.iter().all(|reading| coordinate_fits(*reading))
}

/// Checks that a list of numbers is a state of a meter; returns why it isn't.
fn check(state: &[i64]) -> Result<(), StateFault>
    ensures ok { OnOk result (meter_fault state.now ≡ None) }
    ensures err { IfErr result (λ fault. meter_fault state.now ≡ Some fault) }
{
    if state.len() > MAX_READINGS {
        return Err(StateFault::StateLength);
    }
    if !all_fit(state) {
        return Err(StateFault::StateRange);
    }
    Ok(())
}

/// Appends a reading, and drops the oldest if there are more than 8.
fn keep(readings: &mut Vec<i64>, reading: i64)
    requires few { vec_len readings.old ≤ 8 }
    requires room { 8 ≤ vec_capacity readings.old }
    requires fit { IsTrue (list_all coordinate_fits readings.old.items) }
    requires fits { IsTrue (coordinate_fits reading) }
    ensures kept { readings.new.items ≡ last_eight (readings.old.items ++ reading ∷ []) }
    ensures some { 0 < vec_len readings.new }
    ensures few { vec_len readings.new ≤ 8 }
    ensures room { 8 ≤ vec_capacity readings.new }
    ensures fit { IsTrue (list_all coordinate_fits readings.new.items) }
{
    if readings.len() == MAX_READINGS {
        readings.remove(0);
    }
    readings.push_reserved(reading);
}

impl Meter {
    /// Creates a meter without readings. Fails if memory runs out.
    pub fn new(alloc: Global) -> Result<Meter, AllocError>
        ensures { IfOk result (λ meter. meter ≡ []) }
    {
        Ok(Meter {
            readings: Vec::with_capacity(alloc, MAX_READINGS)?,
        })
    }
}

impl Behaviour for Meter {
    ghost kind_of = { λ _. kinds.Meter };

    ghost numbers = { λ meter. meter };

    fn kind(&self) -> Kind {
        Kind::Meter
    }

    fn initialize(&mut self) -> Replies {
        Replies::new()
    }

    fn receive(&mut self, input: u32, event: [i64; 3]) -> Replies {
        if input != READING {
            return Replies::new();
        }
        keep(&mut self.readings, event[0]);
        one(Reply::number(MEAN, mean(self.readings.as_slice())))
    }

    fn events_processed(&mut self) -> Replies {
        Replies::new()
    }

    fn shutdown(&mut self) {}

    fn state(&self, out: &mut Vec<i64>) -> Result<(), AllocError> {
        out.extend_from_slice(self.readings.as_slice())
    }

    fn fits(&self, state: &[i64]) -> Result<(), StateFault> {
        check(state)
    }

    fn restore(&mut self, state: &[i64]) -> Result<(), StateFault> {
        check(state)?;
        self.readings.clear();
        self.readings.extend_from_slice(state)?;
        Ok(())
    }
}
