//! An adder: sends the sum of its two terms.

ghost use Rattle.std.specs.Prelude.{◌≡◌, ◌∷◌, [], pos, None, Some, IfOk, OnOk, IfErr};
ghost use Rattle.script_host.specs.States.{adder_fault};
ghost use Rattle.x3d_values.specs.declared.script.Kind.TheVariants as kinds;

use crate::numbers::clamped_sum;
use crate::replies::one;
use script_host::{Behaviour, Replies, Reply, StateFault};
use std::alloc::AllocError;
use std::marker::Model;
use x3d_values::{Kind, coordinate_fits};

/// The input `a`.
const A: u32 = 0;

/// The input `b`.
const B: u32 = 1;

/// The output `sum`.
const SUM: u32 = 0;

/// An adder. Both terms are at most 10^15 millionths in absolute value.
#[derive(Debug, Drop)]
pub struct Adder {
    a: i64,
    b: i64,
}

impl Model for Adder {
    ghost use Rattle.std.specs.Prelude.{ℤ, List, [], ◌∷◌, IsTrue, ◌&&◌};
    ghost use Rattle.x3d_values.specs.Ranges.{coordinate_fits};

    ghost Value = { List ℤ };

    ghost view = { λ adder. adder.a ∷ adder.b ∷ [] };

    ghost invariant = { λ adder. IsTrue (coordinate_fits adder.a && coordinate_fits adder.b) };
}

impl Adder {
    /// Creates an adder whose terms are 0.
    pub fn new() -> Adder
        ensures { result ≡ pos 0 ∷ pos 0 ∷ [] }
    {
        Adder { a: 0, b: 0 }
    }

    fn from_state(state: &[i64]) -> Result<Adder, StateFault>
        ensures ok { IfOk result (λ adder. adder ≡ state.now) }
        ensures valid { OnOk result (adder_fault state.now ≡ None) }
        ensures err { IfErr result (λ fault. adder_fault state.now ≡ Some fault) }
    {
        let [a, b] = state else {
            return Err(StateFault::StateLength);
        };
        if !coordinate_fits(*a) {
            return Err(StateFault::StateRange);
        }
        if !coordinate_fits(*b) {
            return Err(StateFault::StateRange);
        }
        Ok(Adder { a: *a, b: *b })
    }
}

impl Behaviour for Adder {
    ghost kind_of = { λ _. kinds.Adder };

    ghost numbers = { λ adder. adder };

    fn kind(&self) -> Kind {
        Kind::Adder
    }

    fn initialize(&mut self) -> Replies {
        Replies::new()
    }

    fn receive(&mut self, input: u32, event: [i64; 3]) -> Replies {
        if input == A {
            self.a = event[0];
            return one(Reply::number(SUM, clamped_sum(self.a, self.b)));
        }
        if input == B {
            self.b = event[0];
            return one(Reply::number(SUM, clamped_sum(self.a, self.b)));
        }
        Replies::new()
    }

    fn events_processed(&mut self) -> Replies {
        Replies::new()
    }

    fn shutdown(&mut self) {}

    fn state(&self, out: &mut Vec<i64>) -> Result<(), AllocError> {
        out.extend_from_slice(&[self.a, self.b])
    }

    fn fits(&self, state: &[i64]) -> Result<(), StateFault> {
        Adder::from_state(state)?;
        Ok(())
    }

    fn restore(&mut self, state: &[i64]) -> Result<(), StateFault> {
        *self = Adder::from_state(state)?;
        Ok(())
    }
}
