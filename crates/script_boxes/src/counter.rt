//! A counter: each TRUE at its input adds a step to its count.

ghost use Rattle.std.specs.Prelude.{◌≡◌, ◌∷◌, [], None, Some, IfOk, OnOk, IfErr};
ghost use Rattle.script_host.specs.States.{counter_fault};
ghost use Rattle.x3d_values.specs.declared.script.Kind.TheVariants as kinds;

use crate::replies::one;
use script_host::{Behaviour, Replies, Reply, StateFault};
use std::alloc::AllocError;
use std::marker::Model;
use x3d_values::Kind;

/// The input `tick`.
const TICK: u32 = 0;

/// The output `count`.
const COUNT: u32 = 0;

/// TRUE as a number.
const TRUE: i64 = 1;

/// A counter: its count, and the step that it adds.
#[derive(Debug, Drop)]
pub struct Counter {
    count: i32,
    step: i32,
}

impl Model for Counter {
    ghost use Rattle.std.specs.Prelude.{ℤ, List, [], ◌∷◌};

    ghost Value = { List ℤ };

    ghost view = { λ c. c.count ∷ c.step ∷ [] };
}

impl Counter {
    /// Creates a counter with this count and this step.
    pub fn new(start: i32, step: i32) -> Counter
        ensures { result ≡ start ∷ step ∷ [] }
    {
        Counter { count: start, step }
    }

    fn from_state(state: &[i64]) -> Result<Counter, StateFault>
        ensures ok { IfOk result (λ counter. counter ≡ state.now) }
        ensures valid { OnOk result (counter_fault state.now ≡ None) }
        ensures err { IfErr result (λ fault. counter_fault state.now ≡ Some fault) }
    {
        let [count, step] = state else {
            return Err(StateFault::StateLength);
        };
        let Ok(count) = i32::try_from(*count) else {
            return Err(StateFault::StateRange);
        };
        let Ok(step) = i32::try_from(*step) else {
            return Err(StateFault::StateRange);
        };
        Ok(Counter { count, step })
    }
}

impl Behaviour for Counter {
    ghost kind_of = { λ _. kinds.Counter };

    ghost numbers = { λ counter. counter };

    fn kind(&self) -> Kind {
        Kind::Counter
    }

    fn initialize(&mut self) -> Replies {
        Replies::new()
    }

    fn receive(&mut self, input: u32, event: [i64; 3]) -> Replies {
        if input != TICK || event[0] != TRUE {
            return Replies::new();
        }
        self.count = self.count.saturating_add(self.step);
        one(Reply::number(COUNT, i64::from(self.count)))
    }

    fn events_processed(&mut self) -> Replies {
        Replies::new()
    }

    fn shutdown(&mut self) {}

    fn state(&self, out: &mut Vec<i64>) -> Result<(), AllocError> {
        out.extend_from_slice(&[i64::from(self.count), i64::from(self.step)])
    }

    fn fits(&self, state: &[i64]) -> Result<(), StateFault> {
        Counter::from_state(state)?;
        Ok(())
    }

    fn restore(&mut self, state: &[i64]) -> Result<(), StateFault> {
        *self = Counter::from_state(state)?;
        Ok(())
    }
}
