//! A batch: counts the items of a timestamp, and sends their number after the timestamp's events
//! were processed.

ghost use Rattle.std.specs.Prelude.{◌≡◌, ◌∷◌, [], pos, None, Some, IfOk, OnOk, IfErr};
ghost use Rattle.script_host.specs.States.{batch_fault};
ghost use Rattle.x3d_values.specs.declared.script.Kind.TheVariants as kinds;

use crate::replies::two;
use script_host::{Behaviour, Replies, Reply, StateFault};
use std::alloc::AllocError;
use std::marker::Model;
use x3d_values::Kind;

/// The input `item`.
const ITEM: u32 = 0;

/// The output `many`.
const MANY: u32 = 0;

/// The output `any`.
const ANY: u32 = 1;

/// TRUE as a number.
const TRUE: i64 = 1;

/// A batch. The number of pending items is at least 0.
#[derive(Debug, Drop)]
pub struct Batch {
    pending: i32,
}

impl Model for Batch {
    ghost use Rattle.std.specs.Prelude.{ℤ, List, [], ◌∷◌, IsTrue};
    ghost use Rattle.script_host.specs.States.{pending_fits};

    ghost Value = { List ℤ };

    ghost view = { λ batch. batch.pending ∷ [] };

    ghost invariant = { λ batch. IsTrue (pending_fits batch.pending) };
}

impl Batch {
    /// Creates a batch without pending items.
    pub fn new() -> Batch
        ensures { result ≡ pos 0 ∷ [] }
    {
        Batch { pending: 0 }
    }

    fn from_state(state: &[i64]) -> Result<Batch, StateFault>
        ensures ok { IfOk result (λ batch. batch ≡ state.now) }
        ensures valid { OnOk result (batch_fault state.now ≡ None) }
        ensures err { IfErr result (λ fault. batch_fault state.now ≡ Some fault) }
    {
        let [pending] = state else {
            return Err(StateFault::StateLength);
        };
        let Ok(pending) = i32::try_from(*pending) else {
            return Err(StateFault::StateRange);
        };
        if pending < 0 {
            return Err(StateFault::StateRange);
        }
        Ok(Batch { pending })
    }
}

impl Behaviour for Batch {
    ghost kind_of = { λ _. kinds.Batch };

    ghost numbers = { λ batch. batch };

    fn kind(&self) -> Kind {
        Kind::Batch
    }

    fn initialize(&mut self) -> Replies {
        Replies::new()
    }

    fn receive(&mut self, input: u32, _event: [i64; 3]) -> Replies {
        if input == ITEM {
            self.pending = self.pending.saturating_add(1);
        }
        Replies::new()
    }

    fn events_processed(&mut self) -> Replies {
        let many = i64::from(self.pending);
        self.pending = 0;
        two(Reply::number(MANY, many), Reply::number(ANY, TRUE))
    }

    fn shutdown(&mut self) {}

    fn state(&self, out: &mut Vec<i64>) -> Result<(), AllocError> {
        out.extend_from_slice(&[i64::from(self.pending)])
    }

    fn fits(&self, state: &[i64]) -> Result<(), StateFault> {
        Batch::from_state(state)?;
        Ok(())
    }

    fn restore(&mut self, state: &[i64]) -> Result<(), StateFault> {
        *self = Batch::from_state(state)?;
        Ok(())
    }
}
