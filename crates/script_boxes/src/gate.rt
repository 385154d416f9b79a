//! A gate: passes pulses on while it is open.

ghost use Rattle.std.specs.Prelude.{◌≡◌, ◌∷◌, [], pos, None, Some, IfOk, OnOk, IfErr, cond, if◌then◌else◌};
ghost use Rattle.script_host.specs.States.{gate_fault};
ghost use Rattle.x3d_values.specs.declared.script.Kind.TheVariants as kinds;

use crate::replies::one;
use script_host::{Behaviour, Replies, Reply, StateFault};
use std::alloc::AllocError;
use std::marker::Model;
use x3d_values::Kind;

/// The input `open`.
const OPEN: u32 = 0;

/// The input `pulse`.
const PULSE: u32 = 1;

/// The output `isOpen`.
const IS_OPEN: u32 = 0;

/// The output `passed`.
const PASSED: u32 = 1;

/// A gate, open or closed.
#[derive(Debug, Drop)]
pub struct Gate {
    open: bool,
}

impl Model for Gate {
    ghost use Rattle.std.specs.Prelude.{ℤ, List, [], ◌∷◌, pos, cond, if◌then◌else◌};

    ghost Value = { List ℤ };

    ghost view = { λ g. (if g.open then pos 1 else pos 0) ∷ [] };
}

impl Gate {
    /// Creates a gate, open if `start_open`.
    pub fn new(start_open: bool) -> Gate
        ensures { result ≡ (if start_open then pos 1 else pos 0) ∷ [] }
    {
        Gate { open: start_open }
    }

    fn from_state(state: &[i64]) -> Result<Gate, StateFault>
        ensures ok { IfOk result (λ gate. gate ≡ state.now) }
        ensures valid { OnOk result (gate_fault state.now ≡ None) }
        ensures err { IfErr result (λ fault. gate_fault state.now ≡ Some fault) }
    {
        match state {
            [0] => Ok(Gate { open: false }),
            [1] => Ok(Gate { open: true }),
            [_] => Err(StateFault::StateRange),
            _ => Err(StateFault::StateLength),
        }
    }
}

impl Behaviour for Gate {
    ghost kind_of = { λ _. kinds.Gate };

    ghost numbers = { λ gate. gate };

    fn kind(&self) -> Kind {
        Kind::Gate
    }

    fn initialize(&mut self) -> Replies {
        one(Reply::number(IS_OPEN, i64::from(self.open)))
    }

    fn receive(&mut self, input: u32, event: [i64; 3]) -> Replies {
        if input == OPEN {
            self.open = event[0] == 1;
            return one(Reply::number(IS_OPEN, i64::from(self.open)));
        }
        if input != PULSE || !self.open {
            return Replies::new();
        }
        one(Reply::number(PASSED, event[0]))
    }

    fn events_processed(&mut self) -> Replies {
        Replies::new()
    }

    fn shutdown(&mut self) {}

    fn state(&self, out: &mut Vec<i64>) -> Result<(), AllocError> {
        out.extend_from_slice(&[i64::from(self.open)])
    }

    fn fits(&self, state: &[i64]) -> Result<(), StateFault> {
        Gate::from_state(state)?;
        Ok(())
    }

    fn restore(&mut self, state: &[i64]) -> Result<(), StateFault> {
        *self = Gate::from_state(state)?;
        Ok(())
    }
}
