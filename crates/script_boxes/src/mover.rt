//! A mover: turns fractions into places between two places.

ghost use Rattle.std.specs.Prelude.{◌≡◌, ◌∷◌, [], None, Some, IfOk, OnOk, IfErr, IsTrue};
ghost use Rattle.script_host.specs.Behaviour.{part_way};
ghost use Rattle.script_host.specs.States.{mover_fault};
ghost use Rattle.x3d_values.specs.Ranges.{coordinates_fit};
ghost use Rattle.x3d_values.specs.declared.script.Kind.TheVariants as kinds;

use crate::numbers::part_way;
use crate::replies::one;
use script_host::{Behaviour, Replies, Reply, StateFault};
use std::alloc::AllocError;
use std::marker::Model;
use x3d_values::{Kind, Vec3};

/// The input `fraction`.
const FRACTION: u32 = 0;

/// The output `position`.
const POSITION: u32 = 0;

/// A mover. All coordinates are at most 10^15 millionths in absolute value.
#[derive(Debug, Drop)]
pub struct Mover {
    from: Vec3,
    to: Vec3,
}

impl Model for Mover {
    ghost use Rattle.std.specs.Prelude.{ℤ, List, [], ◌∷◌, IsTrue, ◌&&◌};
    ghost use Rattle.x3d_values.specs.Ranges.{coordinates_fit};

    ghost Value = { List ℤ };

    ghost view = { λ m. m.from.x ∷ m.from.y ∷ m.from.z ∷ m.to.x ∷ m.to.y ∷ m.to.z ∷ [] };

    ghost invariant = { λ m. IsTrue (coordinates_fit m.from && coordinates_fit m.to) };
}

/// Returns what is sent for a fraction, in millionths, of the way between two places.
fn position(fraction: i64, from: Vec3, to: Vec3) -> Reply
    ensures output { result.output ≡ 0 }
    ensures numbers { result.numbers ≡
        part_way fraction from.x to.x
        ∷ part_way fraction from.y to.y
        ∷ part_way fraction from.z to.z
        ∷ [] }
{
    Reply {
        output: POSITION,
        numbers: [
            part_way(fraction, from.x, to.x),
            part_way(fraction, from.y, to.y),
            part_way(fraction, from.z, to.z),
        ],
    }
}

impl Mover {
    /// Creates a mover between two places. `Vec3::fits` tests that a place is in range.
    pub fn new(from: Vec3, to: Vec3) -> Mover
        requires from { IsTrue (coordinates_fit from) }
        requires to { IsTrue (coordinates_fit to) }
        ensures { result ≡ from.x ∷ from.y ∷ from.z ∷ to.x ∷ to.y ∷ to.z ∷ [] }
    {
        Mover { from, to }
    }

    fn from_state(state: &[i64]) -> Result<Mover, StateFault>
        ensures ok { IfOk result (λ mover. mover ≡ state.now) }
        ensures valid { OnOk result (mover_fault state.now ≡ None) }
        ensures err { IfErr result (λ fault. mover_fault state.now ≡ Some fault) }
    {
        let [a, b, c, d, e, f] = state else {
            return Err(StateFault::StateLength);
        };
        let from = Vec3 {
            x: *a,
            y: *b,
            z: *c,
        };
        let to = Vec3 {
            x: *d,
            y: *e,
            z: *f,
        };
        if !from.fits() {
            return Err(StateFault::StateRange);
        }
        if !to.fits() {
            return Err(StateFault::StateRange);
        }
        Ok(Mover { from, to })
    }
}

impl Behaviour for Mover {
    ghost kind_of = { λ _. kinds.Mover };

    ghost numbers = { λ mover. mover };

    fn kind(&self) -> Kind {
        Kind::Mover
    }

    fn initialize(&mut self) -> Replies {
        Replies::new()
    }

    fn receive(&mut self, input: u32, event: [i64; 3]) -> Replies {
        if input != FRACTION {
            return Replies::new();
        }
        one(position(event[0], self.from, self.to))
    }

    fn events_processed(&mut self) -> Replies {
        Replies::new()
    }

    fn shutdown(&mut self) {}

    fn state(&self, out: &mut Vec<i64>) -> Result<(), AllocError> {
        let (from, to) = (self.from, self.to);
        out.extend_from_slice(&[from.x, from.y, from.z, to.x, to.y, to.z])
    }

    fn fits(&self, state: &[i64]) -> Result<(), StateFault> {
        Mover::from_state(state)?;
        Ok(())
    }

    fn restore(&mut self, state: &[i64]) -> Result<(), StateFault> {
        *self = Mover::from_state(state)?;
        Ok(())
    }
}
