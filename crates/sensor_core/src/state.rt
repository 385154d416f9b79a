//! Whether a TimeSensor runs.

use crate::parts::TimeParts;
use std::marker::Model;

/// Whether a TimeSensor runs, and in which cycle, counted from 0. Contracts see the number of the
/// running cycle, if there is one.
#[derive(Clone, Copy, PartialEq, Eq)]
pub struct TimeState {
    cycle: Option<u64>,
}

impl Model for TimeState {
    ghost use Rattle.std.specs.Prelude.{IsTrue, ℕ, Option};
    ghost use Rattle.sensor_core.specs.Timing.{is_state};

    ghost Value = { Option ℕ };

    ghost view = { λ s. s.cycle };

    ghost invariant = { λ s. IsTrue (is_state s.cycle) };

    ghost inverse = { λ cycle. record { cycle = cycle } };
}

impl TimeState {
    ghost use Rattle.std.specs.Prelude.{◌≡◌, ◌<◌, ◌^◌, Some, None, is_some, IfSome};
    ghost use Rattle.sensor_core.specs.Parts.{parts_of_cycle, cycle_of_parts};

    /// Returns the state of a TimeSensor that doesn't run.
    pub fn inactive() -> TimeState
        ensures { result ≡ None }
    {
        TimeState { cycle: None }
    }

    /// Returns the state of a TimeSensor that runs in cycle `cycle`, counted from 0.
    pub fn active(cycle: u64) -> TimeState
        requires { cycle < 2 ^ 63 }
        ensures { result ≡ Some cycle }
    {
        TimeState { cycle: Some(cycle) }
    }

    /// Returns the number of the running cycle, if there is one.
    pub fn cycle(&self) -> Option<u64>
        ensures value { result ≡ self.now }
        ensures fits { IfSome result (λ cycle. cycle < 2 ^ 63) }
    {
        self.cycle
    }

    /// Returns the state as a snapshot has it.
    #[tactic(auto, unfolding(crate::specs::Parts::parts_of_cycle))]
    pub fn parts(&self) -> TimeParts
        ensures { result ≡ parts_of_cycle self.now }
    {
        match self.cycle {
            Some(cycle) => TimeParts {
                active: true,
                cycle: cycle as i64,
            },
            None => TimeParts {
                active: false,
                cycle: 0,
            },
        }
    }

    /// Returns the state with these parts. Returns `None` if the cycle is below 0, or isn't 0
    /// although the sensor isn't active.
    #[tactic(auto, unfolding(crate::specs::Parts::cycle_of_parts))]
    pub fn from_parts(parts: TimeParts) -> Option<TimeState>
        ensures { result ≡ cycle_of_parts parts }
    {
        if parts.active {
            if parts.cycle < 0 {
                return None;
            }
            return Some(TimeState::active(parts.cycle as u64));
        }
        if parts.cycle != 0 {
            return None;
        }
        Some(TimeState::inactive())
    }

    /// Reports whether the sensor runs.
    pub fn is_active(&self) -> bool
        ensures { result ≡ is_some self.now }
    {
        self.cycle.is_some()
    }
}
