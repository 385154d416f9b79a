//! How long rests take by a clock.

ghost use Rattle.std.specs.Prelude.{◌≡◌};
ghost use Rattle.app_commands.specs.Pace.{passed_between};

use std::time::Clock;

/// When the last rest ended, and how long all took, in milliseconds.
#[derive(Clone, Copy)]
pub(crate) struct Rests {
    /// The time of the clock, if it said it.
    pub(crate) ended: Option<u64>,
    pub(crate) rested: u64,
}

/// Returns how many milliseconds passed between two rests that ended at these times.
fn passed_between(ended: Option<u64>, now: Option<u64>) -> u64
    ensures { result ≡ passed_between ended now }
{
    match (ended, now) {
        (Some(ended), Some(now)) => now.saturating_sub(ended),
        _ => 0,
    }
}

/// Returns the time of a clock in milliseconds, if it says it.
pub(crate) fn millis_at<C: Clock>(clock: &C) -> Option<u64> {
    match clock.monotonic() {
        Ok(time) => u64::try_from(time.as_millis()).ok(),
        Err(_) => None,
    }
}

impl Rests {
    ghost use Rattle.std.specs.Prelude.{◌≡◌, ◌+◌, ◌-◌, ◌^◌, None, min};
    ghost use Rattle.std.specs.Option.{option_or};
    ghost use Rattle.app_commands.specs.Pace.{passed_between};

    /// Returns the rests of a port that hasn't rested.
    pub(crate) fn new() -> Rests
        ensures { result ≡ record { ended = None; rested = 0 } }
    {
        Rests {
            ended: None,
            rested: 0,
        }
    }

    /// Ends a rest at this time, in milliseconds, if the clock says it. Returns how many passed
    /// since the last one ended.
    pub(crate) fn end(&mut self, now: Option<u64>) -> u64
        ensures result { result ≡ min (passed_between self.old.ended now)
            (2 ^ 64 - 1 - self.old.rested) }
        ensures state { self.new ≡ record {
          ended = option_or now self.old.ended;
          rested = self.old.rested + result;
        } }
    {
        let passed = passed_between(self.ended, now).min(u64::MAX - self.rested);
        self.ended = now.or(self.ended);
        self.rested += passed;
        passed
    }
}
