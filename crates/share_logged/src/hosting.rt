//! A host over a log.

ghost use Rattle.std.specs.Prelude.{◌≡◌};
ghost use Rattle.share_turns.specs.Runs.{hosting, is_over};

use share_core::Host;
use share_turns::{Attendance, HostPlan, is_over};
use std::marker::Model;

/// A host whose inputs are the entries of a log, and which viewers it counts.
#[derive(Drop)]
pub struct LoggedHost {
    pub(crate) host: Host,
    pub(crate) attendance: Attendance,
    /// The time of the last input in microseconds, or 0.
    pub(crate) last: i64,
    /// The milliseconds that its port's rests took since the host began.
    pub(crate) rested: u64,
}

impl Model for LoggedHost {
    ghost use Rattle.std.specs.Prelude.{◌≡◌, pos, ◌≤ℤ◌};
    ghost use Rattle.share_logged.specs.Hosting.{LoggedView};

    ghost Value = { LoggedView };

    ghost view = { λ h. record {
      mark = h.host.mark;
      part = h.host.part;
      attendance = h.attendance;
    } };

    ghost invariant = { λ h. (h.last ≡ h.host.part.last) × (pos 0 ≤ℤ h.last)
        × (h.rested ≡ h.attendance.time) };
}

impl LoggedHost {
    ghost use Rattle.std.specs.Prelude.{◌≡◌};
    ghost use Rattle.share_turns.specs.Runs.{hosting, is_over};

    /// Returns the host, without what it knows of its log.
    pub fn into_host(self) -> Host
        ensures { result ≡ record { mark = self.mark; part = self.part } }
    {
        let LoggedHost {
            host,
            attendance: _,
            last: _,
            rested: _,
        } = self;
        host
    }

    /// Returns the mark of its scene.
    pub fn mark(&self) -> [u8; 32]
        ensures { result ≡ self.now.mark }
    {
        self.host.mark()
    }

    /// Returns the number of entries, which are the inputs of the world: at most 2^48 - 1.
    pub fn len(&self) -> u64
        ensures { result ≡ self.now.part.count }
    {
        self.host.len()
    }

    /// Returns the time of the last input in microseconds, or 0.
    pub fn last(&self) -> i64
        ensures { result ≡ self.now.part.last }
    {
        self.last
    }

    /// Returns how many milliseconds the rests of its port took since the host began.
    pub fn rested(&self) -> u64
        ensures { result ≡ self.now.attendance.time }
    {
        self.rested
    }

    /// Reports whether the host is done, like `is_over` of share_turns.
    pub fn is_over(&self, plan: &HostPlan) -> bool
        ensures { result ≡ is_over plan.now (hosting self.now.part self.now.attendance) }
    {
        is_over(&self.host, &self.attendance, plan)
    }
}
