//! The host of a run, or that it was dropped.

ghost use Rattle.std.specs.Prelude.{◌≡◌};
ghost use Rattle.app_standby.specs.State.{is_now_over};

use share_logged::LoggedHost;
use share_turns::HostPlan;

/// What a run has of its host between two turns.
#[derive(Drop)]
pub enum Now {
    /// The host of the entries that the log knows.
    Hosting(LoggedHost),
    /// None: it may have been ahead of the log, and was dropped.
    Behind,
}

impl Now {
    ghost use Rattle.std.specs.Prelude.{◌≡◌};
    ghost use Rattle.app_standby.specs.State.{is_hosting, is_now_over};

    /// Reports whether there is a host.
    pub(crate) fn is_hosting(&self) -> bool
        ensures { result ≡ is_hosting self.now }
    {
        match self {
            Now::Hosting(_) => true,
            Now::Behind => false,
        }
    }

    /// Reports whether there is a host that is done.
    pub(crate) fn is_over(&self, plan: &HostPlan) -> bool
        ensures { result ≡ is_now_over plan.now self.now }
    {
        match self {
            Now::Hosting(hosting) => hosting.is_over(plan),
            Now::Behind => false,
        }
    }
}
