//! What a host does if its words don't say it.

ghost use Rattle.std.specs.Prelude.{◌≤◌};
ghost use Rattle.x3d_values.specs.Ranges.{max_viewers};
ghost use Rattle.app_words.specs.Words.{HostInRange};

use app_serve::VIEWERS;
use app_words::HostOrder;

/// How many turns a host without a log takes by default.
const TURNS: u32 = 1_000_000;

/// Returns how many viewers a host has that makes its world.
pub fn viewers_of(asked: &HostOrder) -> u8
    requires { HostInRange asked.now }
    ensures some { 1 ≤ result }
    ensures most { result ≤ max_viewers }
{
    match asked.viewers {
        Some(viewers) => viewers,
        None => VIEWERS,
    }
}

/// Returns how many turns a host without a log takes.
pub fn turns_of(asked: &HostOrder) -> u32 {
    match asked.turns {
        Some(turns) => turns,
        None => TURNS,
    }
}
