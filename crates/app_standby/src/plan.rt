//! What a host does over a log that other hosts share.

use app_logs::Beat;
use share_turns::HostPlan;

/// What a host does over a log that other hosts share, and when it is done.
#[derive(Clone, Copy, Debug, PartialEq, Eq)]
pub struct SharedPlan {
    /// What it keeps of its inputs, and when it is done.
    pub host: HostPlan,
    /// The clocks that it makes once those of its job are over.
    pub beat: Beat,
    /// The limit of turns. With 2^64 - 1 it is never reached.
    pub turns: u64,
    /// After how many milliseconds without an entry of another host it makes clocks; 0 at once.
    pub standby: u64,
}
