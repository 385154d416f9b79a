//! When a world is due.

ghost use Rattle.std.specs.Prelude.{◌≡◌};
ghost use Rattle.share_worlds.specs.Due as spec;

/// What a world may be due for. Moments are milliseconds of one clock.
#[derive(Clone, Copy)]
pub struct Wants {
    /// Datagrams wait for it.
    pub has_arrived: bool,
    /// Clocks of its job are left.
    pub has_clocks: bool,
    /// When the next clock of its beat is due, if it has a beat.
    pub beat: Option<u64>,
    /// When it may give up viewers that are silent, if it counts some.
    pub settles: Option<u64>,
    /// When viewers that join get their next pieces, if some join.
    pub gives: Option<u64>,
}

/// The longest wait, in milliseconds.
const LONGEST: u64 = 1_000;

fn earlier(a: Option<u64>, b: Option<u64>) -> Option<u64>
    ensures { result ≡ spec.earlier a b }
{
    match a {
        Some(first) => match b {
            Some(second) => Some(first.min(second)),
            None => Some(first),
        },
        None => b,
    }
}

/// Returns the moment at which a world is due: 0 if it is at once, or `None` if it isn't until
/// something arrives.
pub fn moment_of(wants: &Wants) -> Option<u64>
    ensures { result ≡ spec.moment_of wants.now }
{
    if wants.has_arrived || wants.has_clocks {
        Some(0)
    } else {
        earlier(wants.beat, earlier(wants.settles, wants.gives))
    }
}

/// Reports whether a world is due at a moment.
pub fn is_due(moment: Option<u64>, now: u64) -> bool
    ensures { result ≡ spec.is_due moment now }
{
    match moment {
        Some(moment) => moment <= now,
        None => false,
    }
}

/// Returns how long a world isn't due, at most a second.
fn left(now: u64, moment: Option<u64>) -> u64
    ensures { result ≡ spec.left now moment }
{
    match moment {
        Some(moment) => moment.saturating_sub(now).min(LONGEST),
        None => LONGEST,
    }
}

/// Returns how many milliseconds none of the worlds is due, at most 1,000.
pub fn wait_for(moments: &[Option<u64>], now: u64) -> u64
    ensures { result ≡ spec.wait_for moments.now now }
{
    moments
        .iter()
        .fold(LONGEST, |least, moment| least.min(left(now, *moment)))
}
