//! Which viewers a host counts: those that it has heard of, and not given up.

ghost use Rattle.std.specs.Prelude.{◌≡◌, ◌<◌, ℕ, get_or};
ghost use Rattle.x3d_values.specs.Ranges.{max_viewers};
ghost use Rattle.share_turns.specs.Heard.{lowest};
ghost use Rattle.share_turns.specs.Attendance.{IsNoted, later, lowest_counted, none_heard};
ghost use Rattle.share_turns.specs.Attendance.{counted_number, counted_numbers, is_open};
ghost use Rattle.share_turns.specs.Attendance.{last_heard, lowest_dropped};

use crate::heard::{Heard, PLACES, lower};

/// After this many milliseconds without an ask of it a viewer is given up. A running viewer asks at
/// least once a second, so ten of its asks were lost in a row, or it has ended.
pub const SILENT_MILLIS: u64 = 10_000;

/// After this many milliseconds a host that waits for its viewers drops inputs even if some haven't
/// come: long enough to start them by hand.
pub const GRACE_MILLIS: u64 = 30_000;

/// What a host has heard of its viewers, and when. Times are milliseconds that its port's rests
/// took since the host began.
#[derive(Drop)]
pub struct Attendance {
    heard: Heard,
    /// When each viewer was last heard, or 0.
    lasts: [u64; PLACES],
    time: u64,
}

/// Returns the number of a viewer that was last heard at `last`, or 0 if it is given up at `now`.
fn counted_number(now: u64, last: u64, next: u64) -> u64
    ensures { result ≡ counted_number now last next }
{
    if now.saturating_sub(last) < SILENT_MILLIS {
        next
    } else {
        0
    }
}

/// Returns the lowest number of the viewers that are counted at `now`.
fn lowest_counted(now: u64, lasts: &[u64], nexts: &[u64]) -> Option<u64>
    ensures { result ≡ lowest (counted_numbers now lasts.now nexts.now) }
{
    match lasts {
        [] => None,
        [last, lasts @ ..] => match nexts {
            [] => None,
            [next, nexts @ ..] => lower(
                counted_number(now, *last, *next),
                lowest_counted(now, lasts, nexts),
            ),
        },
    }
}

/// Returns when a viewer was last heard, after a turn in which `next` was heard of it.
fn last_heard(now: u64, next: u64, last: u64) -> u64
    ensures { result ≡ last_heard now next last }
{
    if next == 0 { last } else { now }
}

/// Notes at `now` when each viewer was last heard, after a turn in which these numbers were heard.
fn note_times(now: u64, nexts: &[u64; PLACES], lasts: &mut [u64; PLACES])
    ensures { (who : ℕ) → who < max_viewers
        → get_or lasts.new who 0
        ≡ last_heard now (get_or nexts.now who 0) (get_or lasts.old who 0) }
{
    for who in 0..PLACES {
        lasts[who] = last_heard(now, nexts[who], lasts[who]);
    }
}

impl Attendance {
    ghost use Rattle.std.specs.Prelude.{◌≡◌, is_some};

    /// Returns the record of a host that has heard of no viewer, at time 0.
    pub fn new() -> Attendance
        ensures { result ≡ none_heard }
    {
        Attendance {
            heard: Heard::nobody(),
            lasts: [0; PLACES],
            time: 0,
        }
    }

    /// Notes what was heard in a turn: the highest number of each viewer stays, and a viewer that
    /// was heard is counted again if it was given up.
    pub fn note(&mut self, came: &Heard)
        ensures { IsNoted came.now self.old self.new }
    {
        self.heard.join(came);
        note_times(self.time, came.numbers(), &mut self.lasts);
    }

    /// Lets this many milliseconds pass. The time stops at 2^64 - 1.
    pub fn pass(&mut self, millis: u64)
        ensures { self.new ≡ later millis self.old }
    {
        self.time = self.time.saturating_add(millis);
    }

    /// Reports whether a viewer was heard of since the host began.
    pub fn is_any_heard(&self) -> bool
        ensures { result ≡ is_some (lowest self.now.heard) }
    {
        self.heard.lowest().is_some()
    }

    /// Returns the lowest number that a viewer asked from, among those that are counted: heard of,
    /// and less than `SILENT_MILLIS` ago. All of these have asked past the inputs below it. Returns
    /// `None` if no viewer is counted.
    pub fn lowest(&self) -> Option<u64>
        ensures { result ≡ lowest_counted self.now }
    {
        lowest_counted(self.time, &self.lasts, self.heard.numbers())
    }

    /// Reports whether inputs may be dropped: as many as `viewers` viewers were heard of since the
    /// host began, or `GRACE_MILLIS` have passed.
    pub fn is_open(&self, viewers: u8) -> bool
        ensures { result ≡ is_open viewers self.now }
    {
        GRACE_MILLIS <= self.time || viewers as usize <= self.heard.count()
    }

    /// Returns what `lowest` does, once inputs may be dropped; `None` before.
    pub(crate) fn lowest_dropped(&self, viewers: u8) -> Option<u64>
        ensures { result ≡ lowest_dropped viewers self.now }
    {
        if self.is_open(viewers) {
            self.lowest()
        } else {
            None
        }
    }
}
