//! When a viewer sends its asks and offers: not again while their answers may be under way.

ghost use Rattle.std.specs.Prelude.{◌≡◌, if◌then◌else◌, not};
ghost use Rattle.app_commands.specs.Pace.{answered, asked, come, is_again, is_due, is_early};
ghost use Rattle.app_commands.specs.Pace.{left, longer, measure, measured, offered, patience_for};

/// The shortest and the longest time to wait for an answer, and the round trip before one was
/// measured, all in microseconds.
const LEAST: u64 = 4_000;

const MOST: u64 = 1_000_000;

const UNKNOWN: u64 = 50_000;

/// What is known of the asks and offers that a viewer sent. Times are microseconds of a clock, up
/// to 2^64 - 1.
#[derive(Clone, Copy)]
pub struct Pace {
    /// How many answers are under way: one for each ask or offer.
    awaited: u32,
    /// When an ask or an offer was last sent, or an input or an ack last came, whichever is later.
    since: u64,
    /// How long to wait for an answer from `since` on.
    patience: u64,
    /// The measured round trip.
    trip: u64,
    /// The number that the last ask asked from, and when it was sent.
    next: u64,
    asked: u64,
    /// When that number was first asked for since an answer came, and whether its input is still to
    /// come.
    begun: u64,
    measuring: bool,
    /// The number of the last offer, and when it was sent.
    number: u32,
    offered: u64,
}

/// Returns how long to wait for an answer if a round trip takes `trip` microseconds.
fn patience_for(trip: u64) -> u64
    ensures { result ≡ patience_for trip }
{
    trip.saturating_mul(2).clamp(LEAST, MOST)
}

fn longer(patience: u64) -> u64
    ensures { result ≡ longer patience }
{
    patience.saturating_mul(2).min(MOST)
}

impl Pace {
    ghost use Rattle.std.specs.Prelude.{◌≡◌, if◌then◌else◌, not};
    ghost use Rattle.app_commands.specs.Pace.{answered, asked, come, is_again, is_due, is_early};
    ghost use Rattle.app_commands.specs.Pace.{left, measure, measured, offered, unsent};

    /// Returns the pace before anything was sent.
    pub fn new() -> Pace
        ensures { result ≡ unsent }
    {
        Pace {
            awaited: 0,
            since: 0,
            patience: patience_for(UNKNOWN),
            trip: UNKNOWN,
            next: 0,
            asked: 0,
            begun: 0,
            measuring: false,
            number: 0,
            offered: 0,
        }
    }

    /// Returns for how many more microseconds an answer is awaited, or 0 if none is. The wait ends
    /// a second after the last ask at the latest.
    pub fn left(&self, now: u64) -> u64
        ensures { result ≡ left self.now now }
    {
        if self.awaited == 0 {
            return 0;
        }
        let end = self.since.saturating_add(self.patience);
        end.min(self.asked.saturating_add(MOST)).saturating_sub(now)
    }

    /// Reports whether an ask from this number on repeats the last one within `pause` microseconds.
    fn is_again(&self, next: u64, now: u64, pause: u64) -> bool
        ensures { result ≡ is_again self.now next now pause }
    {
        next == self.next && now < self.asked.saturating_add(pause)
    }

    /// Reports whether an ask is due: no answer is awaited, and the ask does not repeat the last
    /// one within `pause` microseconds. A repeat is due if the last ask had no answer.
    fn is_due(&self, next: u64, now: u64, pause: u64) -> bool
        ensures { result ≡ is_due self.now next now pause }
    {
        if self.left(now) > 0 {
            return false;
        }
        self.awaited > 0 || !self.is_again(next, now, pause)
    }

    /// Reports whether an ask from this number on is sent now, and if so, records that. If the last
    /// ask had no answer in time, the wait for this one is longer. `now` and `pause` are
    /// microseconds.
    pub fn asks(&mut self, next: u64, now: u64, pause: u64) -> bool
        ensures due { result ≡ is_due self.old next now pause }
        ensures state { self.new
            ≡ (if is_due self.old next now pause then asked self.old next now else self.old) }
    {
        if !self.is_due(next, now, pause) {
            return false;
        }
        if self.awaited == 0 || next != self.next {
            self.begun = now;
            self.measuring = true;
        }
        if self.awaited > 0 {
            self.patience = longer(self.patience);
        }
        self.awaited = 1;
        self.since = now;
        self.next = next;
        self.asked = now;
        true
    }

    /// Reports whether the offer of this number is sent now, and if so, records that. The last
    /// offer isn't sent again before an answer could come. `now` is in microseconds.
    pub fn offers(&mut self, number: u32, now: u64) -> bool
        ensures due { result ≡ not (is_early self.old number now) }
        ensures state { self.new
            ≡ (if is_early self.old number now then self.old else offered self.old number now) }
    {
        if number == self.number && now < self.offered.saturating_add(self.patience) {
            return false;
        }
        self.awaited = self.awaited.saturating_add(1);
        self.since = now;
        self.number = number;
        self.offered = now;
        true
    }

    /// Records that an input or an ack came at `now`, in microseconds.
    pub fn comes(&mut self, now: u64)
        ensures { self.new ≡ come self.old now }
    {
        self.since = now;
        self.patience = patience_for(self.trip);
    }

    /// Records that an ack came: one awaited answer less.
    pub fn is_answered(&mut self)
        ensures { self.new ≡ answered self.old }
    {
        self.awaited = self.awaited.saturating_sub(1);
    }

    /// Records that an input came. The first input that was asked for gives the round trip. If it
    /// was asked for more than once, the ask that it answers is unknown, so the measure grows by at
    /// most an eighth.
    pub fn measures(&mut self, number: u64, now: u64)
        ensures { self.new ≡ measured self.old number now }
    {
        if self.measuring && number == self.next {
            self.trip = self.measure(now.saturating_sub(self.begun));
            self.measuring = false;
        }
    }

    fn measure(&self, span: u64) -> u64
        ensures { result ≡ measure self.now span }
    {
        if self.begun == self.asked {
            span
        } else {
            span.min(self.trip.saturating_add(self.trip / 8))
        }
    }
}
