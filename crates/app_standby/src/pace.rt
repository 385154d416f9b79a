//! When a host over a shared log reads on, and which clocks it makes.

ghost use Rattle.std.specs.Prelude.{◌≡◌, int_lt};
ghost use Rattle.std.specs.List.{find};
ghost use Rattle.app_standby.specs.Pace.{job_clock, must_read, place_after, stands_in};

use crate::plan::SharedPlan;
use app_logs::{Beat, clock_for, due_after, first_due};
use share_entries::{Entry, Source};

/// After this many milliseconds a host reads on.
pub const READ_EVERY: u64 = 250;

/// Reports whether a host that has had no entry of another for `silent` milliseconds makes clocks.
pub fn stands_in(silent: u64, standby: u64) -> bool
    ensures { result ≡ stands_in silent standby }
{
    silent >= standby
}

/// For this many milliseconds after an entry of another host a host reads on before each turn: else
/// the other one would be first in most of its appends.
pub const BUSY: u64 = 2_000;

/// Reports whether a host reads on before its turn, `since` milliseconds after it read on and
/// `silent` milliseconds after it had an entry of another host.
pub fn must_read(takes_appends: bool, since: u64, silent: u64) -> bool
    ensures { result ≡ must_read takes_appends since silent }
{
    !takes_appends || since >= READ_EVERY || silent < BUSY
}

/// What a run counts, in milliseconds that its port's rests took.
#[derive(Clone, Copy)]
pub struct Pace {
    /// The clocks of the beat. They go on from its base: from the last clock of another host.
    pub beat: Beat,
    /// Since it began, or had the last clock of another host.
    pub rested: u64,
    /// Since it last read on.
    pub since: u64,
    /// Since it last had an entry of another host, or began.
    pub silent: u64,
    /// When the next clock of the beat is due, as `rested` counts.
    pub due: u64,
    /// How many clocks of the job it has taken to turns.
    pub place: u64,
}

/// The clock of a turn, and what a run counts after it.
#[derive(Clone, Copy)]
pub(crate) struct Next {
    /// At a time in microseconds.
    pub(crate) clock: Option<i64>,
    pub(crate) due: u64,
    pub(crate) place: u64,
}

/// Returns the first of the clocks that is later than `last`, if there is one.
fn first_later(clocks: &[i64], last: i64) -> Option<i64>
    ensures { result ≡ find (int_lt last) clocks.now }
{
    for time in clocks {
        if last < *time {
            return Some(*time);
        }
    }
    None
}

/// Returns the job's next clock: the first from this place on that is later than the last input.
/// Another host has made those before it.
fn job_clock(clocks: &[i64], place: u64, last: i64) -> Option<i64>
    ensures { result ≡ job_clock clocks.now place last }
{
    let Some(left) = clocks.get(place as usize..) else {
        return None;
    };
    first_later(left, last)
}

/// Returns the number of clocks of a job that are over after a turn with this one.
fn place_after(job: Option<i64>, place: u64) -> u64
    ensures { result ≡ place_after job place }
{
    match job {
        Some(_) => place.saturating_add(1),
        None => place,
    }
}

impl Pace {
    ghost use Rattle.std.specs.Prelude.{◌≡◌};
    ghost use Rattle.app_standby.specs.Pace.{begun, followed, heard, made_by, next_of, passed};

    /// Returns that of a run with this beat.
    pub fn new(beat: Beat) -> Pace
        ensures { result ≡ begun beat }
    {
        Pace {
            beat,
            rested: 0,
            since: 0,
            silent: 0,
            due: first_due(beat.every),
            place: 0,
        }
    }

    /// Goes on from an entry of another host, if it is a clock.
    fn follow(&mut self, entry: &Entry)
        ensures { self.new ≡ followed self.old entry.now }
    {
        match entry.source() {
            Source::Clock => {
                self.beat.base = entry.time();
                self.rested = 0;
                self.due = first_due(self.beat.every);
            }
            Source::Offer(_) => {}
        }
    }

    /// Notes entries of another host.
    pub(crate) fn hear(&mut self, entries: &[Entry])
        ensures { self.new ≡ heard entries.now self.old }
    {
        self.silent = 0;
        for entry in entries {
            self.follow(entry);
        }
    }

    /// Counts the milliseconds of a rest.
    pub(crate) fn pass(&mut self, millis: u64)
        ensures { self.new ≡ passed millis self.old }
    {
        self.rested = self.rested.saturating_add(millis);
        self.since = self.since.saturating_add(millis);
        self.silent = self.silent.saturating_add(millis);
    }

    /// Returns the clock of a turn of a host that makes clocks, after an input at time `last`.
    fn next_clock(&self, clocks: &[i64], last: i64) -> Next
        ensures { result ≡ made_by clocks.now last self.now }
    {
        let job = job_clock(clocks, self.place, last);
        Next {
            clock: clock_for(job, &self.beat, last, self.due, self.rested),
            due: due_after(job, self.beat.every, self.due, self.rested),
            place: place_after(job, self.place),
        }
    }

    /// Returns the clock of a turn, after an input at time `last`: none while the host stands by.
    pub(crate) fn next(&self, clocks: &[i64], plan: &SharedPlan, last: i64) -> Next
        ensures { result ≡ next_of clocks.now plan.now last self.now }
    {
        if !stands_in(self.silent, plan.standby) {
            return Next {
                clock: None,
                due: self.due,
                place: self.place,
            };
        }
        self.next_clock(clocks, last)
    }
}
