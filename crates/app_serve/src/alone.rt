//! A log that no other process has: that of a file.

ghost use Rattle.std.specs.Prelude.{IsTrue};

use crate::basing::NextBase;
use crate::end::End;
use crate::files::LogDisk;
use crate::serving::Serving;
use crate::stack::Stack;
use crate::world::Ahead;
use app_logs::{
    Beat, FileLog, Head, Log, LoggedFault, LoggedHost, clock_for, due_after, first_due,
};
use share_logged::logged_turn;

/// The log of a file, and which clocks its world makes.
#[derive(Drop)]
pub struct Alone {
    pub log: FileLog<LogDisk>,
    pub head: Head,
    /// The base that the log gets next, if one is ready.
    pub next: Option<NextBase>,
    /// How many inputs the log had when its next base was last seen to.
    pub based: u64,
    /// How many clocks of the job were numbered.
    taken: u64,
    /// The time of the last input when it was opened, in microseconds.
    base: i64,
    /// When the next clock of its beat is due, in milliseconds that its rests took.
    due: u64,
}

/// Runs a turn over the ports of a world.
fn turn_over<L: Log>(
    hosting: LoggedHost,
    clock: Option<i64>,
    keep: Option<u64>,
    log: &mut L,
    stack: &mut Stack,
) -> Result<LoggedHost, LoggedFault>
    requires { IsTrue (L.is_open log.old) }
{
    match stack {
        Stack::Open(port) => logged_turn(hosting, clock, keep, log, port),
        Stack::Keyed(port) => logged_turn(hosting, clock, keep, log, port),
    }
}

/// Runs a turn over the ports of a world, if its log takes appends.
fn stored_turn<L: Log>(
    hosting: LoggedHost,
    clock: Option<i64>,
    keep: Option<u64>,
    log: &mut L,
    stack: &mut Stack,
) -> Result<LoggedHost, End> {
    if !log.takes_appends() {
        drop(hosting);
        return Err(End::InDoubt);
    }
    match turn_over(hosting, clock, keep, log, stack) {
        Ok(hosting) => Ok(hosting),
        Err(fault) => Err(End::from(fault)),
    }
}

/// Returns the clock at a place, if there is one.
fn clock_at(clocks: &[i64], place: u64) -> Option<i64> {
    clocks.get(place as usize).copied()
}

impl Alone {
    /// Returns the log of a file with this head, whose last input has this time, in microseconds.
    pub fn new(log: FileLog<LogDisk>, head: Head, last: i64, every: Option<u32>) -> Alone {
        Alone {
            log,
            head,
            next: None,
            based: 0,
            taken: 0,
            base: last,
            due: first_due(every),
        }
    }

    /// Returns how many inputs the log has, with those below its base.
    pub fn inputs(&self) -> u64 {
        self.log.start().below.saturating_add(self.log.len())
    }

    /// Reports whether clocks of the job are left.
    pub fn has_clocks(&self, clocks: &[i64]) -> bool {
        self.taken < clocks.len() as u64
    }

    /// Returns in how many milliseconds the next clock of the beat is due, after rests that took
    /// this many, if it has one.
    pub fn beat(&self, every: Option<u32>, rested: u64) -> Option<u64> {
        every?;
        Some(self.due.saturating_sub(rested))
    }

    /// Takes the next clock of the job or of the beat, if one is due.
    fn next_clock(
        &mut self,
        clocks: &[i64],
        serving: &Serving,
        hosting: &LoggedHost,
    ) -> Option<i64> {
        let beat = Beat {
            every: serving.every,
            base: self.base,
        };
        let job = clock_at(clocks, self.taken);
        let clock = clock_for(job, &beat, hosting.last(), self.due, hosting.rested());
        self.due = due_after(job, serving.every, self.due, hosting.rested());
        self.taken = self.taken.saturating_add(1);
        clock
    }

    /// Runs a turn.
    pub fn turn(
        &mut self,
        hosting: LoggedHost,
        ahead: &Ahead<'_>,
        stack: &mut Stack,
    ) -> Result<LoggedHost, End> {
        let clock = if ahead.makes {
            self.next_clock(ahead.clocks, ahead.serving, &hosting)
        } else {
            None
        };
        stored_turn(hosting, clock, ahead.serving.keep, &mut self.log, stack)
    }
}
