//! A port that waits if nothing comes, and sends nothing again while its answer may be under way.

ghost use Rattle.std.specs.Prelude.{◌≡◌, None, false};
ghost use Rattle.app_commands.specs.Pace.{first_rest, next_rest, unsent};
ghost use Rattle.share_turns.specs.Told.{max_received};

use crate::brief::{Brief, brief_of};
use crate::pace::Pace;
use crate::rests::{Rests, millis_at};
use share_entries::Entry;
use share_logged::Learns;
use share_turns::{Port, PortFault, RECEIVED};
use std::thread;
use std::time::{Clock, Duration};

/// The shortest and the longest rest of a port, in milliseconds.
const SHORTEST: u32 = 1;

const LONGEST: u32 = 50;

/// A port that rests between turns, and holds back asks and offers.
///
/// If the turn brought something new, there is no rest if datagrams came in the turn, and a
/// millisecond if not. Otherwise the rest lasts until a datagram comes, at most twice as long as
/// the last rest and at most 50 milliseconds.
///
/// An ask or an offer is dropped, as if lost, while the answers to earlier ones may be under way.
/// So is an ask that repeats the last one before the port has rested. While answers are under way a
/// receive waits for them, at most 50 milliseconds. The port's contract says nothing of its
/// traffic. Its rests take the milliseconds that pass by its clock; while the clock fails none do.
#[derive(Drop)]
pub struct PatientPort<P, C> {
    port: P,
    clock: C,
    pace: Pace,
    rest: u32,
    came: bool,
    rests: Rests,
}

impl<P, C> PatientPort<P, C> {
    /// Returns a port over `port` that hasn't sent anything or rested.
    pub fn new(port: P, clock: C) -> PatientPort<P, C>
        ensures port { result.port ≡ port }
        ensures pace { result.pace ≡ unsent }
        ensures rest { result.rest ≡ first_rest }
        ensures came { result.came ≡ false }
        ensures rests { result.rests ≡ record { ended = None; rested = 0 } }
    {
        PatientPort {
            port,
            clock,
            pace: Pace::new(),
            rest: SHORTEST,
            came: false,
            rests: Rests::new(),
        }
    }

    /// Returns the inner port.
    pub fn port(&self) -> &P
        ensures { result.now ≡ self.now.port }
    {
        &self.port
    }

    /// Ends a turn: sets the length of its rest, and reports whether datagrams came in the turn.
    fn end_turn(&mut self, is_new: bool) -> bool
        ensures came { result ≡ self.old.came }
        ensures state { self.new
            ≡ record self.old { came = false; rest = next_rest self.old.rest is_new } }
    {
        let came = self.came;
        self.came = false;
        self.rest = next_rest(self.rest, is_new);
        came
    }
}

impl<P, C: Drop> PatientPort<P, C> {
    /// Returns the inner port, which holds nothing back.
    pub fn into_port(self) -> P
        ensures { result ≡ self.port }
    {
        self.port
    }
}

/// Returns the length of the next rest, after one of `rest` milliseconds.
fn next_rest(rest: u32, is_new: bool) -> u32
    ensures { result ≡ next_rest rest is_new }
{
    if is_new {
        SHORTEST
    } else {
        rest.saturating_mul(2).min(LONGEST)
    }
}

/// Returns the time of a clock in microseconds. If the clock fails, returns the last time there is,
/// at which no answer is under way.
fn time_of<C: Clock>(clock: &C) -> u64 {
    match clock.monotonic() {
        Ok(time) => u64::try_from(time.as_micros()).unwrap_or(u64::MAX),
        Err(_) => u64::MAX,
    }
}

/// Returns microseconds in milliseconds, rounded down, but no more than the longest rest.
fn millis_of(micros: u64) -> u32 {
    u32::try_from(micros / 1000).unwrap_or(LONGEST).min(LONGEST)
}

impl<P: Port, C: Clock> PatientPort<P, C> {
    ghost use Rattle.std.specs.Prelude.{◌≡◌, ◌≤◌, ⊤, MatchOption, MatchResult};
    ghost use Rattle.share_turns.specs.Told.{counted};

    /// Reports whether a datagram is sent now.
    fn is_due(&mut self, bytes: &[u8]) -> bool
        ensures port { self.new.port ≡ self.old.port }
        ensures time { self.new.rests ≡ self.old.rests }
    {
        let now = time_of(&self.clock);
        match brief_of(bytes) {
            Brief::Ask { next, .. } => self.pace.asks(next, now, u64::from(self.rest) * 1000),
            Brief::Offer { number, .. } => self.pace.offers(number, now),
            _ => true,
        }
    }

    /// Records a datagram that was received.
    fn take_note(&mut self, bytes: &[u8])
        ensures port { self.new.port ≡ self.old.port }
        ensures time { self.new.rests ≡ self.old.rests }
    {
        self.came = true;
        let now = time_of(&self.clock);
        match brief_of(bytes) {
            Brief::Ack { .. } => {
                self.pace.comes(now);
                self.pace.is_answered();
            }
            Brief::Input { number } => {
                self.pace.measures(number, now);
                self.pace.comes(now);
            }
            _ => {}
        }
    }

    /// Waits for answers that are under way, after a receive that got nothing.
    fn receive_late(&mut self, into: &mut [u8; RECEIVED]) -> Result<Option<(u16, usize)>, PortFault>
        ensures got { MatchResult result
            (λ came. MatchOption came ⊤ (λ r. (r.1 ≤ max_received) × ⊤)) (λ _. ⊤) }
        ensures failures { P.failure_count self.new.port
            ≡ counted result (P.failure_count self.old.port) }
        ensures time { self.new.rests ≡ self.old.rests }
    {
        let left = self.pace.left(time_of(&self.clock));
        if left == 0 {
            return Ok(None);
        }
        self.port.wait(millis_of(left));
        match self.port.receive(into)? {
            Some((from, count)) => {
                self.take_note(&into[..count]);
                Ok(Some((from, count)))
            }
            None => Ok(None),
        }
    }
}

impl<P: Port, C: Clock> Port for PatientPort<P, C> {
    ghost failure_count = { λ p. P.failure_count p.port };

    ghost rested = { λ p. p.rests.rested };

    fn send(&mut self, to: u16, bytes: &[u8]) -> Result<(), PortFault> {
        if !self.is_due(bytes) {
            return Ok(());
        }
        self.port.send(to, bytes)
    }

    fn receive(&mut self, into: &mut [u8; RECEIVED]) -> Result<Option<(u16, usize)>, PortFault> {
        match self.port.receive(into)? {
            Some((from, count)) => {
                self.take_note(&into[..count]);
                Ok(Some((from, count)))
            }
            None => self.receive_late(into),
        }
    }

    fn failures(&self) -> u64 {
        self.port.failures()
    }

    fn rest(&mut self, is_new: bool) -> u64 {
        let came = self.end_turn(is_new);
        let _inner = self.port.rest(is_new);
        if !is_new {
            self.port.wait(self.rest);
        } else if !came {
            thread::sleep(&self.clock, Duration::from_millis(u64::from(SHORTEST)));
        }
        let now = millis_at(&self.clock);
        self.rests.end(now)
    }
}

impl<P: Learns, C: Clock> Learns for PatientPort<P, C> {
    fn learn(&mut self, entries: &[Entry]) -> Result<(), PortFault> {
        self.port.learn(entries)
    }

    fn drop_below(&mut self, floor: u64) {
        self.port.drop_below(floor);
    }
}
