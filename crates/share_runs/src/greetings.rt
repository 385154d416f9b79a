//! What a viewer in a run says to its host besides what its world says.

ghost use Rattle.std.specs.Prelude.{◌≡◌, Some, None, if◌then◌else◌};
ghost use Rattle.share_turns.specs.Told.{one_more};
ghost use Rattle.share_runs.specs.Greetings as spec;

use crate::arrival::{Arrival, ArrivalEvent, MAX_AGE, after_event, is_own, is_taken, later};
use share_session::{Hello, Message2, Session, Welcome, session_of};

/// The time after which a viewer that heard nothing says Hello again, in milliseconds.
pub const PAUSE: u32 = 1_000;

/// What a viewer knows of its run, and when it said Hello.
#[derive(Clone, Copy)]
pub struct Greetings {
    pub arrival: Arrival,
    /// A secret, by which further nonces are made.
    pub seed: [u8; 32],
    /// The time since the last Hello, in milliseconds, at most `MAX_SILENCE`.
    pub since: u32,
    /// Whether a Welcome brought a cookie that no Hello has brought back.
    pub owes: bool,
    /// How many datagrams of other runs came, up to 2^64 - 1.
    pub others: u64,
}

/// Returns the nonce after another. Without the secret it can't be known from earlier ones.
pub fn next_nonce(seed: &[u8; 32], nonce: &[u8; 16]) -> [u8; 16]
    ensures { result ≡ spec.next_nonce seed.now nonce.now }
{
    session_of(seed, nonce)
}

fn hello_with(hello: &Hello, cookie: &[u8; 8]) -> Hello
    ensures { result ≡ spec.hello_with hello.now cookie.now }
{
    let mut made = *hello;
    let cookie = *cookie;
    made.cookie = cookie;
    made
}

/// Returns what a viewer knows of its run, with the cookie that its next Hello brings back.
pub fn with_cookie(arrival: &Arrival, cookie: &[u8; 8]) -> Arrival
    ensures { result ≡ spec.with_cookie arrival.now cookie.now }
{
    let hello = hello_with(&arrival.hello, cookie);
    let mut made = *arrival;
    made.hello = hello;
    made
}

fn is_of_own(arrival: &Arrival, welcome: &Welcome) -> bool
    ensures { result ≡ spec.is_of_own arrival.now welcome.now }
{
    is_taken(arrival, welcome) && is_own(&arrival.run, &welcome.run)
}

fn is_new_cookie(arrival: &Arrival, welcome: &Welcome) -> bool
    ensures { result ≡ spec.is_new_cookie arrival.now welcome.now }
{
    is_of_own(arrival, welcome) && welcome.cookie != arrival.hello.cookie
}

fn welcomed_in(arrival: &Arrival, welcome: &Welcome) -> Arrival
    ensures { result ≡ spec.welcomed_in arrival.now welcome.now }
{
    let made = after_event(arrival, &ArrivalEvent::Welcomed(*welcome));
    if is_of_own(arrival, welcome) {
        with_cookie(&made, &welcome.cookie)
    } else {
        made
    }
}

impl Greetings {
    ghost use Rattle.std.specs.Prelude.{◌≡◌, Some, None, if◌then◌else◌};
    ghost use Rattle.std.specs.Prelude.{◌||◌};
    ghost use Rattle.share_runs.specs.Arrival.{after_event};
    ghost use Rattle.share_runs.specs.declared.arrival.ArrivalEvent.TheVariants as event;
    ghost use Rattle.share_runs.specs.Greetings as spec;

    fn hear(&mut self)
        ensures { self.new ≡ spec.with_arrival self.old
            (after_event self.old.arrival event.Heard) }
    {
        self.arrival = after_event(&self.arrival, &ArrivalEvent::Heard);
    }

    fn welcome(&mut self, welcome: &Welcome)
        ensures { self.new ≡ record self.old {
          arrival = spec.welcomed_in self.old.arrival welcome.now;
          owes = self.old.owes || spec.is_new_cookie self.old.arrival welcome.now;
        } }
    {
        let owes = is_new_cookie(&self.arrival, welcome);
        self.owes = self.owes || owes;
        self.arrival = welcomed_in(&self.arrival, welcome);
    }

    /// Takes a message, as a viewer in this session: one of another session is counted, and one of
    /// its own, or a Welcome to its last Hello, is noted.
    pub(crate) fn heed(&mut self, session: &Session, message: &Message2)
        ensures { self.new ≡ spec.heeded session.now self.old message.now }
    {
        match message {
            Message2::Said(other, _) => {
                if *other == *session {
                    self.hear();
                } else {
                    self.others = self.others.saturating_add(1);
                }
            }
            Message2::Hello(_) => {}
            Message2::Welcome(welcome) => self.welcome(welcome),
        }
    }

    /// Notes that this many milliseconds passed.
    pub(crate) fn pass(&mut self, millis: u32)
        ensures { self.new ≡ spec.elapsed self.old millis }
    {
        self.arrival = after_event(&self.arrival, &ArrivalEvent::Passed(millis));
        self.since = later(self.since, millis);
    }

    fn is_hello_due(&self) -> bool
        ensures { result ≡ spec.is_hello_due self.now }
    {
        self.owes || (self.since >= PAUSE && self.arrival.silence >= PAUSE)
    }

    fn renewed(&self) -> Arrival
        ensures { result ≡ spec.renewed self.now }
    {
        if self.arrival.age >= MAX_AGE {
            let nonce = next_nonce(&self.seed, &self.arrival.hello.nonce);
            after_event(&self.arrival, &ArrivalEvent::Drawn(nonce))
        } else {
            self.arrival
        }
    }

    /// Returns the Hello that the viewer says now, if one is due.
    pub(crate) fn greet(&mut self) -> Option<Hello>
        ensures hello { result ≡ spec.hello_due self.old }
        ensures state { self.new ≡ spec.after_greeting self.old }
    {
        if !self.is_hello_due() {
            return None;
        }
        let arrival = self.renewed();
        let hello = arrival.hello;
        self.arrival = arrival;
        self.since = 0;
        self.owes = false;
        Some(hello)
    }
}
