//! The port of a viewer that speaks to one of several hosts of its world.

ghost use Rattle.std.specs.Prelude.{◌≡◌};
ghost use Rattle.app_commands.specs.Turning.{is_silent, next_place};

use crate::rests::millis_at;
use share_turns::{Port, PortFault, RECEIVED};
use std::time::Clock;

/// How many milliseconds a host is silent before the next is turned to.
const PATIENCE: u64 = 2_000;

/// A port whose first host stands for all: what is sent to it goes to the host that is spoken to,
/// and what a host sends comes from it. If the host that is spoken to is silent for 2 seconds, the
/// next is turned to, and after the last the first. If the clock fails, none is turned to. Its
/// contract says nothing of its traffic.
#[derive(Drop)]
pub struct HostsPort<P, C> {
    port: P,
    clock: C,
    /// The numbers of the hosts.
    hosts: Vec<u16>,
    /// The place of the one that is spoken to.
    at: usize,
    /// When it was heard last, or turned to.
    heard: Option<u64>,
}

/// Reports whether a host that was heard last at this time is silent now. Times are milliseconds.
fn is_silent(heard: Option<u64>, now: u64) -> bool
    ensures { result ≡ is_silent heard now }
{
    match heard {
        Some(heard) => now.saturating_sub(heard) >= PATIENCE,
        None => false,
    }
}

/// Returns the place after this one, of `count` places.
fn next_place(at: usize, count: usize) -> usize
    ensures { result ≡ next_place at count }
{
    if at < count && at + 1 < count {
        at + 1
    } else {
        0
    }
}

impl<P, C> HostsPort<P, C> {
    ghost use Rattle.std.specs.Prelude.{◌≡◌};

    /// Returns a port over `port` that speaks to the first of these hosts.
    pub fn new(port: P, clock: C, hosts: Vec<u16>) -> HostsPort<P, C>
        ensures { result.port ≡ port }
    {
        HostsPort {
            port,
            clock,
            hosts,
            at: 0,
            heard: None,
        }
    }

    /// Returns the inner port.
    pub fn port(&self) -> &P
        ensures { result.now ≡ self.now.port }
    {
        &self.port
    }

    /// Reports whether this is the number that stands for all hosts.
    fn stands_for_all(&self, peer: u16) -> bool {
        self.hosts.first() == Some(&peer)
    }

    /// Returns the number that a peer has for the viewer.
    fn shown(&self, from: u16) -> u16 {
        match self.hosts.first() {
            Some(first) if self.hosts.contains(&from) => *first,
            _ => from,
        }
    }
}

impl<P, C: Clock> HostsPort<P, C> {
    ghost use Rattle.std.specs.Prelude.{◌≡◌};

    /// Returns the host to speak to, the next one if the last is silent.
    fn spoken_to(&mut self, first: u16) -> u16
        ensures { self.new.port ≡ self.old.port }
    {
        if let Some(now) = millis_at(&self.clock) {
            if is_silent(self.heard, now) {
                self.at = next_place(self.at, self.hosts.len());
                self.heard = Some(now);
            }
            if self.heard.is_none() {
                self.heard = Some(now);
            }
        }
        match self.hosts.get(self.at) {
            Some(host) => *host,
            None => first,
        }
    }

    /// Notes that a peer was heard.
    fn hear(&mut self, from: u16)
        ensures { self.new.port ≡ self.old.port }
    {
        if self.hosts.get(self.at) == Some(&from)
            && let Some(now) = millis_at(&self.clock)
        {
            self.heard = Some(now);
        }
    }
}

impl<P: Port, C: Clock> Port for HostsPort<P, C> {
    ghost failure_count = { λ p. P.failure_count p.port };

    ghost rested = { λ p. P.rested p.port };

    fn send(&mut self, to: u16, bytes: &[u8]) -> Result<(), PortFault> {
        let to = if self.stands_for_all(to) {
            self.spoken_to(to)
        } else {
            to
        };
        self.port.send(to, bytes)
    }

    fn receive(&mut self, into: &mut [u8; RECEIVED]) -> Result<Option<(u16, usize)>, PortFault> {
        match self.port.receive(into)? {
            Some((from, count)) => {
                self.hear(from);
                Ok(Some((self.shown(from), count)))
            }
            None => Ok(None),
        }
    }

    fn failures(&self) -> u64 {
        self.port.failures()
    }

    fn rest(&mut self, is_new: bool) -> u64 {
        self.port.rest(is_new)
    }

    fn wait(&mut self, millis: u32) {
        self.port.wait(millis);
    }
}
