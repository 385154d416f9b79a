//! A port that counts the time from rest to rest.

ghost use Rattle.std.specs.Prelude.{◌≡◌};

use crate::rests::{Rests, millis_at};
use share_guards::Placed;
use share_turns::{Port, PortFault, RECEIVED};
use std::net::SocketAddr;
use std::time::Clock;

/// A port whose rests take the milliseconds that pass by its clock since the last one. While the
/// clock fails none do. Its contract says nothing of its traffic.
#[derive(Drop)]
pub struct TimedPort<P, C> {
    port: P,
    clock: C,
    rests: Rests,
}

impl<P, C> TimedPort<P, C> {
    ghost use Rattle.std.specs.Prelude.{◌≡◌, None};

    /// Returns a port over `port` that hasn't rested.
    pub fn new(port: P, clock: C) -> TimedPort<P, C>
        ensures port { result.port ≡ port }
        ensures rests { result.rests ≡ record { ended = None; rested = 0 } }
    {
        TimedPort {
            port,
            clock,
            rests: Rests::new(),
        }
    }

    /// Returns the inner port.
    pub fn port(&self) -> &P
        ensures { result.now ≡ self.now.port }
    {
        &self.port
    }
}

impl<P: Placed, C> Placed for TimedPort<P, C> {
    ghost place_of = { λ p peer. P.place_of p.port peer };

    fn place(&self, peer: u16) -> Option<SocketAddr> {
        self.port.place(peer)
    }
}

impl<P: Port, C: Clock> Port for TimedPort<P, C> {
    ghost failure_count = { λ p. P.failure_count p.port };

    ghost rested = { λ p. p.rests.rested };

    fn send(&mut self, to: u16, bytes: &[u8]) -> Result<(), PortFault> {
        self.port.send(to, bytes)
    }

    fn receive(&mut self, into: &mut [u8; RECEIVED]) -> Result<Option<(u16, usize)>, PortFault> {
        self.port.receive(into)
    }

    fn failures(&self) -> u64 {
        self.port.failures()
    }

    fn rest(&mut self, is_new: bool) -> u64 {
        let _inner = self.port.rest(is_new);
        let now = millis_at(&self.clock);
        self.rests.end(now)
    }

    fn wait(&mut self, millis: u32) {
        self.port.wait(millis);
    }
}
