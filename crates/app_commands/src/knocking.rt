//! A port that asks a host for its snapshot.

ghost use Rattle.std.specs.Prelude.{◌≡◌};
ghost use Rattle.app_commands.specs.Pace.{is_knocking};

use crate::asking::is_reminded;
use crate::rests::millis_at;
use share_turns::{Port, PortFault, RECEIVED};
use share_wire::Packet;
use std::time::Clock;

/// A port that repeats a viewer's first ask to its host about once a second, before something is
/// received, until something is sent through it: so a host that gives its snapshot knows of a
/// viewer that only gathers. If the clock fails, it repeats nothing. Its contract says nothing of
/// its traffic.
#[derive(Drop)]
pub struct KnockingPort<P, C> {
    port: P,
    clock: C,
    host: u16,
    ask: Packet,
    knocks: bool,
    asked: Option<u64>,
}

/// Reports whether an ask that was last sent at `asked` is repeated now by a port that knocks or
/// doesn't. Times are milliseconds.
fn is_knocking(knocks: bool, asked: Option<u64>, now: u64) -> bool
    ensures { result ≡ is_knocking knocks asked now }
{
    knocks && is_reminded(asked, now)
}

impl<P, C> KnockingPort<P, C> {
    ghost use Rattle.std.specs.Prelude.{◌≡◌};

    /// Returns a port over `port` that repeats `ask` to `host` if `knocks`, and nothing if not.
    pub fn new(port: P, clock: C, host: u16, ask: Packet, knocks: bool) -> KnockingPort<P, C>
        ensures { result.port ≡ port }
    {
        KnockingPort {
            port,
            clock,
            host,
            ask,
            knocks,
            asked: None,
        }
    }

    /// Returns the inner port.
    pub fn port(&self) -> &P
        ensures { result.now ≡ self.now.port }
    {
        &self.port
    }
}

impl<P: Port, C: Clock> KnockingPort<P, C> {
    ghost use Rattle.std.specs.Prelude.{◌≡◌};
    ghost use Rattle.share_turns.specs.Told.{counted};

    /// Sends the ask if it is due.
    fn knock(&mut self) -> Result<(), PortFault>
        ensures failures { P.failure_count self.new.port
            ≡ counted result (P.failure_count self.old.port) }
        ensures time { P.rested self.new.port ≡ P.rested self.old.port }
    {
        let Some(now) = millis_at(&self.clock) else {
            return Ok(());
        };
        if !is_knocking(self.knocks, self.asked, now) {
            return Ok(());
        }
        self.asked = Some(now);
        self.port.send(self.host, self.ask.as_slice())
    }
}

impl<P: Port, C: Clock> Port for KnockingPort<P, C> {
    ghost failure_count = { λ p. P.failure_count p.port };

    ghost rested = { λ p. P.rested p.port };

    fn send(&mut self, to: u16, bytes: &[u8]) -> Result<(), PortFault> {
        self.knocks = false;
        self.port.send(to, bytes)
    }

    fn receive(&mut self, into: &mut [u8; RECEIVED]) -> Result<Option<(u16, usize)>, PortFault> {
        self.knock()?;
        self.port.receive(into)
    }

    fn failures(&self) -> u64 {
        self.port.failures()
    }

    fn rest(&mut self, is_new: bool) -> u64 {
        self.port.rest(is_new)
    }

    fn wait(&mut self, millis: u32) {
        self.port.wait(millis);
    }
}
