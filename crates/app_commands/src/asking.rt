//! A port that repeats an ask to a host.

ghost use Rattle.std.specs.Prelude.{◌≡◌};
ghost use Rattle.app_commands.specs.Pace.{is_reminded};

use crate::rests::millis_at;
use share_turns::{Port, PortFault, RECEIVED};
use share_wire::Packet;
use std::time::Clock;

/// A host counts a viewer that asks at least once in ten seconds; so most of these asks may be
/// lost.
const PAUSE_MILLIS: u64 = 1000;

/// A port that repeats a viewer's ask to its host about once a second, before something else is
/// sent: so the host goes on counting a viewer that gives, and keeps the inputs after its snapshot.
/// If the clock fails, it repeats nothing. Its contract says nothing of its traffic.
#[derive(Drop)]
pub struct AskingPort<P, C> {
    port: P,
    clock: C,
    host: u16,
    ask: Packet,
    asked: Option<u64>,
}

/// Reports whether an ask that was last sent at `asked` is repeated now. Times are milliseconds.
pub(crate) fn is_reminded(asked: Option<u64>, now: u64) -> bool
    ensures { result ≡ is_reminded asked now }
{
    match asked {
        Some(asked) => now.saturating_sub(asked) >= PAUSE_MILLIS,
        None => true,
    }
}

impl<P, C> AskingPort<P, C> {
    ghost use Rattle.std.specs.Prelude.{◌≡◌};

    /// Returns a port over `port` that repeats `ask` to `host`.
    pub fn new(port: P, clock: C, host: u16, ask: Packet) -> AskingPort<P, C>
        ensures { result.port ≡ port }
    {
        AskingPort {
            port,
            clock,
            host,
            ask,
            asked: None,
        }
    }

    /// Returns the inner port.
    pub fn port(&self) -> &P
        ensures { result.now ≡ self.now.port }
    {
        &self.port
    }
}

impl<P: Port, C: Clock> AskingPort<P, C> {
    ghost use Rattle.std.specs.Prelude.{◌≡◌};
    ghost use Rattle.share_turns.specs.Told.{counted};

    /// Sends the ask if it is due.
    fn remind(&mut self) -> Result<(), PortFault>
        ensures failures { P.failure_count self.new.port
            ≡ counted result (P.failure_count self.old.port) }
        ensures time { P.rested self.new.port ≡ P.rested self.old.port }
    {
        let Some(now) = millis_at(&self.clock) else {
            return Ok(());
        };
        if !is_reminded(self.asked, now) {
            return Ok(());
        }
        self.asked = Some(now);
        self.port.send(self.host, self.ask.as_slice())
    }
}

impl<P: Port, C: Clock> Port for AskingPort<P, C> {
    ghost failure_count = { λ p. P.failure_count p.port };

    ghost rested = { λ p. P.rested p.port };

    fn send(&mut self, to: u16, bytes: &[u8]) -> Result<(), PortFault> {
        self.remind()?;
        self.port.send(to, bytes)
    }

    fn receive(&mut self, into: &mut [u8; RECEIVED]) -> Result<Option<(u16, usize)>, PortFault> {
        self.port.receive(into)
    }

    fn failures(&self) -> u64 {
        self.port.failures()
    }

    fn rest(&mut self, is_new: bool) -> u64 {
        self.port.rest(is_new)
    }

    fn wait(&mut self, millis: u32) {
        self.port.wait(millis);
    }
}
