//! A port that ignores inputs beyond a number, and snapshots with more inputs applied.

ghost use Rattle.std.specs.Prelude.{◌≡◌};
ghost use Rattle.share_wire.specs.Decoding.{decoded};
ghost use Rattle.app_commands.specs.Beyond.{body_is_beyond, count_of, is_beyond};

use share_turns::{Port, PortFault, RECEIVED};
use share_wire::{Body, decode};

/// Reports whether the bytes are a datagram of an input beyond `last`, or of a piece of a snapshot
/// with more inputs applied than `last`.
fn is_beyond(bytes: &[u8], last: u64) -> bool
    ensures { result ≡ is_beyond last (decoded bytes.now) }
{
    match decode(bytes) {
        Ok(message) => body_is_beyond(message.body, last),
        Err(_) => false,
    }
}

fn body_is_beyond(body: Body, last: u64) -> bool
    ensures { result ≡ body_is_beyond last body }
{
    match body {
        Body::Input(input) => input.number() > last,
        Body::Piece(piece) => piece.applied() > last,
        _ => false,
    }
}

/// A port that ignores inputs beyond a last one, if there is a last one, and pieces of a snapshot
/// in which more inputs are applied. It receives no byte of such a datagram. Its contract says
/// nothing of its traffic.
#[derive(Drop)]
pub struct ExactPort<P> {
    port: P,
    last: Option<u64>,
}

impl<P> ExactPort<P> {
    ghost use Rattle.std.specs.Prelude.{◌≡◌};

    /// Returns a port over `port` that ignores inputs beyond `last`, or no inputs if `last` is
    /// `None`.
    pub fn new(port: P, last: Option<u64>) -> ExactPort<P>
        ensures { result.port ≡ port }
    {
        ExactPort { port, last }
    }

    /// Returns the inner port.
    pub fn port(&self) -> &P
        ensures { result.now ≡ self.now.port }
    {
        &self.port
    }
}

/// Returns how many bytes of a datagram are received.
fn count_of(bytes: &[u8], last: Option<u64>) -> usize
    ensures { result ≡ count_of last bytes.now }
{
    match last {
        Some(last) if is_beyond(bytes, last) => 0,
        _ => bytes.len(),
    }
}

impl<P: Port> Port for ExactPort<P> {
    ghost failure_count = { λ p. P.failure_count p.port };

    ghost rested = { λ p. P.rested p.port };

    fn send(&mut self, to: u16, bytes: &[u8]) -> Result<(), PortFault> {
        self.port.send(to, bytes)
    }

    fn receive(&mut self, into: &mut [u8; RECEIVED]) -> Result<Option<(u16, usize)>, PortFault> {
        match self.port.receive(into)? {
            Some((from, count)) => Ok(Some((from, count_of(&into[..count], self.last)))),
            None => Ok(None),
        }
    }

    fn failures(&self) -> u64 {
        self.port.failures()
    }

    fn rest(&mut self, is_new: bool) -> u64 {
        self.port.rest(is_new)
    }

    fn wait(&mut self, millis: u32) {
        self.port.wait(millis);
    }
}
