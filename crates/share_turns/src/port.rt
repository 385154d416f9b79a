//! A port that sends and receives datagrams.

ghost use Rattle.std.specs.Prelude.{◌≡◌, ◌≤◌, ◌+◌, ℕ, List, [], ◌∷◌, Option, None, take, length};
ghost use Rattle.std.specs.Prelude.{OnOk, OnErr, MatchResult, MatchOption};
ghost use Rattle.share_turns.specs.Told.{Grows, counted, max_received};
ghost use Rattle.share_turns.specs.declared.traffic.Traffic.{Traffic};
ghost use Rattle.share_turns.specs.declared.traffic.Traffic.TheVariants.{Nothing, Received, Sent};

use thiserror::Error;

/// The number of bytes of a datagram that are received: one more than a packet of version 2 has
/// room for, so that a longer one is noticed.
pub const RECEIVED: usize = 289;

/// A send or a receive failed.
#[derive(Clone, Copy, Debug, PartialEq, Eq, Error)]
#[error("the port failed")]
pub struct PortFault;

/// A port that sends and receives datagrams, and never blocks to receive one. A peer is its port
/// number on 127.0.0.1.
pub trait Port {
    // What passed, in order, if the port records it.
    ghost told: { Self → Option (List Traffic) } = { λ _. None };

    // The number of sends and receives that failed, up to 2^64 - 1.
    ghost failure_count: { Self → ℕ };

    // The milliseconds that passed from its first rest to its last, as the port counts them.
    ghost rested: { Self → ℕ } = { λ _. 0 };

    /// Sends a datagram of at most 289 bytes to a peer. A datagram that finds no room on the way is
    /// lost; that isn't a failure.
    fn send(&mut self, to: u16, bytes: &[u8]) -> Result<(), PortFault>
        requires { length bytes.now ≤ max_received }
        ensures ok { OnOk result (Grows (told self.old) (told self.new)
            (Sent (record { peer = to; bytes = bytes.now }) ∷ [])) }
        ensures err { OnErr result (Grows (told self.old) (told self.new) []) }
        ensures failures { failure_count self.new ≡ counted result (failure_count self.old) }
        ensures time { rested self.new ≡ rested self.old };

    /// Receives a datagram, if one arrived. Returns its peer and its number of bytes, which are at
    /// the front of `into`. Of a datagram of more than 289 bytes, the first 289 are received.
    fn receive(&mut self, into: &mut [u8; RECEIVED]) -> Result<Option<(u16, usize)>, PortFault>
        ensures got { MatchResult result
            (λ came. MatchOption came (Grows (told self.old) (told self.new) (Nothing ∷ []))
            (λ r. (r.1 ≤ max_received) × Grows (told self.old) (told self.new)
            (Received (record { peer = r.0; bytes = take r.1 into.new }) ∷ [])))
            (λ _. Grows (told self.old) (told self.new) []) }
        ensures failures { failure_count self.new ≡ counted result (failure_count self.old) }
        ensures time { rested self.new ≡ rested self.old };

    /// Returns the number of sends and receives that failed, up to 2^64 - 1.
    fn failures(&self) -> u64
        ensures { result ≡ failure_count self.now };

    /// Called between two turns, with whether the last turn brought something new. A port may wait
    /// here until a datagram arrives or some time has passed. Returns the milliseconds that passed
    /// since its last rest, as the port counts them; 0 at the first. Nothing is recorded, and
    /// nothing fails. The default returns 0 at once.
    fn rest(&mut self, _is_new: bool) -> u64
        ensures told { told self.new ≡ told self.old }
        ensures count { failure_count self.new ≡ failure_count self.old }
        ensures time { rested self.new ≡ rested self.old + result }
    {
        0
    }

    /// Waits until a datagram arrives, which `receive` then receives, or until `_millis`
    /// milliseconds have passed, at least 1. Nothing is recorded, and nothing fails. The default
    /// returns at once.
    fn wait(&mut self, _millis: u32)
        ensures told { told self.new ≡ told self.old }
        ensures count { failure_count self.new ≡ failure_count self.old }
        ensures time { rested self.new ≡ rested self.old }
    {}
}
