//! A host's port that answers strangers with no more bytes than they sent.

ghost use Rattle.std.specs.Prelude.{◌≡◌, IfOk, length};
ghost use Rattle.share_cookies.specs.Secrets.{begun};
ghost use Rattle.share_guards.specs.Laws.{IsNew};
ghost use Rattle.share_guards.specs.Passing as spec;
ghost use Rattle.share_guards.specs.Seats.{no_seats};

use crate::coming::Coming;
use crate::guard::Guard;
use crate::kind::{kind_of, welcome_of};
use crate::placed::Placed;
use crate::welcoming::{packet_of, welcome_at};
use share_cookies::Secret;
use share_session::Welcome;
use share_turns::{Port, PortFault, RECEIVED};
use std::alloc::{AllocError, Global};
use std::net::SocketAddr;

/// How many dropped datagrams one receive takes at most. So a flood of them doesn't keep a turn
/// from its end.
const MOST_DROPPED: u32 = 64;

/// The port of a host, over a port that knows the addresses of its peers. An address is known once
/// a Hello brought back the cookie that a Welcome to it had. From known addresses it hands on asks
/// and offers, of each seat within the limits of `Seats`, and from all of them each Hello. Anything
/// else is counted and dropped; a receive takes at most 64 of those in a row.
///
/// To known addresses it sends anything, and a Welcome with the cookie of its address. To another
/// one it sends one Welcome for each Hello, of no more bytes than that. Any other send fails, and a
/// send fails if the port below fails.
#[derive(Drop)]
pub struct GuardedPort<P> {
    port: P,
    guard: Guard,
    failed: u64,
}

impl<P: Drop> GuardedPort<P> {
    /// Returns the port of a host that knows no address. Only peers whose numbers are below
    /// `peers` become known. The secret and the seed are drawn at random. Fails if memory is
    /// refused.
    pub fn new(
        alloc: Global,
        port: P,
        peers: usize,
        secret: Secret,
        seed: Secret,
    ) -> Result<GuardedPort<P>, AllocError>
        ensures port { IfOk result (λ p. p.port ≡ port) }
        ensures new { IfOk result (λ p. IsNew p.guard) }
        ensures peers { IfOk result (λ p. length p.guard.known ≡ peers) }
        ensures secrets { IfOk result (λ p. p.guard.secrets ≡ begun secret) }
        ensures seed { IfOk result (λ p. p.guard.seed ≡ seed) }
        ensures seats { IfOk result (λ p. p.guard.seats ≡ no_seats) }
        ensures dropped { IfOk result (λ p. p.guard.dropped ≡ 0) }
        ensures failures { IfOk result (λ p. p.failed ≡ 0) }
    {
        let guard = Guard::new(alloc, peers, secret, seed)?;
        Ok(GuardedPort {
            port,
            guard,
            failed: 0,
        })
    }
}

impl<P> GuardedPort<P> {
    ghost use Rattle.std.specs.Prelude.{◌≡◌};
    ghost use Rattle.share_turns.specs.Told.{one_more};

    /// Returns the inner port.
    pub fn port(&self) -> &P
        ensures { result.now ≡ self.now.port }
    {
        &self.port
    }

    /// Returns the inner port, to be given datagrams.
    pub fn port_mut(&mut self) -> &mut P {
        &mut self.port
    }

    /// Returns how many datagrams were dropped, up to 2^64 - 1.
    pub fn dropped(&self) -> u64
        ensures { result ≡ self.now.guard.dropped }
    {
        self.guard.dropped()
    }

    fn fail(&mut self) -> PortFault
        ensures { self.new ≡ record self.old { failed = one_more self.old.failed } }
    {
        self.failed = self.failed.saturating_add(1);
        PortFault
    }
}

impl<P: Placed> GuardedPort<P> {
    ghost use Rattle.std.specs.Prelude.{◌≡◌, length};
    ghost use Rattle.share_session.specs.Decoding.{decoded};
    ghost use Rattle.share_guards.specs.Guard.{after_came};
    ghost use Rattle.share_guards.specs.Kinds.{kind_in};
    ghost use Rattle.share_guards.specs.Passing as spec;

    /// Takes the bytes of a datagram.
    fn take(&mut self, from: u16, bytes: &[u8]) -> Coming
        ensures value { result ≡ spec.coming_at self.old.guard from
            (P.place_of self.old.port from) bytes.now }
        ensures new { self.new ≡ record self.old {
          guard = after_came self.old.guard from (P.place_of self.old.port from)
              (kind_in (decoded bytes.now)) (length bytes.now);
        } }
    {
        let place = self.port.place(from);
        if self.guard.came(from, &place, &kind_of(bytes), bytes.len()) {
            Coming::Handed(from, bytes.len())
        } else {
            Coming::Dropped
        }
    }
}

impl<P: Port + Placed> GuardedPort<P> {
    ghost use Rattle.std.specs.Prelude.{◌≡◌, ◌≤◌, ◌<◌, ◌+◌, ◌∷◌, [], IfOk, IfSome, OnErr, OnOk};
    ghost use Rattle.std.specs.Prelude.{Ok, Some, length, true};
    ghost use Rattle.share_turns.specs.Told.{Grows, counted, max_received};
    ghost use Rattle.share_turns.specs.declared.traffic.Traffic.TheVariants.{Sent};
    ghost use Rattle.share_sealed.specs.Passing.{counted_if};
    ghost use Rattle.share_guards.specs.Guard.{after_sending, allows};
    ghost use Rattle.share_guards.specs.Passing as spec;

    /// Receives a datagram from below.
    fn receive_one(&mut self, into: &mut [u8; RECEIVED]) -> Result<Coming, PortFault>
        ensures guard { spec.ComesOne P.told P.place_of
            (spec.moment self.old.guard self.old.port) (spec.moment self.new.guard self.new.port)
            into.new result }
        ensures most { IfOk result (λ came. spec.MostBytes came) }
        ensures failures { self.new.failed ≡ counted result self.old.failed }
        ensures below { P.failure_count self.new.port
            ≡ counted result (P.failure_count self.old.port) }
        ensures time { P.rested self.new.port ≡ P.rested self.old.port }
    {
        match self.port.receive(into) {
            Ok(Some((from, count))) => Ok(self.take(from, &into[..count])),
            Ok(None) => Ok(Coming::Nothing),
            Err(_failed) => Err(self.fail()),
        }
    }

    /// Receives datagrams from below until one is handed on, nothing arrives, or `left` of them
    /// were dropped.
    fn receive_next(
        &mut self,
        into: &mut [u8; RECEIVED],
        left: u32,
    ) -> Result<Option<(u16, usize)>, PortFault>
        ensures guard { spec.Comes P.told P.place_of left
            (spec.moment self.old.guard self.old.port) (spec.moment self.new.guard self.new.port)
            into.new result }
        ensures most { IfOk result (λ came. IfSome came (λ r. r.1 ≤ max_received)) }
        ensures failures { self.new.failed ≡ counted result self.old.failed }
        ensures below { P.failure_count self.new.port
            ≡ counted result (P.failure_count self.old.port) }
        ensures time { P.rested self.new.port ≡ P.rested self.old.port }
    {
        if left == 0 {
            return Ok(None);
        }
        match self.receive_one(into) {
            Ok(Coming::Handed(from, count)) => Ok(Some((from, count))),
            Ok(Coming::Nothing) => Ok(None),
            Ok(Coming::Dropped) => self.receive_next(into, left - 1),
            Err(fault) => Err(fault),
        }
    }

    /// Sends a datagram if the guard allows it.
    fn pass(
        &mut self,
        to: u16,
        place: &Option<SocketAddr>,
        is_welcome: bool,
        bytes: &[u8],
    ) -> Result<(), PortFault>
        requires { length bytes.now ≤ max_received }
        ensures allowed { OnOk result
            (allows self.old.guard to place.now is_welcome (length bytes.now) ≡ true) }
        ensures sent { OnOk result (Grows (P.told self.old.port) (P.told self.new.port)
            (Sent (record { peer = to; bytes = bytes.now }) ∷ [])) }
        ensures unsent { OnErr result (Grows (P.told self.old.port) (P.told self.new.port) []) }
        // It fails only if the guard refuses it, or if the port below fails.
        ensures below { P.failure_count self.new.port
            ≡ counted_if (allows self.old.guard to place.now is_welcome (length bytes.now))
            result (P.failure_count self.old.port) }
        ensures guard { self.new.guard
            ≡ after_sending self.old.guard to place.now is_welcome (length bytes.now) }
        ensures failures { self.new.failed ≡ counted result self.old.failed }
        ensures time { P.rested self.new.port ≡ P.rested self.old.port }
    {
        if !self.guard.allows(to, place, is_welcome, bytes.len()) {
            return Err(self.fail());
        }
        match self.port.send(to, bytes) {
            Ok(()) => Ok(()),
            Err(_failed) => Err(self.fail()),
        }
    }

    /// Sends a Welcome, with the cookie of the peer's address, if the guard allows it.
    fn send_welcome(
        &mut self,
        to: u16,
        place: &Option<SocketAddr>,
        welcome: &Welcome,
    ) -> Result<(), PortFault>
        ensures sent { OnOk result (spec.IsSent self.old.guard to place.now true
            (spec.welcome_text (spec.welcome_at self.old.guard place.now welcome.now))
            (P.told self.old.port) (P.told self.new.port)) }
        ensures unsent { OnErr result (Grows (P.told self.old.port) (P.told self.new.port) []) }
        // It fails only if the guard refuses it, or if the port below fails.
        ensures below { P.failure_count self.new.port
            ≡ counted_if (allows self.old.guard to place.now true (length
            (spec.welcome_text (spec.welcome_at self.old.guard place.now welcome.now))))
            result (P.failure_count self.old.port) }
        ensures guard { self.new.guard ≡ after_sending self.old.guard to place.now true
            (length (spec.welcome_text (spec.welcome_at self.old.guard place.now welcome.now))) }
        ensures failures { self.new.failed ≡ counted result self.old.failed }
        ensures time { P.rested self.new.port ≡ P.rested self.old.port }
    {
        let packet = packet_of(&welcome_at(&self.guard, place, welcome));
        self.pass(to, place, true, packet.as_slice())
    }
}

impl<P: Port + Placed> Port for GuardedPort<P> {
    ghost use Rattle.std.specs.Prelude.{◌≡◌, ◌≤◌, ◌+◌, ◌∷◌, [], MatchOption, MatchResult};
    ghost use Rattle.std.specs.Prelude.{OnErr, OnOk, None, length, take};
    ghost use Rattle.share_turns.specs.Told.{Grows, counted, max_received};
    ghost use Rattle.share_turns.specs.declared.traffic.Traffic.TheVariants.{Nothing, Received};
    ghost use Rattle.share_turns.specs.declared.traffic.Traffic.TheVariants.{Sent};
    ghost use Rattle.share_sealed.specs.Passing.{counted_if};
    ghost use Rattle.share_guards.specs.Guard.{passed};
    ghost use Rattle.share_guards.specs.Passing as spec;

    ghost told = { λ _. spec.no_record };

    ghost failure_count = { λ p. p.failed };

    ghost rested = { λ p. P.rested p.port };

    fn send(&mut self, to: u16, bytes: &[u8]) -> Result<(), PortFault>
        requires { length bytes.now ≤ max_received }
        ensures ok { OnOk result (Grows spec.no_record spec.no_record
            (Sent (record { peer = to; bytes = bytes.now }) ∷ [])) }
        ensures err { OnErr result (Grows spec.no_record spec.no_record []) }
        ensures failures { self.new.failed ≡ counted result self.old.failed }
        ensures time { P.rested self.new.port ≡ P.rested self.old.port }
        // What is sent below is allowed, and has the cookie of the peer's address if it is a
        // Welcome.
        ensures sent { OnOk result (spec.Sends self.old.guard to (P.place_of self.old.port to)
            bytes.now (P.told self.old.port) (P.told self.new.port)) }
        ensures unsent { OnErr result (Grows (P.told self.old.port) (P.told self.new.port) []) }
        // It fails only if the guard refuses it, or if the port below fails.
        ensures below { P.failure_count self.new.port
            ≡ counted_if
            (spec.allows_bytes self.old.guard to (P.place_of self.old.port to) bytes.now)
            result (P.failure_count self.old.port) }
        ensures guard { self.new.guard
            ≡ spec.after_send self.old.guard to (P.place_of self.old.port to) bytes.now }
    {
        let place = self.port.place(to);
        match welcome_of(bytes) {
            Some(welcome) => self.send_welcome(to, &place, &welcome),
            None => self.pass(to, &place, false, bytes),
        }
    }

    fn receive(&mut self, into: &mut [u8; RECEIVED]) -> Result<Option<(u16, usize)>, PortFault>
        ensures got { MatchResult result
            (λ came. MatchOption came (Grows spec.no_record spec.no_record (Nothing ∷ []))
            (λ r. (r.1 ≤ max_received) × Grows spec.no_record spec.no_record
            (Received (record { peer = r.0; bytes = take r.1 into.new }) ∷ [])))
            (λ _. Grows spec.no_record spec.no_record []) }
        ensures failures { self.new.failed ≡ counted result self.old.failed }
        ensures below { P.failure_count self.new.port
            ≡ counted result (P.failure_count self.old.port) }
        ensures time { P.rested self.new.port ≡ P.rested self.old.port }
        // What is handed on came below, and the guard took it; what came before it was refused. If
        // nothing is handed on, nothing arrived below in the end, or 64 were refused.
        ensures guard { spec.Comes P.told P.place_of MOST_DROPPED
            (spec.moment self.old.guard self.old.port) (spec.moment self.new.guard self.new.port)
            into.new result }
    {
        self.receive_next(into, MOST_DROPPED)
    }

    fn failures(&self) -> u64 {
        self.failed
    }

    fn rest(&mut self, is_new: bool) -> u64
        ensures told { spec.no_record ≡ spec.no_record }
        ensures count { self.new.failed ≡ self.old.failed }
        ensures time { P.rested self.new.port ≡ P.rested self.old.port + result }
        ensures guard { self.new.guard ≡ passed self.old.guard result }
    {
        let millis = self.port.rest(is_new);
        self.guard.pass(millis);
        millis
    }

    fn wait(&mut self, millis: u32)
        ensures told { spec.no_record ≡ spec.no_record }
        ensures count { self.new.failed ≡ self.old.failed }
        ensures time { P.rested self.new.port ≡ P.rested self.old.port }
        ensures guard { self.new.guard ≡ self.old.guard }
    {
        self.port.wait(millis);
    }
}
