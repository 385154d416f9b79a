//! The port of a world.

ghost use Rattle.std.specs.Prelude.{◌≡◌, ◌≤◌, [], IfOk, length, take};
ghost use Rattle.share_turns.specs.Told.{max_received};
ghost use Rattle.share_worlds.specs.Ports as spec;

use crate::queue::{Parcel, Queue};
use share_guards::Placed;
use share_logged::Learns;
use share_peers::Addresses;
use share_turns::{Bytes, Port, PortFault, RECEIVED};
use std::alloc::{AllocError, Global};
use std::net::SocketAddr;

/// How many datagrams wait for a world at most.
const MOST_WAITING: usize = 64;

/// How many datagrams of a world wait to leave at most.
const MOST_LEAVING: usize = 256;

/// The tag of a Welcome, and its place in a datagram.
const WELCOME: u8 = 8;

const TAG: usize = 5;

/// The port of a world, over two queues: it receives what arrived, and what is sent leaves, both in
/// order. A peer is the number of its address. Datagrams beyond the limits of the queues are lost,
/// and counted.
#[derive(Drop)]
pub struct WorldPort {
    addresses: Addresses,
    inbox: Queue,
    outbox: Queue,
    lost: u64,
    /// The milliseconds that passed since the last rest.
    passed: u64,
    rested: u64,
}

/// Returns how many addresses of peers a world of this many viewers keeps: two for each, as one may
/// come again from another address, and 8.
fn kept_of(viewers: u8) -> u16
    ensures { result ≡ spec.kept_of viewers }
{
    8 + 2 * u16::from(viewers)
}

/// Returns how many peers a world of this many viewers has at most: those whose addresses are kept,
/// and one for each datagram that waits.
pub fn peers_of(viewers: u8) -> u16
    ensures { result ≡ spec.peers_of viewers }
{
    kept_of(viewers) + 64
}

/// Copies the bytes to the front of `into`, and returns their number.
fn copy_front(into: &mut [u8; RECEIVED], bytes: &[u8]) -> usize
    requires { length bytes.now ≤ max_received }
    ensures count { result ≡ length bytes.now }
    ensures front { take (length bytes.now) into.new ≡ bytes.now }
{
    into[..bytes.len()].copy_from_slice(bytes);
    bytes.len()
}

impl WorldPort {
    ghost use Rattle.std.specs.Prelude.{◌≡◌, ◌≤◌, ◌==◌, ◌+◌, ◌++◌, ◌^◌, ◌-◌, [], IfNone, IfOk, length, min};
    ghost use Rattle.std.specs.Prelude.{None, nat_lt, option_to_list, not, ℕ};
    ghost use Rattle.share_peers.specs.Table.{address_at, count_of, most_kept};
    ghost use Rattle.share_turns.specs.Told.{max_received};
    ghost use Rattle.share_worlds.specs.Ports as spec;
    ghost use Rattle.share_worlds.specs.Queues.{parcel as a_parcel};

    /// Returns the port of a world of this many viewers, which nothing passed. Fails if memory is
    /// refused.
    pub fn new(alloc: Global, viewers: u8) -> Result<WorldPort, AllocError>
        ensures inbox { IfOk result (λ p. p.inbox ≡ []) }
        ensures outbox { IfOk result (λ p. p.outbox ≡ []) }
        ensures lost { IfOk result (λ p. p.lost ≡ 0) }
        ensures passed { IfOk result (λ p. p.passed ≡ 0) }
        ensures rested { IfOk result (λ p. p.rested ≡ 0) }
        ensures unknown { IfOk result
            (λ p. (n : ℕ) → address_at p.addresses.addresses n ≡ None) }
        ensures count { IfOk result (λ p. count_of p.addresses ≡ spec.peers_of viewers) }
        ensures most { IfOk result (λ p. most_kept p.addresses ≡ spec.kept_of viewers) }
    {
        let addresses = Addresses::new(alloc, peers_of(viewers), kept_of(viewers))?;
        Ok(WorldPort {
            addresses,
            inbox: Queue::new(alloc),
            outbox: Queue::new(alloc),
            lost: 0,
            passed: 0,
            rested: 0,
        })
    }

    /// Reports whether datagrams arrived that weren't received yet.
    pub fn has_arrived(&self) -> bool
        ensures { result ≡ not (length self.now.inbox == 0) }
    {
        !self.inbox.is_empty()
    }

    /// Reports whether another datagram that arrives isn't lost, unless memory is refused.
    pub fn has_room(&self) -> bool
        ensures { result ≡ nat_lt (length self.now.inbox) spec.most_waiting }
    {
        self.inbox.has_room(MOST_WAITING)
    }

    /// Returns how many datagrams were lost, up to 2^64 - 1.
    pub fn lost(&self) -> u64
        ensures { result ≡ self.now.lost }
    {
        self.lost
    }

    /// Adds a datagram of at most 289 bytes to those that will be received, if fewer than 64 are.
    pub fn arrive(&mut self, from: SocketAddr, bytes: &[u8])
        requires { length bytes.now ≤ max_received }
        ensures put { spec.IsPut spec.most_waiting (a_parcel from bytes.now) self.old.inbox
            self.new.inbox self.old.lost self.new.lost }
        ensures kept { self.new ≡ record self.old {
          inbox = self.new.inbox;
          lost = self.new.lost;
        } }
    {
        let parcel = Parcel {
            address: from,
            bytes: Bytes::from_slice(bytes),
        };
        if !self.inbox.push(parcel, MOST_WAITING) {
            self.lost = self.lost.saturating_add(1);
        }
    }

    /// Takes the oldest datagram that was sent, and the address that it goes to.
    pub fn leave(&mut self) -> Option<Parcel>
        ensures taken { self.old.outbox ≡ option_to_list result ++ self.new.outbox }
        ensures none { IfNone result (self.old.outbox ≡ []) }
        ensures kept { self.new ≡ record self.old { outbox = self.new.outbox } }
    {
        self.outbox.pop()
    }

    /// Lets milliseconds pass, which the next rest returns.
    pub fn pass(&mut self, millis: u64)
        ensures { self.new
            ≡ record self.old { passed = min (self.old.passed + millis) (2 ^ 64 - 1) } }
    {
        self.passed = self.passed.saturating_add(millis);
    }

    /// Adds a datagram to those that leave.
    fn post(&mut self, address: SocketAddr, bytes: &[u8])
        requires { length bytes.now ≤ max_received }
        ensures put { spec.IsPut spec.most_leaving (a_parcel address bytes.now) self.old.outbox
            self.new.outbox self.old.lost self.new.lost }
        ensures kept { self.new ≡ record self.old {
          outbox = self.new.outbox;
          lost = self.new.lost;
        } }
    {
        let parcel = Parcel {
            address,
            bytes: Bytes::from_slice(bytes),
        };
        if !self.outbox.push(parcel, MOST_LEAVING) {
            self.lost = self.lost.saturating_add(1);
        }
    }
}

impl Placed for WorldPort {
    ghost use Rattle.share_peers.specs.Table.{address_at};

    ghost place_of = { λ p peer. address_at p.addresses.addresses peer };

    fn place(&self, peer: u16) -> Option<SocketAddr> {
        self.addresses.address_of(peer)
    }
}

impl Port for WorldPort {
    ghost use Rattle.std.specs.Prelude.{◌≡◌, ◌≤◌, ◌+◌, ◌∷◌, [], MatchOption, MatchResult};
    ghost use Rattle.std.specs.Prelude.{OnErr, OnOk, length, take};
    ghost use Rattle.share_peers.specs.Table.{address_at};
    ghost use Rattle.share_turns.specs.Told.{Grows, counted, max_received};
    ghost use Rattle.share_turns.specs.declared.traffic.Traffic.TheVariants.{Nothing, Received};
    ghost use Rattle.share_turns.specs.declared.traffic.Traffic.TheVariants.{Sent};
    ghost use Rattle.share_worlds.specs.Ports as spec;

    ghost told = { λ _. spec.no_record };

    ghost failure_count = { λ _. spec.no_failures };

    ghost rested = { λ p. p.rested };

    fn send(&mut self, to: u16, bytes: &[u8]) -> Result<(), PortFault>
        requires { length bytes.now ≤ max_received }
        ensures ok { OnOk result (Grows spec.no_record spec.no_record
            (Sent (record { peer = to; bytes = bytes.now }) ∷ [])) }
        ensures err { OnErr result (Grows spec.no_record spec.no_record []) }
        ensures failures { spec.no_failures ≡ counted result spec.no_failures }
        ensures time { self.new.rested ≡ self.old.rested }
        // What is sent waits to leave, after what was sent before.
        ensures posted { spec.IsPosted (address_at self.old.addresses.addresses to) bytes.now
            self.old.outbox self.new.outbox self.old.lost self.new.lost }
        ensures inbox { self.new.inbox ≡ self.old.inbox }
    {
        let Some(address) = self.addresses.address_of(to) else {
            return Ok(());
        };
        if bytes.get(TAG) != Some(&WELCOME) {
            self.addresses.keep(to);
        }
        self.post(address, bytes);
        Ok(())
    }

    fn receive(&mut self, into: &mut [u8; RECEIVED]) -> Result<Option<(u16, usize)>, PortFault>
        ensures got { MatchResult result
            (λ came. MatchOption came (Grows spec.no_record spec.no_record (Nothing ∷ []))
            (λ r. (r.1 ≤ max_received) × Grows spec.no_record spec.no_record
            (Received (record { peer = r.0; bytes = take r.1 into.new }) ∷ [])))
            (λ _. Grows spec.no_record spec.no_record []) }
        ensures failures { spec.no_failures ≡ counted result spec.no_failures }
        ensures time { self.new.rested ≡ self.old.rested }
        // What is received is the oldest that arrived.
        ensures taken { spec.IsTaken result into.new self.old.inbox self.new.inbox
            self.old.addresses self.new.addresses.addresses }
        ensures outbox { self.new.outbox ≡ self.old.outbox }
    {
        let Some(parcel) = self.inbox.pop() else {
            return Ok(None);
        };
        let Some(peer) = self.addresses.number_of(parcel.address) else {
            return Ok(None);
        };
        let count = copy_front(into, parcel.bytes.as_slice());
        Ok(Some((peer, count)))
    }

    fn failures(&self) -> u64 {
        0
    }

    fn rest(&mut self, _is_new: bool) -> u64
        ensures told { spec.no_record ≡ spec.no_record }
        ensures count { spec.no_failures ≡ spec.no_failures }
        ensures time { self.new.rested ≡ self.old.rested + result }
        ensures rest { result ≡ spec.rest_of self.old.passed self.old.rested }
        ensures kept { self.new ≡ record self.old {
          passed = 0;
          rested = self.old.rested + result;
        } }
    {
        let millis = self.passed.min(u64::MAX - self.rested);
        self.rested += millis;
        self.passed = 0;
        millis
    }
}

impl Learns for WorldPort {}
