//! The port of a host with keys.

ghost use Rattle.std.specs.Prelude.{◌≡◌, ℕ, IfOk, None, length};
ghost use Rattle.share_turns.specs.Told.{one_more};
ghost use Rattle.share_sealed.specs.Speakers.{who_at};
ghost use Rattle.share_sealed.specs.Passing.{no_wrongs};

use crate::coming::{Coming, Wrongs};
use crate::speakers::Speakers;
use share_keys::{Direction, Key, Keys, opened, sealed};
use share_turns::{Port, PortFault, RECEIVED};
use std::alloc::{AllocError, Global};

/// How many bytes a seal has.
const SEAL: usize = 16;

/// The port of a host with keys, over a port of sealed datagrams. It hands on a datagram without
/// its seal, if the seal is by the key of the viewer that the datagram says it is of. Any other is
/// counted and changes nothing else; a receive takes at most 64 of those in a row. What is sent to
/// a peer is sealed by the key of the viewer that the peer was last heard to be.
///
/// A send fails if the port below fails, if the peer never brought a right seal or has no place, or
/// if there is no room for the seal: at more than 273 bytes.
#[derive(Drop)]
pub struct KeyedPort<P> {
    port: P,
    keys: Keys,
    speakers: Speakers,
    wrongs: Wrongs,
    failed: u64,
}

impl<P: Drop> KeyedPort<P> {
    /// Returns the port of a host with these keys. Only peers whose numbers are below `peers` have a
    /// place. Fails if memory is refused.
    pub fn new(alloc: Global, port: P, peers: usize, keys: Keys) -> Result<KeyedPort<P>, AllocError>
        ensures port { IfOk result (λ p. p.port ≡ port) }
        ensures keys { IfOk result (λ p. p.keys ≡ keys) }
        ensures unheard { IfOk result (λ p. (peer : ℕ) → who_at p.speakers peer ≡ None) }
        ensures peers { IfOk result (λ p. length p.speakers ≡ peers) }
        ensures wrongs { IfOk result (λ p. p.wrongs ≡ no_wrongs) }
        ensures failures { IfOk result (λ p. p.failed ≡ 0) }
    {
        let speakers = Speakers::unheard(alloc, peers)?;
        Ok(KeyedPort {
            port,
            keys,
            speakers,
            wrongs: Wrongs::none(),
            failed: 0,
        })
    }
}

impl<P> KeyedPort<P> {
    ghost use Rattle.std.specs.Prelude.{◌≡◌, length};
    ghost use Rattle.share_keys.specs.Claims.{opened_in};
    ghost use Rattle.share_turns.specs.Told.{one_more};
    ghost use Rattle.share_sealed.specs.Passing as spec;
    ghost use Rattle.share_sealed.specs.Speakers.{key_to};

    /// Returns the inner port.
    pub fn port(&self) -> &P
        ensures { result.now ≡ self.now.port }
    {
        &self.port
    }

    /// Returns the inner port, to be given datagrams.
    pub fn port_mut(&mut self) -> &mut P {
        &mut self.port
    }

    /// Returns how many datagrams without a right seal came, up to 2^64 - 1.
    pub fn dropped(&self) -> u64
        ensures { result ≡ self.now.wrongs.all }
    {
        self.wrongs.all()
    }

    fn fail(&mut self) -> PortFault
        ensures { self.new ≡ record self.old { failed = one_more self.old.failed } }
    {
        self.failed = self.failed.saturating_add(1);
        PortFault
    }

    fn key_to(&self, peer: u16) -> Option<Key>
        ensures { result ≡ key_to self.now.keys self.now.speakers peer }
    {
        self.keys.get(self.speakers.who(peer)?)
    }

    /// Takes the bytes of a datagram.
    fn take(&mut self, from: u16, bytes: &[u8]) -> Coming
        ensures value { result ≡ spec.coming_opened self.old.wrongs.row from
            (spec.host_opens self.old.keys bytes.now) }
        ensures new { self.new ≡ record self.old {
          speakers = spec.heard from (opened_in self.old.keys bytes.now) self.old.speakers;
          wrongs = spec.wrongs_opened self.old.wrongs (spec.host_opens self.old.keys bytes.now);
        } }
    {
        match opened(&self.keys, bytes) {
            Some((who, datagram)) => {
                self.speakers.note(from, who);
                self.wrongs.end_row();
                Coming::Handed(from, datagram.len())
            }
            None => self.wrongs.count(),
        }
    }
}

impl<P: Port> KeyedPort<P> {
    ghost use Rattle.std.specs.Prelude.{◌≡◌, ◌≤◌, ◌<◌, ◌+◌, [], IfOk, IfSome, OnErr, OnOk};
    ghost use Rattle.std.specs.Prelude.{Ok, Some, length};
    ghost use Rattle.share_keys.specs.declared.sealing.Direction.TheVariants.{FromHost};
    ghost use Rattle.share_turns.specs.Told.{Grows, counted, max_received};
    ghost use Rattle.share_sealed.specs.Passing as spec;
    ghost use Rattle.share_sealed.specs.declared.coming.Coming.TheVariants.{Wrong};

    /// Receives a datagram from below.
    fn receive_one(&mut self, into: &mut [u8; RECEIVED]) -> Result<Coming, PortFault>
        ensures passes { spec.HostPasses self.old.keys self.old.wrongs self.new.wrongs
            (P.told self.old.port) (P.told self.new.port) (spec.handed_of into.new result)
            self.old.speakers self.new.speakers }
        ensures most { IfOk result (λ came. spec.MostBytes came) }
        // A row of wrong datagrams grows, and has an end.
        ensures wrong { result ≡ Ok Wrong → self.old.wrongs.row < 63
            × (self.new.wrongs.row ≡ self.old.wrongs.row + 1) }
        ensures keys { self.new.keys ≡ self.old.keys }
        ensures failures { self.new.failed ≡ counted result self.old.failed }
        ensures below { P.failure_count self.new.port
            ≡ counted result (P.failure_count self.old.port) }
        ensures time { P.rested self.new.port ≡ P.rested self.old.port }
    {
        match self.port.receive(into) {
            Ok(Some((from, count))) => Ok(self.take(from, &into[..count])),
            Ok(None) => {
                self.wrongs.end_row();
                Ok(Coming::Nothing)
            }
            Err(_failed) => Err(self.fail()),
        }
    }

    /// Receives datagrams from below until one is handed on, nothing arrives, or as many as one
    /// receive takes had no right seal.
    fn receive_next(&mut self, into: &mut [u8; RECEIVED]) -> Result<Option<(u16, usize)>, PortFault>
        ensures passes { spec.HostPasses self.old.keys self.old.wrongs self.new.wrongs
            (P.told self.old.port) (P.told self.new.port) (spec.handed_in into.new result)
            self.old.speakers self.new.speakers }
        ensures most { IfOk result (λ came. IfSome came (λ r. r.1 ≤ max_received)) }
        ensures keys { self.new.keys ≡ self.old.keys }
        ensures failures { self.new.failed ≡ counted result self.old.failed }
        ensures below { P.failure_count self.new.port
            ≡ counted result (P.failure_count self.old.port) }
        ensures time { P.rested self.new.port ≡ P.rested self.old.port }
    {
        match self.receive_one(into) {
            Ok(Coming::Handed(from, count)) => Ok(Some((from, count))),
            Ok(Coming::Nothing) => Ok(None),
            Ok(Coming::Wrong) => self.receive_next(into),
            Err(fault) => Err(fault),
        }
    }

    /// Sends a datagram with its seal.
    fn send_sealed(&mut self, to: u16, key: &Key, bytes: &[u8]) -> Result<(), PortFault>
        requires { length bytes.now + 16 ≤ max_received }
        ensures ok { OnOk result (Grows (P.told self.old.port) (P.told self.new.port)
            (spec.sealed_to to key.now.bytes FromHost bytes.now)) }
        ensures err { OnErr result
            (Grows (P.told self.old.port) (P.told self.new.port) []) }
        ensures failures { self.new.failed ≡ counted result self.old.failed }
        ensures below { P.failure_count self.new.port
            ≡ counted result (P.failure_count self.old.port) }
        ensures time { P.rested self.new.port ≡ P.rested self.old.port }
        ensures keys { self.new.keys ≡ self.old.keys }
        ensures speakers { self.new.speakers ≡ self.old.speakers }
        ensures wrongs { self.new.wrongs ≡ self.old.wrongs }
    {
        let mut packet = [0; RECEIVED];
        let count = sealed(key, Direction::FromHost, bytes, &mut packet);
        match self.port.send(to, &packet[..count]) {
            Ok(()) => Ok(()),
            Err(_failed) => Err(self.fail()),
        }
    }
}

impl<P: Port> Port for KeyedPort<P> {
    ghost use Rattle.std.specs.Prelude.{◌≡◌, ◌≤◌, ◌+◌, ◌∷◌, [], MatchOption, MatchResult};
    ghost use Rattle.std.specs.Prelude.{OnErr, OnOk, Some, length, take};
    ghost use Rattle.share_keys.specs.declared.sealing.Direction.TheVariants.{FromHost};
    ghost use Rattle.share_keys.specs.declared.sealing.Key.{Key as AKey};
    ghost use Rattle.share_turns.specs.Told.{Grows, counted, max_received};
    ghost use Rattle.share_turns.specs.declared.traffic.Traffic.TheVariants.{Nothing, Received};
    ghost use Rattle.share_turns.specs.declared.traffic.Traffic.TheVariants.{Sent};
    ghost use Rattle.share_sealed.specs.Passing as spec;
    ghost use Rattle.share_sealed.specs.Speakers.{key_to};

    ghost told = { λ p. spec.host_told p.keys p.wrongs (P.told p.port) };

    ghost failure_count = { λ p. p.failed };

    ghost rested = { λ p. P.rested p.port };

    fn send(&mut self, to: u16, bytes: &[u8]) -> Result<(), PortFault>
        requires { length bytes.now ≤ max_received }
        ensures ok { OnOk result
            (Grows (spec.host_told self.old.keys self.old.wrongs (P.told self.old.port))
            (spec.host_told self.new.keys self.new.wrongs (P.told self.new.port))
            (Sent (record { peer = to; bytes = bytes.now }) ∷ [])) }
        ensures err { OnErr result
            (Grows (spec.host_told self.old.keys self.old.wrongs (P.told self.old.port))
            (spec.host_told self.new.keys self.new.wrongs (P.told self.new.port))
            []) }
        ensures failures { self.new.failed ≡ counted result self.old.failed }
        ensures time { P.rested self.new.port ≡ P.rested self.old.port }
        // What is sent below, by the key of the viewer that the peer was last heard to be.
        ensures sent { OnOk result ((key : AKey)
            × (key_to self.old.keys self.old.speakers to ≡ Some key)
            × Grows (P.told self.old.port) (P.told self.new.port)
            (spec.sealed_to to key.bytes FromHost bytes.now)) }
        ensures unsent { OnErr result
            (Grows (P.told self.old.port) (P.told self.new.port) []) }
        // It fails only if it isn't given to the port below, or if that one fails.
        ensures below { P.failure_count self.new.port
            ≡ spec.counted_if (spec.host_sends self.old.keys self.old.speakers to bytes.now)
            result (P.failure_count self.old.port) }
        ensures keys { self.new.keys ≡ self.old.keys }
        ensures speakers { self.new.speakers ≡ self.old.speakers }
        ensures wrongs { self.new.wrongs ≡ self.old.wrongs }
    {
        let Some(key) = self.key_to(to) else {
            return Err(self.fail());
        };
        if bytes.len() > RECEIVED - SEAL {
            return Err(self.fail());
        }
        self.send_sealed(to, &key, bytes)
    }

    fn receive(&mut self, into: &mut [u8; RECEIVED]) -> Result<Option<(u16, usize)>, PortFault>
        ensures got { MatchResult result
            (λ came. MatchOption came
            (Grows (spec.host_told self.old.keys self.old.wrongs (P.told self.old.port))
            (spec.host_told self.new.keys self.new.wrongs (P.told self.new.port))
            (Nothing ∷ []))
            (λ r. (r.1 ≤ max_received)
            × Grows (spec.host_told self.old.keys self.old.wrongs (P.told self.old.port))
            (spec.host_told self.new.keys self.new.wrongs (P.told self.new.port))
            (Received (record { peer = r.0; bytes = take r.1 into.new }) ∷ [])))
            (λ _. Grows (spec.host_told self.old.keys self.old.wrongs (P.told self.old.port))
            (spec.host_told self.new.keys self.new.wrongs (P.told self.new.port)) []) }
        ensures failures { self.new.failed ≡ counted result self.old.failed }
        ensures below { P.failure_count self.new.port
            ≡ counted result (P.failure_count self.old.port) }
        ensures time { P.rested self.new.port ≡ P.rested self.old.port }
        // What came below, and who was heard.
        ensures passes { spec.HostPasses self.old.keys self.old.wrongs self.new.wrongs
            (P.told self.old.port) (P.told self.new.port) (spec.handed_in into.new result)
            self.old.speakers self.new.speakers }
        ensures keys { self.new.keys ≡ self.old.keys }
    {
        self.receive_next(into)
    }

    fn failures(&self) -> u64 {
        self.failed
    }

    fn rest(&mut self, is_new: bool) -> u64
        ensures told { spec.host_told self.new.keys self.new.wrongs (P.told self.new.port)
            ≡ spec.host_told self.old.keys self.old.wrongs (P.told self.old.port) }
        ensures count { self.new.failed ≡ self.old.failed }
        ensures time { P.rested self.new.port ≡ P.rested self.old.port + result }
        ensures keys { self.new.keys ≡ self.old.keys }
        ensures speakers { self.new.speakers ≡ self.old.speakers }
        ensures wrongs { self.new.wrongs ≡ self.old.wrongs }
    {
        self.port.rest(is_new)
    }

    fn wait(&mut self, millis: u32)
        ensures told { spec.host_told self.new.keys self.new.wrongs (P.told self.new.port)
            ≡ spec.host_told self.old.keys self.old.wrongs (P.told self.old.port) }
        ensures count { self.new.failed ≡ self.old.failed }
        ensures time { P.rested self.new.port ≡ P.rested self.old.port }
        ensures keys { self.new.keys ≡ self.old.keys }
        ensures speakers { self.new.speakers ≡ self.old.speakers }
        ensures wrongs { self.new.wrongs ≡ self.old.wrongs }
    {
        self.port.wait(millis);
    }
}
