//! The port of a viewer with its key.

ghost use Rattle.std.specs.Prelude.{◌≡◌};

use crate::coming::{Coming, Wrongs};
use share_keys::{Direction, Key, sealed, unsealed};
use share_turns::{Port, PortFault, RECEIVED};

/// How many bytes a seal has.
const SEAL: usize = 16;

/// The port of a viewer with a key, over a port of sealed datagrams. It hands on a datagram without
/// its seal, if the seal is by the viewer's key and of the direction from the host. Any other is
/// counted and changes nothing else; a receive takes at most 64 of those in a row. What is sent is
/// sealed by the viewer's key.
///
/// A send fails if the port below fails, or if there is no room for the seal: at more than 273
/// bytes.
#[derive(Drop)]
pub struct SealedPort<P> {
    port: P,
    key: Key,
    wrongs: Wrongs,
    failed: u64,
}

impl<P> SealedPort<P> {
    ghost use Rattle.std.specs.Prelude.{◌≡◌};
    ghost use Rattle.share_turns.specs.Told.{one_more};
    ghost use Rattle.share_sealed.specs.Passing as spec;
    ghost use Rattle.share_sealed.specs.Passing.{no_wrongs};

    /// Returns the port of a viewer with this key.
    pub fn new(port: P, key: Key) -> SealedPort<P>
        ensures { result ≡ record { port = port; key = key; wrongs = no_wrongs; failed = 0 } }
    {
        SealedPort {
            port,
            key,
            wrongs: Wrongs::none(),
            failed: 0,
        }
    }

    /// Returns the inner port.
    pub fn port(&self) -> &P
        ensures { result.now ≡ self.now.port }
    {
        &self.port
    }

    /// Returns how many datagrams without a right seal came, up to 2^64 - 1.
    pub fn dropped(&self) -> u64
        ensures { result ≡ self.now.wrongs.all }
    {
        self.wrongs.all()
    }

    fn fail(&mut self) -> PortFault
        ensures { self.new ≡ record self.old { failed = one_more self.old.failed } }
    {
        self.failed = self.failed.saturating_add(1);
        PortFault
    }

    /// Takes the bytes of a datagram.
    fn take(&mut self, from: u16, bytes: &[u8]) -> Coming
        ensures value { result ≡ spec.coming_opened self.old.wrongs.row from
            (spec.viewer_opens self.old.key.bytes bytes.now) }
        ensures new { self.new ≡ record self.old {
          wrongs =
              spec.wrongs_opened self.old.wrongs (spec.viewer_opens self.old.key.bytes bytes.now);
        } }
    {
        match unsealed(&self.key, Direction::FromHost, bytes) {
            Some(datagram) => {
                self.wrongs.end_row();
                Coming::Handed(from, datagram.len())
            }
            None => self.wrongs.count(),
        }
    }
}

impl<P: Port> SealedPort<P> {
    ghost use Rattle.std.specs.Prelude.{◌≡◌, ◌≤◌, ◌<◌, ◌+◌, [], IfOk, IfSome, OnErr, OnOk};
    ghost use Rattle.std.specs.Prelude.{Ok, Some, length};
    ghost use Rattle.share_keys.specs.declared.sealing.Direction.TheVariants.{ToHost};
    ghost use Rattle.share_turns.specs.Told.{Grows, counted, max_received};
    ghost use Rattle.share_sealed.specs.Passing as spec;
    ghost use Rattle.share_sealed.specs.declared.coming.Coming.TheVariants.{Wrong};

    /// Receives a datagram from below.
    fn receive_one(&mut self, into: &mut [u8; RECEIVED]) -> Result<Coming, PortFault>
        ensures passes { spec.ViewerPasses self.old.key.bytes self.old.wrongs self.new.wrongs
            (P.told self.old.port) (P.told self.new.port) (spec.handed_of into.new result) }
        ensures most { IfOk result (λ came. spec.MostBytes came) }
        // A row of wrong datagrams grows, and has an end.
        ensures wrong { result ≡ Ok Wrong → self.old.wrongs.row < 63
            × (self.new.wrongs.row ≡ self.old.wrongs.row + 1) }
        ensures key { self.new.key ≡ self.old.key }
        ensures failures { self.new.failed ≡ counted result self.old.failed }
        ensures below { P.failure_count self.new.port
            ≡ counted result (P.failure_count self.old.port) }
        ensures time { P.rested self.new.port ≡ P.rested self.old.port }
    {
        match self.port.receive(into) {
            Ok(Some((from, count))) => Ok(self.take(from, &into[..count])),
            Ok(None) => {
                self.wrongs.end_row();
                Ok(Coming::Nothing)
            }
            Err(_failed) => Err(self.fail()),
        }
    }

    /// Receives datagrams from below until one is handed on, nothing arrives, or as many as one
    /// receive takes had no right seal.
    fn receive_next(&mut self, into: &mut [u8; RECEIVED]) -> Result<Option<(u16, usize)>, PortFault>
        ensures passes { spec.ViewerPasses self.old.key.bytes self.old.wrongs self.new.wrongs
            (P.told self.old.port) (P.told self.new.port) (spec.handed_in into.new result) }
        ensures most { IfOk result (λ came. IfSome came (λ r. r.1 ≤ max_received)) }
        ensures key { self.new.key ≡ self.old.key }
        ensures failures { self.new.failed ≡ counted result self.old.failed }
        ensures below { P.failure_count self.new.port
            ≡ counted result (P.failure_count self.old.port) }
        ensures time { P.rested self.new.port ≡ P.rested self.old.port }
    {
        match self.receive_one(into) {
            Ok(Coming::Handed(from, count)) => Ok(Some((from, count))),
            Ok(Coming::Nothing) => Ok(None),
            Ok(Coming::Wrong) => self.receive_next(into),
            Err(fault) => Err(fault),
        }
    }

    /// Sends a datagram with its seal.
    fn send_sealed(&mut self, to: u16, bytes: &[u8]) -> Result<(), PortFault>
        requires { length bytes.now + 16 ≤ max_received }
        ensures ok { OnOk result (Grows (P.told self.old.port) (P.told self.new.port)
            (spec.sealed_to to self.old.key.bytes ToHost bytes.now)) }
        ensures err { OnErr result
            (Grows (P.told self.old.port) (P.told self.new.port) []) }
        ensures failures { self.new.failed ≡ counted result self.old.failed }
        ensures below { P.failure_count self.new.port
            ≡ counted result (P.failure_count self.old.port) }
        ensures time { P.rested self.new.port ≡ P.rested self.old.port }
        ensures key { self.new.key ≡ self.old.key }
        ensures wrongs { self.new.wrongs ≡ self.old.wrongs }
    {
        let mut packet = [0; RECEIVED];
        let count = sealed(&self.key, Direction::ToHost, bytes, &mut packet);
        match self.port.send(to, &packet[..count]) {
            Ok(()) => Ok(()),
            Err(_failed) => Err(self.fail()),
        }
    }
}

impl<P: Port> Port for SealedPort<P> {
    ghost use Rattle.std.specs.Prelude.{◌≡◌, ◌≤◌, ◌+◌, ◌∷◌, [], MatchOption, MatchResult};
    ghost use Rattle.std.specs.Prelude.{OnErr, OnOk, Some, length, take};
    ghost use Rattle.share_keys.specs.declared.sealing.Direction.TheVariants.{ToHost};
    ghost use Rattle.share_turns.specs.Told.{Grows, counted, max_received};
    ghost use Rattle.share_turns.specs.declared.traffic.Traffic.TheVariants.{Nothing, Received};
    ghost use Rattle.share_turns.specs.declared.traffic.Traffic.TheVariants.{Sent};
    ghost use Rattle.share_sealed.specs.Passing as spec;

    ghost told = { λ p. spec.viewer_told p.key.bytes p.wrongs (P.told p.port) };

    ghost failure_count = { λ p. p.failed };

    ghost rested = { λ p. P.rested p.port };

    fn send(&mut self, to: u16, bytes: &[u8]) -> Result<(), PortFault>
        requires { length bytes.now ≤ max_received }
        ensures ok { OnOk result
            (Grows (spec.viewer_told self.old.key.bytes self.old.wrongs (P.told self.old.port))
            (spec.viewer_told self.new.key.bytes self.new.wrongs (P.told self.new.port))
            (Sent (record { peer = to; bytes = bytes.now }) ∷ [])) }
        ensures err { OnErr result
            (Grows (spec.viewer_told self.old.key.bytes self.old.wrongs (P.told self.old.port))
            (spec.viewer_told self.new.key.bytes self.new.wrongs (P.told self.new.port))
            []) }
        ensures failures { self.new.failed ≡ counted result self.old.failed }
        ensures time { P.rested self.new.port ≡ P.rested self.old.port }
        // What is sent below.
        ensures sent { OnOk result (Grows (P.told self.old.port) (P.told self.new.port)
            (spec.sealed_to to self.old.key.bytes ToHost bytes.now)) }
        ensures unsent { OnErr result
            (Grows (P.told self.old.port) (P.told self.new.port) []) }
        // It fails only if it isn't given to the port below, or if that one fails.
        ensures below { P.failure_count self.new.port
            ≡ spec.counted_if (spec.has_room bytes.now)
            result (P.failure_count self.old.port) }
        ensures key { self.new.key ≡ self.old.key }
        ensures wrongs { self.new.wrongs ≡ self.old.wrongs }
    {
        if bytes.len() > RECEIVED - SEAL {
            return Err(self.fail());
        }
        self.send_sealed(to, bytes)
    }

    fn receive(&mut self, into: &mut [u8; RECEIVED]) -> Result<Option<(u16, usize)>, PortFault>
        ensures got { MatchResult result
            (λ came. MatchOption came
            (Grows (spec.viewer_told self.old.key.bytes self.old.wrongs (P.told self.old.port))
            (spec.viewer_told self.new.key.bytes self.new.wrongs (P.told self.new.port))
            (Nothing ∷ []))
            (λ r. (r.1 ≤ max_received)
            × Grows (spec.viewer_told self.old.key.bytes self.old.wrongs (P.told self.old.port))
            (spec.viewer_told self.new.key.bytes self.new.wrongs (P.told self.new.port))
            (Received (record { peer = r.0; bytes = take r.1 into.new }) ∷ [])))
            (λ _. Grows (spec.viewer_told self.old.key.bytes self.old.wrongs (P.told self.old.port))
            (spec.viewer_told self.new.key.bytes self.new.wrongs (P.told self.new.port)) []) }
        ensures failures { self.new.failed ≡ counted result self.old.failed }
        ensures below { P.failure_count self.new.port
            ≡ counted result (P.failure_count self.old.port) }
        ensures time { P.rested self.new.port ≡ P.rested self.old.port }
        // What came below.
        ensures passes { spec.ViewerPasses self.old.key.bytes self.old.wrongs self.new.wrongs
            (P.told self.old.port) (P.told self.new.port) (spec.handed_in into.new result) }
        ensures key { self.new.key ≡ self.old.key }
    {
        self.receive_next(into)
    }

    fn failures(&self) -> u64 {
        self.failed
    }

    fn rest(&mut self, is_new: bool) -> u64
        ensures told { spec.viewer_told self.new.key.bytes self.new.wrongs (P.told self.new.port)
            ≡ spec.viewer_told self.old.key.bytes self.old.wrongs (P.told self.old.port) }
        ensures count { self.new.failed ≡ self.old.failed }
        ensures time { P.rested self.new.port ≡ P.rested self.old.port + result }
        ensures key { self.new.key ≡ self.old.key }
        ensures wrongs { self.new.wrongs ≡ self.old.wrongs }
    {
        self.port.rest(is_new)
    }

    fn wait(&mut self, millis: u32)
        ensures told { spec.viewer_told self.new.key.bytes self.new.wrongs (P.told self.new.port)
            ≡ spec.viewer_told self.old.key.bytes self.old.wrongs (P.told self.old.port) }
        ensures count { self.new.failed ≡ self.old.failed }
        ensures time { P.rested self.new.port ≡ P.rested self.old.port }
        ensures key { self.new.key ≡ self.old.key }
        ensures wrongs { self.new.wrongs ≡ self.old.wrongs }
    {
        self.port.wait(millis);
    }
}
