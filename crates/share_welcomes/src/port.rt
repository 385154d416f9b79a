//! The port of a host in its run.

ghost use Rattle.std.specs.Prelude.{◌≡◌};
ghost use Rattle.share_turns.specs.Told.{one_more};

mod beginning;

use crate::answering::{in_two, is_plain};
use crate::front::put_message;
use crate::host_run::{Coming, HostRun};
use crate::learned::Learned;
use crate::versions::Versions;
use share_session::{Hello, Message2, encode as encode_two};
use share_turns::{Port, PortFault, RECEIVED};

/// The port of a host in its run. Above it all is in version 1. What came in version 2 is handed
/// on in version 1, if it is of the host's session, and the peer's answers are then sent in version
/// 2. A Hello to the host is answered with a Welcome at once. What isn't to the host is handed on
/// as it came, and a host takes none of it.
///
/// A send fails if the port below fails, and also if there is nothing to send: the bytes aren't a
/// datagram of version 1, or the peer is answered in version 2 and the port doesn't know the
/// input's entry, or the chain after the inputs of a piece's snapshot. It knows what it has
/// learned, and not what it has dropped: the entries of inputs that the host no longer has, and the
/// chains before them.
#[derive(Drop)]
pub struct HostPort<P> {
    port: P,
    run: HostRun,
    pub(crate) learned: Learned,
    versions: Versions,
    failed: u64,
}

impl<P> HostPort<P> {
    /// Returns the inner port.
    pub fn port(&self) -> &P
        ensures { result.now ≡ self.now.port }
    {
        &self.port
    }

    /// Returns the inner port, to be given datagrams.
    pub fn port_mut(&mut self) -> &mut P {
        &mut self.port
    }

    pub(crate) fn fail(&mut self) -> PortFault
        ensures { self.new ≡ record self.old { failed = one_more self.old.failed } }
    {
        self.failed = self.failed.saturating_add(1);
        PortFault
    }
}

impl<P: Port> HostPort<P> {
    ghost use Rattle.std.specs.Prelude.{◌≡◌, ◌≤◌, ◌∷◌, [], List, ℕ, MatchOption, MatchResult};
    ghost use Rattle.std.specs.Prelude.{OnErr, OnOk, Some, length, take, true};
    ghost use Rattle.std.specs.Option.{option_map};
    ghost use Rattle.share_session.specs.Datagram as two_bytes;
    ghost use Rattle.share_session.specs.Decoding as two;
    ghost use Rattle.share_turns.specs.Told.{Grows, counted, max_received};
    ghost use Rattle.share_turns.specs.declared.traffic.Traffic.{Traffic};
    ghost use Rattle.share_turns.specs.declared.traffic.Traffic.TheVariants.{Nothing, Received};
    ghost use Rattle.share_turns.specs.declared.traffic.Traffic.TheVariants.{Sent};
    ghost use Rattle.share_welcomes.specs.Answers.{in_two, is_plain};
    ghost use Rattle.share_welcomes.specs.Passing.{Welcomes, coming_in, handed_on, said_in};
    ghost use Rattle.share_welcomes.specs.Passing.{versions_after};
    ghost use Rattle.share_welcomes.specs.declared.host_run.Coming.TheVariants.{Greets};

    /// Sends bytes as they are.
    fn pass(&mut self, to: u16, bytes: &[u8]) -> Result<(), PortFault>
        requires { length bytes.now ≤ max_received }
        ensures ok { OnOk result (Grows (P.told self.old.port) (P.told self.new.port)
            (Sent (record { peer = to; bytes = bytes.now }) ∷ [])) }
        ensures err { OnErr result
            (Grows (P.told self.old.port) (P.told self.new.port) []) }
        ensures failures { self.new.failed ≡ counted result self.old.failed }
        ensures time { P.rested self.new.port ≡ P.rested self.old.port }
        ensures run { self.new.run ≡ self.old.run }
        ensures learned { self.new.learned ≡ self.old.learned }
        ensures versions { self.new.versions ≡ self.old.versions }
    {
        match self.port.send(to, bytes) {
            Ok(()) => Ok(()),
            Err(_failed) => Err(self.fail()),
        }
    }

    /// Sends these bytes of version 1 in version 2.
    fn send_two(&mut self, to: u16, bytes: &[u8]) -> Result<(), PortFault>
        requires { length bytes.now ≤ max_received }
        ensures ok { OnOk result ((text : List ℕ)
            × (option_map two_bytes.datagram (in_two self.old.run self.old.learned bytes.now)
            ≡ Some text)
            × (said_in self.old.run text (two.decoded text) ≡ bytes.now ∷ [])
            × Grows (P.told self.old.port) (P.told self.new.port)
            (Sent (record { peer = to; bytes = text }) ∷ [])) }
        ensures err { OnErr result
            (Grows (P.told self.old.port) (P.told self.new.port) []) }
        ensures failures { self.new.failed ≡ counted result self.old.failed }
        ensures time { P.rested self.new.port ≡ P.rested self.old.port }
        ensures run { self.new.run ≡ self.old.run }
        ensures learned { self.new.learned ≡ self.old.learned }
        ensures versions { self.new.versions ≡ self.old.versions }
    {
        match in_two(&self.run, &self.learned, bytes) {
            Some(packet) => self.pass(to, packet.as_slice()),
            None => Err(self.fail()),
        }
    }

    /// Sends these bytes as they are, unless they are of version 2.
    fn send_one(&mut self, to: u16, bytes: &[u8]) -> Result<(), PortFault>
        requires { length bytes.now ≤ max_received }
        ensures ok { OnOk result ((is_plain bytes.now ≡ true)
            × Grows (P.told self.old.port) (P.told self.new.port)
            (Sent (record { peer = to; bytes = bytes.now }) ∷ [])) }
        ensures err { OnErr result
            (Grows (P.told self.old.port) (P.told self.new.port) []) }
        ensures failures { self.new.failed ≡ counted result self.old.failed }
        ensures time { P.rested self.new.port ≡ P.rested self.old.port }
        ensures run { self.new.run ≡ self.old.run }
        ensures learned { self.new.learned ≡ self.old.learned }
        ensures versions { self.new.versions ≡ self.old.versions }
    {
        if is_plain(bytes) {
            self.pass(to, bytes)
        } else {
            Err(self.fail())
        }
    }

    /// Receives bytes as they come.
    fn fetch(&mut self, into: &mut [u8; RECEIVED]) -> Result<Option<(u16, usize)>, PortFault>
        ensures got { MatchResult result
            (λ came. MatchOption came
            (Grows (P.told self.old.port) (P.told self.new.port) (Nothing ∷ []))
            (λ r. (r.1 ≤ max_received) × Grows (P.told self.old.port) (P.told self.new.port)
            (Received (record { peer = r.0; bytes = take r.1 into.new }) ∷ [])))
            (λ _. Grows (P.told self.old.port) (P.told self.new.port) []) }
        ensures failures { self.new.failed ≡ counted result self.old.failed }
        ensures time { P.rested self.new.port ≡ P.rested self.old.port }
        ensures run { self.new.run ≡ self.old.run }
        ensures learned { self.new.learned ≡ self.old.learned }
        ensures versions { self.new.versions ≡ self.old.versions }
    {
        match self.port.receive(into) {
            Ok(came) => Ok(came),
            Err(_failed) => Err(self.fail()),
        }
    }

    /// Answers a Hello. The port below may lose the Welcome.
    fn greet(&mut self, from: u16, hello: &Hello)
        ensures told { (sent : List Traffic)
            × Welcomes self.old.run self.old.learned from (Greets hello.now) sent
            × Grows (P.told self.old.port) (P.told self.new.port) sent }
        ensures failed { self.new.failed ≡ self.old.failed }
        ensures time { P.rested self.new.port ≡ P.rested self.old.port }
        ensures run { self.new.run ≡ self.old.run }
        ensures learned { self.new.learned ≡ self.old.learned }
        ensures versions { self.new.versions ≡ self.old.versions }
    {
        let kept = self.learned.boot(hello.who.get());
        let welcome = Message2::Welcome(self.run.welcome(hello, kept));
        let _lost = self.port.send(from, encode_two(&welcome).as_slice());
    }

    /// Takes a datagram that came, whose bytes are at the front of `into`. Returns the number of
    /// bytes that are handed on, which are then at the front.
    fn take(&mut self, from: u16, count: usize, into: &mut [u8; RECEIVED]) -> usize
        requires { count ≤ max_received }
        ensures most { result ≤ max_received }
        ensures front { take result into.new ≡ handed_on self.old.run (take count into.old) }
        ensures told { (sent : List Traffic)
            × Welcomes self.old.run self.old.learned from
            (coming_in self.old.run (take count into.old)) sent
            × Grows (P.told self.old.port) (P.told self.new.port) sent }
        ensures failed { self.new.failed ≡ self.old.failed }
        ensures time { P.rested self.new.port ≡ P.rested self.old.port }
        ensures run { self.new.run ≡ self.old.run }
        ensures learned { self.new.learned ≡ self.old.learned }
        ensures versions { self.new.versions ≡ versions_after
            (coming_in self.old.run (take count into.old)) from self.old.versions }
    {
        match self.run.coming(&into[..count]) {
            Coming::Plain => {
                self.versions.note(from, false);
                count
            }
            Coming::Heard(message) => {
                self.versions.note(from, true);
                put_message(into, &message)
            }
            Coming::Greets(hello) => {
                self.greet(from, &hello);
                count
            }
            Coming::Strange => count,
        }
    }
}

impl<P: Port> Port for HostPort<P> {
    ghost use Rattle.std.specs.Prelude.{◌≡◌, ◌≤◌, ◌∷◌, [], List, ℕ, MatchOption, MatchResult};
    ghost use Rattle.std.specs.Prelude.{OnErr, OnOk, Some, length, take};
    ghost use Rattle.share_turns.specs.Told.{Grows, counted, max_received};
    ghost use Rattle.share_turns.specs.declared.traffic.Traffic.TheVariants.{Nothing, Received};
    ghost use Rattle.share_turns.specs.declared.traffic.Traffic.TheVariants.{Sent};
    ghost use Rattle.share_welcomes.specs.Answers.{sent_as};
    ghost use Rattle.share_welcomes.specs.Passing.{IsHandedOn, told_in_one};
    ghost use Rattle.share_welcomes.specs.Versions.{is_two};

    ghost told = { λ p. told_in_one p.run (P.told p.port) };

    ghost failure_count = { λ p. p.failed };

    ghost rested = { λ p. P.rested p.port };

    fn send(&mut self, to: u16, bytes: &[u8]) -> Result<(), PortFault>
        requires { length bytes.now ≤ max_received }
        ensures ok { OnOk result (Grows (told_in_one self.old.run (P.told self.old.port))
            (told_in_one self.new.run (P.told self.new.port))
            (Sent (record { peer = to; bytes = bytes.now }) ∷ [])) }
        ensures err { OnErr result (Grows (told_in_one self.old.run (P.told self.old.port))
            (told_in_one self.new.run (P.told self.new.port)) []) }
        ensures failures { self.new.failed ≡ counted result self.old.failed }
        ensures time { P.rested self.new.port ≡ P.rested self.old.port }
        // What is sent below, in the version of the peer.
        ensures sent { OnOk result ((text : List ℕ)
            × (sent_as (is_two self.old.versions to) self.old.run self.old.learned bytes.now
            ≡ Some text) × Grows (P.told self.old.port) (P.told self.new.port)
            (Sent (record { peer = to; bytes = text }) ∷ [])) }
        ensures unsent { OnErr result
            (Grows (P.told self.old.port) (P.told self.new.port) []) }
        ensures run { self.new.run ≡ self.old.run }
        ensures learned { self.new.learned ≡ self.old.learned }
        ensures versions { self.new.versions ≡ self.old.versions }
    {
        if self.versions.is_two(to) {
            self.send_two(to, bytes)
        } else {
            self.send_one(to, bytes)
        }
    }

    fn receive(&mut self, into: &mut [u8; RECEIVED]) -> Result<Option<(u16, usize)>, PortFault>
        ensures got { MatchResult result
            (λ came. MatchOption came
            (Grows (told_in_one self.old.run (P.told self.old.port))
            (told_in_one self.new.run (P.told self.new.port)) (Nothing ∷ []))
            (λ r. (r.1 ≤ max_received)
            × Grows (told_in_one self.old.run (P.told self.old.port))
            (told_in_one self.new.run (P.told self.new.port))
            (Received (record { peer = r.0; bytes = take r.1 into.new }) ∷ [])))
            (λ _. Grows (told_in_one self.old.run (P.told self.old.port))
            (told_in_one self.new.run (P.told self.new.port)) []) }
        ensures failures { self.new.failed ≡ counted result self.old.failed }
        ensures time { P.rested self.new.port ≡ P.rested self.old.port }
        // What came below, and the Welcome that was sent for it.
        ensures came { MatchResult result
            (λ came. MatchOption came (self.new.versions ≡ self.old.versions)
            (λ r. IsHandedOn self.old.run self.old.learned r.0 (take r.1 into.new)
            (P.told self.old.port) (P.told self.new.port) self.old.versions self.new.versions))
            (λ _. self.new.versions ≡ self.old.versions) }
        ensures run { self.new.run ≡ self.old.run }
        ensures learned { self.new.learned ≡ self.old.learned }
    {
        match self.fetch(into) {
            Ok(Some((from, count))) => {
                let count = self.take(from, count, into);
                Ok(Some((from, count)))
            }
            Ok(None) => Ok(None),
            Err(fault) => Err(fault),
        }
    }

    fn failures(&self) -> u64 {
        self.failed
    }

    fn rest(&mut self, is_new: bool) -> u64 {
        self.port.rest(is_new)
    }

    fn wait(&mut self, millis: u32) {
        self.port.wait(millis);
    }
}
