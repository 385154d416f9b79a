//! A port of a viewer in a run, over a port of datagrams of version 2.

ghost use Rattle.std.specs.Prelude.{◌≡◌, ◌≤◌, IfOk, OnOk, length, take};
ghost use Rattle.std.specs.Option.{option_map};
ghost use Rattle.share_session.specs.Decoding.{decoded};
ghost use Rattle.share_session.specs.Datagram.{datagram};
ghost use Rattle.share_runs.specs.Greetings.{heeds};
ghost use Rattle.share_turns.specs.Told.{max_received};
ghost use Rattle.share_runs.specs.Port.{IsBytesTaken, handed_in};

use crate::arrival::is_over;
use crate::greetings::Greetings;
use crate::viewer_run::ViewerRun;
use share_session::{Message2, decode, encode};
use share_turns::{MOST, Port, PortFault, RECEIVED};
use share_wire::Packet;

/// What came of a receive.
#[derive(Drop)]
pub enum Handing {
    /// Nothing arrived.
    Nothing,
    /// A datagram that isn't handed on.
    Dropped,
    /// From this peer, a datagram of version 1.
    Handed(u16, Packet),
}

/// A port of a viewer in a run. It sends and receives datagrams of version 2 of the viewer's
/// session by an inner port, and hands on and takes datagrams of version 1. It says Hello to the
/// viewer's host again if nothing was heard for a second, before something else is sent. It fails
/// once an input of another list came, or the viewer's run is over.
#[derive(Drop)]
pub struct ViewPort<P> {
    port: P,
    host: u16,
    run: ViewerRun,
    greetings: Greetings,
    failed: u64,
}

/// Takes the bytes of a datagram.
fn take_bytes(
    run: &mut ViewerRun,
    greetings: &mut Greetings,
    from: u16,
    bytes: &[u8],
) -> Option<Packet>
    ensures run { IsBytesTaken (decoded bytes.now) run.old from
        (option_map (λ p. p.items) result) run.new }
    ensures greetings { greetings.new ≡ heeds run.old.session greetings.old (decoded bytes.now) }
    ensures found { IfOk (decoded bytes.now) (λ m. bytes.now ≡ datagram m) }
{
    match decode(bytes) {
        Ok(message) => {
            greetings.heed(run.session(), &message);
            run.take(from, &message)
        }
        Err(_) => None,
    }
}

fn came_of(from: u16, packet: Option<Packet>) -> Handing
    ensures { handed_in result ≡ option_map (λ p. (from, p.items)) packet }
{
    match packet {
        Some(packet) => Handing::Handed(from, packet),
        None => Handing::Dropped,
    }
}

impl<P> ViewPort<P> {
    ghost use Rattle.std.specs.Prelude.{◌≡◌, ◌||◌};
    ghost use Rattle.share_turns.specs.Told.{one_more};
    ghost use Rattle.share_runs.specs.Arrival.{is_over};

    /// Returns a port over `port` of a viewer that was welcomed to its run by the host at the port
    /// `host`.
    pub fn new(port: P, host: u16, run: ViewerRun, greetings: Greetings) -> ViewPort<P>
        ensures { result ≡ record {
          port = port;
          host = host;
          run = run;
          greetings = greetings;
          failed = 0;
        } }
    {
        ViewPort {
            port,
            host,
            run,
            greetings,
            failed: 0,
        }
    }

    /// Returns the inner port.
    pub fn port(&self) -> &P
        ensures { result.now ≡ self.now.port }
    {
        &self.port
    }

    /// Reports whether an input of another list came.
    pub fn is_other_list(&self) -> bool
        ensures { result ≡ self.now.run.is_other_list }
    {
        self.run.is_other_list()
    }

    /// Reports whether the viewer's run is over.
    pub fn is_over(&self) -> bool
        ensures { result ≡ is_over self.now.greetings.arrival }
    {
        is_over(&self.greetings.arrival)
    }

    /// Returns how many datagrams of other runs came, up to 2^64 - 1.
    pub fn others(&self) -> u64
        ensures { result ≡ self.now.greetings.others }
    {
        self.greetings.others
    }

    fn is_ended(&self) -> bool
        ensures { result ≡ (self.now.run.is_other_list || is_over self.now.greetings.arrival) }
    {
        self.is_other_list() || self.is_over()
    }

    fn fail(&mut self) -> PortFault
        ensures { self.new ≡ record self.old { failed = one_more self.old.failed } }
    {
        self.failed = self.failed.saturating_add(1);
        PortFault
    }
}

impl<P: Port> ViewPort<P> {
    ghost use Rattle.std.specs.Prelude.{◌≡◌, ◌≤◌, ◌||◌, OnOk, Some, is_err, length, true};
    ghost use Rattle.std.specs.Option.{option_map};
    ghost use Rattle.share_session.specs.Datagram.{datagram};
    ghost use Rattle.share_wire.specs.Decoding.{decoded as decoded_1};
    ghost use Rattle.share_turns.specs.Told.{Grows, counted, max_received};
    ghost use Rattle.share_runs.specs.Arrival.{is_over};
    ghost use Rattle.share_runs.specs.Forgetting.{RunMayForget};
    ghost use Rattle.share_runs.specs.Greetings.{after_greeting, hello_due};
    ghost use Rattle.share_runs.specs.Port.{AreSent, Hears, handed_of, hello_text, sent_to};
    ghost use Rattle.share_runs.specs.Saying.{IsSaid, said_of};

    /// Receives a datagram.
    fn receive_one(&mut self) -> Result<Handing, PortFault>
        ensures hears { Hears self.old.run self.new.run (P.told self.old.port)
            (P.told self.new.port) (handed_of result) }
        ensures failures { self.new.failed ≡ counted result self.old.failed }
        ensures time { P.rested self.new.port ≡ P.rested self.old.port }
        ensures host { self.new.host ≡ self.old.host }
    {
        let mut bytes = [0; RECEIVED];
        match self.port.receive(&mut bytes) {
            Ok(Some((from, count))) => {
                let bytes = &bytes[..count];
                let packet = take_bytes(&mut self.run, &mut self.greetings, from, bytes);
                Ok(came_of(from, packet))
            }
            Ok(None) => Ok(Handing::Nothing),
            Err(_) => Err(self.fail()),
        }
    }

    /// Receives at most `most` datagrams, until one is handed on or nothing more arrives.
    fn receive_among(&mut self, most: u32) -> Result<Handing, PortFault>
        ensures hears { Hears self.old.run self.new.run (P.told self.old.port)
            (P.told self.new.port) (handed_of result) }
        ensures failures { self.new.failed ≡ counted result self.old.failed }
        ensures time { P.rested self.new.port ≡ P.rested self.old.port }
        ensures host { self.new.host ≡ self.old.host }
    {
        if self.is_ended() {
            return Err(self.fail());
        }
        if most == 0 {
            return Ok(Handing::Nothing);
        }
        match self.receive_one() {
            Ok(Handing::Dropped) => self.receive_among(most - 1),
            other => other,
        }
    }

    /// Hands on the next input if it is held. Else receives at most 64 datagrams, until one is
    /// handed on or nothing more arrives.
    ///
    /// Fails if the inner port fails, if an input of another list came, or if the viewer's run is
    /// over.
    pub fn next(&mut self) -> Result<Handing, PortFault>
        ensures hears { Hears self.old.run self.new.run (P.told self.old.port)
            (P.told self.new.port) (handed_of result) }
        ensures ended { (self.old.run.is_other_list || is_over self.old.greetings.arrival) ≡ true
            → is_err result ≡ true }
        ensures failures { self.new.failed ≡ counted result self.old.failed }
        ensures time { P.rested self.new.port ≡ P.rested self.old.port }
        ensures host { self.new.host ≡ self.old.host }
    {
        if self.is_ended() {
            return Err(self.fail());
        }
        if let Some((from, packet)) = self.run.due() {
            return Ok(Handing::Handed(from, packet));
        }
        self.receive_among(MOST)
    }

    /// Lets time pass, and old chains be forgotten.
    fn pass(&mut self, millis: u64)
        ensures port { self.new.port ≡ self.old.port }
        ensures run { RunMayForget self.old.run self.new.run }
        ensures host { self.new.host ≡ self.old.host }
        ensures failures { self.new.failed ≡ self.old.failed }
    {
        self.greetings.pass(millis_in(millis));
        self.run.forget_old();
    }

    /// Sends a datagram to a peer.
    fn send_bytes(&mut self, to: u16, bytes: &[u8]) -> Result<(), PortFault>
        requires { length bytes.now ≤ max_received }
        ensures told { OnOk result (Grows (P.told self.old.port) (P.told self.new.port)
            (sent_to to (Some bytes.now))) }
        ensures run { self.new.run ≡ self.old.run }
        ensures greetings { self.new.greetings ≡ self.old.greetings }
        ensures host { self.new.host ≡ self.old.host }
        ensures failures { self.new.failed ≡ counted result self.old.failed }
        ensures time { P.rested self.new.port ≡ P.rested self.old.port }
    {
        match self.port.send(to, bytes) {
            Ok(()) => Ok(()),
            Err(_) => Err(self.fail()),
        }
    }

    /// Says Hello to the host, if one is due.
    fn greet(&mut self) -> Result<(), PortFault>
        ensures told { OnOk result (Grows (P.told self.old.port) (P.told self.new.port)
            (sent_to self.old.host (option_map hello_text (hello_due self.old.greetings)))) }
        ensures run { self.new.run ≡ self.old.run }
        ensures greetings { self.new.greetings ≡ after_greeting self.old.greetings }
        ensures host { self.new.host ≡ self.old.host }
        ensures failures { self.new.failed ≡ counted result self.old.failed }
        ensures time { P.rested self.new.port ≡ P.rested self.old.port }
    {
        match self.greetings.greet() {
            Some(hello) => {
                let packet = encode(&Message2::Hello(hello));
                self.send_bytes(self.host, packet.as_slice())
            }
            None => Ok(()),
        }
    }

    /// Sends the datagram of version 2 of what the viewer says, if there is one.
    fn send_raised(&mut self, to: u16, bytes: &[u8]) -> Result<(), PortFault>
        ensures told { OnOk result (Grows (P.told self.old.port) (P.told self.new.port)
            (sent_to to (option_map datagram (said_of self.old.run (decoded_1 bytes.now))))) }
        ensures run { IsSaid self.old.run (decoded_1 bytes.now) self.new.run }
        ensures greetings { self.new.greetings ≡ self.old.greetings }
        ensures host { self.new.host ≡ self.old.host }
        ensures failures { self.new.failed ≡ counted result self.old.failed }
        ensures time { P.rested self.new.port ≡ P.rested self.old.port }
    {
        match self.run.say(bytes) {
            Some(packet) => self.send_bytes(to, packet.as_slice()),
            None => Ok(()),
        }
    }

    /// Sends what the viewer says to a peer, a datagram of version 1, as one of version 2 of its
    /// session. Other bytes, an input, and a piece whose chain isn't known are not sent. Before it
    /// a Hello is sent to the host, if one is due.
    ///
    /// Fails if the inner port fails.
    pub fn say(&mut self, to: u16, bytes: &[u8]) -> Result<(), PortFault>
        ensures sent { OnOk result (AreSent self.old.host (hello_due self.old.greetings)
            (P.told self.old.port) (P.told self.new.port) to
            (said_of self.old.run (decoded_1 bytes.now))) }
        ensures run { OnOk result (IsSaid self.old.run (decoded_1 bytes.now) self.new.run) }
        ensures greetings { self.new.greetings ≡ after_greeting self.old.greetings }
        ensures host { self.new.host ≡ self.old.host }
        ensures failures { self.new.failed ≡ counted result self.old.failed }
        ensures time { P.rested self.new.port ≡ P.rested self.old.port }
    {
        self.greet()?;
        self.send_raised(to, bytes)
    }
}

/// Copies the bytes to the front of `into`, and returns their number.
fn copy_front(into: &mut [u8; RECEIVED], bytes: &[u8]) -> usize
    requires { length bytes.now ≤ max_received }
    ensures count { result ≡ length bytes.now }
    ensures front { take (length bytes.now) into.new ≡ bytes.now }
{
    into[..bytes.len()].copy_from_slice(bytes);
    bytes.len()
}

fn millis_in(millis: u64) -> u32 {
    u32::try_from(millis).unwrap_or(u32::MAX)
}

impl<P: Port> Port for ViewPort<P> {
    ghost failure_count = { λ p. p.failed };

    ghost rested = { λ p. P.rested p.port };

    fn send(&mut self, to: u16, bytes: &[u8]) -> Result<(), PortFault> {
        self.say(to, bytes)
    }

    fn receive(&mut self, into: &mut [u8; RECEIVED]) -> Result<Option<(u16, usize)>, PortFault> {
        match self.next()? {
            Handing::Handed(from, packet) => Ok(Some((from, copy_front(into, packet.as_slice())))),
            Handing::Nothing => Ok(None),
            Handing::Dropped => Ok(None),
        }
    }

    fn failures(&self) -> u64 {
        self.failed
    }

    fn rest(&mut self, is_new: bool) -> u64 {
        let millis = self.port.rest(is_new);
        self.pass(millis);
        millis
    }

    fn wait(&mut self, millis: u32) {
        self.port.wait(millis);
    }
}
