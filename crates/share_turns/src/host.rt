//! A turn of the host.

ghost use Rattle.std.specs.Prelude.{◌≡◌, [], ◌∷◌, Err, IfOk, OnErr, is_err, is_ok, nat_eq};
ghost use Rattle.std.specs.Cmp.Lexicographic.{pointwise};
ghost use Rattle.share_turns.specs.Told.{counted};
ghost use Rattle.share_turns.specs.Exchanges.{AreSent};
ghost use Rattle.share_law.specs.Calls.{IsPartTakeOf};
ghost use Rattle.share_law.specs.Parts.{part_floor_packet, part_packet};
ghost use Rattle.share_law.specs.Network.{Clocked, HostTook};
ghost use Rattle.share_law.specs.Steps.{says_memory};
ghost use Rattle.share_core.specs.Host.{AreNumbered};
ghost use Rattle.share_turns.specs.HostTurn.{IsHostTurn, IsBegun, IsExchangeOf, acks_for};
ghost use Rattle.share_turns.specs.HostTurn.{bodies_for, datagrams_of, inputs_for, listed};
ghost use Rattle.share_turns.specs.HostTurn.{sender_in, sender_of};
ghost use Rattle.share_turns.specs.HostTurn.{IsHeardTurn, ask_in, asked_of, hear_from};
ghost use Rattle.share_turns.specs.HostTurn.{failures_after};
ghost use Rattle.share_turns.specs.declared.fault.TurnFault.TheVariants.{Memory};

use crate::fault::TurnFault;
use crate::heard::Heard;
use crate::most::MOST;
use crate::port::{Port, PortFault, RECEIVED};
use share_core::Host;
use share_law::{HostFault, HostReply, NumberFault};
use share_wire::{Ask, Body, Message, WireFault, decode};

/// Goes on after a clock. A clock that was refused for another cause than memory is dropped. Fails
/// with `Memory` if memory was refused to it.
pub fn after_clock(answer: Result<u64, NumberFault>) -> Result<(), TurnFault>
    ensures refused { is_err result ≡ says_memory (Clocked answer) }
    ensures fault { OnErr result (result ≡ Err Memory) }
{
    match answer {
        Err(NumberFault::Memory) => Err(TurnFault::Memory),
        _ => Ok(()),
    }
}

/// Numbers the clock of a turn, if there is one.
fn number_clock(host: &mut Host, clock: Option<i64>) -> Result<(), TurnFault>
    ensures mark { host.new.mark ≡ host.old.mark }
    ensures step { IsBegun host.old.part clock (is_err result) host.new.part }
    ensures fault { OnErr result (result ≡ Err Memory) }
{
    match clock {
        Some(time) => after_clock(host.clock(time)),
        None => Ok(()),
    }
}

/// Returns the viewer that offers or asks with this message.
fn sender_in(body: Body) -> Option<u8>
    ensures { result ≡ sender_in body }
{
    match body {
        Body::Offer(offer) => Some(offer.pointer().who()),
        Body::Ask(ask) => Some(ask.who()),
        Body::Input(_) | Body::Ack(_) | Body::Floor(_) | Body::Piece(_) => None,
    }
}

/// Returns the viewer that offers or asks with this datagram, if it was decoded.
pub fn sender_of(read: &Result<Message, WireFault>) -> Option<u8>
    ensures { result ≡ sender_of read.now }
{
    match read {
        Ok(message) => sender_in(message.body),
        Err(_) => None,
    }
}

/// Sends the input with this number, if there is one.
fn send_input<P: Port>(host: &Host, number: u64, to: u16, port: &mut P) -> Result<(), PortFault>
    ensures sent { AreSent (is_ok result) to (P.told port.old) (P.told port.new)
        (datagrams_of host.now.mark (listed (part_packet host.now.part number))) }
    ensures failures { P.failure_count port.new ≡ counted result (P.failure_count port.old) }
    ensures time { P.rested port.new ≡ P.rested port.old }
{
    match host.packet(number) {
        Some(packet) => port.send(to, packet.as_slice()),
        None => Ok(()),
    }
}

/// Sends the floor.
fn send_floor<P: Port>(host: &Host, to: u16, port: &mut P) -> Result<(), PortFault>
    ensures sent { AreSent (is_ok result) to (P.told port.old) (P.told port.new)
        (datagrams_of host.now.mark (part_floor_packet host.now.part ∷ [])) }
    ensures failures { P.failure_count port.new ≡ counted result (P.failure_count port.old) }
    ensures time { P.rested port.new ≡ P.rested port.old }
{
    port.send(to, host.floor_packet().as_slice())
}

/// Sends the inputs that were asked for, or the floor if they are below it.
fn send_inputs<P: Port>(
    host: &Host,
    reply: HostReply,
    to: u16,
    port: &mut P,
) -> Result<(), PortFault>
    requires { AreNumbered host.now.part reply }
    ensures sent { AreSent (is_ok result) to (P.told port.old) (P.told port.new)
        (datagrams_of host.now.mark (inputs_for host.now.part reply)) }
    ensures failures { P.failure_count port.new ≡ counted result (P.failure_count port.old) }
    ensures time { P.rested port.new ≡ P.rested port.old }
{
    if let HostReply::Below(_floor) = reply {
        return send_floor(host, to, port);
    }
    let HostReply::Asked { first, count } = reply else {
        return Ok(());
    };
    let _numbered = host.len();
    for number in first..first + count {
        send_input(host, number, to, port)?;
    }
    Ok(())
}

/// Sends an ack to the viewer that offered or asked.
fn send_ack<P: Port>(
    host: &Host,
    sender: Option<u8>,
    to: u16,
    port: &mut P,
) -> Result<(), PortFault>
    ensures sent { AreSent (is_ok result) to (P.told port.old) (P.told port.new)
        (datagrams_of host.now.mark (acks_for host.now.part sender)) }
    ensures failures { P.failure_count port.new ≡ counted result (P.failure_count port.old) }
    ensures time { P.rested port.new ≡ P.rested port.old }
{
    let Some(who) = sender else {
        return Ok(());
    };
    if who >= host.viewers() {
        return Ok(());
    }
    port.send(to, host.ack(who).as_slice())
}

/// Sends the answers to a datagram that was taken: to an ask the inputs that were asked for, or the
/// floor if they are below it, and to an ask or an offer an ack for its sender, if there is such a
/// viewer.
///
/// Fails if a send failed. Nothing more is sent then.
pub fn send_for<P: Port>(
    host: &Host,
    reply: HostReply,
    sender: Option<u8>,
    to: u16,
    port: &mut P,
) -> Result<(), PortFault>
    requires { AreNumbered host.now.part reply }
    ensures sent { AreSent (is_ok result) to (P.told port.old) (P.told port.new)
        (datagrams_of host.now.mark (bodies_for host.now.part sender reply)) }
    ensures failures { P.failure_count port.new ≡ counted result (P.failure_count port.old) }
    ensures time { P.rested port.new ≡ P.rested port.old }
{
    send_inputs(host, reply, to, port)?;
    send_ack(host, sender, to, port)
}

/// Goes on after a datagram that the host refused. Fails with `Memory` if memory was refused to its
/// offer.
pub fn after_refusal(fault: HostFault) -> Result<(), TurnFault>
    ensures refused { is_err result ≡ says_memory (HostTook (Err fault)) }
    ensures fault { OnErr result (result ≡ Err Memory) }
{
    match fault {
        HostFault::Number(NumberFault::Memory) => Err(TurnFault::Memory),
        _ => Ok(()),
    }
}

/// Lets the host take a decoded datagram, or refuse it, like `Host::take`.
pub fn take(host: &mut Host, read: &Result<Message, WireFault>) -> Result<HostReply, HostFault>
    ensures mark { host.new.mark ≡ host.old.mark }
    ensures asked { IfOk result (AreNumbered host.new.part) }
    ensures step { IsPartTakeOf host.old.mark host.old.part read.now result host.new.part }
{
    match read {
        Ok(message) => host.take_message(*message),
        Err(fault) => Err(HostFault::Wire(*fault)),
    }
}

/// Takes a decoded datagram, and sends the answers to its peer.
fn answer<P: Port>(
    host: &mut Host,
    from: u16,
    read: &Result<Message, WireFault>,
    port: &mut P,
) -> Result<(), TurnFault>
    ensures mark { host.new.mark ≡ host.old.mark }
    ensures exchange { IsExchangeOf result host.old.mark host.old.part from read.now
        (P.told port.old) (P.told port.new) host.new.part }
    ensures failures { P.failure_count port.new
        ≡ failures_after result (P.failure_count port.old) }
    ensures time { P.rested port.new ≡ P.rested port.old }
{
    match take(host, read) {
        Ok(reply) => Ok(send_for(host, reply, sender_of(read), from, port)?),
        Err(fault) => after_refusal(fault),
    }
}

fn ask_in(body: Body) -> Option<Ask>
    ensures { result ≡ ask_in body }
{
    match body {
        Body::Ask(ask) => Some(ask),
        Body::Input(_) | Body::Offer(_) | Body::Ack(_) | Body::Floor(_) | Body::Piece(_) => None,
    }
}

fn is_same(mark: &[u8; 32], other: &[u8; 32]) -> bool
    ensures { result ≡ pointwise nat_eq mark.now other.now }
{
    mark == other
}

/// Returns the ask that a datagram is, if it has the mark of this scene.
fn asked_of(read: &Result<Message, WireFault>, mark: &[u8; 32]) -> Option<Ask>
    ensures { result ≡ asked_of mark.now read.now }
{
    match read {
        Ok(message) => {
            if is_same(&message.mark, mark) {
                ask_in(message.body)
            } else {
                None
            }
        }
        Err(_) => None,
    }
}

fn hear_from(heard: &mut Heard, ask: Option<Ask>, viewers: u8)
    ensures { heard.new ≡ hear_from viewers heard.old ask }
{
    let Some(ask) = ask else {
        return;
    };
    if ask.who() < viewers {
        heard.hear(ask.who(), ask.next());
    }
}

/// Notes the ask of one of `viewers` viewers, if the datagram is one with this mark.
pub fn hear(heard: &mut Heard, read: &Result<Message, WireFault>, mark: &[u8; 32], viewers: u8)
    ensures { heard.new ≡ hear_from viewers heard.old (asked_of mark.now read.now) }
{
    hear_from(heard, asked_of(read, mark), viewers);
}

/// Runs a turn of the host like `host_turn`, and notes in `heard` what its viewers ask for.
pub(crate) fn hearing_turn<P: Port>(
    host: &mut Host,
    clock: Option<i64>,
    heard: &mut Heard,
    port: &mut P,
) -> Result<(), TurnFault>
    ensures mark { host.new.mark ≡ host.old.mark }
    ensures turn { IsHeardTurn result host.old.mark clock (P.told port.old) (P.told port.new)
        host.old.part host.new.part heard.old heard.new }
    ensures failures { P.failure_count port.new
        ≡ failures_after result (P.failure_count port.old) }
    ensures time { P.rested port.new ≡ P.rested port.old }
{
    let mark = host.mark();
    let viewers = host.viewers();
    number_clock(host, clock)?;
    let mut bytes = [0; RECEIVED];
    for _datagram in 0..MOST {
        match port.receive(&mut bytes)? {
            Some((from, count)) => {
                let read = decode(&bytes[..count]);
                hear(heard, &read, &mark, viewers);
                answer(host, from, &read, port)?;
            }
            None => return Ok(()),
        }
    }
    Ok(())
}

/// Runs a turn of the host. First it numbers the clock, at a time in microseconds, if there is one.
/// Then it takes at most 64 datagrams, and answers each one's peer. An ask is answered with the
/// inputs that were asked for, or with the floor if they are below it, and with an ack. An offer is
/// answered with an ack. A clock or a datagram that is refused for a cause other than memory is
/// dropped.
///
/// `Port`, if a send or a receive failed, and `Memory`, if memory was refused to a clock or to an
/// offer, end the turn at once.
pub fn host_turn<P: Port>(
    host: &mut Host,
    clock: Option<i64>,
    port: &mut P,
) -> Result<(), TurnFault>
    ensures mark { host.new.mark ≡ host.old.mark }
    ensures turn { IsHostTurn result host.old.mark clock (P.told port.old) (P.told port.new)
        host.old.part host.new.part }
    ensures failures { P.failure_count port.new
        ≡ failures_after result (P.failure_count port.old) }
{
    let mut heard = Heard::nobody();
    hearing_turn(host, clock, &mut heard, port)
}
