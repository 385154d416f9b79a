//! A viewer that gives: it sends the pieces of its snapshot to a port, over and over, and asks for
//! nothing.

ghost use Rattle.std.specs.Prelude.{◌≡◌, [], Err, IfErr, OnErr, OnOk, is_ok};
ghost use Rattle.std.specs.Option.{option_map};
ghost use Rattle.share_turns.specs.Told.{counted};
ghost use Rattle.share_wire.specs.Datagram.{datagram};
ghost use Rattle.share_core.specs.Pieces.{count_of};
ghost use Rattle.share_turns.specs.Exchanges.{AreSent};
ghost use Rattle.share_turns.specs.Gives.{Gives, GiveTurns, GiveTurnsEnd, IsGiveCut, IsGiveEnd};
ghost use Rattle.share_turns.specs.Gives.{IsGiveTurn, IsPassedOver, IsShot, given_in, not_taken};
ghost use Rattle.share_turns.specs.Gives.{piece_among, piece_in_turn};
ghost use Rattle.share_turns.specs.HostTurn.{failures_after};
ghost use Rattle.share_turns.specs.declared.fault.TurnFault.TheVariants.{Port as PortFailed};

use crate::fault::TurnFault;
use crate::most::MOST;
use crate::port::{Port, PortFault, RECEIVED};
use script_host::Behaviour;
use share_core::{Viewer, piece_count, piece_packet};
use share_law::SaveFault;
use share_wire::Packet;
use std::alloc::Global;

/// The number of pieces that are sent in a row before the port rests.
const IN_A_ROW: u32 = 32;

/// Returns the piece to send in a turn, both counted from 0: each of `count` pieces in order, and
/// then the first one again.
fn piece_in_turn(count: u32, turn: u32) -> u32
    ensures { result ≡ piece_in_turn count turn }
{
    if count == 0 { 0 } else { turn % count }
}

/// Returns the packet of a turn, if the snapshot has pieces.
fn packet_among(mark: &[u8; 32], bytes: &[u8], count: Option<u32>, turn: u32) -> Option<Packet>
    ensures { option_map (λ p. p.items) result
        ≡ option_map (λ body. datagram (record { mark = mark.now; body = body }))
        (piece_among count bytes.now turn) }
{
    match count {
        Some(count) => piece_packet(*mark, bytes, piece_in_turn(count, turn)),
        None => None,
    }
}

/// Sends the piece of a turn.
fn send_piece<P: Port>(
    mark: &[u8; 32],
    bytes: &[u8],
    turn: u32,
    to: u16,
    port: &mut P,
) -> Result<(), PortFault>
    ensures sent { AreSent (is_ok result) to (P.told port.old) (P.told port.new)
        (given_in mark.now bytes.now turn) }
    ensures failures { P.failure_count port.new ≡ counted result (P.failure_count port.old) }
{
    match packet_among(mark, bytes, piece_count(bytes), turn) {
        Some(packet) => port.send(to, packet.as_slice()),
        None => Ok(()),
    }
}

/// Discards at most 64 datagrams that arrived.
fn pass_over<P: Port>(port: &mut P) -> Result<(), TurnFault>
    ensures over { IsPassedOver result (P.told port.old) (P.told port.new) }
    ensures fault { OnErr result (result ≡ Err PortFailed) }
    ensures failures { P.failure_count port.new
        ≡ failures_after result (P.failure_count port.old) }
{
    let mut bytes = [0; RECEIVED];
    for _datagram in 0..MOST {
        match port.receive(&mut bytes)? {
            Some((_from, _count)) => {}
            None => return Ok(()),
        }
    }
    Ok(())
}

/// Lets the port take its shortest rest after every `IN_A_ROW` turns, so that the gatherer keeps
/// up.
fn rest_behind<P: Port>(turn: u32, port: &mut P)
    ensures told { P.told port.new ≡ P.told port.old }
    ensures count { P.failure_count port.new ≡ P.failure_count port.old }
{
    if turn % IN_A_ROW == IN_A_ROW - 1 {
        let _millis = port.rest(true);
    }
}

/// Runs a turn of a viewer that gives.
fn give_turn<P: Port>(
    mark: &[u8; 32],
    bytes: &[u8],
    turn: u32,
    to: u16,
    port: &mut P,
) -> Result<(), TurnFault>
    ensures done { OnOk result (IsGiveTurn mark.now bytes.now to turn (P.told port.old)
        (P.told port.new)) }
    ensures ended { OnErr result (IsGiveCut mark.now bytes.now to turn (P.told port.old)
        (P.told port.new)) }
    ensures fault { OnErr result (result ≡ Err PortFailed) }
    ensures failures { P.failure_count port.new
        ≡ failures_after result (P.failure_count port.old) }
{
    send_piece(mark, bytes, turn, to, port)?;
    pass_over(port)?;
    rest_behind(turn, port);
    Ok(())
}

/// Runs `turns` turns of a viewer that gives a snapshot with these bytes.
fn give_turns<P: Port>(
    mark: &[u8; 32],
    bytes: &[u8],
    to: u16,
    turns: u32,
    port: &mut P,
) -> Result<(), TurnFault>
    ensures done { OnOk result (GiveTurns mark.now bytes.now to turns (P.told port.old)
        (P.told port.new)) }
    ensures ended { OnErr result (GiveTurnsEnd mark.now bytes.now to turns (P.told port.old)
        (P.told port.new)) }
    ensures fault { OnErr result (result ≡ Err PortFailed) }
    ensures failures { P.failure_count port.new
        ≡ failures_after result (P.failure_count port.old) }
{
    for turn in 0..turns {
        give_turn(mark, bytes, turn, to, port)?;
    }
    Ok(())
}

fn save_fault(fault: SaveFault) -> TurnFault
    ensures { result ≡ not_taken fault }
{
    match fault {
        SaveFault::Spoiled => TurnFault::Spoiled,
        SaveFault::Memory => TurnFault::Memory,
    }
}

/// Takes a snapshot of a viewer into an empty buffer.
fn take_shot<B: Behaviour>(viewer: &Viewer<B>, bytes: &mut Vec<u8>) -> Result<(), TurnFault>
    ensures { IsShot viewer.now bytes.old.items result bytes.new.items }
{
    match viewer.snapshot(bytes) {
        Ok(()) => Ok(()),
        Err(fault) => Err(save_fault(fault)),
    }
}

fn give_own<B: Behaviour, P: Port>(
    viewer: &Viewer<B>,
    bytes: &mut Vec<u8>,
    to: u16,
    turns: u32,
    port: &mut P,
) -> Result<(), TurnFault>
    requires { bytes.old.items ≡ [] }
    ensures done { OnOk result (Gives viewer.now to turns (P.told port.old) (P.told port.new)) }
    ensures ended { IfErr result (IsGiveEnd viewer.now to turns (P.told port.old)
        (P.told port.new)) }
    ensures failures { P.failure_count port.new
        ≡ failures_after result (P.failure_count port.old) }
{
    take_shot(viewer, bytes)?;
    give_turns(&viewer.mark(), bytes.as_slice(), to, turns, port)
}

/// Runs `turns` turns of a viewer that gives. It takes a snapshot once. In each turn it sends the
/// next piece of it to a port, over and over, and discards at most 64 datagrams that arrived. A
/// snapshot of more than 2^26 bytes has no pieces: then nothing is sent.
///
/// Fails with `Spoiled` if memory was refused to the viewer before, or `Memory` if memory was
/// refused to the snapshot; then there is no turn. `Port`, if a send or a receive failed, ends the
/// turns.
pub fn give_run<B: Behaviour, P: Port>(
    alloc: Global,
    viewer: &Viewer<B>,
    to: u16,
    turns: u32,
    port: &mut P,
) -> Result<(), TurnFault>
    ensures done { OnOk result (Gives viewer.now to turns (P.told port.old) (P.told port.new)) }
    ensures ended { IfErr result (IsGiveEnd viewer.now to turns (P.told port.old)
        (P.told port.new)) }
    ensures failures { P.failure_count port.new
        ≡ failures_after result (P.failure_count port.old) }
{
    let mut bytes = Vec::new(alloc);
    let given = give_own(viewer, &mut bytes, to, turns, port);
    drop(bytes);
    given
}
