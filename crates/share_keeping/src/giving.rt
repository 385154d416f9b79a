//! The pieces that are sent.

ghost use Rattle.std.specs.Prelude.{◌≡◌, ◌+◌, is_ok};
ghost use Rattle.share_turns.specs.Exchanges.{AreSent};
ghost use Rattle.share_logged.specs.Notes.{IsSentInTurn};
ghost use Rattle.share_keeping.specs.Giving as spec;
ghost use Rattle.share_keeping.specs.Keeping.{advanced_in, given_of};

use crate::joiners::{Joiner, Joiners, in_a_row, piece_after};
use crate::shot::Shot;
use share_core::piece_packet;
use share_turns::{Port, PortFault};

/// Sends a piece of a snapshot to a peer, by its number.
fn give_piece<P: Port>(
    mark: &[u8; 32],
    bytes: &[u8],
    number: u32,
    to: u16,
    port: &mut P,
) -> Result<(), PortFault>
    ensures sent { AreSent (is_ok result) to (P.told port.old) (P.told port.new)
        (spec.piece_text mark.now bytes.now number) }
    ensures time { P.rested port.new ≡ P.rested port.old }
{
    match piece_packet(*mark, bytes, number) {
        Some(packet) => port.send(to, packet.as_slice()),
        None => Ok(()),
    }
}

/// Sends a viewer the pieces of a rest.
fn give_row<P: Port>(
    mark: &[u8; 32],
    shot: &Shot,
    joiner: &Joiner,
    port: &mut P,
) -> Result<(), PortFault>
    ensures sent { AreSent (is_ok result) joiner.now.peer (P.told port.old) (P.told port.new)
        (spec.texts_for mark.now shot.now joiner.now) }
    ensures time { P.rested port.new ≡ P.rested port.old }
{
    let count = shot.count();
    for more in 0..in_a_row(count) {
        let number = piece_after(count, joiner.next, more);
        give_piece(mark, shot.bytes(), number, joiner.peer, port)?;
    }
    Ok(())
}

/// Sends a seat the pieces of a rest, if a viewer joins there.
fn give_seat<P: Port>(
    mark: &[u8; 32],
    shot: &Shot,
    seat: &Option<Joiner>,
    port: &mut P,
) -> Result<(), PortFault>
    ensures sent { IsSentInTurn (is_ok result) (P.told port.old) (P.told port.new)
        (spec.given_to mark.now shot.now seat.now) }
    ensures time { P.rested port.new ≡ P.rested port.old }
{
    match seat {
        Some(joiner) => give_row(mark, shot, joiner, port),
        None => Ok(()),
    }
}

/// Sends each viewer that joins the pieces of a rest, seat by seat. Ends at the first send that
/// fails.
fn give_seats<P: Port>(
    mark: &[u8; 32],
    shot: &Shot,
    seats: &[Option<Joiner>],
    port: &mut P,
) -> Result<(), PortFault>
    ensures sent { IsSentInTurn (is_ok result) (P.told port.old) (P.told port.new)
        (spec.given mark.now shot.now seats.now) }
    ensures time { P.rested port.new ≡ P.rested port.old }
{
    for seat in seats {
        give_seat(mark, shot, seat, port)?;
    }
    Ok(())
}

/// Sends each viewer that joins its next pieces of a snapshot, if there is one. Returns whether no
/// send failed.
pub(crate) fn give<P: Port>(
    mark: &[u8; 32],
    shot: &Option<Shot>,
    joiners: &mut Joiners,
    port: &mut P,
) -> bool
    ensures sent { IsSentInTurn result (P.told port.old) (P.told port.new)
        (given_of mark.now shot.now joiners.old) }
    ensures joiners { joiners.new ≡ advanced_in shot.now joiners.old }
    ensures time { P.rested port.new ≡ P.rested port.old }
{
    let Some(shot) = shot else {
        return true;
    };
    let sent = give_seats(mark, shot, joiners.as_slice(), port);
    joiners.advance(shot.count());
    sent.is_ok()
}
