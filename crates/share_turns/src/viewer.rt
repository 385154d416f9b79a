//! A turn of a viewer.

ghost use Rattle.std.specs.Prelude.{◌≡◌, Err, OnErr, is_err, is_ok};
ghost use Rattle.share_law.specs.Network.{ViewerTook};
ghost use Rattle.share_law.specs.Steps.{says_memory};
ghost use Rattle.share_law.specs.Viewer.{viewer_resend};
ghost use Rattle.share_turns.specs.Told.{counted};
ghost use Rattle.share_core.specs.Viewer.{IfRunning, IfSpoiled, machine_of, with_state};
ghost use Rattle.share_turns.specs.Exchanges.{AreSent};
ghost use Rattle.share_turns.specs.HostTurn.{datagrams_of, failures_after, listed};
ghost use Rattle.share_turns.specs.ViewerTurn.{IsOffered, IsTaking, IsViewerTurn, Takes, requests};
ghost use Rattle.share_turns.specs.declared.fault.TurnFault.TheVariants.{Memory, Spoiled};

use crate::fault::TurnFault;
use crate::most::MOST;
use crate::port::{Port, PortFault, RECEIVED};
use script_host::Behaviour;
use share_core::Viewer;
use share_law::{TakeFault, Taken};
use x3d_values::Point;

/// Offers the point of a turn, if there is one. Returns whether it was offered.
fn offer<B: Behaviour>(viewer: &mut Viewer<B>, point: Option<Point>) -> bool
    ensures others { viewer.new ≡ with_state viewer.old viewer.new.state }
    ensures offered { IsOffered viewer.old.state point result viewer.new.state }
{
    match point {
        Some(point) => viewer.offer(point).is_ok(),
        None => false,
    }
}

/// Goes on after a datagram, unless memory was refused to its input. A datagram that was refused
/// for another cause is dropped.
fn after_take(answer: Result<Taken, TakeFault>) -> Result<(), TurnFault>
    ensures refused { is_err result ≡ says_memory (ViewerTook answer) }
    ensures fault { OnErr result (result ≡ Err Memory) }
{
    match answer {
        Err(TakeFault::Memory) => Err(TurnFault::Memory),
        _ => Ok(()),
    }
}

/// Takes a datagram.
fn take_one<B: Behaviour>(viewer: &mut Viewer<B>, bytes: &[u8]) -> Result<(), TurnFault>
    ensures others { viewer.new ≡ with_state viewer.old viewer.new.state }
    ensures taken { IsTaking (machine_of viewer.old) viewer.old.mark viewer.old.who
        viewer.old.state bytes.now (is_err result) viewer.new.state }
    ensures fault { OnErr result (result ≡ Err Memory) }
{
    after_take(viewer.take(bytes))
}

/// Takes the datagrams of a turn.
fn take_all<B: Behaviour, P: Port>(viewer: &mut Viewer<B>, port: &mut P) -> Result<(), TurnFault>
    ensures others { viewer.new ≡ with_state viewer.old viewer.new.state }
    ensures takes { Takes (machine_of viewer.old) viewer.old.mark viewer.old.who result
        (P.told port.old) (P.told port.new) viewer.old.state viewer.new.state }
    ensures failures { P.failure_count port.new
        ≡ failures_after result (P.failure_count port.old) }
{
    let mut bytes = [0; RECEIVED];
    for _datagram in 0..MOST {
        match port.receive(&mut bytes)? {
            Some((_from, count)) => take_one(viewer, &bytes[..count])?,
            None => return Ok(()),
        }
    }
    Ok(())
}

/// Sends the offer that has waited longest, if one waits.
fn send_offer<B: Behaviour, P: Port>(
    viewer: &Viewer<B>,
    host: u16,
    port: &mut P,
) -> Result<(), PortFault>
    ensures sent { AreSent (is_ok result) host (P.told port.old) (P.told port.new)
        (datagrams_of viewer.now.mark (listed (viewer_resend viewer.now.who viewer.now.state 0))) }
    ensures failures { P.failure_count port.new ≡ counted result (P.failure_count port.old) }
{
    match viewer.resend(0) {
        Some(packet) => port.send(host, packet.as_slice()),
        None => Ok(()),
    }
}

/// Sends the offer that has waited longest, if one waits, and asks for the inputs that the viewer
/// lacks.
fn send_requests<B: Behaviour, P: Port>(
    viewer: &Viewer<B>,
    host: u16,
    port: &mut P,
) -> Result<(), PortFault>
    ensures sent { AreSent (is_ok result) host (P.told port.old) (P.told port.new)
        (requests (machine_of viewer.now) viewer.now.mark viewer.now.who viewer.now.state) }
    ensures failures { P.failure_count port.new ≡ counted result (P.failure_count port.old) }
{
    send_offer(viewer, host, port)?;
    port.send(host, viewer.ask().as_slice())
}

/// Runs a turn of a viewer. First the viewer offers a point, if there is one. Then it takes at most
/// 64 datagrams. Then it sends to its host the offer that has waited longest, and an ask for the
/// inputs that it lacks. Returns whether the point was offered. If too many offers wait, it isn't,
/// and may be passed in again. A datagram that is refused for a cause other than memory is dropped.
///
/// Fails with `Spoiled` if memory was refused to the viewer before; then nothing is done. `Port`,
/// if a send or a receive failed, and `Memory`, if memory was refused to an input, end the turn at
/// once.
pub fn viewer_turn<B: Behaviour, P: Port>(
    viewer: &mut Viewer<B>,
    point: Option<Point>,
    host: u16,
    port: &mut P,
) -> Result<bool, TurnFault>
    ensures others { viewer.new ≡ with_state viewer.old viewer.new.state }
    ensures spoiled { IfSpoiled viewer.old.state.view ((result ≡ Err Spoiled)
        × (viewer.new ≡ viewer.old) × (P.told port.new ≡ P.told port.old)) }
    ensures turn { IfRunning viewer.old.state.view (λ w.
        IsViewerTurn (machine_of viewer.old) viewer.old.mark viewer.old.who host point
        (P.told port.old) (P.told port.new) viewer.old.state result viewer.new.state) }
    ensures failures { P.failure_count port.new
        ≡ failures_after result (P.failure_count port.old) }
{
    if viewer.spoiled() {
        return Err(TurnFault::Spoiled);
    }
    let offered = offer(viewer, point);
    take_all(viewer, port)?;
    send_requests(viewer, host, port)?;
    Ok(offered)
}
