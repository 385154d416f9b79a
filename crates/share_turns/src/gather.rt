//! A viewer that joins: it gathers the pieces of a snapshot as they arrive, and starts from the
//! snapshot once no piece is missing. It sends nothing.

ghost use Rattle.std.specs.Prelude.{◌≡◌, ◌≤◌, Err, IfErr, IfOk, OnErr, is_err};
ghost use Rattle.share_law.specs.Network.{Collected};
ghost use Rattle.share_law.specs.Steps.{says_memory};
ghost use Rattle.share_core.specs.Viewer.{with_gathering};
ghost use Rattle.share_turns.specs.Gathers.{Gathers, HasJoined, IsBeginning, IsGatherTurn};
ghost use Rattle.share_turns.specs.Gathers.{IsGathering, IsJoinEnd, begun_by, with_both};
ghost use Rattle.share_turns.specs.HostTurn.{failures_after};
ghost use Rattle.share_turns.specs.Views.{failures_in};
ghost use Rattle.share_turns.specs.declared.fault.TurnFault.TheVariants.{Memory};

use crate::fault::{SeriesFault, TurnFault};
use crate::most::MOST;
use crate::port::{Port, RECEIVED};
use script_host::Behaviour;
use share_core::Viewer;
use share_law::{GatherFault, Gathered, JoinFault, SnapFault};

/// Goes on after a datagram, unless memory was refused to the first piece. A datagram that was
/// refused for another cause is dropped.
fn after_gather(answer: Result<Gathered, GatherFault>) -> Result<(), TurnFault>
    ensures refused { is_err result ≡ says_memory (Collected answer) }
    ensures fault { OnErr result (result ≡ Err Memory) }
{
    match answer {
        Err(GatherFault::Memory) => Err(TurnFault::Memory),
        _ => Ok(()),
    }
}

/// Gathers a datagram.
fn gather_one<B: Behaviour>(viewer: &mut Viewer<B>, bytes: &[u8]) -> Result<(), TurnFault>
    ensures others { viewer.new ≡ with_gathering viewer.old viewer.new.gathering }
    ensures gathered { IsGathering viewer.old.mark viewer.old.gathering bytes.now (is_err result)
        viewer.new.gathering }
    ensures fault { OnErr result (result ≡ Err Memory) }
{
    after_gather(viewer.gather(bytes))
}

/// Gathers the datagrams of a turn.
fn gather_all<B: Behaviour, P: Port>(viewer: &mut Viewer<B>, port: &mut P) -> Result<(), TurnFault>
    ensures others { viewer.new ≡ with_gathering viewer.old viewer.new.gathering }
    ensures gathers { Gathers viewer.old.mark result (P.told port.old) (P.told port.new)
        viewer.old.gathering viewer.new.gathering }
    ensures failures { P.failure_count port.new
        ≡ failures_after result (P.failure_count port.old) }
{
    let mut bytes = [0; RECEIVED];
    for _datagram in 0..MOST {
        match port.receive(&mut bytes)? {
            Some((_from, count)) => gather_one(viewer, &bytes[..count])?,
            None => return Ok(()),
        }
    }
    Ok(())
}

/// Returns whether a viewer has started, given the answer of its join: not if pieces are missing.
fn begun_by(answer: Result<u64, JoinFault>) -> Result<bool, SeriesFault>
    ensures { result ≡ begun_by answer }
{
    match answer {
        Ok(_applied) => Ok(true),
        Err(JoinFault::NotWhole) => Ok(false),
        Err(JoinFault::Snap(SnapFault::Memory)) => Err(SeriesFault::Turn(TurnFault::Memory)),
        Err(JoinFault::Snap(fault)) => Err(SeriesFault::Join(fault)),
    }
}

/// Starts from what was gathered. Returns whether it did: not if pieces are missing.
fn begin<B: Behaviour>(viewer: &mut Viewer<B>, boot: u32) -> Result<bool, SeriesFault>
    ensures others { viewer.new ≡ with_both viewer.old viewer.new.state viewer.new.gathering }
    ensures begun { IsBeginning viewer.old boot result viewer.new.state viewer.new.gathering }
{
    begun_by(viewer.join(boot))
}

/// Runs a turn of a viewer that joins: it gathers at most 64 datagrams, and starts if it can.
fn gather_turn<B: Behaviour, P: Port>(
    viewer: &mut Viewer<B>,
    boot: u32,
    port: &mut P,
) -> Result<bool, SeriesFault>
    ensures others { viewer.new ≡ with_both viewer.old viewer.new.state viewer.new.gathering }
    ensures turn { IsGatherTurn viewer.old boot result (P.told port.old) (P.told port.new)
        viewer.new.state viewer.new.gathering }
    ensures failures { P.failure_count port.new
        ≡ failures_in result (P.failure_count port.old) }
{
    gather_all(viewer, port)?;
    begin(viewer, boot)
}

/// Runs at most `turns` turns of a viewer that joins. Returns their number. In each turn the viewer
/// gathers at most 64 datagrams. After the first turn that leaves no piece of the snapshot missing,
/// it starts from the snapshot, with boot `boot`, and drops what it gathered. It sends nothing. A
/// datagram that is refused for a cause other than memory is dropped.
///
/// Fails with `TurnsUsedUp` if pieces are missing after the last turn. If the viewer can't start
/// from what it gathered, fails with `Memory`, which spoils the viewer, or with `Join` and any
/// other cause: among them `BootNotNew`, if `boot` isn't above the viewer's own and the snapshot's.
/// A turn that ends early ends the series.
pub fn join_run<B: Behaviour, P: Port>(
    viewer: &mut Viewer<B>,
    boot: u32,
    turns: u32,
    port: &mut P,
) -> Result<u32, SeriesFault>
    ensures others { viewer.new ≡ with_both viewer.old viewer.new.state viewer.new.gathering }
    ensures done { IfOk result (λ used. HasJoined viewer.old boot used (P.told port.old)
        (P.told port.new) viewer.new.state viewer.new.gathering) }
    ensures most { IfOk result (λ used. used ≤ turns) }
    ensures ended { IfErr result (λ fault. IsJoinEnd viewer.old boot turns (P.told port.old)
        (P.told port.new) fault viewer.new.state viewer.new.gathering) }
    ensures failures { P.failure_count port.new
        ≡ failures_in result (P.failure_count port.old) }
{
    for turn in 0..turns {
        if gather_turn(viewer, boot, port)? {
            return Ok(turn + 1);
        }
        let _millis = port.rest(false);
    }
    Err(SeriesFault::TurnsUsedUp)
}
