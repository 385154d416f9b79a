//! A viewer alone: turns until enough inputs are applied, and then its texts. Before these turns it
//! may join, and after them it may give its snapshot.

ghost use Rattle.std.specs.Prelude.{◌≡◌, ◌≤◌, ◌+◌, ◌<◌, ◌^◌, OnOk, OnErr, IfErr, IfOk};
ghost use Rattle.x3d_lists.specs.Extends.{Extends};
ghost use Rattle.share_core.specs.Viewer.{with_state};
ghost use Rattle.share_turns.specs.Gathers.{with_both};
ghost use Rattle.share_turns.specs.HostTurn.{failures_after};
ghost use Rattle.share_turns.specs.Views.{AreAppended, AreViewed, HasGiven, IsBeginEnd, IsBegunAs};
ghost use Rattle.share_turns.specs.Views.{IsGivenEnd, IsRun, IsRunEnd, IsTextFault};
ghost use Rattle.share_turns.specs.Views.{IsViewEnd, failures_in, one_more_if};

use crate::fault::{SeriesFault, TurnFault};
use crate::forgetting::{forget_rest, forget_some};
use crate::gather::join_run;
use crate::give::give_run;
use crate::port::Port;
use crate::runs::item_at;
use crate::viewer::viewer_turn;
use script_host::Behaviour;
use share_core::Viewer;
use std::alloc::Global;
use x3d_values::Point;

/// What a viewer is to do.
#[derive(Clone, Copy, Debug, PartialEq, Eq)]
pub struct ViewPlan {
    /// The number of inputs to apply.
    pub until: u64,
    /// If the viewer forgets old lines of its trace: of how many of the last inputs it keeps them.
    pub forget: Option<u64>,
    /// The largest number of turns.
    pub turns: u32,
    /// If the viewer joins: the boot in which it first starts from the snapshot that arrives in
    /// pieces.
    pub join: Option<u32>,
    /// If the viewer gives: the port to which the pieces of its own snapshot go, in all remaining
    /// turns.
    pub give: Option<u16>,
}

/// Returns the number of offered points after a turn that offered one or didn't.
pub(crate) fn one_more_if(offered: bool, count: u32) -> u32
    requires { count + 1 < 2 ^ 32 }
    ensures value { result ≡ one_more_if offered count }
    ensures most { result ≤ count + 1 }
{
    if offered { count + 1 } else { count }
}

/// Runs at most `turns` turns of a viewer, until at least `until` inputs are applied. Returns the
/// number of turns. Each turn offers the first point that wasn't offered yet. If `forget` is a
/// number, lines of the trace of inputs before the last `forget` are forgotten now and then.
///
/// Fails with `TurnsUsedUp` if fewer inputs are applied after the last turn. A turn that ends early
/// ends the series.
pub fn view_until<B: Behaviour, P: Port>(
    viewer: &mut Viewer<B>,
    points: &[Point],
    until: u64,
    forget: Option<u64>,
    turns: u32,
    host: u16,
    port: &mut P,
) -> Result<u32, SeriesFault>
    ensures others { viewer.new ≡ with_state viewer.old viewer.new.state }
    ensures done { IfOk result (λ done. AreViewed viewer.old host points.now until forget done
        (P.told port.old) (P.told port.new) viewer.new.state) }
    ensures most { IfOk result (λ done. done ≤ turns) }
    ensures ended { IfErr result (λ fault. IsViewEnd viewer.old host points.now until forget turns
        (P.told port.old) (P.told port.new) fault viewer.new.state) }
    ensures failures { P.failure_count port.new
        ≡ failures_in result (P.failure_count port.old) }
{
    let mut offered = 0;
    let mut due = 0;
    for turn in 0..turns {
        let before = viewer.applied();
        if before >= until {
            return Ok(turn);
        }
        let point = item_at(points, offered);
        offered = one_more_if(viewer_turn(viewer, point, host, port)?, offered);
        due = forget_some(viewer, forget, due);
        let _millis = port.rest(viewer.applied() > before);
    }
    if viewer.applied() < until {
        return Err(SeriesFault::TurnsUsedUp);
    }
    Ok(turns)
}

/// Appends the trace and then the scene of a viewer. On a failure the buffer is unchanged.
pub(crate) fn push_texts<B: Behaviour>(
    viewer: &Viewer<B>,
    out: &mut Vec<u8>,
) -> Result<(), TurnFault>
    ensures ok { OnOk result (AreAppended viewer.now out.old.items out.new.items) }
    ensures err { OnErr result (out.new.items ≡ out.old.items) }
    ensures fault { IfErr result (IsTextFault viewer.now.state.view) }
{
    viewer.texts(out)?;
    Ok(())
}

/// Joins with this boot, if there is one. Returns the number of turns that this took.
fn begin<B: Behaviour, P: Port>(
    viewer: &mut Viewer<B>,
    join: Option<u32>,
    turns: u32,
    port: &mut P,
) -> Result<u32, SeriesFault>
    ensures others { viewer.new ≡ with_both viewer.old viewer.new.state viewer.new.gathering }
    ensures done { IfOk result (λ used. IsBegunAs viewer.old join turns used (P.told port.old)
        (P.told port.new) viewer.new) }
    ensures most { IfOk result (λ used. used ≤ turns) }
    ensures ended { IfErr result (λ fault. IsBeginEnd viewer.old join turns (P.told port.old)
        (P.told port.new) fault viewer.new) }
    ensures failures { P.failure_count port.new
        ≡ failures_in result (P.failure_count port.old) }
{
    match join {
        Some(boot) => join_run(viewer, boot, turns, port),
        None => Ok(0),
    }
}

/// Gives the viewer's snapshot to this port, if there is one.
fn end<B: Behaviour, P: Port>(
    alloc: Global,
    viewer: &Viewer<B>,
    to: Option<u16>,
    turns: u32,
    port: &mut P,
) -> Result<(), TurnFault>
    ensures done { OnOk result (HasGiven viewer.now to turns (P.told port.old) (P.told port.new)) }
    ensures ended { IfErr result (λ fault. IsGivenEnd viewer.now to turns (P.told port.old)
        (P.told port.new) fault) }
    ensures failures { P.failure_count port.new
        ≡ failures_after result (P.failure_count port.old) }
{
    match to {
        Some(to) => give_run(alloc, viewer, to, turns, port),
        None => Ok(()),
    }
}

/// Runs a viewer as `plan` says. It joins with the pieces that arrive, takes turns like
/// `view_until`, forgets the old lines of its trace, and gives its snapshot in the remaining turns.
/// Then its trace and its scene are appended. On a failure the buffer is unchanged.
///
/// Fails with `TurnsUsedUp` if the turns don't suffice, or `Join` if what the viewer gathered isn't
/// a snapshot of its scene that it may start from: among the causes is `BootNotNew`, if its boot
/// isn't above the snapshot's. A turn that ends early ends the run.
pub fn view_run<B: Behaviour, P: Port>(
    alloc: Global,
    viewer: &mut Viewer<B>,
    points: &[Point],
    plan: &ViewPlan,
    host: u16,
    port: &mut P,
    out: &mut Vec<u8>,
) -> Result<(), SeriesFault>
    ensures others { viewer.new ≡ with_both viewer.old viewer.new.state viewer.new.gathering }
    ensures done { OnOk result (IsRun viewer.old host points.now plan.now (P.told port.old)
        (P.told port.new) viewer.new out.old.items out.new.items) }
    ensures ended { IfErr result (λ fault. IsRunEnd viewer.old host points.now plan.now
        (P.told port.old) (P.told port.new) fault viewer.new) }
    ensures kept { OnErr result (out.new.items ≡ out.old.items) }
    ensures failures { P.failure_count port.new
        ≡ failures_in result (P.failure_count port.old) }
{
    let joining = begin(viewer, plan.join, plan.turns, port)?;
    let turns = plan.turns - joining;
    let viewing = view_until(viewer, points, plan.until, plan.forget, turns, host, port)?;
    forget_rest(viewer, plan.forget);
    end(alloc, viewer, plan.give, turns - viewing, port)?;
    push_texts(viewer, out)?;
    Ok(())
}
