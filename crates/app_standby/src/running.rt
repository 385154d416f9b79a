//! Turns of a host over a shared log, one after another.

ghost use Rattle.std.specs.Prelude.{◌≡◌, ◌++◌, ◌≤◌, IfErr, IsTrue, List, OnOk, false, is_none, true, ⊤};
ghost use Rattle.x3d_values.specs.Ranges.{max_viewers};
ghost use Rattle.share_entries.specs.Entry.{EntryView};
ghost use Rattle.share_store.specs.OneLog.{Begins, Last};
ghost use Rattle.share_logged.specs.Making.{IsOfLog};
ghost use Rattle.app_standby.specs.Origins.{IsBelow, IsNowFrom};
ghost use Rattle.app_standby.specs.Shared.{ShowsFirst};
ghost use Rattle.app_standby.specs.Steps.{Goes, moment};
ghost use Rattle.app_standby.specs.declared.fault.SharedFault.TheVariants.{TurnsUsedUp};
ghost use Rattle.app_standby.specs.declared.state.Now.TheVariants.{Hosting};

use crate::fault::SharedFault;
use crate::origin::Origin;
use crate::pace::Pace;
use crate::plan::SharedPlan;
use crate::reading::keep_up;
use crate::state::Now;
use crate::turning::act;
use share_logged::{Learns, LoggedHost};
use share_store::Remembers;
use std::alloc::Global;

/// Returns the result of a host that has taken all its turns and isn't done.
fn used_up(until: Option<u64>) -> Result<(), SharedFault>
    ensures ok { OnOk result (is_none until ≡ true) }
    ensures err { IfErr result (λ fault. (fault ≡ TurnsUsedUp) × (is_none until ≡ false)) }
{
    if until.is_none() {
        Ok(())
    } else {
        Err(SharedFault::TurnsUsedUp)
    }
}

/// Runs the turns of a host.
fn turns<L: Remembers, P: Learns>(
    alloc: Global,
    origin: &Origin,
    hosting: LoggedHost,
    clocks: &[i64],
    plan: &SharedPlan,
    log: &mut L,
    port: &mut P,
) -> Result<(), SharedFault>
    requires some { 1 ≤ origin.now.viewers }
    requires most { origin.now.viewers ≤ max_viewers }
    ensures goes { (below : List EntryView) → Goes origin.now.mark origin.now.viewers
        (moment (below ++ L.known log.old) (L.is_clean log.old) (P.told port.old))
        (moment (below ++ L.known log.new) (L.is_clean log.new) (P.told port.new))
        (IsNowFrom origin.now below (L.known log.old) (Hosting hosting)) ⊤ }
    ensures lasts { Last (L.may_leave log.old) (L.known log.old) → IsTrue (L.is_clean log.new)
        → Last (L.may_leave log.new) (L.known log.new) }
{
    let mut now = Now::Hosting(hosting);
    let mut pace = Pace::new(plan.beat);
    for _turn in 0..plan.turns {
        if now.is_over(&plan.host) {
            drop(now);
            return Ok(());
        }
        let kept = keep_up(alloc, origin, now, &mut pace, log, port)?;
        now = act(clocks, plan, kept, &mut pace, log, port)?;
    }
    let over = now.is_over(&plan.host);
    drop(now);
    if over {
        return Ok(());
    }
    used_up(plan.host.until)
}

/// Runs turns of a host over a log that other hosts append to as well, until it is done as `plan`
/// says; all of them, if `plan` names no number of inputs. `hosting` is the host of the entries
/// below the origin's base, if it has one, and of those that the log knows.
///
/// Before a turn it reads on, if the log takes no appends, if 250 milliseconds have passed since it
/// did, or if it had an entry of another host in the last 2 seconds. It takes what other hosts have
/// stored, and the port learns that. While it has had entries
/// in the last `standby` milliseconds it stands by: its turns number offers, and no clock. Else
/// each numbers the next of the clocks, at times in microseconds, that is later than the last
/// input, and after them those of the beat, which go on from the last clock of another host. If the
/// log has other entries than the host, or is in
/// doubt, the host is dropped, and begins again from `origin`, with all entries of the log. While it
/// can't be read, the port rests.
///
/// Fails with `TurnsUsedUp` if the host isn't done after the last turn. Any other failure ends the
/// run.
pub fn shared_run<L: Remembers, P: Learns>(
    alloc: Global,
    origin: &Origin,
    hosting: LoggedHost,
    clocks: &[i64],
    plan: &SharedPlan,
    log: &mut L,
    port: &mut P,
) -> Result<(), SharedFault>
    requires some { 1 ≤ origin.now.viewers }
    requires most { origin.now.viewers ≤ max_viewers }
    // Each datagram that was sent is of entries that the log had stored then, or that its base
    // stands for.
    ensures shown { (below : List EntryView) → IsTrue (L.is_clean log.new)
        → IsBelow origin.now.viewers origin.now.base below
        → hosting.mark ≡ origin.now.mark
        → IsOfLog origin.now.viewers (below ++ L.known log.old) hosting.part
        → ShowsFirst hosting.mark origin.now.viewers (below ++ L.known log.new)
        (P.told port.old) (P.told port.new) }
    ensures grows { IsTrue (L.is_clean log.new) → Begins (L.known log.old) (L.known log.new) }
    ensures clean { IsTrue (L.is_clean log.new) → IsTrue (L.is_clean log.old) }
    // Whatever a crash leaves has the entries that the log knows.
    ensures lasts { Last (L.may_leave log.old) (L.known log.old) → IsTrue (L.is_clean log.new)
        → Last (L.may_leave log.new) (L.known log.new) }
{
    turns(alloc, origin, hosting, clocks, plan, log, port)
}
