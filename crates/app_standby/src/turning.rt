//! A turn of a host over a shared log.

ghost use Rattle.std.specs.Prelude.{◌≡◌, ◌++◌, ℕ, IfOk, IsTrue, List, OnErr, ⊤};
ghost use Rattle.share_entries.specs.Entry.{EntryView};
ghost use Rattle.share_store.specs.OneLog.{Last};
ghost use Rattle.app_standby.specs.State.{IsMarked, IsNowOf, after_fault};
ghost use Rattle.app_standby.specs.Steps.{Goes, moment};
ghost use Rattle.app_standby.specs.declared.state.Now.TheVariants.{Hosting};

use crate::fault::SharedFault;
use crate::pace::Pace;
use crate::plan::SharedPlan;
use crate::state::Now;
use share_logged::{Learns, LoggedFault, LoggedHost, logged_turn};
use share_store::{AppendFault, Log};
use share_turns::Port;

/// Goes on without the host after a turn that ended early, if the log has other entries or is in
/// doubt.
fn after_fault(fault: LoggedFault) -> Result<Now, SharedFault>
    ensures { result ≡ after_fault fault }
{
    match fault {
        LoggedFault::Log(AppendFault::Taken) => Ok(Now::Behind),
        LoggedFault::Log(AppendFault::InDoubt) => Ok(Now::Behind),
        fault => Err(SharedFault::Turn(fault)),
    }
}

/// Runs a turn of the host.
fn turn<L: Log, P: Learns>(
    clocks: &[i64],
    plan: &SharedPlan,
    hosting: LoggedHost,
    pace: &mut Pace,
    log: &mut L,
    port: &mut P,
) -> Result<Now, SharedFault>
    requires open { IsTrue (L.is_open log.old) }
    ensures mark { IfOk result (λ after. IsMarked hosting.mark after) }
    ensures goes { IfOk result (λ after. (mark : List ℕ) (viewers : ℕ) (below : List EntryView)
        → Goes mark viewers
        (moment (below ++ L.known log.old) (L.is_clean log.old) (P.told port.old))
        (moment (below ++ L.known log.new) (L.is_clean log.new) (P.told port.new))
        (IsNowOf mark viewers (below ++ L.known log.old) (Hosting hosting))
        (IsNowOf mark viewers (below ++ L.known log.new) after)) }
    ensures ended { OnErr result ((mark : List ℕ) (viewers : ℕ) (below : List EntryView)
        → Goes mark viewers
        (moment (below ++ L.known log.old) (L.is_clean log.old) (P.told port.old))
        (moment (below ++ L.known log.new) (L.is_clean log.new) (P.told port.new))
        (IsNowOf mark viewers (below ++ L.known log.old) (Hosting hosting)) ⊤) }
    ensures lasts { Last (L.may_leave log.old) (L.known log.old) → IsTrue (L.is_clean log.new)
        → Last (L.may_leave log.new) (L.known log.new) }
{
    let next = pace.next(clocks, plan, hosting.last());
    let before = hosting.rested();
    match logged_turn(hosting, next.clock, plan.host.keep, log, port) {
        Ok(after) => {
            pace.due = next.due;
            pace.place = next.place;
            pace.pass(after.rested().saturating_sub(before));
            Ok(Now::Hosting(after))
        }
        Err(fault) => after_fault(fault),
    }
}

/// Lets the port rest.
fn wait<P: Port>(pace: &mut Pace, port: &mut P)
    ensures told { P.told port.new ≡ P.told port.old }
{
    let millis = port.rest(false);
    pace.pass(millis);
}

/// Runs a turn if there is a host and the log takes appends; else the port rests. `clocks` are
/// those of the job, in microseconds. Goes on without the host if the log has other entries or is
/// in doubt.
///
/// Fails with `Turn` if the turn ended early otherwise; the host is then dropped.
pub fn act<L: Log, P: Learns>(
    clocks: &[i64],
    plan: &SharedPlan,
    now: Now,
    pace: &mut Pace,
    log: &mut L,
    port: &mut P,
) -> Result<Now, SharedFault>
    ensures mark { IfOk result
        (λ after. (mark : List ℕ) → IsMarked mark now → IsMarked mark after) }
    ensures goes { IfOk result (λ after. (mark : List ℕ) (viewers : ℕ) (below : List EntryView)
        → Goes mark viewers
        (moment (below ++ L.known log.old) (L.is_clean log.old) (P.told port.old))
        (moment (below ++ L.known log.new) (L.is_clean log.new) (P.told port.new))
        (IsNowOf mark viewers (below ++ L.known log.old) now)
        (IsNowOf mark viewers (below ++ L.known log.new) after)) }
    ensures ended { OnErr result ((mark : List ℕ) (viewers : ℕ) (below : List EntryView)
        → Goes mark viewers
        (moment (below ++ L.known log.old) (L.is_clean log.old) (P.told port.old))
        (moment (below ++ L.known log.new) (L.is_clean log.new) (P.told port.new))
        (IsNowOf mark viewers (below ++ L.known log.old) now) ⊤) }
    ensures lasts { Last (L.may_leave log.old) (L.known log.old) → IsTrue (L.is_clean log.new)
        → Last (L.may_leave log.new) (L.known log.new) }
{
    match now {
        Now::Hosting(hosting) => {
            if log.takes_appends() {
                return turn(clocks, plan, hosting, pace, log, port);
            }
            wait(pace, port);
            Ok(Now::Hosting(hosting))
        }
        Now::Behind => {
            wait(pace, port);
            Ok(Now::Behind)
        }
    }
}
