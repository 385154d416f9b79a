//! Turns of a host over a log, one after another.

ghost use Rattle.std.specs.Prelude.{◌≡◌, IfErr, IfOk, IsTrue, OnErr, OnOk, false, is_none, slice_get, true};
ghost use Rattle.share_store.specs.OneLog.{Last};
ghost use Rattle.share_logged.specs.Turn.{failures_after};
ghost use Rattle.share_turns.specs.Runs.{hosting as hosted, is_over};
ghost use Rattle.share_turns.specs.Told.{passed};
ghost use Rattle.app_logs.specs.Clocks.{clock_for, due_after, first_due, beat_clock};
ghost use Rattle.app_logs.specs.Hosting.{IsLastTurn, IsLogRun, IsLogRunEnd, IsTaken, failures_in};
ghost use Rattle.app_logs.specs.Hosting.{moment};
ghost use Rattle.app_logs.specs.declared.fault.RunFault.TheVariants.{TurnsUsedUp};

use crate::clocks::{Beat, clock_for, due_after, first_due};
use crate::fault::RunFault;
use share_logged::{Learns, LoggedFault, LoggedHost, logged_turn};
use share_store::Log;
use share_turns::HostPlan;

/// What a host over a log does, and when it is done.
#[derive(Clone, Copy, Debug, PartialEq, Eq)]
pub struct LogPlan {
    /// What it keeps of its inputs, and when it is done.
    pub host: HostPlan,
    /// The clocks that it makes.
    pub beat: Beat,
    /// The limit of turns. With 2^64 - 1 it is never reached.
    pub turns: u64,
}

/// Returns the item at a place, counted from 0, if there is one.
fn item_at<T: Copy>(items: &[T], place: u64) -> Option<T>
    ensures { result ≡ slice_get items.now place }
{
    items.get(place as usize).copied()
}

/// Returns the clock of a turn of the host, given that of the job.
#[tactic(auto, using(crate::proofs::Passed::passed))]
fn next_clock(hosting: &LoggedHost, job: Option<i64>, beat: &Beat, due: u64) -> Option<i64>
    ensures { result ≡ clock_for job (beat_clock beat.now.every beat.now.base hosting.now.part.last
        due hosting.now.attendance.time) }
{
    clock_for(job, beat, hosting.last(), due, hosting.rested())
}

/// Returns when the next clock of the beat is due, after a turn of the host with this clock of the
/// job.
fn next_due(hosting: &LoggedHost, job: Option<i64>, every: Option<u32>, due: u64) -> u64
    ensures { result ≡ due_after job every due hosting.now.attendance.time }
{
    due_after(job, every, due, hosting.rested())
}

/// Runs a turn.
fn taken_turn<L: Log, P: Learns>(
    hosting: LoggedHost,
    clock: Option<i64>,
    keep: Option<u64>,
    log: &mut L,
    port: &mut P,
) -> Result<LoggedHost, LoggedFault>
    requires open { IsTrue (L.is_open log.old) }
    ensures mark { IfOk result (λ h. h.mark ≡ hosting.mark) }
    ensures done { IfOk result (λ h. IsTaken hosting.mark keep clock (L.is_clean log.old)
        (L.is_clean log.new) (L.known log.old) (L.known log.new)
        (passed (P.told port.old) (P.rested port.old))
        (passed (P.told port.new) (P.rested port.new))
        (hosted hosting.part hosting.attendance) (hosted h.part h.attendance)) }
    ensures ended { IfErr result (λ fault. IsLastTurn hosting.mark clock fault (L.is_clean log.old)
        (L.is_clean log.new) (L.known log.old) (L.known log.new)
        (passed (P.told port.old) (P.rested port.old))
        (passed (P.told port.new) (P.rested port.new)) hosting.part) }
    ensures open { OnOk result (IsTrue (L.is_open log.new)) }
    ensures clean { IsTrue (L.is_clean log.new) → IsTrue (L.is_clean log.old) }
    ensures lasts { Last (L.may_leave log.old) (L.known log.old) → IsTrue (L.is_clean log.new)
        → Last (L.may_leave log.new) (L.known log.new) }
    ensures failures { P.failure_count port.new
        ≡ failures_after result (P.failure_count port.old) }
{
    logged_turn(hosting, clock, keep, log, port)
}

/// Returns the result of a host that has taken all its turns and isn't done.
fn used_up(until: Option<u64>) -> Result<(), RunFault>
    ensures ok { OnOk result (is_none until ≡ true) }
    ensures err { IfErr result (λ fault. (fault ≡ TurnsUsedUp) × (is_none until ≡ false)) }
{
    if until.is_none() {
        Ok(())
    } else {
        Err(RunFault::TurnsUsedUp)
    }
}

/// Runs turns of a host over a log, until it is done as `plan` says; all of them, if `plan` names
/// no number of inputs. Each turn numbers the next of the clocks, at times in microseconds, until
/// there are no more, and then those of the beat. What a turn numbers is stored before anything is
/// sent; then the host drops the inputs that `plan` doesn't keep.
///
/// Fails with `TurnsUsedUp` if the host isn't done after the last turn. A turn that ends early ends
/// the run.
pub fn log_run<L: Log, P: Learns>(
    hosting: LoggedHost,
    clocks: &[i64],
    plan: &LogPlan,
    log: &mut L,
    port: &mut P,
) -> Result<(), RunFault>
    requires open { IsTrue (L.is_open log.old) }
    ensures done { OnOk result (IsLogRun hosting.mark clocks.now plan.now
        (moment (hosted hosting.part hosting.attendance) (first_due plan.now.beat.every)
        (L.known log.old) (L.is_clean log.old) (passed (P.told port.old) (P.rested port.old)))
        (L.known log.new) (L.is_clean log.new) (passed (P.told port.new) (P.rested port.new))) }
    ensures ended { IfErr result (λ fault. IsLogRunEnd hosting.mark clocks.now plan.now
        (moment (hosted hosting.part hosting.attendance) (first_due plan.now.beat.every)
        (L.known log.old) (L.is_clean log.old) (passed (P.told port.old) (P.rested port.old)))
        fault (L.known log.new) (L.is_clean log.new)
        (passed (P.told port.new) (P.rested port.new))) }
    // Whatever a crash leaves has the entries that the log knows.
    ensures lasts { Last (L.may_leave log.old) (L.known log.old) → IsTrue (L.is_clean log.new)
        → Last (L.may_leave log.new) (L.known log.new) }
    ensures failures { P.failure_count port.new ≡ failures_in result (P.failure_count port.old) }
{
    let mut current = hosting;
    let mut due = first_due(plan.beat.every);
    for turn in 0..plan.turns {
        if current.is_over(&plan.host) {
            drop(current);
            return Ok(());
        }
        let job = item_at(clocks, turn);
        let clock = next_clock(&current, job, &plan.beat, due);
        due = next_due(&current, job, plan.beat.every, due);
        current = taken_turn(current, clock, plan.host.keep, log, port)?;
    }
    let over = current.is_over(&plan.host);
    drop(current);
    if over {
        return Ok(());
    }
    used_up(plan.host.until)
}
