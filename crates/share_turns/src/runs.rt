//! Turns of the host, one after another.

ghost use Rattle.std.specs.Prelude.{◌≡◌, Err, IfErr, OnErr, OnOk, false, is_none, slice_get, true};
ghost use Rattle.share_turns.specs.HostTurn.{IsHostTurn, failures_after};
ghost use Rattle.share_turns.specs.Runs.{AreHosted, IsHostEnd, IsKeptTurn, dropped_below, hosting};
ghost use Rattle.share_turns.specs.Runs.{is_over, kept_by, kept_for, next_floor};
ghost use Rattle.share_turns.specs.Told.{passed};
ghost use Rattle.share_turns.specs.Views.{failures_in};
ghost use Rattle.share_turns.specs.declared.fault.SeriesFault.TheVariants.{TurnsUsedUp};

use crate::attendance::Attendance;
use crate::ends::{floor_for, is_done};
use crate::fault::{SeriesFault, TurnFault};
use crate::heard::Heard;
use crate::host::hearing_turn;
use crate::port::Port;
use share_core::Host;

/// What a host keeps of its inputs, and when it is done.
#[derive(Clone, Copy, Debug, PartialEq, Eq)]
pub struct HostPlan {
    /// How many inputs it keeps of those that every viewer it counts has asked past. Without a
    /// number it keeps all of them.
    pub keep: Option<u64>,
    /// How many inputs must be numbered, and asked past by every viewer it counts, once it has
    /// heard of one. Without a number the host takes all its turns.
    pub until: Option<u64>,
}

/// Returns the item at a place, counted from 0, if there is one.
pub(crate) fn item_at<T: Copy>(items: &[T], place: u32) -> Option<T>
    ensures { result ≡ slice_get items.now place }
{
    items.get(place as usize).copied()
}

/// Returns the floor that follows from what was heard, if one does.
fn next_floor(host: &Host, keep: Option<u64>, lowest: Option<u64>) -> Option<u64>
    ensures { result ≡ next_floor keep lowest host.now.part }
{
    let Some(keep) = keep else {
        return None;
    };
    let Some(lowest) = lowest else {
        return None;
    };
    Some(floor_for(keep, lowest, host.floor(), host.len()))
}

/// Drops the inputs below the floor that follows from this number, if one does.
fn drop_to(host: &mut Host, keep: Option<u64>, lowest: Option<u64>)
    ensures mark { host.new.mark ≡ host.old.mark }
    ensures part { host.new.part
        ≡ dropped_below (next_floor keep lowest host.old.part) host.old.part }
{
    let Some(floor) = next_floor(host, keep, lowest) else {
        return;
    };
    let _floor = host.drop_below(floor);
}

/// Drops the inputs that every viewer the host heard of has asked past, except the last `keep` of
/// them. Drops nothing without `keep`, or if the host has heard of no viewer.
pub fn drop_passed(host: &mut Host, heard: &Heard, keep: Option<u64>)
    ensures mark { host.new.mark ≡ host.old.mark }
    ensures part { host.new.part ≡ kept_by keep heard.now host.old.part }
{
    drop_to(host, keep, heard.lowest());
}

/// Drops the inputs that every viewer the host counts has asked past, except the last `keep` of
/// them. Drops nothing without `keep`, if the host counts no viewer, or before inputs may be
/// dropped.
pub fn drop_counted(host: &mut Host, attendance: &Attendance, keep: Option<u64>)
    ensures mark { host.new.mark ≡ host.old.mark }
    ensures part { host.new.part ≡ kept_for keep attendance.now host.old.part }
{
    let lowest = attendance.lowest_dropped(host.viewers());
    drop_to(host, keep, lowest);
}

/// Runs a turn, drops the inputs that the host doesn't keep, and lets the port rest.
fn kept_turn<P: Port>(
    host: &mut Host,
    clock: Option<i64>,
    attendance: &mut Attendance,
    keep: Option<u64>,
    port: &mut P,
) -> Result<(), TurnFault>
    ensures mark { host.new.mark ≡ host.old.mark }
    ensures done { OnOk result (IsKeptTurn host.old.mark keep clock
        (passed (P.told port.old) (P.rested port.old))
        (passed (P.told port.new) (P.rested port.new))
        (hosting host.old.part attendance.old) (hosting host.new.part attendance.new)) }
    ensures ended { IfErr result (λ fault. IsHostTurn (Err fault) host.old.mark clock
        (P.told port.old) (P.told port.new) host.old.part host.new.part) }
    ensures time { OnErr result (P.rested port.new ≡ P.rested port.old) }
    ensures failures { P.failure_count port.new
        ≡ failures_after result (P.failure_count port.old) }
{
    let before = host.len();
    let mut came = Heard::nobody();
    hearing_turn(host, clock, &mut came, port)?;
    attendance.note(&came);
    drop_counted(host, attendance, keep);
    attendance.pass(port.rest(host.len() > before));
    Ok(())
}

/// Reports whether the host has heard of a viewer and numbered the inputs that `plan` requires, and
/// all viewers that it counts have asked past them.
pub fn is_over(host: &Host, attendance: &Attendance, plan: &HostPlan) -> bool
    ensures { result ≡ is_over plan.now (hosting host.now.part attendance.now) }
{
    let is_any = attendance.is_any_heard();
    is_done(plan.until, is_any, attendance.lowest(), host.len())
}

/// Returns the result of a host that has taken all its turns and isn't done.
fn used_up(plan: &HostPlan) -> Result<(), SeriesFault>
    ensures ok { OnOk result (is_none plan.now.until ≡ true) }
    ensures err { IfErr result (λ fault. (fault ≡ TurnsUsedUp)
        × (is_none plan.now.until ≡ false)) }
{
    if plan.until.is_none() {
        Ok(())
    } else {
        Err(SeriesFault::TurnsUsedUp)
    }
}

/// Runs at most `turns` turns of the host, until it is done as `plan` says; all of them, if `plan`
/// names no number of inputs. Each turn numbers the next of the clocks, at times in microseconds,
/// until there are no more, and then drops the inputs that `plan` doesn't keep.
///
/// Fails with `TurnsUsedUp` if the host isn't done after the last turn. A turn that ends early ends
/// the run: with `Port` if a send or a receive failed, or `Memory` if memory was refused to a clock
/// or to an offer.
pub fn host_run<P: Port>(
    host: &mut Host,
    clocks: &[i64],
    plan: &HostPlan,
    turns: u32,
    port: &mut P,
) -> Result<(), SeriesFault>
    ensures mark { host.new.mark ≡ host.old.mark }
    ensures done { OnOk result (AreHosted host.old.mark clocks.now plan.now turns
        (passed (P.told port.old) (P.rested port.old))
        (passed (P.told port.new) (P.rested port.new)) host.old.part host.new.part) }
    ensures ended { IfErr result (λ fault. IsHostEnd host.old.mark clocks.now plan.now turns
        (passed (P.told port.old) (P.rested port.old))
        (passed (P.told port.new) (P.rested port.new)) host.old.part fault host.new.part) }
    ensures failures { P.failure_count port.new
        ≡ failures_in result (P.failure_count port.old) }
{
    let mut attendance = Attendance::new();
    for turn in 0..turns {
        if is_over(host, &attendance, plan) {
            return Ok(());
        }
        kept_turn(
            host,
            item_at(clocks, turn),
            &mut attendance,
            plan.keep,
            port,
        )?;
    }
    if is_over(host, &attendance, plan) {
        return Ok(());
    }
    used_up(plan)
}
