//! A turn of a host over a log.

ghost use Rattle.std.specs.Prelude.{◌≡◌, ◌≢◌, ◌+◌, ◌-◌, ◌^◌, ◌++◌, ◌≤◌, ℕ, List, [], Err, IfErr, IfOk};
ghost use Rattle.std.specs.Prelude.{IsTrue, OnErr, OnOk, is_ok, length, min, pos, ◌≤ℤ◌};
ghost use Rattle.share_entries.specs.Entry.{EntryView};
ghost use Rattle.share_store.specs.OneLog.{Last, max_entries};
ghost use Rattle.share_core.specs.Host.{AreNumbered};
ghost use Rattle.share_turns.specs.Exchanges.{AreSent};
ghost use Rattle.share_turns.specs.HostTurn.{bodies_for, datagrams_of};
ghost use Rattle.share_turns.specs.Heard.{nobody};
ghost use Rattle.share_turns.specs.Runs.{hosting as hosted};
ghost use Rattle.share_turns.specs.Told.{counted, passed};
ghost use Rattle.share_turns.specs.declared.fault.TurnFault.TheVariants as turn_fault;
ghost use Rattle.share_logged.specs.declared.fault.LoggedFault.TheVariants as logged_fault;
ghost use Rattle.share_logged.specs.Making.{IsOfLog};
ghost use Rattle.share_logged.specs.Notes.{AllNumbered, IsSentInTurn, sent_for_all};
ghost use Rattle.share_logged.specs.Resting.{IsRestedTurn, IsSettled};
ghost use Rattle.share_logged.specs.Shown.{Shows};
ghost use Rattle.share_logged.specs.Turn.{IsLoggedEnd, IsLoggedTurn, failures_after};

use crate::fault::LoggedFault;
use crate::gather::gather;
use crate::hosting::LoggedHost;
use crate::learning::Learns;
use crate::pending::{Note, Pending};
use share_core::Host;
use share_entries::Entry;
use share_store::{AppendFault, Log};
use share_turns::{Attendance, Heard, Port, PortFault, TurnFault, drop_counted, send_for};

/// Stores entries, if there are any.
fn store<L: Log>(log: &mut L, entries: &[Entry]) -> Result<(), AppendFault>
    requires open { IsTrue (L.is_open log.old) }
    requires most { length entries.now ≤ max_entries }
    ensures stored { OnOk result (IsTrue (L.is_clean log.new)
        → L.known log.new ≡ L.known log.old ++ entries.now) }
    ensures refused { OnErr result (IsTrue (L.is_clean log.new)
        → L.known log.new ≡ L.known log.old) }
    ensures some { OnErr result (entries.now ≢ []) }
    ensures open { OnOk result (IsTrue (L.is_open log.new)) }
    ensures clean { IsTrue (L.is_clean log.new) → IsTrue (L.is_clean log.old) }
    ensures lasts { Last (L.may_leave log.old) (L.known log.old) → IsTrue (L.is_clean log.new)
        → Last (L.may_leave log.new) (L.known log.new) }
{
    if entries.is_empty() {
        return Ok(());
    }
    log.append(entries)
}

/// Sends the answers to a datagram that was taken.
fn answer_one<P: Port>(host: &Host, note: &Note, port: &mut P) -> Result<(), PortFault>
    requires { AreNumbered host.now.part note.now.reply }
    ensures sent { AreSent (is_ok result) note.now.to (P.told port.old) (P.told port.new)
        (datagrams_of host.now.mark (bodies_for host.now.part note.now.sender note.now.reply)) }
    ensures failures { P.failure_count port.new ≡ counted result (P.failure_count port.old) }
    ensures time { P.rested port.new ≡ P.rested port.old }
{
    send_for(host, note.reply, note.sender, note.to, port)
}

/// Sends the answers to the datagrams that were taken.
fn answer_all<P: Port>(host: &Host, notes: &[Note], port: &mut P) -> Result<(), PortFault>
    requires { AllNumbered host.now.part notes.now }
    ensures sent { IsSentInTurn (is_ok result) (P.told port.old) (P.told port.new)
        (sent_for_all host.now.mark host.now.part notes.now) }
    ensures failures { P.failure_count port.new ≡ counted result (P.failure_count port.old) }
    ensures time { P.rested port.new ≡ P.rested port.old }
{
    for note in notes {
        answer_one(host, note, port)?;
    }
    Ok(())
}

/// Lets the port learn the entries that were stored, and then sends the answers to the datagrams
/// that were taken, like `answer_all`.
fn learn_and_answer<P: Learns>(
    host: &Host,
    pending: &Pending,
    port: &mut P,
) -> Result<(), PortFault>
    requires { AllNumbered host.now.part pending.now.notes.items }
    ensures sent { IsSentInTurn (is_ok result) (P.told port.old) (P.told port.new)
        (sent_for_all host.now.mark host.now.part pending.now.notes.items) }
    ensures failures { P.failure_count port.new ≡ counted result (P.failure_count port.old) }
    ensures time { P.rested port.new ≡ P.rested port.old }
{
    port.learn(pending.entries.as_slice())?;
    answer_all(host, pending.notes.as_slice(), port)
}

/// Sends the answers to the datagrams that were taken, like `learn_and_answer`.
fn answer<P: Learns>(host: &Host, pending: &Pending, port: &mut P) -> Result<(), LoggedFault>
    requires { AllNumbered host.now.part pending.now.notes.items }
    ensures sent { IsSentInTurn (is_ok result) (P.told port.old) (P.told port.new)
        (sent_for_all host.now.mark host.now.part pending.now.notes.items) }
    ensures fault { OnErr result (result ≡ Err (logged_fault.Turn turn_fault.Port)) }
    ensures failures { P.failure_count port.new
        ≡ failures_after result (P.failure_count port.old) }
    ensures time { P.rested port.new ≡ P.rested port.old }
{
    match learn_and_answer(host, pending, port) {
        Ok(()) => Ok(()),
        Err(_failed) => Err(LoggedFault::Turn(TurnFault::Port)),
    }
}

/// Runs a turn. What is numbered is stored before anything is sent. `last` is the time of the last
/// input.
fn turn<L: Log, P: Learns>(
    host: &mut Host,
    heard: &mut Heard,
    last: &mut i64,
    clock: Option<i64>,
    log: &mut L,
    port: &mut P,
) -> Result<(), LoggedFault>
    requires last { last.old ≡ host.old.part.last }
    requires from { pos 0 ≤ℤ last.old }
    requires open { IsTrue (L.is_open log.old) }
    ensures mark { host.new.mark ≡ host.old.mark }
    ensures last { OnOk result (last.new ≡ host.new.part.last) }
    ensures from { OnOk result (pos 0 ≤ℤ last.new) }
    ensures done { OnOk result (IsLoggedTurn host.old.mark clock (L.is_clean log.new)
        (L.known log.old) (L.known log.new) (P.told port.old) (P.told port.new) host.old.part
        host.new.part heard.old heard.new) }
    ensures ended { IfErr result (λ fault. IsLoggedEnd host.old.mark clock fault
        (L.is_clean log.new) (L.known log.old) (L.known log.new) (P.told port.old)
        (P.told port.new) host.old.part heard.old) }
    ensures open { OnOk result (IsTrue (L.is_open log.new)) }
    ensures clean { IsTrue (L.is_clean log.new) → IsTrue (L.is_clean log.old) }
    ensures lasts { Last (L.may_leave log.old) (L.known log.old) → IsTrue (L.is_clean log.new)
        → Last (L.may_leave log.new) (L.known log.new) }
    ensures failures { P.failure_count port.new
        ≡ failures_after result (P.failure_count port.old) }
    ensures time { P.rested port.new ≡ P.rested port.old }
{
    let mut pending = Pending::after(*last);
    gather(host, clock, heard, &mut pending, port)?;
    store(log, pending.entries.as_slice())?;
    *last = pending.last;
    answer(host, &pending, port)
}

/// Notes which viewers asked in a turn, drops the inputs that the host doesn't keep, as does the
/// port, and lets the port rest. Returns the milliseconds that passed, as the port counts them.
fn settle<P: Learns>(
    host: &mut Host,
    attendance: &mut Attendance,
    came: &Heard,
    keep: Option<u64>,
    is_new: bool,
    port: &mut P,
) -> u64
    ensures mark { host.new.mark ≡ host.old.mark }
    ensures last { host.new.part.last ≡ host.old.part.last }
    ensures settled { IsSettled keep came.now host.old.part host.new.part attendance.old
        attendance.new result }
    ensures clock { attendance.new.time ≡ min (attendance.old.time + result) (2 ^ 64 - 1) }
    ensures told { P.told port.new ≡ P.told port.old }
    ensures count { P.failure_count port.new ≡ P.failure_count port.old }
    ensures time { P.rested port.new ≡ P.rested port.old + result }
{
    attendance.note(came);
    drop_counted(host, attendance, keep);
    port.drop_below(host.floor());
    let millis = port.rest(is_new);
    attendance.pass(millis);
    millis
}

/// Runs a turn of a host over a log, and returns the host. First it numbers the clock, at a time in
/// microseconds, if there is one, and takes at most 64 datagrams, like `host_turn`. Then it appends
/// the entries of what it numbered to the log, at once. Only if they are stored the port learns
/// them, and the turn sends the answers to each datagram's peer, by what the host then holds: to an
/// ask the inputs that were asked for, or the floor if they are below it, and an ack; to an offer
/// an ack. At last it drops the inputs that it doesn't keep, like `drop_counted`, and lets the port
/// rest.
///
/// Fails with `Turn` and `Memory`, if memory was refused to a clock or to an offer, or `Port`, if a
/// receive failed: then nothing was stored and nothing was sent. Fails with `Log` if the log
/// refused the entries or didn't answer: then nothing was sent. Fails with `Turn` and `Port` if the
/// port didn't learn the entries, or a send failed: then the entries are stored. After each failure
/// the host is dropped, as it may be ahead of the log: read on, and begin again with `resume`.
pub fn logged_turn<L: Log, P: Learns>(
    hosting: LoggedHost,
    clock: Option<i64>,
    keep: Option<u64>,
    log: &mut L,
    port: &mut P,
) -> Result<LoggedHost, LoggedFault>
    requires open { IsTrue (L.is_open log.old) }
    ensures mark { IfOk result (λ h. h.mark ≡ hosting.mark) }
    ensures done { IfOk result (λ h. IsRestedTurn hosting.mark keep clock (L.is_clean log.new)
        (L.known log.old) (L.known log.new) (passed (P.told port.old) (P.rested port.old))
        (passed (P.told port.new) (P.rested port.new)) (hosted hosting.part hosting.attendance)
        (hosted h.part h.attendance)) }
    ensures ended { IfErr result (λ fault. IsLoggedEnd hosting.mark clock fault
        (L.is_clean log.new) (L.known log.old) (L.known log.new) (P.told port.old)
        (P.told port.new) hosting.part nobody) }
    // The host stays the one that the log's entries make, of which those `below` may be known by a
    // base alone.
    ensures current { IfOk result (λ h. (viewers : ℕ) (below : List EntryView)
        → IsTrue (L.is_clean log.new) → IsOfLog viewers (below ++ L.known log.old) hosting.part
        → IsOfLog viewers (below ++ L.known log.new) h.part) }
    // Each datagram that was sent is of entries that the log has stored.
    ensures shown { (viewers : ℕ) (below : List EntryView) → IsTrue (L.is_clean log.new)
        → IsOfLog viewers (below ++ L.known log.old) hosting.part
        → Shows hosting.mark viewers (below ++ L.known log.new) (P.told port.old)
        (P.told port.new) }
    ensures open { OnOk result (IsTrue (L.is_open log.new)) }
    ensures clean { IsTrue (L.is_clean log.new) → IsTrue (L.is_clean log.old) }
    // Whatever a crash leaves has the entries that the log knows.
    ensures lasts { Last (L.may_leave log.old) (L.known log.old) → IsTrue (L.is_clean log.new)
        → Last (L.may_leave log.new) (L.known log.new) }
    ensures time { OnErr result (P.rested port.new ≡ P.rested port.old) }
    ensures failures { P.failure_count port.new
        ≡ failures_after result (P.failure_count port.old) }
{
    let LoggedHost {
        mut host,
        mut attendance,
        mut last,
        rested,
    } = hosting;
    let before = host.len();
    let mut came = Heard::nobody();
    match turn(&mut host, &mut came, &mut last, clock, log, port) {
        Ok(()) => {
            let is_new = host.len() > before;
            let millis = settle(&mut host, &mut attendance, &came, keep, is_new, port);
            Ok(LoggedHost {
                host,
                attendance,
                last,
                rested: rested.saturating_add(millis),
            })
        }
        Err(fault) => {
            drop(host);
            Err(fault)
        }
    }
}
