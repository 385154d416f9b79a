//! A log of the first inputs of another.

ghost use Rattle.std.specs.Prelude.{◌≡◌, ◌⊎◌, ◌++◌, ◌<◌, ◌≤◌, IfErr, IfOk, IsTrue, OnErr, OnOk, Ok, length};
ghost use Rattle.share_file.specs.Contents.{FileView};
ghost use Rattle.share_logged.specs.Making.{IsLogOf};
ghost use Rattle.share_store.specs.OneLog.{Last, max_entries};
ghost use Rattle.app_logs.specs.Recalling.{IsNoWholeLog, first_of, log_in};
ghost use Rattle.app_logs.specs.declared.fault.LogFault.TheVariants.{BadHead, Device, LogFull};
ghost use Rattle.app_logs.specs.declared.fault.LogFault.TheVariants.{Memory as NoMemory, NotEmpty};

use crate::beginning::{Begun, make_log};
use crate::fault::{LogFault, append_fault_of};
use crate::recalling::{first_of, whole_in};
use share_entries::{Entry, Head, MAX_ENTRIES, is_viewer_count};
use share_file::FileLog;
use share_store::{AppendFault, Log};
use sqlite_disk::Disk;
use std::alloc::Global;

/// Appends at most `MAX_ENTRIES` entries to a log, or none.
fn append_some<L: Log>(log: &mut L, entries: &[Entry]) -> Result<(), AppendFault>
    requires open { IsTrue (L.is_open log.old) }
    requires most { length entries.now ≤ max_entries }
    ensures stored { OnOk result (IsTrue (L.is_clean log.new)
        → L.known log.new ≡ L.known log.old ++ entries.now) }
    ensures open { OnOk result (IsTrue (L.is_open log.new)) }
    ensures clean { IsTrue (L.is_clean log.new) → IsTrue (L.is_clean log.old) }
    ensures lasts { Last (L.may_leave log.old) (L.known log.old) → IsTrue (L.is_clean log.new)
        → Last (L.may_leave log.new) (L.known log.new) }
{
    if entries.is_empty() {
        return Ok(());
    }
    log.append(entries)
}

/// Appends entries to a log, `MAX_ENTRIES` at a time.
pub(crate) fn append_all<L: Log>(log: &mut L, entries: &[Entry]) -> Result<(), AppendFault>
    requires open { IsTrue (L.is_open log.old) }
    ensures stored { OnOk result (IsTrue (L.is_clean log.new)
        → L.known log.new ≡ L.known log.old ++ entries.now) }
    ensures some { OnErr result (0 < length entries.now) }
    ensures open { OnOk result (IsTrue (L.is_open log.new)) }
    ensures clean { IsTrue (L.is_clean log.new) → IsTrue (L.is_clean log.old) }
    ensures lasts { Last (L.may_leave log.old) (L.known log.old) → IsTrue (L.is_clean log.new)
        → Last (L.may_leave log.new) (L.known log.new) }
{
    let mut stored = 0;
    for _frame in 0..entries.len() {
        let end = entries.len().min(stored + MAX_ENTRIES);
        append_some(log, &entries[stored..end])?;
        stored = end;
    }
    Ok(())
}

/// Makes a log of these entries in a file that has none.
fn log_of<D: Disk + Drop>(
    alloc: Global,
    disk: D,
    head: &Head,
    entries: &[Entry],
) -> Result<FileLog<D>, LogFault>
    requires { IsTrue (D.is_usable disk) }
    ensures made { IfOk result (λ log. IsTrue (⟦<FileLog<D> as share_store::Log>⟧.is_clean log)
        → ⟦<FileLog<D> as share_store::Log>⟧.known log ≡ entries.now) }
    ensures lasts { IfOk result (λ log. IsTrue (⟦<FileLog<D> as share_store::Log>⟧.is_clean log)
        → Last (⟦<FileLog<D> as share_store::Log>⟧.may_leave log)
        (⟦<FileLog<D> as share_store::Log>⟧.known log)) }
    ensures refused { IfErr result (λ fault. (fault ≡ NoMemory) ⊎ ((fault ≡ Device)
        ⊎ ((fault ≡ NotEmpty) ⊎ ((fault ≡ LogFull) ⊎ (fault ≡ BadHead))))) }
{
    if !is_viewer_count(head.viewers) {
        return Err(LogFault::BadHead);
    }
    match make_log(alloc, disk, head) {
        Ok(begun) => {
            let Begun {
                mut log,
                hosting,
                entries: none,
                ..
            } = begun;
            drop(hosting);
            drop(none);
            match append_all(&mut log, entries) {
                Ok(()) => Ok(log),
                Err(fault) => Err(append_fault_of(fault)),
            }
        }
        Err((fault, _disk)) => Err(fault),
    }
}

/// Makes a log in a file that has none: of the first `until` inputs of the log that these bytes
/// are, or of all. It has the other log's scene and viewers, and this run.
///
/// Fails like `recalled`, with `NotEmpty` unless the file is empty or the making of a log was cut
/// off in it, or with `Device`; then the log may have some of the inputs.
pub fn restored<D: Disk + Drop>(
    alloc: Global,
    disk: D,
    bytes: &[u8],
    until: Option<u64>,
    run: [u8; 16],
) -> Result<FileLog<D>, LogFault>
    requires { IsTrue (D.is_usable disk) }
    ensures made { IfOk result (λ log. (found : FileView) × (log_in bytes.now ≡ Ok found)
        × IsLogOf found.head.viewers found.entries
        × (IsTrue (⟦<FileLog<D> as share_store::Log>⟧.is_clean log)
        → ⟦<FileLog<D> as share_store::Log>⟧.known log ≡ first_of until found.entries)) }
    // Whatever a crash leaves has these entries.
    ensures lasts { IfOk result (λ log. IsTrue (⟦<FileLog<D> as share_store::Log>⟧.is_clean log)
        → Last (⟦<FileLog<D> as share_store::Log>⟧.may_leave log)
        (⟦<FileLog<D> as share_store::Log>⟧.known log)) }
    ensures refused { IfErr result (λ fault. ((fault ≡ NoMemory) ⊎ ((fault ≡ Device)
        ⊎ ((fault ≡ NotEmpty) ⊎ ((fault ≡ LogFull) ⊎ (fault ≡ BadHead)))))
        ⊎ IsNoWholeLog bytes.now fault) }
{
    let found = match whole_in(alloc, bytes) {
        Ok(found) => found,
        Err(fault) => {
            drop(disk);
            return Err(fault);
        }
    };
    let head = Head { run, ..found.head };
    let made = log_of(alloc, disk, &head, first_of(&found.entries, until));
    drop(found);
    made
}
