//! A log that begins with a base.

ghost use Rattle.std.specs.Prelude.{◌≡◌, ◌≢◌, ◌⊎◌, ◌-◌, ◌<◌, [], IfErr, IfOk, IsTrue, Ok, Some, drop, false, length};
ghost use Rattle.share_entries.specs.Head.{is_viewer_count};
ghost use Rattle.share_file.specs.Contents.{FileView};
ghost use Rattle.share_entries.specs.Start.{start_of};
ghost use Rattle.share_file.specs.Keeping.{IsNewWithBase};
ghost use Rattle.share_file.specs.Making.{is_unmade};
ghost use Rattle.share_log.specs.Frames.{frames_of};
ghost use Rattle.share_log.specs.Log.{OpensTo};
ghost use Rattle.share_store.specs.OneLog.{Last};
ghost use Rattle.app_logs.specs.Info.{below_of};
ghost use Rattle.app_logs.specs.Recalling.{IsNoLog, log_in};
ghost use Rattle.app_logs.specs.declared.fault.LogFault.TheVariants.{BadHead, Device, Memory};
ghost use Rattle.app_logs.specs.declared.fault.LogFault.TheVariants.{LogFull, NotEmpty, WrongSeats};

use crate::fault::{LogFault, append_fault_of, open_fault_of};
use crate::info::below_of;
use crate::recalling::found_in;
use crate::restoring::append_all;
use share_entries::{Base, Entry, Head, is_viewer_count};
use share_file::{FileLog, create_with_base};
use sqlite_disk::Disk;
use std::alloc::Global;

/// Makes a log of this head that begins with a base and has no entries, in a file that has none.
///
/// Fails with `BadHead` if the head's number of viewers isn't one, `WrongSeats` if the base is of
/// another number of viewers, `NotEmpty`, unless the file is empty or the making of a log was cut
/// off in it, or with `Device` or `Memory`; and returns the disk.
fn make_bare<D: Disk>(
    alloc: Global,
    disk: D,
    head: &Head,
    base: &Base,
) -> Result<FileLog<D>, (LogFault, D)>
    requires usable { IsTrue (D.is_usable disk) }
    ensures made { IfOk result (λ f. IsTrue (D.is_clean f.log.disk)
        → IsNewWithBase head.now base.now (frames_of (D.seen f.log.disk))) }
    // Whatever a crash leaves is that log.
    ensures stored { IfOk result (λ f. IsTrue (D.is_clean f.log.disk)
        → OpensTo (D.may_leave f.log.disk) (frames_of (D.seen f.log.disk))) }
    ensures known { IfOk result (λ f. IsTrue (D.is_clean f.log.disk)
        → ⟦<FileLog<D> as share_store::Log>⟧.known f ≡ []) }
    ensures start { IfOk result (λ f. f.start ≡ start_of head.now (Some base.now)) }
    ensures open { IfOk result (λ f. IsTrue (⟦<FileLog<D> as share_store::Log>⟧.is_open f)) }
    ensures unmade { IfOk result (λ f. IsTrue (D.is_clean f.log.disk)
        → IsTrue (is_unmade (D.seen disk))) }
    ensures refused { IfErr result (λ f. (f.0 ≡ Device) ⊎ ((f.0 ≡ Memory)
        ⊎ (((f.0 ≡ NotEmpty) × (IsTrue (D.is_clean f.1) → is_unmade (D.seen disk) ≡ false)
        × (D.seen f.1 ≡ D.seen disk))
        ⊎ (((f.0 ≡ BadHead) × (is_viewer_count head.now.viewers ≡ false) × (f.1 ≡ disk))
        ⊎ ((f.0 ≡ WrongSeats) × (length base.now.kept ≢ head.now.viewers)
        × (f.1 ≡ disk)))))) }
{
    if !is_viewer_count(head.viewers) {
        return Err((LogFault::BadHead, disk));
    }
    if base.kept().len() != usize::from(head.viewers) {
        return Err((LogFault::WrongSeats, disk));
    }
    match create_with_base(alloc, disk, head, base) {
        Ok(log) => Ok(log),
        Err((fault, disk)) => Err((open_fault_of(fault), disk)),
    }
}

/// Makes a log of this head in a file that has none, which begins with a base and has these entries
/// after it. It is the log whose base it is, without the entries below: a host goes on with either.
///
/// Fails with `BadHead` if the head's number of viewers isn't one, `WrongSeats` if the base is of
/// another number of viewers, `NotEmpty`, unless the file is empty or the making of a log was cut
/// off in it, or with `LogFull`, `Device` or `Memory`: then the log may have some of the entries.
pub fn make_log_from<D: Disk + Drop>(
    alloc: Global,
    disk: D,
    head: &Head,
    base: &Base,
    entries: &[Entry],
) -> Result<FileLog<D>, LogFault>
    requires usable { IsTrue (D.is_usable disk) }
    ensures made { IfOk result (λ log. IsTrue (⟦<FileLog<D> as share_store::Log>⟧.is_clean log)
        → ⟦<FileLog<D> as share_store::Log>⟧.known log ≡ entries.now) }
    ensures start { IfOk result (λ log. log.start ≡ start_of head.now (Some base.now)) }
    // Whatever a crash leaves has these entries.
    ensures lasts { IfOk result (λ log. IsTrue (⟦<FileLog<D> as share_store::Log>⟧.is_clean log)
        → Last (⟦<FileLog<D> as share_store::Log>⟧.may_leave log)
        (⟦<FileLog<D> as share_store::Log>⟧.known log)) }
    ensures open { IfOk result
        (λ log. IsTrue (⟦<FileLog<D> as share_store::Log>⟧.is_open log)) }
    // The disk is dropped, so what is said of `NotEmpty` is of disks of which no read ever lies.
    ensures refused { IfErr result (λ fault. (fault ≡ Device) ⊎ ((fault ≡ Memory)
        ⊎ (((fault ≡ LogFull) × (0 < length entries.now))
        ⊎ (((fault ≡ NotEmpty)
        × (((d : D) → IsTrue (D.is_clean d)) → is_unmade (D.seen disk) ≡ false))
        ⊎ (((fault ≡ BadHead) × (is_viewer_count head.now.viewers ≡ false))
        ⊎ ((fault ≡ WrongSeats) × (length base.now.kept ≢ head.now.viewers))))))) }
{
    let mut log = match make_bare(alloc, disk, head, base) {
        Ok(log) => log,
        Err((fault, _disk)) => return Err(fault),
    };
    let start = log.start();
    if let Err(fault) = append_all(&mut log, entries) {
        drop(log);
        return Err(append_fault_of(fault));
    }
    // What is said of any log's appends doesn't say that its start stays.
    if log.start() != start {
        drop(log);
        return Err(LogFault::Device);
    }
    Ok(log)
}

/// Returns the entries of the log that these bytes are, those after this number.
///
/// Fails with `BadHead` or `LogDamaged` if the bytes are no log, or with `Memory`.
pub fn entries_after(alloc: Global, bytes: &[u8], number: u64) -> Result<Vec<Entry>, LogFault>
    ensures found { IfOk result (λ v. (found : FileView) × (log_in bytes.now ≡ Ok found)
        × (v.items ≡ drop (number - below_of found.base) found.entries)) }
    ensures refused { IfErr result (λ fault. (fault ≡ Memory) ⊎ IsNoLog bytes.now fault) }
{
    let found = found_in(alloc, bytes)?;
    let gone = number.saturating_sub(below_of(&found.base));
    let first = gone.min(found.entries.len() as u64) as usize;
    Ok(Vec::from_slice(alloc, &found.entries[first..])?)
}
