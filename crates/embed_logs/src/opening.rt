//! Making a log in a file, and opening it again.

ghost use Rattle.std.specs.Prelude.{◌≡◌, ◌⊎◌, ◌<◌, [], IfErr, IfOk, IsTrue, None, OnOk, Ok, false, is_none};
ghost use Rattle.std.specs.Prelude.{length, true};
ghost use Rattle.x3d_values.specs.Ranges.{max_inputs};
ghost use Rattle.share_entries.specs.Head.{is_viewer_count};
ghost use Rattle.share_file.specs.Contents.{contents_of};
ghost use Rattle.share_file.specs.Keeping.{IsNew};
ghost use Rattle.share_file.specs.Making.{is_unmade};
ghost use Rattle.share_log.specs.Frames.{frames_of};
ghost use Rattle.share_store.specs.OneLog.{Last};
ghost use Rattle.embed_logs.specs.Opening.{IsNotOpened};
ghost use Rattle.embed_logs.specs.declared.fault.LogFileFault.TheVariants.{Device, HasBase, LogFull};
ghost use Rattle.embed_logs.specs.declared.fault.LogFileFault.TheVariants.{Memory, NotEmpty};

use crate::fault::{LogFileFault, fault_of_open};
use crate::held::EmbeddedLog;
use share_entries::Head;
use share_file::{Expected, FileLog, Opened, create};
use share_store::Log;
use sqlite_disk::Disk;
use std::alloc::Global;
use x3d_values::MAX_INPUTS;

/// A log that was opened.
#[derive(Drop)]
pub struct OpenedLog<L: Log> {
    pub log: EmbeddedLog<L>,
    /// How many bytes were cut after the last entry: those of an append that wasn't finished.
    pub cut: u64,
}

/// Makes a log of this head in a file that has none. The number of viewers must pass
/// `is_viewer_count`.
///
/// Fails with `NotEmpty`, unless the file is empty or the making of a log was cut off in it, or
/// with `Device` or `Memory`; and returns the disk.
pub fn make<D: Disk>(
    alloc: Global,
    disk: D,
    head: &Head,
) -> Result<EmbeddedLog<FileLog<D>>, (LogFileFault, D)>
    requires usable { IsTrue (D.is_usable disk) }
    requires viewers { IsTrue (is_viewer_count head.now.viewers) }
    ensures made { IfOk result (λ e. IsTrue (D.is_clean e.log.log.disk)
        → IsNew head.now (frames_of (D.seen e.log.log.disk))) }
    ensures head { IfOk result (λ e. e.head ≡ head.now) }
    ensures entries { IfOk result (λ e. e.entries.items ≡ []) }
    ensures open { IfOk result (λ e. e.is_open ≡ true) }
    ensures unmade { IfOk result (λ e. IsTrue (D.is_clean e.log.log.disk)
        → IsTrue (is_unmade (D.seen disk))) }
    ensures refused { IfErr result (λ f. (f.0 ≡ Device) ⊎ ((f.0 ≡ Memory)
        ⊎ ((f.0 ≡ NotEmpty) × (IsTrue (D.is_clean f.1) → is_unmade (D.seen disk) ≡ false)
        × (D.seen f.1 ≡ D.seen disk)))) }
{
    match create(alloc, disk, head) {
        Ok(log) => Ok(EmbeddedLog::of(log, *head, Vec::new(alloc))),
        Err((fault, disk)) => Err((fault_of_open(fault), disk)),
    }
}

/// Goes on with a log that was found, unless it has a base, or more entries than a world.
fn with_entries<D: Disk>(opened: Opened<D>) -> Result<OpenedLog<FileLog<D>>, (LogFileFault, D)>
    requires open { opened.log.is_open ≡ true }
    requires known { IsTrue (D.is_clean opened.log.log.disk)
        → ⟦<FileLog<D> as share_store::Log>⟧.known opened.log ≡ opened.entries.items }
    ensures log { IfOk result (λ o. o.log.log ≡ opened.log) }
    ensures head { IfOk result (λ o. o.log.head ≡ opened.head) }
    ensures entries { IfOk result (λ o. o.log.entries.items ≡ opened.entries.items) }
    ensures cut { IfOk result (λ o. o.cut ≡ opened.cut) }
    ensures open { IfOk result (λ o. o.log.is_open ≡ true) }
    ensures lasts { IfOk result (λ o. IsTrue (D.is_clean o.log.log.log.disk)
        → Last (⟦<FileLog<D> as share_store::Log>⟧.may_leave o.log.log) o.log.entries.items) }
    ensures base { OnOk result (opened.base ≡ None) }
    ensures refused { IfErr result (λ f. ((f.0 ≡ HasBase) × (is_none opened.base ≡ false))
        ⊎ ((f.0 ≡ LogFull) × (max_inputs < length opened.entries.items))) }
    ensures disk { IfErr result (λ f. f.1 ≡ opened.log.log.disk) }
{
    let Opened {
        log,
        head,
        base,
        entries,
        cut,
    } = opened;
    if base.is_some() {
        drop(entries);
        return Err((LogFileFault::HasBase, log.into_disk()));
    }
    if entries.len() > MAX_INPUTS as usize {
        drop(entries);
        return Err((LogFileFault::LogFull, log.into_disk()));
    }
    let log = EmbeddedLog::of(log, head, entries);
    Ok(OpenedLog { log, cut })
}

/// Opens the log of a file, in whatever state a crash left it, and cuts what it left after the last
/// entry.
///
/// Fails with the first fault of the file, with `HasBase` if its first entries are known by a base
/// alone, with `LogFull` if it has more entries than a world, or with `Device` or `Memory`; and returns the disk.
pub fn open<D: Disk>(
    alloc: Global,
    disk: D,
    expected: &Expected,
) -> Result<OpenedLog<FileLog<D>>, (LogFileFault, D)>
    requires { IsTrue (D.is_usable disk) }
    // The log is the one that the file has.
    ensures found { IfOk result (λ o. IsTrue (D.is_clean o.log.log.log.disk)
        → contents_of expected.now (D.seen disk) ≡ Ok (record {
          head = o.log.head;
          base = None;
          entries = o.log.entries.items;
          cut = o.cut;
        })) }
    ensures open { IfOk result (λ o. o.log.is_open ≡ true) }
    // Whatever a crash leaves has its entries.
    ensures lasts { IfOk result (λ o. IsTrue (D.is_clean o.log.log.log.disk)
        → Last (⟦<FileLog<D> as share_store::Log>⟧.may_leave o.log.log) o.log.entries.items) }
    ensures refused { IfErr result (λ f. IsTrue (D.is_clean f.1)
        → IsNotOpened (contents_of expected.now (D.seen disk)) f.0) }
{
    match share_file::open(alloc, disk, expected) {
        Ok(opened) => with_entries(opened),
        Err((fault, disk)) => Err((fault_of_open(fault), disk)),
    }
}
