//! A host that makes a log, or goes on with one.

ghost use Rattle.std.specs.Prelude.{◌≡◌, ◌⊎◌, [], IfErr, IfOk, IsTrue, None, OnOk, Ok, false};
ghost use Rattle.share_entries.specs.Head.{is_viewer_count};
ghost use Rattle.share_file.specs.Contents.{contents_of};
ghost use Rattle.share_file.specs.Keeping.{IsNew};
ghost use Rattle.share_file.specs.Making.{is_unmade};
ghost use Rattle.share_log.specs.Frames.{frames_of};
ghost use Rattle.share_store.specs.OneLog.{Last};
ghost use Rattle.app_logs.specs.Beginning.{AreWritten, GoesOnWith, IsNotBegun, IsNotResumed};
ghost use Rattle.app_logs.specs.Beginning.{host_with};
ghost use Rattle.app_logs.specs.declared.fault.LogFault.TheVariants.{Device, Memory, NotEmpty};

use crate::fault::{LogFault, open_fault_of};
use share_entries::{Base, Entry, Head, is_viewer_count};
use share_file::{Expected, FileLog, Opened, create, open};
use share_logged::{LoggedHost, resume, resume_from};
use sqlite_disk::Disk;
use std::alloc::Global;

/// A host over the log of a file.
#[derive(Drop)]
pub struct Begun<D: Disk> {
    pub log: FileLog<D>,
    pub hosting: LoggedHost,
    pub head: Head,
    /// How many bytes were cut after the last entry.
    pub cut: u64,
    /// What stands for its first entries, if it has a base.
    pub base: Option<Base>,
    /// The entries that the log had, or those after its base.
    pub entries: Vec<Entry>,
}

/// Creates the host that the entries of a log with this head make, or its base and the entries
/// after it.
///
/// Fails with `BadHead` if the head's number of viewers isn't one, with `NotALog` and the number of
/// the first entry that no host of its viewers wrote there, or with `Memory`.
pub fn resumed(
    alloc: Global,
    head: &Head,
    base: &Option<Base>,
    entries: &[Entry],
) -> Result<LoggedHost, LogFault>
    ensures host { IfOk result (GoesOnWith head.now base.now entries.now) }
    ensures log { OnOk result (AreWritten head.now.viewers base.now entries.now) }
    ensures refused { IfErr result (IsNotResumed head.now.viewers base.now entries.now) }
{
    if !is_viewer_count(head.viewers) {
        return Err(LogFault::BadHead);
    }
    match base {
        None => Ok(resume(alloc, head.mark, head.viewers, entries)?),
        Some(base) => Ok(resume_from(alloc, head.mark, base, entries)?),
    }
}

/// Creates the host of a log that was opened.
fn with_host<D: Disk>(alloc: Global, opened: Opened<D>) -> Result<Begun<D>, (LogFault, D)>
    requires { IsTrue (⟦<FileLog<D> as share_store::Log>⟧.is_open opened.log) }
    ensures log { IfOk result (λ b. b.log ≡ opened.log) }
    ensures head { IfOk result (λ b. b.head ≡ opened.head) }
    ensures cut { IfOk result (λ b. b.cut ≡ opened.cut) }
    ensures base { IfOk result (λ b. b.base ≡ opened.base) }
    ensures host { IfOk result
        (λ b. GoesOnWith opened.head opened.base opened.entries.items b.hosting) }
    ensures made { OnOk result
        (AreWritten opened.head.viewers opened.base opened.entries.items) }
    ensures entries { IfOk result (λ b. b.entries.items ≡ opened.entries.items) }
    // Whatever a crash leaves has the entries that the log knows.
    ensures lasts { IfOk result (λ b. IsTrue (⟦<FileLog<D> as share_store::Log>⟧.is_clean b.log)
        → Last (⟦<FileLog<D> as share_store::Log>⟧.may_leave b.log)
        (⟦<FileLog<D> as share_store::Log>⟧.known b.log)) }
    ensures refused { IfErr result
        (λ f. IsNotResumed opened.head.viewers opened.base opened.entries.items f.0) }
    ensures disk { IfErr result (λ f. f.1 ≡ opened.log.log.disk) }
{
    let Opened {
        log,
        head,
        base,
        entries,
        cut,
    } = opened;
    match resumed(alloc, &head, &base, &entries) {
        Ok(hosting) => Ok(Begun {
            log,
            hosting,
            head,
            cut,
            base,
            entries,
        }),
        Err(fault) => {
            drop(entries);
            Err((fault, log.into_disk()))
        }
    }
}

/// Goes on with the log of a file, in whatever state a crash left it: creates the host that its
/// entries make, or its base and the entries after it. What a crash left after them is cut.
///
/// Fails with the first fault of the file, with `NotALog` and the number of the first entry that no
/// host of its viewers wrote there, or with `Device` or `Memory`; and returns the disk.
pub fn go_on<D: Disk>(
    alloc: Global,
    disk: D,
    expected: &Expected,
) -> Result<Begun<D>, (LogFault, D)>
    requires { IsTrue (D.is_usable disk) }
    // The log is the one that the file has.
    ensures found { IfOk result (λ b. IsTrue (⟦<FileLog<D> as share_store::Log>⟧.is_clean b.log)
        → contents_of expected.now (D.seen disk) ≡ Ok (record {
          head = b.head;
          base = b.base;
          entries = ⟦<FileLog<D> as share_store::Log>⟧.known b.log;
          cut = b.cut;
        })) }
    // The host goes on with what the log has, and its entries are those of a host.
    ensures host { IfOk result (λ b. IsTrue (⟦<FileLog<D> as share_store::Log>⟧.is_clean b.log)
        → GoesOnWith b.head b.base (⟦<FileLog<D> as share_store::Log>⟧.known b.log) b.hosting) }
    ensures made { IfOk result (λ b. IsTrue (⟦<FileLog<D> as share_store::Log>⟧.is_clean b.log)
        → AreWritten b.head.viewers b.base (⟦<FileLog<D> as share_store::Log>⟧.known b.log)) }
    ensures entries { IfOk result (λ b. IsTrue (⟦<FileLog<D> as share_store::Log>⟧.is_clean b.log)
        → b.entries.items ≡ ⟦<FileLog<D> as share_store::Log>⟧.known b.log) }
    // Whatever a crash leaves has the entries that the log knows.
    ensures lasts { IfOk result (λ b. IsTrue (⟦<FileLog<D> as share_store::Log>⟧.is_clean b.log)
        → Last (⟦<FileLog<D> as share_store::Log>⟧.may_leave b.log)
        (⟦<FileLog<D> as share_store::Log>⟧.known b.log)) }
    ensures open { IfOk result
        (λ b. IsTrue (⟦<FileLog<D> as share_store::Log>⟧.is_open b.log)) }
    ensures refused { IfErr result (λ f. IsTrue (D.is_clean f.1)
        → IsNotBegun (contents_of expected.now (D.seen disk)) f.0) }
{
    match open(alloc, disk, expected) {
        Ok(opened) => with_host(alloc, opened),
        Err((fault, disk)) => Err((open_fault_of(fault), disk)),
    }
}

/// Makes a log of this head in a file that has none, and the host of its viewers. The number of
/// viewers must pass `is_viewer_count`.
///
/// Fails with `NotEmpty`, unless the file is empty or the making of a log was cut off in it, or
/// with `Device` or `Memory`; and returns the disk.
pub fn make_log<D: Disk>(alloc: Global, disk: D, head: &Head) -> Result<Begun<D>, (LogFault, D)>
    requires usable { IsTrue (D.is_usable disk) }
    requires viewers { IsTrue (is_viewer_count head.now.viewers) }
    ensures made { IfOk result (λ b. IsTrue (D.is_clean b.log.log.disk)
        → IsNew head.now (frames_of (D.seen b.log.log.disk))) }
    ensures known { IfOk result (λ b. IsTrue (⟦<FileLog<D> as share_store::Log>⟧.is_clean b.log)
        → ⟦<FileLog<D> as share_store::Log>⟧.known b.log ≡ []) }
    ensures host { IfOk result (λ b. b.hosting ≡ host_with head.now []) }
    ensures head { IfOk result (λ b. b.head ≡ head.now) }
    ensures none { IfOk result (λ b. (b.base ≡ None) × (b.cut ≡ 0)) }
    ensures entries { IfOk result (λ b. b.entries.items ≡ []) }
    // Whatever a crash leaves has the entries that the log knows.
    ensures lasts { IfOk result (λ b. IsTrue (⟦<FileLog<D> as share_store::Log>⟧.is_clean b.log)
        → Last (⟦<FileLog<D> as share_store::Log>⟧.may_leave b.log)
        (⟦<FileLog<D> as share_store::Log>⟧.known b.log)) }
    ensures open { IfOk result
        (λ b. IsTrue (⟦<FileLog<D> as share_store::Log>⟧.is_open b.log)) }
    ensures unmade { IfOk result (λ b. IsTrue (D.is_clean b.log.log.disk)
        → IsTrue (is_unmade (D.seen disk))) }
    ensures refused { IfErr result (λ f. (f.0 ≡ Device) ⊎ ((f.0 ≡ Memory)
        ⊎ ((f.0 ≡ NotEmpty) × (IsTrue (D.is_clean f.1) → is_unmade (D.seen disk) ≡ false)
        × (D.seen f.1 ≡ D.seen disk)))) }
{
    match create(alloc, disk, head) {
        Ok(log) => with_new_host(alloc, log, head),
        Err((fault, disk)) => Err((open_fault_of(fault), disk)),
    }
}

/// Creates the host of a log that was made.
fn with_new_host<D: Disk>(
    alloc: Global,
    log: FileLog<D>,
    head: &Head,
) -> Result<Begun<D>, (LogFault, D)>
    requires viewers { IsTrue (is_viewer_count head.now.viewers) }
    requires open { IsTrue (⟦<FileLog<D> as share_store::Log>⟧.is_open log) }
    ensures log { IfOk result (λ b. b.log ≡ log) }
    ensures host { IfOk result (λ b. b.hosting ≡ host_with head.now []) }
    ensures head { IfOk result (λ b. b.head ≡ head.now) }
    ensures none { IfOk result (λ b. (b.base ≡ None) × (b.cut ≡ 0)) }
    ensures entries { IfOk result (λ b. b.entries.items ≡ []) }
    // Whatever a crash leaves has the entries that the log knows.
    ensures lasts { IfOk result (λ b. IsTrue (⟦<FileLog<D> as share_store::Log>⟧.is_clean b.log)
        → Last (⟦<FileLog<D> as share_store::Log>⟧.may_leave b.log)
        (⟦<FileLog<D> as share_store::Log>⟧.known b.log)) }
    ensures refused { IfErr result (λ f. f.0 ≡ Memory) }
{
    match resumed(alloc, head, &None, &[]) {
        Ok(hosting) => Ok(Begun {
            log,
            hosting,
            head: *head,
            cut: 0,
            base: None,
            entries: Vec::new(alloc),
        }),
        Err(_fault) => Err((LogFault::Memory, log.into_disk())),
    }
}
