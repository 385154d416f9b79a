//! An append, a crash of the machine, and the opening after it, as one theorem.

ghost use Rattle.std.specs.Prelude.{◌≡◌, ◌⊎◌, ◌≤◌, ◌++◌, length, IfOk, IfErr, IsTrue, OnOk, Ok};
ghost use Rattle.share_store.specs.OneLog.{max_entries};
ghost use Rattle.share_file.specs.declared.fault.OpenFault.TheVariants.{Device, Memory};
ghost use Rattle.share_file.specs.Contents.{FileView, contents_of};

use crate::append::FileLog;
use crate::contents::Expected;
use crate::fault::OpenFault;
use crate::opening::{Opened, open};
use share_entries::Entry;
use share_store::AppendFault;
use sqlite_disk::Crash;
use std::alloc::Global;

/// What an append answered before a crash, and what opening answered after it.
#[derive(Drop)]
pub struct Restarted<D: Crash> {
    pub answer: Result<(), AppendFault>,
    pub opened: Result<Opened<D>, (OpenFault, D)>,
}

/// Appends, whatever the answer, loses power, and opens the log again. Over a `Fuse`, the append
/// stops at any call.
pub fn append_and_restart<D: Crash>(
    alloc: Global,
    log: FileLog<D>,
    entries: &[Entry],
    expected: &Expected,
) -> Restarted<D>
    requires open { IsTrue log.is_open }
    requires most { length entries.now ≤ max_entries }

    // What is opened has what the log had, or this and the new entries, whole.
    ensures whole { IfOk result.opened (λ o. IsTrue (D.Disk.is_clean o.log.log.disk)
        → (o.entries.items ≡ ⟦<FileLog<D> as share_store::Log>⟧.known log)
        ⊎ (o.entries.items ≡ ⟦<FileLog<D> as share_store::Log>⟧.known log ++ entries.now)) }

    // It has the new entries, if the append answered `Ok`.
    ensures acknowledged { OnOk result.answer (IfOk result.opened (λ o. IsTrue
        (D.Disk.is_clean o.log.log.disk)
        → o.entries.items ≡ ⟦<FileLog<D> as share_store::Log>⟧.known log ++ entries.now)) }

    // And then the file is opened, if it was one before.
    ensures opened { OnOk result.answer (IfErr result.opened (λ f. IsTrue (D.Disk.is_clean f.1)
        → (v : FileView) → contents_of expected.now (D.Disk.seen log.log.disk) ≡ Ok v
        → (f.0 ≡ Device) ⊎ (f.0 ≡ Memory))) }
{
    let mut log = log;
    let answer = log.store(entries);
    let mut disk = log.into_disk();
    disk.crash();
    let opened = open(alloc, disk, expected);
    Restarted { answer, opened }
}
