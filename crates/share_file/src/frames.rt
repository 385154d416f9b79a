//! One append to the frames of a log: the entries of a frame.

ghost use Rattle.std.specs.Prelude.{◌≡◌, ◌≢◌, ◌⊎◌, ◌+◌, ◌<◌, ◌≤◌, ◌^◌, ◌++◌, [], ◌∷◌, ℕ, List, length, IsTrue, IsErrOf, OnOk, Ok, Err};
ghost use Rattle.share_log.specs.Frames.{frames_of};
ghost use Rattle.share_log.specs.Log.{IsReady, OpensTo};
ghost use Rattle.share_file.specs.Keeping.{IsMore, OldOrMore};

use share_entries::{Chain, Entry, frame_bytes};
use share_log::{Log, LogFault};
use share_store::AppendFault;
use sqlite_disk::Disk;
use std::alloc::Global;

/// Appends a frame of these entries, of which the first has this number, after a log with this
/// chain. Fails with `InDoubt` if the disk failed, and with `Full` and `Memory` without writing
/// anything.
pub(crate) fn append_frame<D: Disk>(
    alloc: Global,
    log: &mut Log<D>,
    chain: &Chain,
    first: u64,
    entries: &[Entry],
) -> Result<(), AppendFault>
    requires ready { IsReady D.seen D.may_leave D.is_usable D.is_clean log.old }
    requires most { length entries.now ≤ 977 }
    ensures ready { OnOk result (IsReady D.seen D.may_leave D.is_usable D.is_clean log.new) }
    ensures added { OnOk result (IsTrue (D.is_clean log.new.disk)
        → IsMore chain.now first entries.now (frames_of (D.seen log.old.disk)) (frames_of
        (D.seen log.new.disk))) }
    ensures any_crash { IsTrue (D.is_clean log.new.disk) → (c : List ℕ) → D.may_leave log.new.disk c
        → OldOrMore chain.now first entries.now (frames_of (D.seen log.old.disk)) (frames_of c) }
    ensures taken { IsErrOf result AppendFault.Taken → ⊥ }
    ensures memory { IsErrOf result AppendFault.Memory → log.new ≡ log.old }
    ensures full { IsErrOf result AppendFault.Full → log.new ≡ log.old }
    ensures clean { D.is_clean log.new.disk ≡ D.is_clean log.old.disk }
{
    let Ok(payload) = frame_bytes(alloc, chain, first, entries) else {
        return Err(AppendFault::Memory);
    };
    let number = log.count;
    match log.append(alloc, number, &payload) {
        Ok(()) => Ok(()),
        Err(LogFault::Taken) => unreachable!(),
        Err(LogFault::Full) => Err(AppendFault::Full),
        Err(LogFault::Memory) => Err(AppendFault::Memory),
        Err(LogFault::Device) => Err(AppendFault::InDoubt),
    }
}
