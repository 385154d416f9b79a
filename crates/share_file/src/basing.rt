//! Making a log that goes on from a base.

ghost use Rattle.std.specs.Prelude.{◌≡◌, ◌⊎◌, ◌<◌, ◌^◌, [], Some, true, false, length, IfOk, IfErr, IsTrue, Ok};
ghost use Rattle.share_entries.specs.Base.{base_in, base_text};
ghost use Rattle.share_entries.specs.Head.{is_viewer_count};
ghost use Rattle.share_log.specs.Frames.{frames_of};
ghost use Rattle.share_log.specs.Log.{IsReady, OpensTo};
ghost use Rattle.share_file.specs.declared.fault.OpenFault.TheVariants.{Device, Memory, NotEmpty};
ghost use Rattle.share_entries.specs.Start.{start_of};
ghost use Rattle.share_file.specs.Keeping.{IsNew, IsNewWithBase};
ghost use Rattle.share_file.specs.Making.{is_unmade};

use crate::append::FileLog;
use crate::fault::OpenFault;
use crate::known::Known;
use crate::making::create;
use share_entries::{Base, Head, base_bytes, start_at};
use sqlite_disk::Disk;
use std::alloc::Global;

/// Appends the payload of a base to a log that has a head and nothing else.
fn append_base<D: Disk>(
    alloc: Global,
    log: share_log::Log<D>,
    head: &Head,
    base: &Base,
    payload: &[u8],
) -> Result<FileLog<D>, (OpenFault, D)>
    requires ready { IsReady D.seen D.may_leave D.is_usable D.is_clean log }
    requires made { IsTrue (D.is_clean log.disk) → IsNew head.now (frames_of (D.seen log.disk)) }
    requires seats { length base.now.kept ≡ head.now.viewers }
    requires text { payload.now ≡ base_text base.now }
    requires again { base_in payload.now ≡ Some base.now }
    requires some { 0 < length payload.now }
    requires short { length payload.now < 2 ^ 16 }
    ensures made { IfOk result (λ f. IsTrue (D.is_clean f.log.disk)
        → IsNewWithBase head.now base.now (frames_of (D.seen f.log.disk))) }
    ensures known { IfOk result (λ f. IsTrue (D.is_clean f.log.disk)
        → ⟦<FileLog<D> as share_store::Log>⟧.known f ≡ []) }
    ensures start { IfOk result (λ f. f.start ≡ start_of head.now (Some base.now)) }
    ensures open { IfOk result (λ f. f.is_open ≡ true) }
    ensures stored { IfOk result (λ f. IsTrue (D.is_clean f.log.disk)
        → OpensTo (D.may_leave f.log.disk) (frames_of (D.seen f.log.disk))) }
    ensures fault { IfErr result (λ f. (f.0 ≡ Device) ⊎ (f.0 ≡ Memory)) }
    ensures clean { IfOk result (λ f. IsTrue (D.is_clean f.log.disk)
        → IsTrue (D.is_clean log.disk)) }
{
    let mut log = log;
    let number = log.count;
    match log.append(alloc, number, payload) {
        Ok(()) => {
            let known = Known {
                entries: Vec::new(alloc),
                chain: base.chain(),
            };
            Ok(FileLog::new(alloc, log, start_at(base), &known))
        }
        Err(fault) => Err((OpenFault::from(fault), log.disk)),
    }
}

/// Adds the base to a log that was made.
fn with_base<D: Disk>(
    alloc: Global,
    log: FileLog<D>,
    head: &Head,
    base: &Base,
) -> Result<FileLog<D>, (OpenFault, D)>
    requires open { IsTrue log.is_open }
    requires made { IsTrue (D.is_clean log.log.disk)
        → IsNew head.now (frames_of (D.seen log.log.disk)) }
    requires seats { length base.now.kept ≡ head.now.viewers }
    ensures made { IfOk result (λ f. IsTrue (D.is_clean f.log.disk)
        → IsNewWithBase head.now base.now (frames_of (D.seen f.log.disk))) }
    ensures known { IfOk result (λ f. IsTrue (D.is_clean f.log.disk)
        → ⟦<FileLog<D> as share_store::Log>⟧.known f ≡ []) }
    ensures start { IfOk result (λ f. f.start ≡ start_of head.now (Some base.now)) }
    ensures open { IfOk result (λ f. f.is_open ≡ true) }
    ensures stored { IfOk result (λ f. IsTrue (D.is_clean f.log.disk)
        → OpensTo (D.may_leave f.log.disk) (frames_of (D.seen f.log.disk))) }
    ensures fault { IfErr result (λ f. (f.0 ≡ Device) ⊎ (f.0 ≡ Memory)) }
    ensures clean { IfOk result (λ f. IsTrue (D.is_clean f.log.disk)
        → IsTrue (D.is_clean log.log.disk)) }
{
    let Ok(payload) = base_bytes(alloc, base) else {
        return Err((OpenFault::Memory, log.into_disk()));
    };
    append_base(alloc, log.into_frames(), head, base, &payload)
}

/// Makes a log that goes on from a base, in a file of which `is_unmade` holds, as `create` does.
/// The base must keep something of each viewer of the head.
///
/// Fails as `create` does. At `Device` and `Memory` the file may have the head, and also the base.
pub fn create_with_base<D: Disk>(
    alloc: Global,
    disk: D,
    head: &Head,
    base: &Base,
) -> Result<FileLog<D>, (OpenFault, D)>
    requires usable { IsTrue (D.is_usable disk) }
    requires viewers { IsTrue (is_viewer_count head.now.viewers) }
    requires seats { length base.now.kept ≡ head.now.viewers }
    // The file is a log of this head and of this base, and of nothing else.
    ensures made { IfOk result (λ f. IsTrue (D.is_clean f.log.disk)
        → IsNewWithBase head.now base.now (frames_of (D.seen f.log.disk))) }
    ensures known { IfOk result (λ f. IsTrue (D.is_clean f.log.disk)
        → ⟦<FileLog<D> as share_store::Log>⟧.known f ≡ []) }
    ensures start { IfOk result (λ f. f.start ≡ start_of head.now (Some base.now)) }
    ensures open { IfOk result (λ f. f.is_open ≡ true) }
    // Whatever a crash leaves has the same frames.
    ensures stored { IfOk result (λ f. IsTrue (D.is_clean f.log.disk)
        → OpensTo (D.may_leave f.log.disk) (frames_of (D.seen f.log.disk))) }
    // There was no log in the file, and nothing else; and that alone is refused.
    ensures unmade { IfOk result (λ f. IsTrue (D.is_clean f.log.disk)
        → IsTrue (is_unmade (D.seen disk))) }
    ensures fault { IfErr result (λ f. (f.0 ≡ Device) ⊎ ((f.0 ≡ Memory)
        ⊎ ((f.0 ≡ NotEmpty) × (IsTrue (D.is_clean f.1) → is_unmade (D.seen disk) ≡ false)
        × (D.seen f.1 ≡ D.seen disk)))) }
{
    match create(alloc, disk, head) {
        Ok(log) => with_base(alloc, log, head, base),
        Err(failed) => Err(failed),
    }
}
