//! Making a log.

ghost use Rattle.std.specs.Prelude.{◌≡◌, ◌⊎◌, ◌+◌, ◌<◌, ◌≤◌, ◌^◌, ◌∷◌, [], ℕ, List, Option, None, Some, true, false, length, IfOk, IfErr, IsTrue, OnOk, OnErr, Ok, IsErrOf, nat_le, slice_index};
ghost use Rattle.sqlite_disk.specs.Disk.{Only};
ghost use Rattle.share_entries.specs.Head.{head_in, is_viewer_count};
ghost use Rattle.share_log.specs.Frames.{frames_of};
ghost use Rattle.share_log.specs.Log.{IsReady};
ghost use Rattle.share_store.specs.OneLog.{Last};
ghost use Rattle.share_file.specs.declared.fault.OpenFault.TheVariants.{Device, Memory, NotEmpty};
ghost use Rattle.share_entries.specs.Start.{start_of};
ghost use Rattle.share_file.specs.Entries.{entries_among, start_among};
ghost use Rattle.share_file.specs.Keeping.{IsNew};
ghost use Rattle.share_file.specs.Making.{BeginsOrWas, IsBegun, IsGated, is_unmade, made_size};

use crate::append::FileLog;
use crate::fault::OpenFault;
use crate::known::Known;
use crate::opening::read_tail;
use share_entries::{Head, Start, head_bytes};
use sqlite_disk::Disk;
use std::alloc::Global;
use std::io;

/// The bytes of a head's frame, and the gate after it.
const MADE: usize = 68;

/// Reports whether a file of these bytes is empty, or one in which the making of a log was cut off.
fn is_unmade(bytes: &[u8]) -> bool
    ensures { result ≡ is_unmade bytes.now }
{
    if bytes.len() <= 1 {
        return true;
    }
    bytes[0] == 0 && bytes.len() <= MADE
}

/// Reads a file in which a log is to be made, and writes nothing. Returns whether it has at most
/// one byte. Fails with `NotEmpty` unless `is_unmade` holds of its bytes.
fn look_at<D: Disk>(alloc: Global, disk: &mut D) -> Result<bool, OpenFault>
    requires { IsTrue (D.is_usable disk.old) }
    ensures usable { OnOk result (IsTrue (D.is_usable disk.new)) }
    ensures unmade { OnOk result (IsTrue (D.is_clean disk.new)
        → IsTrue (is_unmade (D.seen disk.old))) }
    ensures blank { IfOk result (λ is_blank. IsTrue (D.is_clean disk.new)
        → is_blank ≡ nat_le (length (D.seen disk.old)) 1) }
    ensures fault { IfErr result (λ e. (e ≡ Device) ⊎ ((e ≡ Memory)
        ⊎ ((e ≡ NotEmpty) × (IsTrue (D.is_clean disk.new)
        → is_unmade (D.seen disk.old) ≡ false)))) }
    ensures seen { D.seen disk.new ≡ D.seen disk.old }
    ensures durable { OnOk result (Only (D.seen disk.new) (D.may_leave disk.new)) }
    ensures crash { (c : List ℕ) → D.may_leave disk.new c → D.may_leave disk.old c }
    ensures clean { IsTrue (D.is_clean disk.new) → IsTrue (D.is_clean disk.old) }
{
    disk.sync()?;
    if disk.len()? > MADE {
        return Err(OpenFault::NotEmpty);
    }
    let bytes = read_tail(alloc, disk, 0)?;
    if !is_unmade(&bytes) {
        return Err(OpenFault::NotEmpty);
    }
    Ok(bytes.len() <= 1)
}

/// Writes a shut gate in a file of at most one byte.
fn shut<D: Disk>(disk: &mut D) -> io::Result<()>
    requires usable { IsTrue (D.is_usable disk.old) }
    requires short { IsTrue (D.is_clean disk.old) → length (D.seen disk.old) ≤ 1 }
    requires durable { Only (D.seen disk.old) (D.may_leave disk.old) }
    ensures usable { OnOk result (IsTrue (D.is_usable disk.new)) }
    ensures bare { OnOk result (IsTrue (D.is_clean disk.new) → D.seen disk.new ≡ 0 ∷ []) }
    ensures durable { OnOk result (Only (D.seen disk.new) (D.may_leave disk.new)) }
    ensures crash { IsTrue (D.is_clean disk.new) → (c : List ℕ) → D.may_leave disk.new c
        → IsTrue (is_unmade c) }
    ensures clean { D.is_clean disk.new ≡ D.is_clean disk.old }
{
    disk.write_at(0, &[0])?;
    disk.sync()
}

/// Cuts what is after the gate that a file begins with.
fn cut<D: Disk>(disk: &mut D) -> io::Result<()>
    requires usable { IsTrue (D.is_usable disk.old) }
    requires gated { IsTrue (D.is_clean disk.old) → IsGated (D.seen disk.old) }
    requires durable { Only (D.seen disk.old) (D.may_leave disk.old) }
    ensures usable { OnOk result (IsTrue (D.is_usable disk.new)) }
    ensures bare { OnOk result (IsTrue (D.is_clean disk.new) → D.seen disk.new ≡ 0 ∷ []) }
    ensures durable { OnOk result (Only (D.seen disk.new) (D.may_leave disk.new)) }
    ensures crash { IsTrue (D.is_clean disk.new) → (c : List ℕ) → D.may_leave disk.new c
        → IsTrue (is_unmade c) }
    ensures clean { D.is_clean disk.new ≡ D.is_clean disk.old }
{
    disk.set_len(1)?;
    disk.sync()
}

/// Leaves one shut gate in a file of which `is_unmade` holds.
fn clear<D: Disk>(disk: &mut D, is_blank: bool) -> io::Result<()>
    requires usable { IsTrue (D.is_usable disk.old) }
    requires unmade { IsTrue (D.is_clean disk.old) → IsTrue (is_unmade (D.seen disk.old)) }
    requires blank { IsTrue (D.is_clean disk.old) → is_blank ≡ nat_le (length (D.seen disk.old)) 1 }
    requires durable { Only (D.seen disk.old) (D.may_leave disk.old) }
    ensures usable { OnOk result (IsTrue (D.is_usable disk.new)) }
    ensures bare { OnOk result (IsTrue (D.is_clean disk.new) → D.seen disk.new ≡ 0 ∷ []) }
    ensures durable { OnOk result (Only (D.seen disk.new) (D.may_leave disk.new)) }
    ensures crash { IsTrue (D.is_clean disk.new) → (c : List ℕ) → D.may_leave disk.new c
        → IsTrue (is_unmade c) }
    ensures clean { D.is_clean disk.new ≡ D.is_clean disk.old }
{
    if is_blank { shut(disk) } else { cut(disk) }
}

/// Leaves one shut gate in a file in which a log is to be made. Returns the first payload of the
/// log.
fn prepare<D: Disk>(alloc: Global, disk: &mut D, head: &Head) -> Result<Vec<u8>, OpenFault>
    requires usable { IsTrue (D.is_usable disk.old) }
    requires viewers { IsTrue (is_viewer_count head.now.viewers) }
    ensures usable { OnOk result (IsTrue (D.is_usable disk.new)) }
    ensures payload { IfOk result (λ v. (head_in v.items ≡ Ok head.now) × (length v.items ≡ 64)) }
    ensures unmade { OnOk result (IsTrue (D.is_clean disk.new)
        → IsTrue (is_unmade (D.seen disk.old))) }
    ensures bare { OnOk result (IsTrue (D.is_clean disk.new) → D.seen disk.new ≡ 0 ∷ []) }
    ensures durable { OnOk result (Only (D.seen disk.new) (D.may_leave disk.new)) }
    ensures fault { IfErr result (λ e. (e ≡ Device) ⊎ ((e ≡ Memory)
        ⊎ ((e ≡ NotEmpty) × (IsTrue (D.is_clean disk.new)
        → is_unmade (D.seen disk.old) ≡ false) × (D.seen disk.new ≡ D.seen disk.old)))) }
    ensures crash { IsTrue (D.is_clean disk.new)
        → BeginsOrWas head.now (D.may_leave disk.old) (D.may_leave disk.new) }
    ensures clean { IsTrue (D.is_clean disk.new) → IsTrue (D.is_clean disk.old) }
{
    let payload = head_bytes(alloc, head)?;
    let is_blank = look_at(alloc, disk)?;
    clear(disk, is_blank)?;
    Ok(payload)
}

/// Writes the head as the first frame of a file that has a shut gate alone.
fn begin<D: Disk>(
    alloc: Global,
    disk: D,
    head: &Head,
    payload: &[u8],
) -> Result<FileLog<D>, (OpenFault, D)>
    requires usable { IsTrue (D.is_usable disk) }
    requires bare { IsTrue (D.is_clean disk) → D.seen disk ≡ 0 ∷ [] }
    requires durable { Only (D.seen disk) (D.may_leave disk) }
    requires head { head_in payload.now ≡ Ok head.now }
    requires len { length payload.now ≡ 64 }
    ensures made { IfOk result (λ f. IsTrue (D.is_clean f.log.disk)
        → frames_of (D.seen f.log.disk) ≡ payload.now ∷ []) }
    ensures known { IfOk result (λ f. IsTrue (D.is_clean f.log.disk)
        → ⟦<FileLog<D> as share_store::Log>⟧.known f ≡ []) }
    ensures start { IfOk result (λ f. f.start ≡ start_of head.now None) }
    ensures open { IfOk result (λ f. f.is_open ≡ true) }
    ensures fault { IfErr result (λ f. (f.0 ≡ Device) ⊎ (f.0 ≡ Memory)) }
    ensures crash { IfErr result (λ f. IsTrue (D.is_clean f.1) → (c : List ℕ) → D.may_leave f.1 c
        → slice_index c 0 ≤ 1 → IsBegun head.now c) }
    ensures clean { IfOk result (λ f. IsTrue (D.is_clean f.log.disk) → IsTrue (D.is_clean disk)) }
    ensures clean_err { IfErr result (λ f. IsTrue (D.is_clean f.1) → IsTrue (D.is_clean disk)) }
{
    let mut log = share_log::Log {
        disk,
        count: 0,
        end: 0,
    };
    match log.append(alloc, 0, payload) {
        Ok(()) => {
            let known = Known {
                entries: Vec::new(alloc),
                chain: head.run,
            };
            let start = Start {
                below: 0,
                chain: head.run,
            };
            Ok(FileLog::new(alloc, log, start, &known))
        }
        Err(fault) => Err((OpenFault::from(fault), log.disk)),
    }
}

/// Makes a log without entries in a file that is empty, or in which the making of a log was cut
/// off: `is_unmade` holds of its bytes. The number of viewers must pass `is_viewer_count`.
///
/// Fails with `Device`, `NotEmpty` or `Memory`, and the disk. At `NotEmpty` nothing was written.
pub fn create<D: Disk>(alloc: Global, disk: D, head: &Head) -> Result<FileLog<D>, (OpenFault, D)>
    requires usable { IsTrue (D.is_usable disk) }
    requires viewers { IsTrue (is_viewer_count head.now.viewers) }
    // The file is a log of this head, and of nothing else.
    ensures made { IfOk result (λ f. IsTrue (D.is_clean f.log.disk)
        → IsNew head.now (frames_of (D.seen f.log.disk))) }
    ensures known { IfOk result (λ f. IsTrue (D.is_clean f.log.disk)
        → ⟦<FileLog<D> as share_store::Log>⟧.known f ≡ []) }
    ensures start { IfOk result (λ f. f.start ≡ start_of head.now None) }
    ensures open { IfOk result (λ f. f.is_open ≡ true) }
    // There was no log in the file, and nothing else; and that alone is refused.
    ensures unmade { IfOk result (λ f. IsTrue (D.is_clean f.log.disk)
        → IsTrue (is_unmade (D.seen disk))) }
    ensures fault { IfErr result (λ f. (f.0 ≡ Device) ⊎ ((f.0 ≡ Memory)
        ⊎ ((f.0 ≡ NotEmpty) × (IsTrue (D.is_clean f.1) → is_unmade (D.seen disk) ≡ false)
        × (D.seen f.1 ≡ D.seen disk)))) }
    // If it is cut off, a log can be made in whatever a crash leaves, or it is made.
    ensures crash { IfErr result (λ f. IsTrue (D.is_clean f.1)
        → BeginsOrWas head.now (D.may_leave disk) (D.may_leave f.1)) }
{
    let mut disk = disk;
    match prepare(alloc, &mut disk, head) {
        Ok(payload) => begin(alloc, disk, head, &payload),
        Err(fault) => Err((fault, disk)),
    }
}
