//! Opening a log.

ghost use Rattle.std.specs.Prelude.{◌≡◌, ◌⊎◌, ◌+◌, ◌<◌, ◌≤◌, ◌^◌, ℕ, List, true, length, drop, IfOk, IfErr, MatchResult, IsTrue, OnOk, Ok};
ghost use Rattle.share_entries.specs.Chain.{chain_after};
ghost use Rattle.share_log.specs.Frames.{frames_of};
ghost use Rattle.share_log.specs.Log.{OpensToOrWas};
ghost use Rattle.share_store.specs.OneLog.{Last};
ghost use Rattle.share_file.specs.declared.fault.OpenFault.TheVariants.{Device, Memory};
ghost use Rattle.share_entries.specs.Start.{start_of};
ghost use Rattle.share_file.specs.Entries.{entries_among, start_among};
ghost use Rattle.share_file.specs.Contents.{FileView, Refuses, contents_of, view_of};

use crate::append::FileLog;
use crate::contents::{Contents, Expected, contents_in};
use crate::fault::OpenFault;
use share_entries::{Base, Entry, Head, start_of};
use share_log::look;
use sqlite_disk::Disk;
use std::alloc::Global;

/// An opened log, with what it has.
#[derive(Drop)]
pub struct Opened<D: Disk> {
    pub log: FileLog<D>,
    pub head: Head,
    /// What stands for the entries below, if there is a base.
    pub base: Option<Base>,
    /// All entries, in order: those after the base.
    pub entries: Vec<Entry>,
    /// The number of bytes that were cut after the last entry.
    pub cut: u64,
}

/// Reads the bytes from here on.
pub(crate) fn read_tail<D: Disk>(
    alloc: Global,
    disk: &mut D,
    at: usize,
) -> Result<Vec<u8>, OpenFault>
    requires { IsTrue (D.is_usable disk.old) }
    ensures usable { OnOk result (IsTrue (D.is_usable disk.new)) }
    ensures tail { IfOk result (λ v. IsTrue (D.is_clean disk.new)
        → v.items ≡ drop at (D.seen disk.old)) }
    ensures fault { IfErr result (λ e. (e ≡ Device) ⊎ (e ≡ Memory)) }
    ensures seen { D.seen disk.new ≡ D.seen disk.old }
    ensures crash { (c : List ℕ) → D.may_leave disk.new c → D.may_leave disk.old c }
    ensures clean { IsTrue (D.is_clean disk.new) → IsTrue (D.is_clean disk.old) }
{
    let len = disk.len()?;
    if len <= at {
        return Ok(Vec::new(alloc));
    }
    let mut tail = vec![in alloc; 0; len - at]?;
    disk.read_at(at, &mut tail)?;
    Ok(tail)
}

/// Finds the log of a file, and writes nothing.
#[tactic(auto, unfolding(crate::specs::Contents::contents_of))]
fn examine<D: Disk>(alloc: Global, disk: &mut D, expected: &Expected) -> Result<Contents, OpenFault>
    requires { IsTrue (D.is_usable disk.old) }
    ensures usable { OnOk result (IsTrue (D.is_usable disk.new)) }
    ensures found { MatchResult result
        (λ x. IsTrue (D.is_clean disk.new)
        → contents_of expected.now (D.seen disk.old) ≡ Ok (view_of x))
        (λ e. IsTrue (D.is_clean disk.new)
        → Refuses (contents_of expected.now (D.seen disk.old)) e) }
    ensures named { IfOk result (λ x. IsTrue (D.is_clean disk.new)
        → start_among (frames_of (D.seen disk.old)) ≡ Ok (start_of x.head x.base)) }
    ensures reads { IfOk result (λ x. IsTrue (D.is_clean disk.new)
        → entries_among (start_of x.head x.base) (frames_of (D.seen disk.old))
        ≡ Ok x.known.entries.items) }
    ensures chain { IfOk result (λ x. x.known.chain
        ≡ chain_after (start_of x.head x.base).chain x.known.entries.items) }
    ensures seen { D.seen disk.new ≡ D.seen disk.old }
    ensures crash { (c : List ℕ) → D.may_leave disk.new c → D.may_leave disk.old c }
    ensures clean { IsTrue (D.is_clean disk.new) → IsTrue (D.is_clean disk.old) }
{
    let found = look(alloc, disk)?;
    let tail = read_tail(alloc, disk, found.end)?;
    contents_in(alloc, expected, &found.frames, &tail)
}

/// Cuts what is after the log that was found.
fn settle<D: Disk>(alloc: Global, disk: D, contents: Contents) -> Result<Opened<D>, (OpenFault, D)>
    requires usable { IsTrue (D.is_usable disk) }
    requires named { IsTrue (D.is_clean disk)
        → start_among (frames_of (D.seen disk)) ≡ Ok (start_of contents.head contents.base) }
    requires reads { IsTrue (D.is_clean disk)
        → entries_among (start_of contents.head contents.base) (frames_of (D.seen disk))
        ≡ Ok contents.known.entries.items }
    requires chain { contents.known.chain
        ≡ chain_after (start_of contents.head contents.base).chain contents.known.entries.items }
    ensures view { IfOk result (λ o. (o.head ≡ contents.head) × (o.base ≡ contents.base)
        × (o.entries.items ≡ contents.known.entries.items) × (o.cut ≡ contents.cut)) }
    ensures known { IfOk result (λ o. IsTrue (D.is_clean o.log.log.disk)
        → ⟦<FileLog<D> as share_store::Log>⟧.known o.log ≡ o.entries.items) }
    ensures open { IfOk result (λ o. o.log.is_open ≡ true) }
    ensures fault { IfErr result (λ f. (f.0 ≡ Device) ⊎ (f.0 ≡ Memory)) }
    ensures crash { IfErr result (λ f. IsTrue (D.is_clean f.1)
        → OpensToOrWas (D.may_leave disk) (D.may_leave f.1) (frames_of (D.seen disk))) }
    ensures clean { IfOk result (λ o. IsTrue (D.is_clean o.log.log.disk)
        → IsTrue (D.is_clean disk)) }
    ensures clean_err { IfErr result (λ f. IsTrue (D.is_clean f.1) → IsTrue (D.is_clean disk)) }
{
    match share_log::Log::open(alloc, disk) {
        Ok(opened) => {
            let share_log::Opened { log, frames } = opened;
            drop(frames);
            let start = start_of(&contents.head, &contents.base);
            Ok(Opened {
                log: FileLog::new(alloc, log, start, &contents.known),
                head: contents.head,
                base: contents.base,
                entries: contents.known.entries,
                cut: contents.cut,
            })
        }
        Err((fault, disk)) => Err((OpenFault::from(fault), disk)),
    }
}

/// Opens the log of a file, in whatever state a crash left it. Returns its entries, and how many
/// bytes were cut after them.
///
/// Fails with the first fault, and the disk. Unless it is `Device` or `Memory`, nothing was
/// written.
pub fn open<D: Disk>(
    alloc: Global,
    disk: D,
    expected: &Expected,
) -> Result<Opened<D>, (OpenFault, D)>
    requires { IsTrue (D.is_usable disk) }
    // The log is the one that the file has.
    ensures found { IfOk result (λ o. IsTrue (D.is_clean o.log.log.disk)
        → contents_of expected.now (D.seen disk)
        ≡ Ok (record {
          head = o.head;
          base = o.base;
          entries = o.entries.items;
          cut = o.cut;
        })) }
    ensures known { IfOk result (λ o. IsTrue (D.is_clean o.log.log.disk)
        → ⟦<FileLog<D> as share_store::Log>⟧.known o.log ≡ o.entries.items) }
    ensures open { IfOk result (λ o. o.log.is_open ≡ true) }
    // The fault is the first that the file has.
    ensures refused { IfErr result (λ f. IsTrue (D.is_clean f.1)
        → Refuses (contents_of expected.now (D.seen disk)) f.0) }
    // Nothing was written if the file is refused.
    ensures untouched { IfErr result (λ f. (f.0 ≡ Device) ⊎ ((f.0 ≡ Memory)
        ⊎ ((D.seen f.1 ≡ D.seen disk) × ((c : List ℕ) → D.may_leave f.1 c → D.may_leave disk c)))) }
    // A crash meanwhile leaves what one might have left before, or the same frames.
    ensures crash { IfErr result (λ f. IsTrue (D.is_clean f.1)
        → OpensToOrWas (D.may_leave disk) (D.may_leave f.1) (frames_of (D.seen disk))) }
    ensures clean { IfOk result (λ o. IsTrue (D.is_clean o.log.log.disk)
        → IsTrue (D.is_clean disk)) }
    ensures clean_err { IfErr result (λ f. IsTrue (D.is_clean f.1) → IsTrue (D.is_clean disk)) }
{
    let mut disk = disk;
    match examine(alloc, &mut disk, expected) {
        Ok(contents) => settle(alloc, disk, contents),
        Err(fault) => Err((fault, disk)),
    }
}
