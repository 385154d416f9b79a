//! A log's file as the steps of a job.

ghost use Rattle.std.specs.Prelude.{◌≡◌, ◌≢◌, ◌⊎◌, IfErr, IfOk, IsTrue, None, OnOk, Ok};
ghost use Rattle.sqlite_disk.specs.Memory.{memory_bytes, memory_is_usable};
ghost use Rattle.share_entries.specs.Head.{is_viewer_count};
ghost use Rattle.share_file.specs.Contents.{FileView};
ghost use Rattle.share_file.specs.Entries.{head_among};
ghost use Rattle.share_file.specs.declared.fault.OpenFault.TheVariants as open_fault;
ghost use Rattle.share_log.specs.Frames.{frames_of};
ghost use Rattle.share_log.specs.Log.{payloads};
ghost use Rattle.app_logs.specs.Beginning.{AreWritten, IsNotResumed};
ghost use Rattle.app_logs.specs.Faults.{open_fault_of};
ghost use Rattle.app_logs.specs.Info.{info_text};
ghost use Rattle.app_logs.specs.Recalling.{IsInfo, IsNoLog, IsNoWholeLog, IsRecalled, first_of};
ghost use Rattle.app_logs.specs.Recalling.{log_in, mark_of, until_after};
ghost use Rattle.app_logs.specs.Steps.{steps_text};
ghost use Rattle.app_logs.specs.declared.fault.LogFault.TheVariants.{Memory as NoMemory};

use crate::beginning::resumed;
use crate::fault::{LogFault, open_fault_of};
use crate::info::push_info;
use crate::steps::push_steps;
use share_entries::{Base, Entry, Head, head_of};
use share_file::{Expected, OpenFault, Opened, open};
use share_log::look;
use sqlite_disk::{Disk, Memory};
use std::alloc::{AllocError, Global};

/// A log that a file has.
#[derive(Drop)]
pub(crate) struct FoundLog {
    pub(crate) head: Head,
    pub(crate) base: Option<Base>,
    /// Those after the base, if there is one.
    pub(crate) entries: Vec<Entry>,
    cut: u64,
}

/// Returns a file in memory with these bytes.
fn file_of(alloc: Global, bytes: &[u8]) -> Result<Memory, AllocError>
    ensures bytes { IfOk result (λ m. memory_bytes m ≡ bytes.now) }
    ensures usable { IfOk result (λ m. IsTrue (memory_is_usable m)) }
{
    let mut file = Memory::new(alloc);
    match file.write_at(0, bytes) {
        Ok(()) => Ok(file),
        Err(_) => Err(AllocError),
    }
}

/// Returns the mark of the scene that the first frame names; zeros if it is no head.
fn mark_among(frames: &[Vec<u8>]) -> [u8; 32]
    ensures { result ≡ mark_of (head_among (payloads frames.now)) }
{
    let [first, ..] = frames else {
        return [0; 32];
    };
    match head_of(first) {
        Ok(head) => head.mark,
        Err(_) => [0; 32],
    }
}

/// Returns the mark of the scene that a file in memory names; zeros if it names no scene.
fn mark_in(alloc: Global, file: &mut Memory) -> Result<[u8; 32], AllocError>
    requires { IsTrue (memory_is_usable file.old) }
    ensures mark { IfOk result (λ m. m ≡ mark_of (head_among (frames_of (memory_bytes file.old)))) }
    ensures usable { OnOk result (IsTrue (memory_is_usable file.new)) }
    ensures same { memory_bytes file.new ≡ memory_bytes file.old }
{
    match look(alloc, file) {
        Ok(found) => Ok(mark_among(&found.frames)),
        Err(_) => Err(AllocError),
    }
}

/// Returns why a file in memory isn't opened. Its device fails only if memory is refused.
fn memory_fault_of(fault: OpenFault) -> LogFault
    ensures device { fault ≡ open_fault.Device → result ≡ NoMemory }
    ensures other { (result ≡ NoMemory) ⊎ (result ≡ open_fault_of fault) }
{
    match fault {
        OpenFault::Device => LogFault::Memory,
        _ => open_fault_of(fault),
    }
}

/// Finds the log of a file in memory, of the scene with this mark.
fn find_log(alloc: Global, file: Memory, mark: [u8; 32]) -> Result<FoundLog, LogFault>
    requires usable { IsTrue (memory_is_usable file) }
    requires mark { mark ≡ mark_of (head_among (frames_of (memory_bytes file))) }
    ensures found { IfOk result (λ f. (v : FileView) × (log_in (memory_bytes file) ≡ Ok v)
        × (v.head ≡ f.head) × (v.base ≡ f.base) × (v.entries ≡ f.entries.items)
        × (v.cut ≡ f.cut)) }
    ensures refused { IfErr result
        (λ fault. (fault ≡ NoMemory) ⊎ IsNoLog (memory_bytes file) fault) }
{
    let expected = Expected {
        mark,
        viewers: None,
    };
    match open(alloc, file, &expected) {
        Ok(found) => {
            let Opened {
                log,
                head,
                base,
                entries,
                cut,
            } = found;
            drop(log);
            Ok(FoundLog {
                head,
                base,
                entries,
                cut,
            })
        }
        Err((fault, file)) => {
            drop(file);
            Err(memory_fault_of(fault))
        }
    }
}

/// Finds the log of these bytes.
pub(crate) fn found_in(alloc: Global, bytes: &[u8]) -> Result<FoundLog, LogFault>
    ensures found { IfOk result (λ f. (v : FileView) × (log_in bytes.now ≡ Ok v)
        × (v.head ≡ f.head) × (v.base ≡ f.base) × (v.entries ≡ f.entries.items)
        × (v.cut ≡ f.cut)) }
    ensures refused { IfErr result (λ fault. (fault ≡ NoMemory) ⊎ IsNoLog bytes.now fault) }
{
    let mut file = file_of(alloc, bytes)?;
    let mark = mark_in(alloc, &mut file)?;
    find_log(alloc, file, mark)
}

/// Checks that a host wrote the entries of a log.
fn is_written(alloc: Global, found: &FoundLog) -> Result<(), LogFault>
    ensures log { OnOk result
        (AreWritten found.now.head.viewers found.now.base found.now.entries.items) }
    ensures refused { IfErr result (IsNotResumed found.now.head.viewers found.now.base
        found.now.entries.items) }
{
    match resumed(alloc, &found.head, &found.base, &found.entries) {
        Ok(hosting) => {
            drop(hosting);
            Ok(())
        }
        Err(fault) => Err(fault),
    }
}

/// Returns the first entries, or all.
pub(crate) fn first_of(entries: &[Entry], until: Option<u64>) -> &[Entry]
    ensures { result.now ≡ first_of until entries.now }
{
    match until {
        Some(number) => &entries[..(number as usize).min(entries.len())],
        None => entries,
    }
}

/// Returns the lines of the first entries, or of all.
fn text_of(alloc: Global, entries: &[Entry], until: Option<u64>) -> Result<Vec<u8>, AllocError>
    ensures { IfOk result (λ v. v.items ≡ steps_text (first_of until entries.now)) }
{
    let mut text = Vec::new(alloc);
    push_steps(first_of(entries, until), &mut text)?;
    Ok(text)
}

/// Returns how many of the entries after a base are among the first `until` of the log.
fn until_after(base: &Option<Base>, until: Option<u64>) -> Option<u64>
    ensures { result ≡ until_after base.now until }
{
    let Some(base) = base else {
        return until;
    };
    match until {
        Some(number) => Some(number.saturating_sub(base.number())),
        None => None,
    }
}

/// Returns what a log has, in lines, and of its first entries, or all.
fn info_of(
    alloc: Global,
    size: usize,
    found: &FoundLog,
    until: Option<u64>,
) -> Result<Vec<u8>, AllocError>
    ensures { IfOk result (λ v. v.items
        ≡ info_text size found.now.cut found.now.head found.now.base
        (first_of (until_after found.now.base until) found.now.entries.items)) }
{
    let mut text = Vec::new(alloc);
    let entries = first_of(&found.entries, until_after(&found.base, until));
    push_info(
        alloc,
        size,
        found.cut,
        &found.head,
        &found.base,
        entries,
        &mut text,
    )?;
    Ok(text)
}

/// Finds the log that these bytes are, of entries that a host wrote.
pub(crate) fn written_in(alloc: Global, bytes: &[u8]) -> Result<FoundLog, LogFault>
    ensures found { IfOk result (λ f. (v : FileView) × (log_in bytes.now ≡ Ok v)
        × (v.head ≡ f.head) × (v.base ≡ f.base) × (v.entries ≡ f.entries.items)
        × (v.cut ≡ f.cut)) }
    ensures log { IfOk result (λ f. AreWritten f.head.viewers f.base f.entries.items) }
    ensures refused { IfErr result (λ fault. (fault ≡ NoMemory) ⊎ IsNoLog bytes.now fault) }
{
    let found = found_in(alloc, bytes)?;
    match is_written(alloc, &found) {
        Ok(()) => Ok(found),
        Err(fault) => {
            drop(found);
            Err(fault)
        }
    }
}

/// Finds the log that these bytes are, of entries that a host wrote, all from its first on.
pub(crate) fn whole_in(alloc: Global, bytes: &[u8]) -> Result<FoundLog, LogFault>
    ensures found { IfOk result (λ f. (v : FileView) × (log_in bytes.now ≡ Ok v)
        × (v.head ≡ f.head) × (v.base ≡ f.base) × (v.entries ≡ f.entries.items)
        × (v.cut ≡ f.cut)) }
    ensures whole { IfOk result (λ f. f.base ≡ None) }
    ensures log { IfOk result (λ f. AreWritten f.head.viewers f.base f.entries.items) }
    ensures refused { IfErr result (λ fault. (fault ≡ NoMemory) ⊎ IsNoWholeLog bytes.now fault) }
{
    let found = written_in(alloc, bytes)?;
    if let Some(base) = &found.base {
        let number = base.number();
        drop(found);
        return Err(LogFault::HasBase(number));
    }
    Ok(found)
}

/// Returns the inputs of the log that these bytes are, or the first `until` of them, as the lines
/// of a job.
///
/// Fails with `BadHead` or `LogDamaged` if the bytes are no log, with `NotALog` and the number of
/// the first entry that no host wrote there, with `HasBase` and the number of the last entry that
/// isn't in the log, or with `Memory`.
pub fn recalled(alloc: Global, bytes: &[u8], until: Option<u64>) -> Result<Vec<u8>, LogFault>
    ensures found { IfOk result (λ text. IsRecalled until bytes.now text.items) }
    ensures refused { IfErr result (λ fault. (fault ≡ NoMemory) ⊎ IsNoWholeLog bytes.now fault) }
{
    let found = whole_in(alloc, bytes)?;
    Ok(text_of(alloc, &found.entries, until)?)
}

/// Returns lines on the log that these bytes are, and on its first `until` inputs or all: its head,
/// the number of its base, the size of the file, how many inputs there are; and of those after the
/// base how many are clocks, the times of the first and the last, and how many each viewer has
/// offered.
///
/// Fails like `recalled`, but not with `HasBase`.
pub fn recalled_info(alloc: Global, bytes: &[u8], until: Option<u64>) -> Result<Vec<u8>, LogFault>
    ensures found { IfOk result (λ text. IsInfo until bytes.now text.items) }
    ensures refused { IfErr result (λ fault. (fault ≡ NoMemory) ⊎ IsNoLog bytes.now fault) }
{
    let found = written_in(alloc, bytes)?;
    Ok(info_of(alloc, bytes.len(), &found, until)?)
}
