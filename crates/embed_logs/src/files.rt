//! Logs in files of the system.

ghost use Rattle.std.specs.Prelude.{◌≡◌, [], IfErr, IfOk, IsTrue, length, true};
ghost use Rattle.share_entries.specs.Head.{is_viewer_count};
ghost use Rattle.share_file.specs.Contents.{contents_of};
ghost use Rattle.embed_logs.specs.Opening.{IsNotOpened};
ghost use Rattle.embed_logs.specs.Files as spec;
ghost use Rattle.embed_logs.specs.declared.fault.LogFileFault.TheVariants.{Device};

use crate::fault::{LogFileFault, fault_of_file};
use crate::held::EmbeddedLog;
use crate::opening::{OpenedLog, make, open};
use embed_disk::{FileUse, MirroredFile, open_file as open_disk};
use share_entries::{Head, is_viewer_count};
use share_file::{Expected, FileLog};
use std::alloc::{AllocError, Global};

/// A log in a file of the system, which no other program opens meanwhile.
#[derive(Drop)]
pub struct LogFile {
    log: EmbeddedLog<FileLog<MirroredFile>>,
}

/// A log that was opened, and how many bytes were cut after its last entry.
#[derive(Drop)]
pub struct OpenedFile {
    pub file: LogFile,
    pub cut: u64,
}

/// Returns a run that the system draws at random.
fn drawn_run() -> Result<[u8; 16], LogFileFault>
    ensures { IfErr result (λ fault. fault ≡ Device) }
{
    let mut run = [0; 16];
    if libc::getentropy(&mut run) != 0 {
        return Err(LogFileFault::Device);
    }
    Ok(run)
}

/// Makes a log of this head in a file.
fn make_with(alloc: Global, path: &[u8], head: &Head) -> Result<LogFile, LogFileFault>
    requires { IsTrue (is_viewer_count head.now.viewers) }
    ensures head { IfOk result (λ f. f.log.head ≡ head.now) }
    ensures entries { IfOk result (λ f. f.log.entries.items ≡ []) }
    ensures open { IfOk result (λ f. f.log.is_open ≡ true) }
    ensures why { IfErr result (λ fault. spec.IsNotMade head.now.viewers fault) }
{
    let disk = match open_disk(alloc, path, FileUse::Makes) {
        Ok(disk) => disk,
        Err(fault) => return Err(fault_of_file(fault)),
    };
    match make(alloc, disk, head) {
        Ok(log) => Ok(LogFile { log }),
        Err((fault, disk)) => {
            drop(disk);
            Err(fault)
        }
    }
}

/// Makes a log of the scene with this mark, for 1 to 64 viewers, in the file of this name. A file
/// that is missing is made.
///
/// Fails with `Viewers`; with `LogBusy`, `Device` or `Memory`; or with `NotEmpty` if the file has
/// anything but the beginning of a log without entries.
pub fn make_file(
    alloc: Global,
    path: &[u8],
    mark: [u8; 32],
    viewers: u8,
) -> Result<LogFile, LogFileFault>
    ensures { spec.MakesFile mark viewers result }
{
    if !is_viewer_count(viewers) {
        return Err(LogFileFault::Viewers);
    }
    let run = drawn_run()?;
    make_with(alloc, path, &Head { viewers, mark, run })
}

/// Goes on with the log of an open file.
fn open_with(
    alloc: Global,
    disk: MirroredFile,
    expected: &Expected,
) -> Result<OpenedFile, LogFileFault>
    requires { IsTrue disk.is_usable }
    ensures found { IfOk result (λ o. spec.IsFileOf expected.now disk.bytes.items o) }
    ensures why { IfErr result
        (λ fault. IsNotOpened (contents_of expected.now disk.bytes.items) fault) }
{
    match open(alloc, disk, expected) {
        Ok(opened) => {
            let OpenedLog { log, cut } = opened;
            Ok(OpenedFile {
                file: LogFile { log },
                cut,
            })
        }
        Err((fault, disk)) => {
            drop(disk);
            Err(fault)
        }
    }
}

/// Opens the log in the file of this name, of the scene with this mark, and of this number of
/// viewers or any. What a crash left after its last entry is cut.
///
/// Fails with `NoLog`, `LogBusy`, `BadHead`, `WrongScene`, `WrongSeats`, `LogDamaged` or `LogFull`
/// in this order; or with `Device` or `Memory`.
pub fn open_file(
    alloc: Global,
    path: &[u8],
    mark: [u8; 32],
    viewers: Option<u8>,
) -> Result<OpenedFile, LogFileFault>
    ensures { spec.OpensFile (record { mark = mark; viewers = viewers }) result }
{
    let expected = Expected { mark, viewers };
    match open_disk(alloc, path, FileUse::GoesOn) {
        Ok(disk) => open_with(alloc, disk, &expected),
        Err(fault) => Err(fault_of_file(fault)),
    }
}

impl LogFile {
    /// Returns the number of entries, at most 2^48 - 1.
    pub fn count(&self) -> u64
        ensures { result ≡ length self.now.log.entries.items }
    {
        self.log.count()
    }

    /// Returns the number of viewers, 1 to 64.
    pub fn viewers(&self) -> u8
        ensures { result ≡ self.now.log.head.viewers }
    {
        self.log.viewers()
    }

    /// Returns what names the log: 16 bytes.
    pub fn run(&self) -> [u8; 16]
        ensures { result ≡ self.now.log.head.run }
    {
        self.log.run()
    }

    /// Returns the bytes of the log: those of its appends, one after another. Fails if memory is
    /// refused.
    pub fn text(&self, alloc: Global) -> Result<Vec<u8>, AllocError>
        ensures { IfOk result (λ v. v.items ≡ spec.bytes_in self.now) }
    {
        self.log.text(alloc)
    }

    /// Appends the bytes of entries, as `append` of `EmbeddedLog` does.
    pub fn append(&mut self, alloc: Global, bytes: &[u8]) -> Result<(), LogFileFault>
        ensures { spec.Appends bytes.now self.old result self.new }
    {
        self.log.append(alloc, bytes)
    }
}
