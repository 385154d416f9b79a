//! The file of a log.

use app_logs::LogFault;
use app_words::LogUse;
use sqlite_disk::Files;
use sqlite_std_file::{FileFrom, OpenError, Wary, open};
use std::fs::{self, File, OpenOptions};
use std::hash::{BuildHasher, RandomState};
use std::io;
use std::os::unix::fs::{MetadataExt, OpenOptionsExt};

/// The file of a log, as a disk. As long as it is there, no other host opens the file.
pub type LogDisk = FileFrom<Wary>;

/// Returns a run, drawn at random by the system.
pub fn drawn_run(rt: &HostRuntime) -> Result<[u8; 16], LogFault> {
    let Ok(state) = RandomState::new(rt) else {
        return Err(LogFault::Device);
    };
    let mut run = [0; 16];
    run[..8].copy_from_slice(&state.hash_one(&0u8).to_be_bytes());
    run[8..].copy_from_slice(&state.hash_one(&1u8).to_be_bytes());
    Ok(run)
}

/// Fails with `NoLog` if there is no file of this name.
fn is_there(rt: &HostRuntime, path: &str) -> Result<(), LogFault> {
    match fs::metadata(rt, path) {
        Ok(_) => Ok(()),
        Err(error) => match error.kind() {
            io::ErrorKind::NotFound => Err(LogFault::NoLog),
            _ => Err(LogFault::Device),
        },
    }
}

/// Makes a file that only its owner may read, unless there is one of this name.
fn make_private(rt: &HostRuntime, path: &str) -> Result<(), LogFault> {
    let made = OpenOptions::new()
        .read(true)
        .write(true)
        .create_new(true)
        .mode(0o600)
        .open(rt, path);
    match made {
        Ok(_file) => Ok(()),
        Err(error) => match error.kind() {
            io::ErrorKind::AlreadyExists => Ok(()),
            _ => Err(LogFault::Device),
        },
    }
}

/// Removes the empty file that the kit makes next to a file that it opens.
fn remove_beside(rt: &HostRuntime, path: &str) -> io::Result<()> {
    let real = fs::canonicalize(rt, path)?;
    let beside = format!(in rt.alloc(); "{}-wal", real.as_str())?;
    let found = fs::symlink_metadata(rt, beside.as_str())?;
    if found.is_file() && found.len() == 0 {
        fs::remove_file(rt, beside.as_str())?;
    }
    Ok(())
}

/// Returns which file has this name.
fn file_named(rt: &HostRuntime, path: &str) -> Result<(u64, u64), LogFault> {
    match fs::metadata(rt, path) {
        Ok(found) => Ok((found.dev(), found.ino())),
        Err(_) => Err(LogFault::Device),
    }
}

fn open_fault(error: OpenError) -> LogFault {
    match error {
        OpenError::Busy => LogFault::LogBusy,
        OpenError::OutOfMemory => LogFault::Memory,
        OpenError::Io(_) => LogFault::Device,
        OpenError::HotJournal => LogFault::Device,
    }
}

/// Opens the file of a log, and locks it for as long as the disk is there. With `Makes` a missing
/// file is made, with `GoesOn` it is refused.
///
/// Fails with `NoLog`, `LogBusy`, also if the file is replaced meanwhile, `Device` or `Memory`.
pub fn disk_at(rt: &HostRuntime, path: &str, log: LogUse) -> Result<LogDisk, LogFault> {
    match log {
        LogUse::Makes => make_private(rt, path)?,
        _ => is_there(rt, path)?,
    }
    let before = file_named(rt, path)?;
    let disk = match open(rt, path, Wary) {
        Ok(files) => {
            let Files { log, db } = files;
            drop(log);
            let _removed = remove_beside(rt, path);
            db
        }
        Err(error) => return Err(open_fault(error)),
    };
    if file_named(rt, path)? != before {
        drop(disk);
        return Err(LogFault::LogBusy);
    }
    Ok(disk)
}

/// Writes to the disk what a folder says of the file of this name.
pub(crate) fn sync_folder(rt: &HostRuntime, path: &str) -> io::Result<()> {
    let mut folder = fs::canonicalize(rt, path)?;
    folder.pop();
    File::open(rt, folder.as_str())?.sync_all()
}

/// Makes a file that only its owner may read. One of this name is removed.
pub(crate) fn make_anew(rt: &HostRuntime, path: &str) -> io::Result<File> {
    let _removed = fs::remove_file(rt, path);
    OpenOptions::new()
        .write(true)
        .create_new(true)
        .mode(0o600)
        .open(rt, path)
}
