//! Opening a file, and keeping others out of it.

ghost use Rattle.std.specs.Prelude.{IfOk, IsTrue, pos, ◌≤ℤ◌};

use crate::calls::{drop_copies, last_error, len_of, read_all, sync_all};
use crate::fault::FileFault;
use crate::mirrored::MirroredFile;
use crate::names::{folder_of, real_name};
use os::{FromRawFd, RangeLock};
use std::alloc::Global;
use std::io;
use std::os::fd::{AsRawFd, OwnedFd};

/// What a file is opened for.
#[derive(Clone, Copy, Debug, PartialEq, Eq)]
pub enum FileUse {
    /// A file that is missing is made, and its owner alone may read and write it.
    Makes,
    /// A file that is missing is a fault.
    GoesOn,
}

// The bytes that SQLite locks, and so does each program that opens a log.
const LOCK_START: u64 = 1 << 30;

const LOCK_LENGTH: u64 = 512;

fn fault_of(error: io::Error) -> FileFault {
    match error.kind() {
        io::ErrorKind::NotFound => FileFault::Missing,
        io::ErrorKind::OutOfMemory => FileFault::Memory,
        _ => FileFault::Device,
    }
}

/// Returns the fault of a call after the file was found.
fn device_fault(error: io::Error) -> FileFault {
    match error.kind() {
        io::ErrorKind::OutOfMemory => FileFault::Memory,
        _ => FileFault::Device,
    }
}

/// Takes a descriptor that a call has just returned. None of the first three is kept: what a
/// program prints would land in the file.
fn owned(fd: i32) -> io::Result<OwnedFd> {
    if fd < 0 {
        return Err(last_error());
    }
    let file = unsafe { OwnedFd::from_raw_fd(fd) };
    if fd > libc::STDERR_FILENO {
        return Ok(file);
    }
    let copied = file.try_clone()?;
    Ok(copied)
}

/// Makes the file of this name, unless there is one.
fn make(path: &[u8]) -> Result<(), FileFault> {
    let flags = libc::O_RDWR | libc::O_CREAT | libc::O_EXCL;
    match owned(os::open_with(path, flags, 0o600)) {
        Ok(_made) => Ok(()),
        Err(error) if error.kind() == io::ErrorKind::AlreadyExists => Ok(()),
        Err(error) => Err(fault_of(error)),
    }
}

/// Locks an open file, until it is closed.
fn lock(file: &OwnedFd) -> Result<(), FileFault> {
    let fd = file.as_raw_fd();
    if os::try_lock_range(fd, RangeLock::Exclusive, LOCK_START, LOCK_LENGTH) == 0 {
        return Ok(());
    }
    if os::errno() == libc::EAGAIN {
        return Err(FileFault::Busy);
    }
    Err(FileFault::Device)
}

/// Opens the file of this name, and locks it.
fn open_locked(path: &[u8]) -> Result<OwnedFd, FileFault> {
    let file = owned(os::open_update(path)).map_err(fault_of)?;
    lock(&file)?;
    Ok(file)
}

/// Waits until a file and its name are on the disk, and makes the system read it from there.
fn settle(file: &OwnedFd, path: &[u8]) -> io::Result<()> {
    sync_all(file)?;
    drop_copies(file)?;
    let name = real_name(path)?;
    let folder = folder_of(&name[..os::name_length(&name)]);
    let folder = owned(os::open_dir_at(libc::AT_FDCWD, folder))?;
    sync_all(&folder)
}

/// Returns the bytes of a file.
fn bytes_of(alloc: Global, file: &OwnedFd) -> Result<Vec<u8>, FileFault> {
    let size = len_of(file).map_err(device_fault)?;
    let Ok(mut bytes) = vec![in alloc; 0; size] else {
        return Err(FileFault::Memory);
    };
    match read_all(file, &mut bytes) {
        Ok(()) => Ok(bytes),
        Err(error) => Err(device_fault(error)),
    }
}

/// Opens the file of this name for reading and writing, and locks it for as long as the disk is
/// there. The name has at most 4,095 bytes, none of them 0. A link is followed.
///
/// Fails with `Missing` if there is no such file or no folder for it, with `Busy` if it is locked,
/// with `Device` if it isn't a file with bytes of its own or a call of the system fails, or with
/// `Memory`. A file that was made stays.
pub fn open_file(alloc: Global, path: &[u8], wanted: FileUse) -> Result<MirroredFile, FileFault>
    ensures { IfOk result (λ m. IsTrue m.is_usable) }
{
    if wanted == FileUse::Makes {
        make(path)?;
    }
    let file = open_locked(path)?;
    settle(&file, path).map_err(device_fault)?;
    let bytes = bytes_of(alloc, &file)?;
    Ok(MirroredFile::new(file, bytes))
}
