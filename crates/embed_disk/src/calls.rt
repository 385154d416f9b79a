//! Calls of the system on an open file.

ghost use Rattle.std.specs.Prelude.{◌<◌, ◌≤◌, IfOk, length};

use std::io;
use std::os::fd::{AsRawFd, OwnedFd};

/// The number of bytes that a file may have at most.
const MAX_BYTES: usize = (1 << 63) - 1;

/// Returns the error of the call that has just failed.
pub(crate) fn last_error() -> io::Error {
    io::Error::from_raw_os_error(os::errno())
}

/// Returns an error unless a call returned 0.
fn checked(status: i32) -> io::Result<()> {
    if status == 0 {
        return Ok(());
    }
    Err(last_error())
}

/// Returns what a call that moves bytes returned, if that is a number of them from 1 to `most`.
fn moved(count: isize, most: usize) -> io::Result<usize>
    ensures { IfOk result (λ n. (0 < n) × (n ≤ most)) }
{
    if count < 0 {
        return Err(last_error());
    }
    match usize::try_from(count) {
        Ok(number) if 1 <= number && number <= most => Ok(number),
        _ => Err(io::ErrorKind::UnexpectedEof.into()),
    }
}

/// Writes bytes at this offset, and returns how many of them the system took: at least one.
pub(crate) fn write_some(file: &OwnedFd, at: usize, bytes: &[u8]) -> io::Result<usize>
    ensures { IfOk result (λ n. (0 < n) × (n ≤ length bytes.now)) }
{
    if at > MAX_BYTES {
        return Err(io::ErrorKind::FileTooLarge.into());
    }
    moved(
        libc::pwrite(file.as_raw_fd(), bytes, at as i64),
        bytes.len(),
    )
}

/// Reads bytes from this offset on, and returns how many: at least one.
fn read_some(file: &OwnedFd, at: usize, bytes: &mut [u8]) -> io::Result<usize>
    ensures { IfOk result (λ n. (0 < n) × (n ≤ length bytes.new)) }
{
    if at > MAX_BYTES {
        return Err(io::ErrorKind::UnexpectedEof.into());
    }
    let count = libc::pread(file.as_raw_fd(), bytes, at as i64);
    moved(count, bytes.len())
}

/// Returns the number of bytes of a file.
pub(crate) fn len_of(file: &OwnedFd) -> io::Result<usize> {
    match usize::try_from(libc::lseek(file.as_raw_fd(), 0, libc::SEEK_END)) {
        Ok(len) => Ok(len),
        Err(_negative) => Err(last_error()),
    }
}

/// Reads the first bytes of a file. Fails if it has fewer.
pub(crate) fn read_all(file: &OwnedFd, bytes: &mut [u8]) -> io::Result<()> {
    let mut done = 0;
    while done < bytes.len() {
        done += read_some(file, done, &mut bytes[done..])?;
    }
    Ok(())
}

/// Cuts a file, or adds zeros to it.
pub(crate) fn set_len(file: &OwnedFd, len: usize) -> io::Result<()> {
    if len > MAX_BYTES {
        return Err(io::ErrorKind::FileTooLarge.into());
    }
    checked(libc::ftruncate(file.as_raw_fd(), len as i64))
}

/// Waits until the bytes of a file, and its length, are on the disk.
pub(crate) fn sync_data(file: &OwnedFd) -> io::Result<()> {
    checked(libc::fdatasync(file.as_raw_fd()))
}

/// Waits until a file or a folder is on the disk.
pub(crate) fn sync_all(file: &OwnedFd) -> io::Result<()> {
    checked(libc::fsync(file.as_raw_fd()))
}

/// Drops the copies of a file's bytes that the system holds in memory: after a sync that failed
/// they may be other than those on the disk.
pub(crate) fn drop_copies(file: &OwnedFd) -> io::Result<()> {
    let error = libc::posix_fadvise(file.as_raw_fd(), 0, 0, libc::POSIX_FADV_DONTNEED);
    if error == 0 {
        return Ok(());
    }
    Err(io::Error::from_raw_os_error(error))
}
