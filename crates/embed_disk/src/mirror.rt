//! What a write and a change of the length do to bytes in memory.

ghost use Rattle.std.specs.Prelude.{◌≡◌, ◌+◌, ◌<◌, ◌≤◌, ◌^◌, OnOk, length};
ghost use Rattle.sqlite_disk.specs.Disk.{Cut, Holds, Torn};

use std::alloc::AllocError;

/// Makes the bytes this long. Those that are added are zeros.
pub(crate) fn resize(file: &mut Vec<u8>, len: usize) -> Result<(), AllocError>
    ensures len { OnOk result (length file.new.items ≡ len) }
    ensures others { Cut len file.old.items file.new.items }
{
    file.resize(len, 0)
}

/// Reserves memory for this many bytes in all.
pub(crate) fn make_room(file: &mut Vec<u8>, len: usize) -> Result<(), AllocError>
    ensures { file.new.items ≡ file.old.items }
{
    if len > file.len() {
        return file.reserve(len - file.len());
    }
    Ok(())
}

/// Replaces the bytes from `at` on by the first ones of a write of `all` bytes.
pub(crate) fn overlay(
    file: &mut Vec<u8>,
    at: usize,
    bytes: &[u8],
    all: usize,
) -> Result<(), AllocError>
    requires room { at + all < 2 ^ 64 }
    requires few { length bytes.now ≤ all }
    ensures written { OnOk result (Holds file.new.items at bytes.now) }
    ensures others { Torn at all file.old.items file.new.items }
{
    let end = at + bytes.len();
    if end > file.len() {
        resize(file, end)?;
    }
    file[at..end].copy_from_slice(bytes);
    Ok(())
}
