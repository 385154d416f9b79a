//! Files by their names.

use crate::calls::last_error;
use std::io;

/// Returns the name of a file in which no link is left. A 0 is after it.
pub(crate) fn real_name(path: &[u8]) -> io::Result<[u8; libc::PATH_MAX]> {
    let mut name = [0; libc::PATH_MAX];
    if os::realpath(path, &mut name) != 0 {
        return Err(last_error());
    }
    Ok(name)
}

/// Returns the name of the folder that a file is in.
pub(crate) fn folder_of(path: &[u8]) -> &[u8] {
    match path.iter().rposition(|byte| *byte == b'/') {
        Some(0) => b"/",
        Some(end) => &path[..end],
        None => b".",
    }
}
