//! The size and the time of change of a world's files.

use crate::end::End;
use crate::names::path_of;
use share_session::WorldName;
use std::fs;
use std::os::unix::fs::MetadataExt;

/// The size of a file in bytes, and the time of its last change.
#[derive(Clone, Copy, PartialEq, Eq)]
pub struct Stamp {
    size: u64,
    seconds: i64,
    nanos: i64,
}

/// How many seconds after a change of a file another one may have the same time, at most.
const ALIKE: i64 = 2;

impl Stamp {
    /// Reports whether the change was well before a time, in seconds since 1970.
    pub fn is_before(&self, seconds: u64) -> bool {
        match i64::try_from(seconds) {
            Ok(now) => self.seconds < now.saturating_sub(ALIKE),
            Err(_) => false,
        }
    }
}

/// The stamps of those files of a world that are there.
#[derive(Clone, Copy, PartialEq, Eq)]
pub struct Stamps {
    job: Option<Stamp>,
    log: Option<Stamp>,
    keys: Option<Stamp>,
}

/// Returns the stamp of a file, if it is there.
pub fn stamp_of(rt: &HostRuntime, path: &str) -> Option<Stamp> {
    match fs::metadata(rt, path) {
        Ok(found) => Some(Stamp {
            size: found.len(),
            seconds: found.mtime(),
            nanos: found.mtime_nsec(),
        }),
        Err(_) => None,
    }
}

/// Returns the stamps of a world's files. Fails with `Memory`.
pub fn stamps_of(rt: &HostRuntime, folder: &str, name: &WorldName) -> Result<Stamps, End> {
    let job = path_of(rt.alloc(), folder, name, ".job")?;
    let log = path_of(rt.alloc(), folder, name, ".x3dlog")?;
    let keys = path_of(rt.alloc(), folder, name, ".keys")?;
    Ok(Stamps {
        job: stamp_of(rt, job.as_str()),
        log: stamp_of(rt, log.as_str()),
        keys: stamp_of(rt, keys.as_str()),
    })
}
