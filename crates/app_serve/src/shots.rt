//! The snapshots of worlds at the bases of their logs, in files next to these.

use crate::end::End;
use crate::files::{make_anew, sync_folder};
use app_logs::Base;
use app_program::{RunFault, ShareFault, read_whole};
use cascade_core::Stage;
use script_boxes::StockScript;
use sha2::{Digest, Sha256};
use share_keeping::Shot;
use snapshot_core::{SnapFault, load_into};
use std::alloc::Global;
use std::fs::{self, File};
use std::io::{self, Write};

/// A snapshot of a host has boot 1.
const ABOVE: u32 = 2;

/// Returns the path of the snapshot of a world with this many inputs, next to the file of its log:
/// `NAME.N.x3dw` for `NAME.x3dlog`.
pub(crate) fn shot_path(alloc: Global, log: &str, inputs: u64) -> Result<String, End> {
    let stem = log.strip_suffix(".x3dlog").unwrap_or(log);
    match format!(in alloc; "{stem}.{inputs}.x3dw") {
        Ok(path) => Ok(path),
        Err(_refused) => Err(End::from(ShareFault::Memory)),
    }
}

/// Returns the bytes of the snapshot at the base of a log.
fn shot_at(rt: &HostRuntime, log: &str, base: &Base) -> Result<Vec<u8>, End> {
    let path = shot_path(rt.alloc(), log, base.number())?;
    let Ok(mut file) = File::open(rt, path.as_str()) else {
        return Err(End::NoSnapshot);
    };
    match read_whole(rt.alloc(), &mut file) {
        Ok(bytes) => Ok(bytes),
        Err(fault) => Err(End::from(RunFault::from(fault))),
    }
}

/// Puts the world of a snapshot at the base of a log into the stage of its scene, which has this
/// mark.
fn put(
    stage: &mut Stage<StockScript>,
    mark: &[u8; 32],
    base: &Base,
    bytes: &[u8],
) -> Result<(), End> {
    if Sha256::digest(bytes).as_slice() != base.snapshot().as_slice() {
        return Err(End::NoSnapshot);
    }
    match load_into(stage, mark, ABOVE, bytes) {
        Ok(saved) if saved.applied == base.number() => Ok(()),
        Err(SnapFault::Memory) => Err(End::from(ShareFault::Memory)),
        _ => Err(End::NoSnapshot),
    }
}

/// Puts the world of these bytes, which are to be the snapshot at the base of a log, into the stage
/// of its scene, which has this mark. Fails with `NoSnapshot` if they aren't.
pub fn stage_with(
    stage: Stage<StockScript>,
    mark: &[u8; 32],
    base: &Base,
    bytes: &[u8],
) -> Result<Stage<StockScript>, End> {
    let mut stage = stage;
    match put(&mut stage, mark, base, bytes) {
        Ok(()) => Ok(stage),
        Err(end) => {
            drop(stage);
            Err(end)
        }
    }
}

/// Puts the world at the base of a log, if it has one, into the stage of its scene, which has this
/// mark. Fails with `NoSnapshot` if the snapshot there is missing or isn't that of the base.
pub fn stage_at(
    rt: &HostRuntime,
    stage: Stage<StockScript>,
    mark: &[u8; 32],
    base: Option<&Base>,
    log: &str,
) -> Result<Stage<StockScript>, End> {
    let Some(base) = base else {
        return Ok(stage);
    };
    match shot_at(rt, log, base) {
        Ok(bytes) => stage_with(stage, mark, base, &bytes),
        Err(end) => {
            drop(stage);
            Err(end)
        }
    }
}

/// Returns the SHA-256 of a snapshot.
pub(crate) fn sum_of(shot: &Shot) -> [u8; 32] {
    Sha256::digest(shot.bytes())
}

/// Writes bytes to the disk, in a file that gets this name once they are there.
fn write_synced(rt: &HostRuntime, part: &str, path: &str, bytes: &[u8]) -> io::Result<()> {
    let mut file = make_anew(rt, part)?;
    file.write_all(bytes)?;
    file.sync_all()?;
    fs::rename(rt, part, path)?;
    sync_folder(rt, path)
}

/// Writes a snapshot of a world to its file next to that of the log.
pub(crate) fn write_shot(rt: &HostRuntime, log: &str, shot: &Shot) -> Result<(), End> {
    let path = shot_path(rt.alloc(), log, shot.inputs())?;
    let Ok(part) = format!(in rt.alloc(); "{path}.new") else {
        return Err(End::from(ShareFault::Memory));
    };
    match write_synced(rt, part.as_str(), path.as_str(), shot.bytes()) {
        Ok(()) => Ok(()),
        Err(_failed) => {
            let _removed = fs::remove_file(rt, part.as_str());
            Err(End::from(RunFault::Device))
        }
    }
}

/// Removes the snapshot of a world with this many inputs, if it is there.
pub(crate) fn remove_shot(rt: &HostRuntime, log: &str, inputs: u64) {
    if let Ok(path) = shot_path(rt.alloc(), log, inputs) {
        let _removed = fs::remove_file(rt, path.as_str());
    }
}
