//! The jobs of a folder.

use crate::end::End;
use crate::known::Served;
use crate::names::name_of_job;
use crate::stamps::{Stamp, stamp_of};
use crate::worlds::Worlds;
use std::fs;
use std::time::Clock;

/// The stamp of the folder when it was read, if no later change can have the same.
#[derive(Clone, Copy)]
pub struct Folder {
    stamp: Option<Stamp>,
}

/// Reports whether a change now has a later time than a stamp.
fn is_old(rt: &HostRuntime, stamp: &Stamp) -> bool {
    match rt.since_1970() {
        Ok(time) => stamp.is_before(time.as_secs()),
        Err(_) => false,
    }
}

/// Notes the worlds of a folder.
fn note_all(served: &Served<'_, '_, '_>, worlds: &mut Worlds<'_, '_>) -> Result<(), End> {
    let Ok(entries) = fs::read_dir(served.rt, served.folder) else {
        return Err(End::NoFolder);
    };
    worlds.begin_reading();
    for entry in entries {
        if let Ok(entry) = entry
            && let Some(name) = name_of_job(entry.file_name())
        {
            let _noted = worlds.note(&name);
        }
    }
    Ok(())
}

impl Folder {
    /// Returns a folder that wasn't read.
    pub fn unread() -> Folder {
        Folder { stamp: None }
    }

    /// Reads the folder, unless it is the same, and begins to open and close its worlds. Fails with
    /// `NoFolder` if it can't be read; then nothing changes.
    pub fn read(
        &mut self,
        served: &Served<'_, '_, '_>,
        worlds: &mut Worlds<'_, '_>,
    ) -> Result<(), End> {
        let found = stamp_of(served.rt, served.folder);
        if found.is_none() || found != self.stamp {
            note_all(served, worlds)?;
            self.stamp = found.filter(|stamp| is_old(served.rt, stamp));
        }
        worlds.begin_settling();
        Ok(())
    }
}
