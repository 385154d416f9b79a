//! A file whose bytes are held in memory too, as a disk.

ghost use Rattle.std.specs.Prelude.{◌≡◌, IsTrue, MatchBool, OnOk, length, refl, true};
ghost use Rattle.sqlite_disk.specs.Disk.{CountsFault, Cut, Holds, MoreFaults, Torn};
ghost use Rattle.sqlite_disk.specs.Refusal.{finds_no_room};

use crate::calls::{set_len, sync_data, write_some};
use crate::mirror::{make_room, overlay, resize};
use sqlite_disk::{Disk, Tally, digest_of, is_no_room};
use std::io;
use std::os::fd::OwnedFd;

/// How much memory is reserved for writes before they are asked for: more than the longest frame of
/// a log takes.
const ROOM: usize = 1 << 17;

/// An open file, locked until it is dropped, and its bytes. What a read returns are the bytes in
/// memory. A crash is a process that is killed: the system has what was written.
#[derive(Drop)]
pub struct MirroredFile {
    file: OwnedFd,
    bytes: Vec<u8>,
    is_usable: bool,
    faults: u64,
    caught: u64,
    refused: u64,
}

/// Counts a call, by what it answered.
fn count(outcome: io::Result<()>, faults: &mut u64, refused: &mut u64) -> io::Result<()>
    ensures same { result ≡ outcome }
    ensures faults { CountsFault result faults.old faults.new }
    ensures refused { MatchBool (finds_no_room result)
        (MoreFaults refused.old refused.new) (refused.new ≡ refused.old) }
{
    match outcome {
        Ok(()) => Ok(()),
        Err(error) => {
            *faults = faults.saturating_add(1);
            if is_no_room(&error) {
                *refused = refused.saturating_add(1);
            }
            Err(error)
        }
    }
}

/// Writes bytes to a file, and to its copy what the system took of them. It takes all of them,
/// unless there is no room.
fn write(file: &OwnedFd, copy: &mut Vec<u8>, at: usize, bytes: &[u8]) -> io::Result<()>
    ensures written { OnOk result (Holds copy.new.items at bytes.now) }
    ensures others { Torn at (length bytes.now) copy.old.items copy.new.items }
{
    let Some(end) = at.checked_add(bytes.len()) else {
        return Err(io::ErrorKind::FileTooLarge.into());
    };
    make_room(copy, end)?;
    let put = write_some(file, at, bytes)?;
    overlay(copy, at, &bytes[..put], bytes.len())?;
    if put < bytes.len() {
        return Err(io::ErrorKind::StorageFull.into());
    }
    Ok(())
}

/// Changes the length of a file, and of its copy.
fn change_len(file: &OwnedFd, copy: &mut Vec<u8>, len: usize) -> io::Result<()>
    ensures len { OnOk result (length copy.new.items ≡ len) }
    ensures others { Cut len copy.old.items copy.new.items }
{
    make_room(copy, len)?;
    set_len(file, len)?;
    resize(copy, len)?;
    Ok(())
}

impl MirroredFile {
    /// Returns the disk of a file that has these bytes.
    pub(crate) fn new(file: OwnedFd, bytes: Vec<u8>) -> MirroredFile
        ensures usable { IsTrue result.is_usable }
        ensures bytes { result.bytes.items ≡ bytes.items }
    {
        let mut made = MirroredFile {
            file,
            bytes,
            is_usable: true,
            faults: 0,
            caught: 0,
            refused: 0,
        };
        made.reserve();
        made
    }

    /// Reserves memory for the writes up to the next sync, so that none fails for it after the
    /// system has taken it. If memory is refused, it is asked for again at each write.
    fn reserve(&mut self)
        ensures bytes { self.new.bytes.items ≡ self.old.bytes.items }
        ensures usable { self.new.is_usable ≡ self.old.is_usable }
        ensures faults { self.new.faults ≡ self.old.faults }
        ensures caught { self.new.caught ≡ self.old.caught }
        ensures refused { self.new.refused ≡ self.old.refused }
    {
        let _refused = self.bytes.reserve(ROOM);
    }
}

impl Disk for MirroredFile {
    ghost seen = { λ m. m.bytes.items };

    ghost may_leave = { λ m c. c ≡ m.bytes.items };

    ghost is_usable = { λ m. m.is_usable };

    ghost faults = { λ m. m.faults };

    ghost is_clean = { λ _. true };

    ghost tally_of = { λ m. record { caught = m.caught; refused = m.refused } };

    ghost key_of = { λ _. 0 };

    ghost is_fair = { λ _ _. true };

    ghost fair_if_clean = { λ _ _ _. refl };

    ghost seen_may_stay = { λ _. refl };

    fn mixes(&self) -> bool {
        false
    }

    fn key(&self) -> u64 {
        0
    }

    fn tally(&self) -> Tally {
        Tally {
            caught: self.caught,
            refused: self.refused,
        }
    }

    fn may_be_used(&self) -> bool {
        self.is_usable
    }

    fn len(&mut self) -> io::Result<usize> {
        Ok(self.bytes.len())
    }

    fn read_at(&mut self, at: usize, buf: &mut [u8]) -> io::Result<()> {
        let Some(rest) = self.bytes.get(at..) else {
            return Err(io::ErrorKind::UnexpectedEof.into());
        };
        if rest.len() < buf.len() {
            return Err(io::ErrorKind::UnexpectedEof.into());
        }
        buf.copy_from_slice(&rest[..buf.len()]);
        Ok(())
    }

    fn read_checked(&mut self, key: u64, want: u64, at: usize, buf: &mut [u8]) -> io::Result<()> {
        self.read_at(at, buf)?;
        if digest_of(key, buf) == want {
            return Ok(());
        }
        self.faults = self.faults.saturating_add(1);
        self.caught = self.caught.saturating_add(1);
        Err(io::ErrorKind::InvalidData.into())
    }

    fn write_at(&mut self, at: usize, bytes: &[u8]) -> io::Result<()> {
        let outcome = write(&self.file, &mut self.bytes, at, bytes);
        count(outcome, &mut self.faults, &mut self.refused)
    }

    fn set_len(&mut self, len: usize) -> io::Result<()> {
        let outcome = change_len(&self.file, &mut self.bytes, len);
        count(outcome, &mut self.faults, &mut self.refused)
    }

    fn sync(&mut self) -> io::Result<()> {
        let outcome = sync_data(&self.file);
        self.is_usable = outcome.is_ok();
        self.reserve();
        count(outcome, &mut self.faults, &mut self.refused)
    }
}
