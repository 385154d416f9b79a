//! A reader that counts its reads.

ghost use Rattle.std.specs.Prelude.{◌≡◌, ◌+◌, ◌-◌, ◌^◌, ◌<◌, ◌≤◌, ◌||◌, false, length};
ghost use Rattle.app_program.specs.Came.{Comes, IsWithin, is_end, is_failed};

use std::io::{ErrorKind, Read};

/// The result of one read.
#[derive(Clone, Copy)]
pub enum Came {
    /// This many bytes, one or more.
    Bytes(usize),
    End,
    Interrupted,
    Failed,
}

/// A reader with the number of its reads, whether one of them failed, and whether the last of them
/// reached the end. A holder reads by `read` alone, so every read is counted.
#[derive(Drop)]
pub struct Counted<'r, R> {
    reader: &'r mut R,
    reads: u32,
    failed: bool,
    ended: bool,
}

impl<'r, R: Read> Counted<'r, R> {
    /// Returns a reader that has not been read.
    pub fn new(reader: &'r mut R) -> Counted<'r, R>
        ensures same_reference { result.reader.ghost_name ≡ reader.entry.ghost_name }
        ensures value { result.reader.now ≡ reader.old }
        ensures reads { result.reads ≡ 0 }
        ensures failed { result.failed ≡ false }
        ensures ended { result.ended ≡ false }
    {
        Counted {
            reader,
            reads: 0,
            failed: false,
            ended: false,
        }
    }

    /// Returns the number of reads.
    pub fn reads(&self) -> u32
        ensures { result ≡ self.now.reads }
    {
        self.reads
    }

    /// Reads once into `part`, and counts the read. `part` has room for at least one byte.
    pub fn read(&mut self, part: &mut [u8]) -> Came
        requires room { self.old.reads < 2 ^ 32 - 1 }
        requires part { 0 < length part.old }
        ensures same_reference { self.new.reader.ghost_name ≡ self.old.reader.ghost_name }
        ensures reads { self.new.reads ≡ self.old.reads + 1 }
        ensures failed { self.new.failed ≡ (self.old.failed || is_failed result) }
        ensures ended { self.new.ended ≡ is_end result }
        ensures bytes { Comes (R.remaining self.old.reader.now) (R.remaining self.new.reader.now)
            part.new result }
        ensures within { IsWithin (length part.new) result }
    {
        self.reads += 1;
        let came = came_of(self.reader, part);
        self.failed = self.failed || is_failed(came);
        self.ended = is_end(came);
        came
    }
}

fn is_failed(came: Came) -> bool
    ensures { result ≡ is_failed came }
{
    match came {
        Came::Failed => true,
        _ => false,
    }
}

fn is_end(came: Came) -> bool
    ensures { result ≡ is_end came }
{
    match came {
        Came::End => true,
        _ => false,
    }
}

/// Reads once, and returns the result.
fn came_of<R: Read>(reader: &mut R, part: &mut [u8]) -> Came
    requires { 0 < length part.old }
    ensures bytes { Comes (R.remaining reader.old) (R.remaining reader.new) part.new result }
    ensures within { IsWithin (length part.new) result }
{
    match reader.read(part) {
        Ok(0) => Came::End,
        Ok(n) => Came::Bytes(n),
        Err(error) if error.kind() == ErrorKind::Interrupted => Came::Interrupted,
        Err(_) => Came::Failed,
    }
}
