//! Devices that fail: hand-written readers and writers of a few bytes per call.

use super::commands::{Command, is_refused, obey};
use super::{Row, all_hold};
use app_jobs::JobFault;
use app_program::read_schedule;
use std::alloc::{AllocError, Global};
use std::io::{self, ErrorKind, Read, Write};
use std::process::Abort;

/// A reader that gives three bytes per read, and fails at one read.
#[derive(Drop)]
struct Patchy<'a> {
    left: &'a [u8],
    reads: u32,
    fails_at: u32,
    kind: ErrorKind,
}

impl<'a> Read for Patchy<'a> {
    fn read(&mut self, buf: &mut [u8]) -> io::Result<usize> {
        self.reads = self.reads.saturating_add(1);
        if self.reads == self.fails_at {
            return Err(io::Error::from(self.kind));
        }
        let n = self.left.len().min(buf.len()).min(3);
        buf[..n].copy_from_slice(&self.left[..n]);
        self.left = &self.left[n..];
        Ok(n)
    }
}

fn failing_reader(left: &[u8], fails_at: u32, kind: ErrorKind) -> Patchy<'_> {
    Patchy {
        left,
        reads: 0,
        fails_at,
        kind,
    }
}

/// A writer that takes three bytes per write, and fails at one write or flush.
#[derive(Drop)]
struct Choppy {
    got: Vec<u8>,
    calls: u32,
    fails_at: u32,
}

impl Choppy {
    fn call(&mut self) -> io::Result<()> {
        self.calls = self.calls.saturating_add(1);
        if self.calls == self.fails_at {
            return Err(io::Error::from(ErrorKind::BrokenPipe));
        }
        Ok(())
    }
}

impl Write for Choppy {
    fn write(&mut self, buf: &[u8]) -> io::Result<usize> {
        self.call()?;
        let n = buf.len().min(3);
        self.got.extend_from_slice(&buf[..n])?;
        Ok(n)
    }

    fn flush(&mut self) -> io::Result<()> {
        self.call()
    }
}

/// A command, its input and its output, each in six calls of three bytes or more.
struct Piecewise(Command, &'static str, &'static str);

impl Piecewise {
    /// Reports whether the command is refused and writes nothing if this read fails.
    fn is_refused_at_read(&self, alloc: Global, read: u32) -> bool {
        let mut reader = failing_reader(self.1.as_bytes(), read, ErrorKind::BrokenPipe);
        let mut out = Vec::new(alloc);
        let answer = obey(alloc, self.0, &mut reader, &mut out).err();
        is_refused(answer, "refused Device", 4) && out.is_empty()
    }

    /// Reports whether the command goes on if this read is interrupted.
    fn reads_again(&self, alloc: Global, read: u32) -> bool {
        let mut reader = failing_reader(self.1.as_bytes(), read, ErrorKind::Interrupted);
        let mut out = Vec::new(alloc);
        let answer = obey(alloc, self.0, &mut reader, &mut out).err();
        answer.is_none() && out.as_slice() == self.2.as_bytes()
    }

    /// Reports whether the command is refused if this write or flush fails, or writes everything if
    /// `call` is 0, so that none fails.
    fn writes(&self, alloc: Global, call: u32) -> bool {
        let mut reader = self.1.as_bytes();
        let mut writer = Choppy {
            got: Vec::new(alloc),
            calls: 0,
            fails_at: call,
        };
        let answer = obey(alloc, self.0, &mut reader, &mut writer).err();
        match call {
            0 => answer.is_none() && writer.got.as_slice() == self.2.as_bytes(),
            _ => is_refused(answer, "refused Device", 4),
        }
    }
}

impl Row for Piecewise {
    fn holds(&self, alloc: Global) -> Result<bool, AllocError> {
        for call in 1..7 {
            let fails = self.is_refused_at_read(alloc, call) && self.writes(alloc, call);
            if !fails || !self.reads_again(alloc, call) {
                return Ok(false);
            }
        }
        Ok(self.writes(alloc, 0))
    }
}

static PIECEWISE: [Piecewise; 3] = [
    Piecewise(Command::Check, "#X3D V3.0 utf8", "good 0 nodes 0 routes\n"),
    Piecewise(Command::Format, "#X3D V3.0 utf8", "#X3D V3.0 utf8\n"),
    Piecewise(Command::Run, "scene\n#X3D V3.0 utf8", "#X3D V3.0 utf8\n"),
];

#[test]
fn a_failed_device_is_answered(rt: HostRuntime) {
    all_hold(&rt, rt.alloc(), &PIECEWISE);
}

#[test]
fn a_failed_reader_of_a_schedule_is_answered(rt: HostRuntime) {
    for read in 1..7 {
        let mut broken = failing_reader(b"ask 7\nscene\nA", read, ErrorKind::BrokenPipe);
        let fault = read_schedule(rt.alloc(), &mut broken).err();
        assert!(rt; fault == Some(JobFault::Device), "{read}");
    }
}
