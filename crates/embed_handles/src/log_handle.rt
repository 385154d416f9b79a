//! A handle: a pointer to a log on the heap, or null.

ghost use Rattle.std.specs.Prelude.{◌≡◌, Option, Some, None, option_map};
ghost use Rattle.embed_logs.specs.declared.files.LogFile.{LogFile as Embedded};
ghost use Rattle.embed_handles.specs.LogHeld.{held};

use crate::loose::Loose;
use embed_logs::LogFile;
use std::alloc::Global;
use std::marker::Model;
use std::{mem, ptr};

/// A log on the heap, or nothing. C sees a struct of one pointer, which is null if there is
/// nothing.
#[repr(C)]
pub struct LogHandle {
    at: *mut u8,
    pub ghost log: { Option Embedded },
}

impl Model for LogHandle {
    ghost also_owns = { λ h. held h.at h.log };
}

// The log may move to another thread, and so may the right to free its block.
unsafe impl Send for LogHandle {}

impl LogHandle {
    /// Returns an empty handle.
    pub fn none() -> LogHandle
        ensures { result.log ≡ None }
    {
        LogHandle {
            at: ptr::null_mut(),
        }
    }

    /// Returns the handle of a log.
    pub fn of(log: Loose<LogFile, Global>) -> LogHandle
        ensures { result.log ≡ Some log.value }
    {
        let Loose { at, alloc: _ } = log;
        LogHandle { at: at as *mut u8 }
    }

    /// Takes the log out of the handle, if it holds one.
    pub fn into_loose(self, alloc: Global) -> Option<Loose<LogFile, Global>>
        ensures { option_map (λ l. l.value) result ≡ self.log }
    {
        let LogHandle { at } = self;
        if at.is_null() {
            None
        } else {
            Some(Loose {
                at: at as *mut LogFile,
                alloc,
            })
        }
    }
}

/// Takes the log out of the handle, if it holds one, and leaves the handle empty.
pub fn take(handle: &mut LogHandle, alloc: Global) -> Option<Box<LogFile>>
    ensures taken { option_map (λ b. b.value) result ≡ handle.old.log }
    ensures left { handle.new.log ≡ None }
{
    match mem::replace(handle, LogHandle::none()).into_loose(alloc) {
        Some(log) => Some(log.into_box()),
        None => None,
    }
}

/// Puts a log into the handle, and drops the one that it held, if any.
pub fn put(handle: &mut LogHandle, alloc: Global, log: Box<LogFile>)
    ensures { handle.new.log ≡ Some log.value }
{
    let before = mem::replace(handle, LogHandle::of(Loose::of(log)));
    if let Some(log) = before.into_loose(alloc) {
        drop(log.into_box());
    }
}
