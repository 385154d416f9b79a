//! A handle: a pointer to a host on the heap, or null.

ghost use Rattle.std.specs.Prelude.{◌≡◌, Option, Some, None, option_map};
ghost use Rattle.embed_world.specs.declared.host.EmbeddedHost.{EmbeddedHost as Embedded};
ghost use Rattle.embed_handles.specs.HostHeld.{held};

use crate::loose::Loose;
use embed_world::EmbeddedHost;
use std::alloc::Global;
use std::marker::Model;
use std::{mem, ptr};

/// A host on the heap, or nothing. C sees a struct of one pointer, which is null if there is
/// nothing.
#[repr(C)]
pub struct HostHandle {
    at: *mut u8,
    pub ghost host: { Option Embedded },
}

impl Model for HostHandle {
    ghost also_owns = { λ h. held h.at h.host };
}

// The host may move to another thread, and so may the right to free its block.
unsafe impl Send for HostHandle {}

impl HostHandle {
    /// Returns an empty handle.
    pub fn none() -> HostHandle
        ensures { result.host ≡ None }
    {
        HostHandle {
            at: ptr::null_mut(),
        }
    }

    /// Returns the handle of a host.
    pub fn of(host: Loose<EmbeddedHost, Global>) -> HostHandle
        ensures { result.host ≡ Some host.value }
    {
        let Loose { at, alloc: _ } = host;
        HostHandle { at: at as *mut u8 }
    }

    /// Takes the host out of the handle, if it holds one.
    pub fn into_loose(self, alloc: Global) -> Option<Loose<EmbeddedHost, Global>>
        ensures { option_map (λ l. l.value) result ≡ self.host }
    {
        let HostHandle { at } = self;
        if at.is_null() {
            None
        } else {
            Some(Loose {
                at: at as *mut EmbeddedHost,
                alloc,
            })
        }
    }
}

/// Takes the host out of the handle, if it holds one, and leaves the handle empty.
pub fn take(handle: &mut HostHandle, alloc: Global) -> Option<Box<EmbeddedHost>>
    ensures taken { option_map (λ b. b.value) result ≡ handle.old.host }
    ensures left { handle.new.host ≡ None }
{
    match mem::replace(handle, HostHandle::none()).into_loose(alloc) {
        Some(host) => Some(host.into_box()),
        None => None,
    }
}

/// Puts a host into the handle, and drops the one that it held, if any.
pub fn put(handle: &mut HostHandle, alloc: Global, host: Box<EmbeddedHost>)
    ensures { handle.new.host ≡ Some host.value }
{
    let before = mem::replace(handle, HostHandle::of(Loose::of(host)));
    if let Some(host) = before.into_loose(alloc) {
        drop(host.into_box());
    }
}
