//! A handle: a pointer to a part on the heap, or null.

ghost use Rattle.std.specs.Prelude.{◌≡◌, Option, Some, None, option_map};
ghost use Rattle.embed_parts.specs.declared.part.EmbeddedPart.{EmbeddedPart as Embedded};
ghost use Rattle.embed_handles.specs.PartHeld.{held};

use crate::loose::Loose;
use embed_parts::EmbeddedPart;
use std::alloc::Global;
use std::marker::Model;
use std::{mem, ptr};

/// A part on the heap, or nothing. C sees a struct of one pointer, which is null if there is
/// nothing.
#[repr(C)]
pub struct PartHandle {
    at: *mut u8,
    pub ghost part: { Option Embedded },
}

impl Model for PartHandle {
    ghost also_owns = { λ h. held h.at h.part };
}

// The part may move to another thread, and so may the right to free its block.
unsafe impl Send for PartHandle {}

impl PartHandle {
    /// Returns an empty handle.
    pub fn none() -> PartHandle
        ensures { result.part ≡ None }
    {
        PartHandle {
            at: ptr::null_mut(),
        }
    }

    /// Returns the handle of a part.
    pub fn of(part: Loose<EmbeddedPart, Global>) -> PartHandle
        ensures { result.part ≡ Some part.value }
    {
        let Loose { at, alloc: _ } = part;
        PartHandle { at: at as *mut u8 }
    }

    /// Takes the part out of the handle, if it holds one.
    pub fn into_loose(self, alloc: Global) -> Option<Loose<EmbeddedPart, Global>>
        ensures { option_map (λ l. l.value) result ≡ self.part }
    {
        let PartHandle { at } = self;
        if at.is_null() {
            None
        } else {
            Some(Loose {
                at: at as *mut EmbeddedPart,
                alloc,
            })
        }
    }
}

/// Takes the part out of the handle, if it holds one, and leaves the handle empty.
pub fn take(handle: &mut PartHandle, alloc: Global) -> Option<Box<EmbeddedPart>>
    ensures taken { option_map (λ b. b.value) result ≡ handle.old.part }
    ensures left { handle.new.part ≡ None }
{
    match mem::replace(handle, PartHandle::none()).into_loose(alloc) {
        Some(part) => Some(part.into_box()),
        None => None,
    }
}

/// Puts a part into the handle, and drops the one that it held, if any.
pub fn put(handle: &mut PartHandle, alloc: Global, part: Box<EmbeddedPart>)
    ensures { handle.new.part ≡ Some part.value }
{
    let before = mem::replace(handle, PartHandle::of(Loose::of(part)));
    if let Some(part) = before.into_loose(alloc) {
        drop(part.into_box());
    }
}
