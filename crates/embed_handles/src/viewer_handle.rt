//! A handle: a pointer to a viewer on the heap, or null.

ghost use Rattle.std.specs.Prelude.{◌≡◌, Option, Some, None, option_map};
ghost use Rattle.embed_world.specs.declared.viewer.EmbeddedViewer.{EmbeddedViewer as Embedded};
ghost use Rattle.embed_handles.specs.ViewerHeld.{held};

use crate::loose::Loose;
use embed_world::EmbeddedViewer;
use std::alloc::Global;
use std::marker::Model;
use std::{mem, ptr};

/// A viewer on the heap, or nothing. C sees a struct of one pointer, which is null if there is
/// nothing.
#[repr(C)]
pub struct ViewerHandle {
    at: *mut u8,
    pub ghost viewer: { Option Embedded },
}

impl Model for ViewerHandle {
    ghost also_owns = { λ h. held h.at h.viewer };
}

// The viewer may move to another thread, and so may the right to free its block.
unsafe impl Send for ViewerHandle {}

impl ViewerHandle {
    /// Returns an empty handle.
    pub fn none() -> ViewerHandle
        ensures { result.viewer ≡ None }
    {
        ViewerHandle {
            at: ptr::null_mut(),
        }
    }

    /// Returns the handle of a viewer.
    pub fn of(viewer: Loose<EmbeddedViewer, Global>) -> ViewerHandle
        ensures { result.viewer ≡ Some viewer.value }
    {
        let Loose { at, alloc: _ } = viewer;
        ViewerHandle { at: at as *mut u8 }
    }

    /// Takes the viewer out of the handle, if it holds one.
    pub fn into_loose(self, alloc: Global) -> Option<Loose<EmbeddedViewer, Global>>
        ensures { option_map (λ l. l.value) result ≡ self.viewer }
    {
        let ViewerHandle { at } = self;
        if at.is_null() {
            None
        } else {
            Some(Loose {
                at: at as *mut EmbeddedViewer,
                alloc,
            })
        }
    }
}

/// Takes the viewer out of the handle, if it holds one, and leaves the handle empty.
pub fn take(handle: &mut ViewerHandle, alloc: Global) -> Option<Box<EmbeddedViewer>>
    ensures taken { option_map (λ b. b.value) result ≡ handle.old.viewer }
    ensures left { handle.new.viewer ≡ None }
{
    match mem::replace(handle, ViewerHandle::none()).into_loose(alloc) {
        Some(viewer) => Some(viewer.into_box()),
        None => None,
    }
}

/// Puts a viewer into the handle, and drops the one that it held, if any.
pub fn put(handle: &mut ViewerHandle, alloc: Global, viewer: Box<EmbeddedViewer>)
    ensures { handle.new.viewer ≡ Some viewer.value }
{
    let before = mem::replace(handle, ViewerHandle::of(Loose::of(viewer)));
    if let Some(viewer) = before.into_loose(alloc) {
        drop(viewer.into_box());
    }
}
