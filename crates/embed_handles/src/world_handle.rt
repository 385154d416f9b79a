//! A handle: a pointer to a world on the heap, or null.

ghost use Rattle.std.specs.Prelude.{◌≡◌, Option, Some, None, option_map};
ghost use Rattle.embed_world.specs.declared.world.EmbeddedWorld.{EmbeddedWorld as Embedded};
ghost use Rattle.embed_handles.specs.WorldHeld.{held};

use crate::loose::Loose;
use embed_world::EmbeddedWorld;
use std::alloc::Global;
use std::marker::Model;
use std::{mem, ptr};

/// A world on the heap, or nothing. C sees a struct of one pointer, which is null if there is
/// nothing.
#[repr(C)]
pub struct WorldHandle {
    at: *mut u8,
    pub ghost world: { Option Embedded },
}

impl Model for WorldHandle {
    ghost also_owns = { λ h. held h.at h.world };
}

// The world may move to another thread, and so may the right to free its block.
unsafe impl Send for WorldHandle {}

impl WorldHandle {
    /// Returns an empty handle.
    pub fn none() -> WorldHandle
        ensures { result.world ≡ None }
    {
        WorldHandle {
            at: ptr::null_mut(),
        }
    }

    /// Returns the handle of a world.
    pub fn of(world: Loose<EmbeddedWorld, Global>) -> WorldHandle
        ensures { result.world ≡ Some world.value }
    {
        let Loose { at, alloc: _ } = world;
        WorldHandle { at: at as *mut u8 }
    }

    /// Takes the world out of the handle, if it holds one.
    pub fn into_loose(self, alloc: Global) -> Option<Loose<EmbeddedWorld, Global>>
        ensures { option_map (λ l. l.value) result ≡ self.world }
    {
        let WorldHandle { at } = self;
        if at.is_null() {
            None
        } else {
            Some(Loose {
                at: at as *mut EmbeddedWorld,
                alloc,
            })
        }
    }
}

/// Takes the world out of the handle, if it holds one, and leaves the handle empty.
pub fn take(handle: &mut WorldHandle, alloc: Global) -> Option<Box<EmbeddedWorld>>
    ensures taken { option_map (λ b. b.value) result ≡ handle.old.world }
    ensures left { handle.new.world ≡ None }
{
    match mem::replace(handle, WorldHandle::none()).into_loose(alloc) {
        Some(world) => Some(world.into_box()),
        None => None,
    }
}

/// Puts a world into the handle, and drops the one that it held, if any.
pub fn put(handle: &mut WorldHandle, alloc: Global, world: Box<EmbeddedWorld>)
    ensures { handle.new.world ≡ Some world.value }
{
    let before = mem::replace(handle, WorldHandle::of(Loose::of(world)));
    if let Some(world) = before.into_loose(alloc) {
        drop(world.into_box());
    }
}
