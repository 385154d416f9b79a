//! A world as bytes, and back.

ghost use Rattle.embed_world.specs.Calls.{Saves};
ghost use Rattle.embed_world.specs.Status.{Calls, status_of_save};
ghost use Rattle.embed_c.specs.Answers.{LoadsAt};
ghost use Rattle.embed_world.specs.declared.world.EmbeddedWorld.{EmbeddedWorld as Embedded};

use embed_handles::WorldHandle;
use embed_handles::world_handle::{put, take};
use embed_world::{CLOSED, DONE, status_of_save, status_of_snap};
use std::alloc::Global;

/// The boot that a snapshot was taken as, and how many inputs its world had applied.
#[derive(Clone, Copy)]
#[repr(C)]
pub struct SavedAs {
    pub applied: u64,
    pub boot: u32,
}

/// Makes the snapshot of the world, taken as this boot. It is copied like a text.
#[unsafe(no_mangle)]
pub extern "C" fn x3d_world_make_snapshot(alloc: Global, handle: &mut WorldHandle, boot: u32) -> u8
    ensures { Calls (λ (w : Embedded). Saves w boot) status_of_save handle.old.world result
        handle.new.world }
{
    let Some(mut world) = take(handle, alloc) else {
        return CLOSED;
    };
    let answer = world.make_snapshot(boot);
    put(handle, alloc, world);
    status_of_save(answer)
}

/// Replaces the world with that of a snapshot of this scene, taken as a boot below `boot`.
#[unsafe(no_mangle)]
pub extern "C" fn x3d_world_load(
    alloc: Global,
    handle: &mut WorldHandle,
    boot: u32,
    bytes: &[u8],
    saved: &mut SavedAs,
) -> u8
    ensures { LoadsAt boot bytes.now handle.old.world result handle.new.world saved.old saved.new }
{
    let Some(mut world) = take(handle, alloc) else {
        return CLOSED;
    };
    let answer = world.load(boot, bytes);
    put(handle, alloc, world);
    match answer {
        Ok(done) => {
            saved.boot = done.boot;
            saved.applied = done.applied;
            DONE
        }
        Err(fault) => status_of_snap(fault),
    }
}
