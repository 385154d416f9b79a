//! Which fields of a world were set: they are listed, then copied out.

ghost use Rattle.std.specs.Prelude.{◌≡◌};
ghost use Rattle.embed_world.specs.Calls.{ListsChanged};
ghost use Rattle.embed_world.specs.Looks as look;
ghost use Rattle.embed_world.specs.Status.{Calls, Copies, status_of_look};
ghost use Rattle.embed_world.specs.declared.world.EmbeddedWorld.{EmbeddedWorld as Embedded};

use embed_handles::WorldHandle;
use embed_handles::world_handle::{put, take};
use embed_world::{CLOSED, Change, copy_changes, status_of_look};
use std::alloc::Global;

/// Lists the fields that inputs after number `since` set, and the numbers of their values.
#[unsafe(no_mangle)]
pub extern "C" fn x3d_world_list_changed(alloc: Global, handle: &mut WorldHandle, since: u64) -> u8
    ensures { Calls (λ (w : Embedded). ListsChanged (look.changed_in w.stage since) w)
        status_of_look handle.old.world result handle.new.world }
{
    let Some(mut world) = take(handle, alloc) else {
        return CLOSED;
    };
    let answer = world.list_changed(since);
    put(handle, alloc, world);
    status_of_look(answer)
}

/// Copies the fields that were listed last, if `out` has room for them, and writes how many there
/// are to `wanted`.
#[unsafe(no_mangle)]
pub extern "C" fn x3d_world_copy_changed(
    alloc: Global,
    handle: &mut WorldHandle,
    out: &mut [Change],
    wanted: &mut usize,
) -> u8
    ensures kept { handle.new.world ≡ handle.old.world }
    ensures changes { Copies (λ (w : Embedded). w.changed) handle.old.world result out.old
        wanted.old wanted.new out.new }
{
    let Some(world) = take(handle, alloc) else {
        return CLOSED;
    };
    let status = copy_changes(out, world.changed(), wanted);
    put(handle, alloc, world);
    status
}
