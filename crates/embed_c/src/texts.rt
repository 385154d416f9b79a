//! Texts of a world: one is made, then copied out.

ghost use Rattle.std.specs.Prelude.{◌≡◌};
ghost use Rattle.embed_world.specs.Calls.{Makes};
ghost use Rattle.embed_world.specs.Looks as look;
ghost use Rattle.embed_world.specs.Status.{Calls, Copies, status_of_look};
ghost use Rattle.embed_world.specs.declared.world.EmbeddedWorld.{EmbeddedWorld as Embedded};

use embed_handles::WorldHandle;
use embed_handles::world_handle::{put, take};
use embed_world::{CLOSED, copy_text, status_of_look};
use std::alloc::Global;

/// Makes the lines of the trace of inputs from a number on.
#[unsafe(no_mangle)]
pub extern "C" fn x3d_world_make_trace(alloc: Global, handle: &mut WorldHandle, first: u64) -> u8
    ensures { Calls (λ (w : Embedded). Makes (look.trace_from w.stage first) w) status_of_look
        handle.old.world result handle.new.world }
{
    let Some(mut world) = take(handle, alloc) else {
        return CLOSED;
    };
    let answer = world.make_trace(first);
    put(handle, alloc, world);
    status_of_look(answer)
}

/// Makes the same lines with the numbers of nodes and fields.
#[unsafe(no_mangle)]
pub extern "C" fn x3d_world_make_changes(alloc: Global, handle: &mut WorldHandle, first: u64) -> u8
    ensures { Calls (λ (w : Embedded). Makes (look.changes_from w.stage first) w) status_of_look
        handle.old.world result handle.new.world }
{
    let Some(mut world) = take(handle, alloc) else {
        return CLOSED;
    };
    let answer = world.make_changes(first);
    put(handle, alloc, world);
    status_of_look(answer)
}

/// Makes the text of the current scene.
#[unsafe(no_mangle)]
pub extern "C" fn x3d_world_make_scene(alloc: Global, handle: &mut WorldHandle) -> u8
    ensures { Calls (λ (w : Embedded). Makes (look.scene_now w.stage) w) status_of_look
        handle.old.world result handle.new.world }
{
    let Some(mut world) = take(handle, alloc) else {
        return CLOSED;
    };
    let answer = world.make_scene();
    put(handle, alloc, world);
    status_of_look(answer)
}

/// Makes the word for a node's type.
#[unsafe(no_mangle)]
pub extern "C" fn x3d_world_make_type(alloc: Global, handle: &mut WorldHandle, node: u32) -> u8
    ensures { Calls (λ (w : Embedded). Makes (look.type_in w.stage.scene node) w) status_of_look
        handle.old.world result handle.new.world }
{
    let Some(mut world) = take(handle, alloc) else {
        return CLOSED;
    };
    let answer = world.make_type(node);
    put(handle, alloc, world);
    status_of_look(answer)
}

/// Makes the label of a node, which no other node has.
#[unsafe(no_mangle)]
pub extern "C" fn x3d_world_make_label(alloc: Global, handle: &mut WorldHandle, node: u32) -> u8
    ensures { Calls (λ (w : Embedded). Makes (look.label_in w.stage.scene node) w) status_of_look
        handle.old.world result handle.new.world }
{
    let Some(mut world) = take(handle, alloc) else {
        return CLOSED;
    };
    let answer = world.make_label(node);
    put(handle, alloc, world);
    status_of_look(answer)
}

/// Makes the name of a field.
#[unsafe(no_mangle)]
pub extern "C" fn x3d_world_make_field_name(
    alloc: Global,
    handle: &mut WorldHandle,
    node: u32,
    field: u16,
) -> u8
    ensures { Calls (λ (w : Embedded). Makes (look.field_in w.stage.scene node field) w)
        status_of_look handle.old.world result handle.new.world }
{
    let Some(mut world) = take(handle, alloc) else {
        return CLOSED;
    };
    let answer = world.make_field_name(node, field);
    put(handle, alloc, world);
    status_of_look(answer)
}

/// Makes the text of a field's current value.
#[unsafe(no_mangle)]
pub extern "C" fn x3d_world_make_value(
    alloc: Global,
    handle: &mut WorldHandle,
    node: u32,
    field: u16,
) -> u8
    ensures { Calls (λ (w : Embedded). Makes (look.value_in w.stage node field) w) status_of_look
        handle.old.world result handle.new.world }
{
    let Some(mut world) = take(handle, alloc) else {
        return CLOSED;
    };
    let answer = world.make_value(node, field);
    put(handle, alloc, world);
    status_of_look(answer)
}

/// Copies the text or the snapshot that was made last, if `out` has room for it, and writes its
/// number of bytes to `wanted`.
#[unsafe(no_mangle)]
pub extern "C" fn x3d_world_copy_text(
    alloc: Global,
    handle: &mut WorldHandle,
    out: &mut [u8],
    wanted: &mut usize,
) -> u8
    ensures kept { handle.new.world ≡ handle.old.world }
    ensures text { Copies (λ (w : Embedded). w.text.items) handle.old.world result out.old
        wanted.old wanted.new out.new }
{
    let Some(world) = take(handle, alloc) else {
        return CLOSED;
    };
    let status = copy_text(out, world.text(), wanted);
    put(handle, alloc, world);
    status
}
