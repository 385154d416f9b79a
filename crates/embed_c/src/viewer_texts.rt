//! Texts of a viewer's world: one is made, then copied out.

ghost use Rattle.std.specs.Prelude.{◌≡◌};
ghost use Rattle.embed_world.specs.Viewers.{Makes};
ghost use Rattle.share_core.specs.Viewer.{stage_in};
ghost use Rattle.embed_world.specs.Looks as look;
ghost use Rattle.embed_world.specs.Status.{Calls, Copies, status_of_look};
ghost use Rattle.embed_world.specs.declared.viewer.EmbeddedViewer.{EmbeddedViewer as Embedded};

use embed_handles::ViewerHandle;
use embed_handles::viewer_handle::{put, take};
use embed_world::{CLOSED, copy_text, status_of_look};
use std::alloc::Global;

/// Makes the lines of the trace of inputs from a number on.
#[unsafe(no_mangle)]
pub extern "C" fn x3d_viewer_make_trace(alloc: Global, handle: &mut ViewerHandle, first: u64) -> u8
    ensures { Calls (λ (v : Embedded). Makes (look.trace_from (stage_in v.viewer) first) v)
        status_of_look handle.old.viewer result handle.new.viewer }
{
    let Some(mut viewer) = take(handle, alloc) else {
        return CLOSED;
    };
    let answer = viewer.make_trace(first);
    put(handle, alloc, viewer);
    status_of_look(answer)
}

/// Makes the same lines with the numbers of nodes and fields.
#[unsafe(no_mangle)]
pub extern "C" fn x3d_viewer_make_changes(
    alloc: Global,
    handle: &mut ViewerHandle,
    first: u64,
) -> u8
    ensures { Calls (λ (v : Embedded). Makes (look.changes_from (stage_in v.viewer) first) v)
        status_of_look handle.old.viewer result handle.new.viewer }
{
    let Some(mut viewer) = take(handle, alloc) else {
        return CLOSED;
    };
    let answer = viewer.make_changes(first);
    put(handle, alloc, viewer);
    status_of_look(answer)
}

/// Makes the text of the current scene.
#[unsafe(no_mangle)]
pub extern "C" fn x3d_viewer_make_scene(alloc: Global, handle: &mut ViewerHandle) -> u8
    ensures { Calls (λ (v : Embedded). Makes (look.scene_now (stage_in v.viewer)) v) status_of_look
        handle.old.viewer result handle.new.viewer }
{
    let Some(mut viewer) = take(handle, alloc) else {
        return CLOSED;
    };
    let answer = viewer.make_scene();
    put(handle, alloc, viewer);
    status_of_look(answer)
}

/// Makes the word for a node's type.
#[unsafe(no_mangle)]
pub extern "C" fn x3d_viewer_make_type(alloc: Global, handle: &mut ViewerHandle, node: u32) -> u8
    ensures { Calls (λ (v : Embedded). Makes (look.type_in v.viewer.scene node) v) status_of_look
        handle.old.viewer result handle.new.viewer }
{
    let Some(mut viewer) = take(handle, alloc) else {
        return CLOSED;
    };
    let answer = viewer.make_type(node);
    put(handle, alloc, viewer);
    status_of_look(answer)
}

/// Makes the label of a node, which no other node has.
#[unsafe(no_mangle)]
pub extern "C" fn x3d_viewer_make_label(alloc: Global, handle: &mut ViewerHandle, node: u32) -> u8
    ensures { Calls (λ (v : Embedded). Makes (look.label_in v.viewer.scene node) v) status_of_look
        handle.old.viewer result handle.new.viewer }
{
    let Some(mut viewer) = take(handle, alloc) else {
        return CLOSED;
    };
    let answer = viewer.make_label(node);
    put(handle, alloc, viewer);
    status_of_look(answer)
}

/// Makes the name of a field.
#[unsafe(no_mangle)]
pub extern "C" fn x3d_viewer_make_field_name(
    alloc: Global,
    handle: &mut ViewerHandle,
    node: u32,
    field: u16,
) -> u8
    ensures { Calls (λ (v : Embedded). Makes (look.field_in v.viewer.scene node field) v)
        status_of_look handle.old.viewer result handle.new.viewer }
{
    let Some(mut viewer) = take(handle, alloc) else {
        return CLOSED;
    };
    let answer = viewer.make_field_name(node, field);
    put(handle, alloc, viewer);
    status_of_look(answer)
}

/// Makes the text of a field's current value.
#[unsafe(no_mangle)]
pub extern "C" fn x3d_viewer_make_value(
    alloc: Global,
    handle: &mut ViewerHandle,
    node: u32,
    field: u16,
) -> u8
    ensures { Calls (λ (v : Embedded). Makes (look.value_in (stage_in v.viewer) node field) v)
        status_of_look handle.old.viewer result handle.new.viewer }
{
    let Some(mut viewer) = take(handle, alloc) else {
        return CLOSED;
    };
    let answer = viewer.make_value(node, field);
    put(handle, alloc, viewer);
    status_of_look(answer)
}

/// Copies the text or the snapshot that was made last, if `out` has room for it, and writes its
/// number of bytes to `wanted`.
#[unsafe(no_mangle)]
pub extern "C" fn x3d_viewer_copy_text(
    alloc: Global,
    handle: &mut ViewerHandle,
    out: &mut [u8],
    wanted: &mut usize,
) -> u8
    ensures kept { handle.new.viewer ≡ handle.old.viewer }
    ensures text { Copies (λ (v : Embedded). v.text.items) handle.old.viewer result out.old
        wanted.old wanted.new out.new }
{
    let Some(viewer) = take(handle, alloc) else {
        return CLOSED;
    };
    let status = copy_text(out, viewer.text(), wanted);
    put(handle, alloc, viewer);
    status
}
