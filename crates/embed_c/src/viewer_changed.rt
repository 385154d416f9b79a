//! Which fields of a viewer's world were set: they are listed, then copied out.

ghost use Rattle.std.specs.Prelude.{◌≡◌};
ghost use Rattle.share_core.specs.Viewer.{stage_in};
ghost use Rattle.embed_world.specs.Viewers.{ListsChanged};
ghost use Rattle.embed_world.specs.Looks as look;
ghost use Rattle.embed_world.specs.Status.{Calls, Copies, status_of_look};
ghost use Rattle.embed_world.specs.declared.viewer.EmbeddedViewer.{EmbeddedViewer as Embedded};

use embed_handles::ViewerHandle;
use embed_handles::viewer_handle::{put, take};
use embed_world::{CLOSED, Change, copy_changes, status_of_look};
use std::alloc::Global;

/// Lists the fields that inputs after number `since` set, and the numbers of their values.
#[unsafe(no_mangle)]
pub extern "C" fn x3d_viewer_list_changed(
    alloc: Global,
    handle: &mut ViewerHandle,
    since: u64,
) -> u8
    ensures { Calls (λ (v : Embedded). ListsChanged (look.changed_in (stage_in v.viewer) since) v)
        status_of_look handle.old.viewer result handle.new.viewer }
{
    let Some(mut viewer) = take(handle, alloc) else {
        return CLOSED;
    };
    let answer = viewer.list_changed(since);
    put(handle, alloc, viewer);
    status_of_look(answer)
}

/// Copies the fields that were listed last, if `out` has room for them, and writes how many there
/// are to `wanted`.
#[unsafe(no_mangle)]
pub extern "C" fn x3d_viewer_copy_changed(
    alloc: Global,
    handle: &mut ViewerHandle,
    out: &mut [Change],
    wanted: &mut usize,
) -> u8
    ensures kept { handle.new.viewer ≡ handle.old.viewer }
    ensures changes { Copies (λ (v : Embedded). v.changed) handle.old.viewer result out.old
        wanted.old wanted.new out.new }
{
    let Some(viewer) = take(handle, alloc) else {
        return CLOSED;
    };
    let status = copy_changes(out, viewer.changed(), wanted);
    put(handle, alloc, viewer);
    status
}
