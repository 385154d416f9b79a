//! Lines of traces that are forgotten.

ghost use Rattle.embed_world.specs.Calls as worlds;
ghost use Rattle.embed_world.specs.Viewers as viewers;
ghost use Rattle.embed_world.specs.Status.{Calls, status_of_forget};
ghost use Rattle.embed_world.specs.declared.world.EmbeddedWorld.{EmbeddedWorld as World};
ghost use Rattle.embed_world.specs.declared.viewer.EmbeddedViewer.{EmbeddedViewer as Viewer};

use embed_handles::{ViewerHandle, WorldHandle, viewer_handle, world_handle};
use embed_world::{CLOSED, status_of_forget};
use std::alloc::Global;

/// Forgets the lines of a world's trace of inputs with a number below `below`.
#[unsafe(no_mangle)]
pub extern "C" fn x3d_world_forget_below(alloc: Global, handle: &mut WorldHandle, below: u64) -> u8
    ensures { Calls (λ (w : World). worlds.Forgets w below) status_of_forget handle.old.world result
        handle.new.world }
{
    let Some(mut world) = world_handle::take(handle, alloc) else {
        return CLOSED;
    };
    let answer = world.forget_below(below);
    world_handle::put(handle, alloc, world);
    status_of_forget(answer)
}

/// Forgets the lines of the trace of a viewer's world, like those of a world.
#[unsafe(no_mangle)]
pub extern "C" fn x3d_viewer_forget_below(
    alloc: Global,
    handle: &mut ViewerHandle,
    below: u64,
) -> u8
    ensures { Calls (λ (v : Viewer). viewers.Forgets v below) status_of_forget
        handle.old.viewer result handle.new.viewer }
{
    let Some(mut viewer) = viewer_handle::take(handle, alloc) else {
        return CLOSED;
    };
    let answer = viewer.forget_below(below);
    viewer_handle::put(handle, alloc, viewer);
    status_of_forget(answer)
}
