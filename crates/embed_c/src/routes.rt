//! The routes of a world's or a viewer's scene.

ghost use Rattle.embed_world.specs.Calls.{Lists};
ghost use Rattle.embed_world.specs.Looks as look;
ghost use Rattle.embed_world.specs.Status.{Calls, status_of_look};
ghost use Rattle.embed_world.specs.Viewers as viewers;
ghost use Rattle.embed_world.specs.declared.viewer.EmbeddedViewer.{EmbeddedViewer as Viewer};
ghost use Rattle.embed_world.specs.declared.world.EmbeddedWorld.{EmbeddedWorld as World};

use embed_handles::{ViewerHandle, WorldHandle, viewer_handle, world_handle};
use embed_world::{CLOSED, status_of_look};
use std::alloc::Global;

/// Lists the source and the target of each route of the world's scene.
#[unsafe(no_mangle)]
pub extern "C" fn x3d_world_list_routes(alloc: Global, handle: &mut WorldHandle) -> u8
    ensures { Calls (λ (w : World). Lists (look.routes_listed w.stage.routes) w)
        status_of_look handle.old.world result handle.new.world }
{
    let Some(mut world) = world_handle::take(handle, alloc) else {
        return CLOSED;
    };
    let answer = world.list_routes();
    world_handle::put(handle, alloc, world);
    status_of_look(answer)
}

/// Lists the source and the target of each route of the viewer's scene.
#[unsafe(no_mangle)]
pub extern "C" fn x3d_viewer_list_routes(alloc: Global, handle: &mut ViewerHandle) -> u8
    ensures { Calls (λ (v : Viewer). viewers.Lists (look.routes_listed v.viewer.routes) v)
        status_of_look handle.old.viewer result handle.new.viewer }
{
    let Some(mut viewer) = viewer_handle::take(handle, alloc) else {
        return CLOSED;
    };
    let answer = viewer.list_routes();
    viewer_handle::put(handle, alloc, viewer);
    status_of_look(answer)
}
