//! Numbers of a viewer's world: they are listed, then copied out.

ghost use Rattle.std.specs.Prelude.{◌≡◌, length};
ghost use Rattle.scene_core.specs.Scene.{rows_at};
ghost use Rattle.share_core.specs.Viewer.{stage_in};
ghost use Rattle.embed_world.specs.Names.{number_named};
ghost use Rattle.embed_world.specs.Viewers.{Lists, Meets};
ghost use Rattle.embed_world.specs.Looks as look;
ghost use Rattle.embed_world.specs.Status.{Asks, Calls, CallsOut, Copies, Finds, status_of_look};
ghost use Rattle.embed_c.specs.Answers.{status_of_meet, told};
ghost use Rattle.embed_c.specs.NodeAnswers.{ViewerMeets};
ghost use Rattle.embed_c.specs.Points.{aimed};
ghost use Rattle.embed_world.specs.declared.viewer.EmbeddedViewer.{EmbeddedViewer as Embedded};

use crate::inputs::aimed;
use crate::lists::{Met, tell_met};
use embed_handles::ViewerHandle;
use embed_handles::viewer_handle::{put, take};
use embed_world::{Aim, CLOSED, DONE, RANGE, copy_numbers, status_of_look, tell_field};
use std::alloc::Global;
use x3d_values::Ray;

/// Lists the roots of the scene.
#[unsafe(no_mangle)]
pub extern "C" fn x3d_viewer_list_roots(alloc: Global, handle: &mut ViewerHandle) -> u8
    ensures { Calls (λ (v : Embedded). Lists (look.roots_in v.viewer.scene) v) status_of_look
        handle.old.viewer result handle.new.viewer }
{
    let Some(mut viewer) = take(handle, alloc) else {
        return CLOSED;
    };
    let answer = viewer.list_roots();
    put(handle, alloc, viewer);
    status_of_look(answer)
}

/// Lists the nodes in the field `children` of a node.
#[unsafe(no_mangle)]
pub extern "C" fn x3d_viewer_list_children(
    alloc: Global,
    handle: &mut ViewerHandle,
    node: u32,
) -> u8
    ensures { Calls (λ (v : Embedded). Lists (look.children_in v.viewer.scene node) v)
        status_of_look handle.old.viewer result handle.new.viewer }
{
    let Some(mut viewer) = take(handle, alloc) else {
        return CLOSED;
    };
    let answer = viewer.list_children(node);
    put(handle, alloc, viewer);
    status_of_look(answer)
}

/// Lists the numbers of a field's current value.
#[unsafe(no_mangle)]
pub extern "C" fn x3d_viewer_list_value(
    alloc: Global,
    handle: &mut ViewerHandle,
    node: u32,
    field: u16,
) -> u8
    ensures { Calls (λ (v : Embedded). Lists (look.numbers_in (stage_in v.viewer) node field) v)
        status_of_look handle.old.viewer result handle.new.viewer }
{
    let Some(mut viewer) = take(handle, alloc) else {
        return CLOSED;
    };
    let answer = viewer.list_value(node, field);
    put(handle, alloc, viewer);
    status_of_look(answer)
}

/// Writes the number of nodes in the scene to `count`.
#[unsafe(no_mangle)]
pub extern "C" fn x3d_viewer_node_count(
    alloc: Global,
    handle: &mut ViewerHandle,
    count: &mut usize,
) -> u8
    ensures kept { handle.new.viewer ≡ handle.old.viewer }
    ensures count { Asks (λ (v : Embedded). length v.viewer.scene.nodes)
        handle.old.viewer result count.old count.new }
{
    let Some(viewer) = take(handle, alloc) else {
        return CLOSED;
    };
    *count = viewer.node_count();
    put(handle, alloc, viewer);
    DONE
}

/// Writes the number of fields of a node to `count`.
#[unsafe(no_mangle)]
pub extern "C" fn x3d_viewer_field_count(
    alloc: Global,
    handle: &mut ViewerHandle,
    node: u32,
    count: &mut u32,
) -> u8
    ensures kept { handle.new.viewer ≡ handle.old.viewer }
    ensures count { Asks (λ (v : Embedded). length (rows_at v.viewer.scene node))
        handle.old.viewer result count.old count.new }
{
    let Some(viewer) = take(handle, alloc) else {
        return CLOSED;
    };
    *count = viewer.field_count(node);
    put(handle, alloc, viewer);
    DONE
}

/// Writes the number of a node's field with this name to `field`.
#[unsafe(no_mangle)]
pub extern "C" fn x3d_viewer_field_named(
    alloc: Global,
    handle: &mut ViewerHandle,
    node: u32,
    name: &[u8],
    field: &mut u16,
) -> u8
    ensures kept { handle.new.viewer ≡ handle.old.viewer }
    ensures field { Finds (λ (v : Embedded). number_named v.viewer.scene node name.now)
        handle.old.viewer result field.old field.new }
{
    let Some(viewer) = take(handle, alloc) else {
        return CLOSED;
    };
    let found = viewer.field_named(node, name);
    put(handle, alloc, viewer);
    tell_field(found, field)
}

/// Copies the numbers that were listed last, if `out` has room for them, and writes how many there
/// are to `wanted`.
#[unsafe(no_mangle)]
pub extern "C" fn x3d_viewer_copy_numbers(
    alloc: Global,
    handle: &mut ViewerHandle,
    out: &mut [i64],
    wanted: &mut usize,
) -> u8
    ensures kept { handle.new.viewer ≡ handle.old.viewer }
    ensures numbers { Copies (λ (v : Embedded). v.numbers.items) handle.old.viewer result out.old
        wanted.old wanted.new out.new }
{
    let Some(viewer) = take(handle, alloc) else {
        return CLOSED;
    };
    let status = copy_numbers(out, viewer.numbers(), wanted);
    put(handle, alloc, viewer);
    status
}

/// Writes where a ray hits, in the world of a handle's viewer, to `met`.
fn meet(alloc: Global, handle: &mut ViewerHandle, ray: Ray, met: &mut Met) -> u8
    ensures { CallsOut (λ (v : Embedded). Meets (look.meeting_in (stage_in v.viewer) ray) v)
        status_of_meet told handle.old.viewer result handle.new.viewer met.old met.new }
{
    let Some(mut viewer) = take(handle, alloc) else {
        return CLOSED;
    };
    let answer = viewer.list_sensors(ray);
    put(handle, alloc, viewer);
    tell_met(answer, met)
}

/// Writes where a ray would hit to `met`, and lists the sensors that the hit concerns. The world is
/// unchanged.
#[unsafe(no_mangle)]
pub extern "C" fn x3d_viewer_meet(
    alloc: Global,
    handle: &mut ViewerHandle,
    aim: &Aim,
    met: &mut Met,
) -> u8
    ensures { ViewerMeets (aimed aim.now) handle.old.viewer result handle.new.viewer met.old
        met.new }
{
    let Some(ray) = aimed(aim) else {
        return RANGE;
    };
    meet(alloc, handle, ray, met)
}
