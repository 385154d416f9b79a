//! What is asked of a viewer by a number or a name, and its scripts.

ghost use Rattle.std.specs.Prelude.{◌≡◌, Option, Some, None, length};
ghost use Rattle.cascade_core.specs.Scripts.{kinds_in};
ghost use Rattle.share_core.specs.Viewer.{stage_in};
ghost use Rattle.embed_scene.specs.Fields as fields;
ghost use Rattle.embed_world.specs.Viewers.{Lists};
ghost use Rattle.embed_world.specs.Looks as look;
ghost use Rattle.embed_world.specs.Asked.{Describes, FindsNode, TellsTime, time_in};
ghost use Rattle.embed_world.specs.Status.{Asks, Calls, status_of_look};
ghost use Rattle.embed_world.specs.declared.viewer.EmbeddedViewer.{EmbeddedViewer as Embedded};
ghost use Rattle.embed_c.specs.NodeAnswers.{ViewerReplaces};
ghost use Rattle.embed_c.specs.Points.{kind_of};

use crate::scripts::kind_of;
use embed_handles::ViewerHandle;
use embed_handles::viewer_handle::{put, take};
use embed_world::{
    CLOSED, DONE, FieldAs, RANGE, status_of_look, status_of_place, tell_field_type, tell_node,
    tell_time,
};
use std::alloc::Global;
use x3d_values::Kind;

/// Writes the type and the access of a node's field to `told`.
#[unsafe(no_mangle)]
pub extern "C" fn x3d_viewer_field_type(
    alloc: Global,
    handle: &mut ViewerHandle,
    node: u32,
    field: u16,
    told: &mut FieldAs,
) -> u8
    ensures kept { handle.new.viewer ≡ handle.old.viewer }
    ensures told { Describes (λ (v : Embedded). fields.field_at v.viewer.scene node field)
        handle.old.viewer result told.old told.new }
{
    let Some(viewer) = take(handle, alloc) else {
        return CLOSED;
    };
    let found = viewer.field_type(node, field);
    put(handle, alloc, viewer);
    tell_field_type(found, told)
}

/// Writes the number of the node with this name to `node`.
#[unsafe(no_mangle)]
pub extern "C" fn x3d_viewer_node_named(
    alloc: Global,
    handle: &mut ViewerHandle,
    name: &[u8],
    node: &mut u32,
) -> u8
    ensures kept { handle.new.viewer ≡ handle.old.viewer }
    ensures node { FindsNode (λ (v : Embedded). v.viewer.scene) name.now handle.old.viewer result
        node.old node.new }
{
    let Some(viewer) = take(handle, alloc) else {
        return CLOSED;
    };
    let found = viewer.node_named(name);
    put(handle, alloc, viewer);
    tell_node(found, node)
}

/// Writes the time of the last input in microseconds, or 0 before the first, to `time`.
#[unsafe(no_mangle)]
pub extern "C" fn x3d_viewer_time(alloc: Global, handle: &mut ViewerHandle, time: &mut i64) -> u8
    ensures kept { handle.new.viewer ≡ handle.old.viewer }
    ensures time { TellsTime (λ (v : Embedded). time_in (stage_in v.viewer)) handle.old.viewer
        result time.old time.new }
{
    let Some(viewer) = take(handle, alloc) else {
        return CLOSED;
    };
    let answer = viewer.time();
    put(handle, alloc, viewer);
    tell_time(answer, time)
}

/// Lists the node and the kind of each script that the scene runs.
#[unsafe(no_mangle)]
pub extern "C" fn x3d_viewer_list_scripts(alloc: Global, handle: &mut ViewerHandle) -> u8
    ensures { Calls (λ (v : Embedded). Lists (look.scripts_listed v.viewer.scene) v)
        status_of_look handle.old.viewer result handle.new.viewer }
{
    let Some(mut viewer) = take(handle, alloc) else {
        return CLOSED;
    };
    let answer = viewer.list_scripts();
    put(handle, alloc, viewer);
    status_of_look(answer)
}

/// Writes the number of scripts that the scene runs to `count`.
#[unsafe(no_mangle)]
pub extern "C" fn x3d_viewer_script_count(
    alloc: Global,
    handle: &mut ViewerHandle,
    count: &mut usize,
) -> u8
    ensures kept { handle.new.viewer ≡ handle.old.viewer }
    ensures count { Asks (λ (v : Embedded). length (kinds_in v.viewer.scene))
        handle.old.viewer result count.old count.new }
{
    let Some(viewer) = take(handle, alloc) else {
        return CLOSED;
    };
    *count = viewer.script_count();
    put(handle, alloc, viewer);
    DONE
}

/// Replaces the k-th script of a handle's viewer with a box of this kind.
fn replace(alloc: Global, handle: &mut ViewerHandle, k: usize, kind: Kind) -> u8
    ensures { ViewerReplaces k (Some kind) handle.old.viewer result handle.new.viewer }
{
    let Some(mut viewer) = take(handle, alloc) else {
        return CLOSED;
    };
    let answer = viewer.replace_script(k, kind);
    put(handle, alloc, viewer);
    status_of_place(answer)
}

/// Replaces the k-th script with a new box of this kind, which goes on in its state. The viewer is
/// unchanged.
#[unsafe(no_mangle)]
pub extern "C" fn x3d_viewer_replace_script(
    alloc: Global,
    handle: &mut ViewerHandle,
    k: usize,
    kind: u8,
) -> u8
    ensures { ViewerReplaces k (kind_of kind) handle.old.viewer result handle.new.viewer }
{
    let Some(kind) = kind_of(kind) else {
        return RANGE;
    };
    replace(alloc, handle, k, kind)
}
