//! What is asked of a world by a number or a name.

ghost use Rattle.std.specs.Prelude.{◌≡◌};
ghost use Rattle.embed_scene.specs.Fields as fields;
ghost use Rattle.embed_world.specs.Calls.{Lists};
ghost use Rattle.embed_world.specs.Looks as look;
ghost use Rattle.embed_world.specs.Asked.{Describes, FindsNode, TellsTime, time_in};
ghost use Rattle.embed_world.specs.Status.{Calls, status_of_look};
ghost use Rattle.embed_world.specs.declared.world.EmbeddedWorld.{EmbeddedWorld as Embedded};

use embed_handles::WorldHandle;
use embed_handles::world_handle::{put, take};
use embed_world::{CLOSED, FieldAs, status_of_look, tell_field_type, tell_node, tell_time};
use std::alloc::Global;

/// Writes the type and the access of a node's field to `told`.
#[unsafe(no_mangle)]
pub extern "C" fn x3d_world_field_type(
    alloc: Global,
    handle: &mut WorldHandle,
    node: u32,
    field: u16,
    told: &mut FieldAs,
) -> u8
    ensures kept { handle.new.world ≡ handle.old.world }
    ensures told { Describes (λ (w : Embedded). fields.field_at w.stage.scene node field)
        handle.old.world result told.old told.new }
{
    let Some(world) = take(handle, alloc) else {
        return CLOSED;
    };
    let found = world.field_type(node, field);
    put(handle, alloc, world);
    tell_field_type(found, told)
}

/// Writes the number of the node with this name to `node`.
#[unsafe(no_mangle)]
pub extern "C" fn x3d_world_node_named(
    alloc: Global,
    handle: &mut WorldHandle,
    name: &[u8],
    node: &mut u32,
) -> u8
    ensures kept { handle.new.world ≡ handle.old.world }
    ensures node { FindsNode (λ (w : Embedded). w.stage.scene) name.now handle.old.world result
        node.old node.new }
{
    let Some(world) = take(handle, alloc) else {
        return CLOSED;
    };
    let found = world.node_named(name);
    put(handle, alloc, world);
    tell_node(found, node)
}

/// Writes the time of the last input in microseconds, or 0 before the first, to `time`.
#[unsafe(no_mangle)]
pub extern "C" fn x3d_world_time(alloc: Global, handle: &mut WorldHandle, time: &mut i64) -> u8
    ensures kept { handle.new.world ≡ handle.old.world }
    ensures time { TellsTime (λ (w : Embedded). time_in w.stage) handle.old.world result time.old
        time.new }
{
    let Some(world) = take(handle, alloc) else {
        return CLOSED;
    };
    let answer = world.time();
    put(handle, alloc, world);
    tell_time(answer, time)
}

/// Lists the node and the kind of each script that the scene runs.
#[unsafe(no_mangle)]
pub extern "C" fn x3d_world_list_scripts(alloc: Global, handle: &mut WorldHandle) -> u8
    ensures { Calls (λ (w : Embedded). Lists (look.scripts_listed w.stage.scene) w)
        status_of_look handle.old.world result handle.new.world }
{
    let Some(mut world) = take(handle, alloc) else {
        return CLOSED;
    };
    let answer = world.list_scripts();
    put(handle, alloc, world);
    status_of_look(answer)
}
