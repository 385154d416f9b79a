//! Numbers of a world: they are listed, then copied out.

ghost use Rattle.std.specs.Prelude.{◌≡◌, length};
ghost use Rattle.cascade_core.specs.Held.{applied_of};
ghost use Rattle.scene_core.specs.Scene.{rows_at};
ghost use Rattle.embed_world.specs.Names.{number_named};
ghost use Rattle.embed_world.specs.Calls.{Lists};
ghost use Rattle.embed_world.specs.Looks as look;
ghost use Rattle.embed_world.specs.Status.{Asks, Calls, Copies, Finds, status_of_look};
ghost use Rattle.embed_c.specs.Answers.{Meeting, met_of, status_of_meet, told};
ghost use Rattle.embed_c.specs.Points.{direction_of, origin_of};
ghost use Rattle.embed_world.specs.Pointing.{ray_of};
ghost use Rattle.embed_world.specs.declared.world.EmbeddedWorld.{EmbeddedWorld as Embedded};

use crate::inputs::{direction_of, origin_of};
use embed_handles::WorldHandle;
use embed_handles::world_handle::{put, take};
use embed_world::{
    Aim, CLOSED, DONE, ListEntry, LookFault, RANGE, copy_numbers, ray_of, status_of_look,
    tell_field,
};
use std::alloc::Global;

/// Lists the roots of the scene.
#[unsafe(no_mangle)]
pub extern "C" fn x3d_world_list_roots(alloc: Global, handle: &mut WorldHandle) -> u8
    ensures { Calls (λ (w : Embedded). Lists (look.roots_in w.stage.scene) w) status_of_look
        handle.old.world result handle.new.world }
{
    let Some(mut world) = take(handle, alloc) else {
        return CLOSED;
    };
    let answer = world.list_roots();
    put(handle, alloc, world);
    status_of_look(answer)
}

/// Lists the nodes in the field `children` of a node.
#[unsafe(no_mangle)]
pub extern "C" fn x3d_world_list_children(alloc: Global, handle: &mut WorldHandle, node: u32) -> u8
    ensures { Calls (λ (w : Embedded). Lists (look.children_in w.stage.scene node) w) status_of_look
        handle.old.world result handle.new.world }
{
    let Some(mut world) = take(handle, alloc) else {
        return CLOSED;
    };
    let answer = world.list_children(node);
    put(handle, alloc, world);
    status_of_look(answer)
}

/// Lists the numbers of a field's current value.
#[unsafe(no_mangle)]
pub extern "C" fn x3d_world_list_value(
    alloc: Global,
    handle: &mut WorldHandle,
    node: u32,
    field: u16,
) -> u8
    ensures { Calls (λ (w : Embedded). Lists (look.numbers_in w.stage node field) w) status_of_look
        handle.old.world result handle.new.world }
{
    let Some(mut world) = take(handle, alloc) else {
        return CLOSED;
    };
    let answer = world.list_value(node, field);
    put(handle, alloc, world);
    status_of_look(answer)
}

/// Writes the number of inputs that were applied, or that had been when memory ran out, to `count`.
#[unsafe(no_mangle)]
pub extern "C" fn x3d_world_applied(alloc: Global, handle: &mut WorldHandle, count: &mut u64) -> u8
    ensures kept { handle.new.world ≡ handle.old.world }
    ensures count { Asks (λ (w : Embedded). applied_of w.stage.held)
        handle.old.world result count.old count.new }
{
    let Some(world) = take(handle, alloc) else {
        return CLOSED;
    };
    *count = world.applied();
    put(handle, alloc, world);
    DONE
}

/// Writes the number of nodes in the scene to `count`.
#[unsafe(no_mangle)]
pub extern "C" fn x3d_world_node_count(
    alloc: Global,
    handle: &mut WorldHandle,
    count: &mut usize,
) -> u8
    ensures kept { handle.new.world ≡ handle.old.world }
    ensures count { Asks (λ (w : Embedded). length w.stage.scene.nodes)
        handle.old.world result count.old count.new }
{
    let Some(world) = take(handle, alloc) else {
        return CLOSED;
    };
    *count = world.node_count();
    put(handle, alloc, world);
    DONE
}

/// Writes the number of fields of a node to `count`.
#[unsafe(no_mangle)]
pub extern "C" fn x3d_world_field_count(
    alloc: Global,
    handle: &mut WorldHandle,
    node: u32,
    count: &mut u32,
) -> u8
    ensures kept { handle.new.world ≡ handle.old.world }
    ensures count { Asks (λ (w : Embedded). length (rows_at w.stage.scene node))
        handle.old.world result count.old count.new }
{
    let Some(world) = take(handle, alloc) else {
        return CLOSED;
    };
    *count = world.field_count(node);
    put(handle, alloc, world);
    DONE
}

/// Writes the number of a node's field with this name to `field`.
#[unsafe(no_mangle)]
pub extern "C" fn x3d_world_field_named(
    alloc: Global,
    handle: &mut WorldHandle,
    node: u32,
    name: &[u8],
    field: &mut u16,
) -> u8
    ensures kept { handle.new.world ≡ handle.old.world }
    ensures field { Finds (λ (w : Embedded). number_named w.stage.scene node name.now)
        handle.old.world result field.old field.new }
{
    let Some(world) = take(handle, alloc) else {
        return CLOSED;
    };
    let found = world.field_named(node, name);
    put(handle, alloc, world);
    tell_field(found, field)
}

/// Copies the numbers that were listed last, if `out` has room for them, and writes how many there
/// are to `wanted`.
#[unsafe(no_mangle)]
pub extern "C" fn x3d_world_copy_numbers(
    alloc: Global,
    handle: &mut WorldHandle,
    out: &mut [i64],
    wanted: &mut usize,
) -> u8
    ensures kept { handle.new.world ≡ handle.old.world }
    ensures numbers { Copies (λ (w : Embedded). w.numbers.items) handle.old.world result out.old
        wanted.old wanted.new out.new }
{
    let Some(world) = take(handle, alloc) else {
        return CLOSED;
    };
    let status = copy_numbers(out, world.numbers(), wanted);
    put(handle, alloc, world);
    status
}

/// Where a ray would enter what it hits first: at `n / m` of the way along its direction. `m` is 0
/// if it hits nothing.
#[derive(Clone, Copy)]
#[repr(C)]
pub struct Met {
    pub n: u64,
    pub m: u64,
}

/// Writes where a ray enters.
fn write_met(entry: Option<ListEntry>, met: &mut Met)
    ensures { met.new ≡ met_of entry }
{
    let Some(entry) = entry else {
        met.n = 0;
        met.m = 0;
        return;
    };
    met.n = entry.n;
    met.m = entry.m;
}

/// Writes where a ray enters, if it was computed, and returns the status.
pub(crate) fn tell_met(answer: Result<Option<ListEntry>, LookFault>, met: &mut Met) -> u8
    ensures status { result ≡ status_of_meet answer }
    ensures told { met.new ≡ told met.old answer }
{
    match answer {
        Ok(entry) => {
            write_met(entry, met);
            DONE
        }
        Err(fault) => status_of_look(Err(fault)),
    }
}

/// Writes where a ray would hit to `met`, and lists the sensors that the hit concerns. The world is
/// unchanged.
#[unsafe(no_mangle)]
pub extern "C" fn x3d_world_meet(
    alloc: Global,
    handle: &mut WorldHandle,
    aim: &Aim,
    met: &mut Met,
) -> u8
    ensures { Meeting (ray_of (origin_of aim.now) (direction_of aim.now)) handle.old.world result
        handle.new.world met.old met.new }
{
    let Some(ray) = ray_of(origin_of(aim), direction_of(aim)) else {
        return RANGE;
    };
    let Some(mut world) = take(handle, alloc) else {
        return CLOSED;
    };
    let answer = world.list_sensors(ray);
    put(handle, alloc, world);
    match answer {
        Ok(entry) => {
            write_met(entry, met);
            DONE
        }
        Err(fault) => status_of_look(Err(fault)),
    }
}
