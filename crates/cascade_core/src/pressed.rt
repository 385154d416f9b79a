//! The sensors that a viewer presses, and where the viewer drags them. Blocks of nodes in which
//! none is pressed are skipped.

ghost use Rattle.std.specs.Prelude.{◌≡◌, ◌*◌, ◌-◌, ◌≤◌, OnOk};
ghost use Rattle.std.specs.List.{fold, range_with_len};
ghost use Rattle.scene_core.specs.Scene.{types_of};
ghost use Rattle.cascade_world.specs.Pointer.{is_pressed, pressed as pressed_by, tracking};
ghost use Rattle.cascade_core.specs.Walks.{appended, over_block, presses, where_passes};

use cascade_world::{BLOCK, Concerned, WorldData};
use pick_core::is_sensor;
use scene_core::Scene;
use std::alloc::AllocError;
use x3d_values::Pointer;

/// Reports whether the node of that number is a pointing sensor that a viewer presses.
fn presses(world: &WorldData, scene: &Scene, who: u8, node: u32) -> bool
    ensures { result ≡ presses world.now (types_of scene.now) who node }
{
    world.is_pressed(who, node) && is_sensor(scene, node)
}

/// Appends a node, if a viewer presses it.
fn push_pressed(
    world: &WorldData,
    scene: &Scene,
    pointer: Pointer,
    node: u32,
    pressed: &mut Vec<Concerned>,
) -> Result<(), AllocError>
    ensures { OnOk result (pressed.new.items
        ≡ where_passes (presses world.now (types_of scene.now) pointer.who)
        (appended (tracking scene.now world.now pointer)) pressed.old.items node) }
{
    if !presses(world, scene, pointer.who(), node) {
        return Ok(());
    }
    pressed.push(Concerned {
        sensor: node,
        tracked: world.tracked_at(scene, pointer, node),
    })?;
    Ok(())
}

/// Appends the nodes from `start` to before `end` that a viewer presses.
fn push_some(
    world: &WorldData,
    scene: &Scene,
    pointer: Pointer,
    start: u32,
    end: u32,
    pressed: &mut Vec<Concerned>,
) -> Result<(), AllocError>
    ensures { OnOk result (pressed.new.items
        ≡ fold (where_passes (presses world.now (types_of scene.now) pointer.who)
        (appended (tracking scene.now world.now pointer)))
        pressed.old.items (range_with_len start (end - start))) }
{
    for node in start..end {
        push_pressed(world, scene, pointer, node, pressed)?;
    }
    Ok(())
}

/// Appends the nodes of a block that a viewer presses, in a scene of `count` nodes. Skips a block
/// in which it is known that no viewer presses a node.
fn push_block(
    world: &WorldData,
    scene: &Scene,
    pointer: Pointer,
    block: u32,
    count: u32,
    pressed: &mut Vec<Concerned>,
) -> Result<(), AllocError>
    requires within { block * 32 ≤ count }
    ensures { OnOk result (pressed.new.items
        ≡ over_block (where_passes (presses world.now (types_of scene.now) pointer.who)
        (appended (tracking scene.now world.now pointer)))
        pressed.old.items block count) }
{
    if world.is_untouched(block) {
        return Ok(());
    }
    let start = block * BLOCK;
    let many = (count - start).min(BLOCK);
    push_some(world, scene, pointer, start, start + many, pressed)
}

/// Lists the pointing sensors that a viewer presses, in number order, each with where the viewer's
/// ray meets the plane of a drag. Replaces the content of `pressed`. Fails with `AllocError` if
/// memory runs out.
pub fn list_pressed(
    world: &WorldData,
    scene: &Scene,
    pointer: Pointer,
    pressed: &mut Vec<Concerned>,
) -> Result<(), AllocError>
    ensures { OnOk result (pressed.new.items ≡ pressed_by scene.now world.now pointer) }
{
    pressed.clear();
    let count = scene.count()?;
    for block in 0..count / BLOCK + 1 {
        push_block(world, scene, pointer, block, count, pressed)?;
    }
    Ok(())
}
