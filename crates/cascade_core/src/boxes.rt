//! Keeps the boxes that rays may hit up to date with the nodes.

ghost use Rattle.std.specs.Prelude.{◌≡◌, [], OnOk, slice_get};
ghost use Rattle.pick_core.specs.Sites.{rows_of};
ghost use Rattle.scene_core.specs.Scene.{shapes_of, types_of};
ghost use Rattle.cascade_world.specs.Answers.{answer, answered, with_answer};
ghost use Rattle.cascade_world.specs.Nodes.{moves_boxes};

use crate::buffers::Buffers;
use cascade_world::{Live, WorldData};
use pick_core::BoxCache;
use scene_core::{End, Scene};
use std::alloc::{AllocError, Global};
use std::mem;
use x3d_values::{Fields, NodeType, Value};

/// Reports whether an event at a node may move boxes, or show or hide them: whether it is a
/// Transform or a Switch. Every field that an event sets there does so: `center`, `scale`,
/// `translation`, `whichChoice`.
fn moves_boxes(scene: &Scene, node: u32) -> bool
    ensures { result ≡ moves_boxes (slice_get (types_of scene.now) node) }
{
    match scene.type_at(node) {
        Some(NodeType::Transform) => true,
        Some(NodeType::Switch) => true,
        _ => false,
    }
}

/// Delivers an event to the target, if there is such a node, whatever has sent before. Puts the
/// replies into `replies` and updates the boxes. Fails with `AllocError` if memory runs out.
pub fn deliver(
    live: &mut Live,
    scene: &Scene,
    buffers: &mut Buffers,
    target: End,
    value: &Value,
) -> Result<(), AllocError>
    requires empty { buffers.old.replies.items ≡ [] }
    requires boxes { buffers.old.boxes ≡ rows_of scene.now live.old.world.fields }
    ensures live { OnOk result (live.new
        ≡ with_answer live.old (answer (shapes_of scene.now) live.old.world target value.now)) }
    ensures replies { OnOk result (buffers.new.replies.items
        ≡ (answer (shapes_of scene.now) live.old.world target value.now).replies) }
    ensures boxes { OnOk result (buffers.new.boxes ≡ rows_of scene.now live.new.world.fields) }
    ensures tasks { buffers.new.tasks ≡ buffers.old.tasks }
{
    answer(&mut live.world, scene, buffers, target, value)
}

/// Delivers an event to the target, if there is such a node.
fn answer(
    world: &mut WorldData,
    scene: &Scene,
    buffers: &mut Buffers,
    target: End,
    value: &Value,
) -> Result<(), AllocError>
    requires empty { buffers.old.replies.items ≡ [] }
    requires boxes { buffers.old.boxes ≡ rows_of scene.now world.old.fields }
    ensures world { OnOk result
        (world.new ≡ answered world.old
        (answer (shapes_of scene.now) world.old target value.now)) }
    ensures replies { OnOk result
        (buffers.new.replies.items
        ≡ (answer (shapes_of scene.now) world.old target value.now).replies) }
    ensures boxes { OnOk result (buffers.new.boxes ≡ rows_of scene.now world.new.fields) }
    ensures tasks { buffers.new.tasks ≡ buffers.old.tasks }
{
    let alloc = *buffers.tasks.allocator();
    world.reply_to(alloc, scene, target, value, &mut buffers.replies)?;
    if !moves_boxes(scene, target.node) {
        return Ok(());
    }
    buffers
        .boxes
        .renew(scene, world.fields.as_slice(), target.node);
    Ok(())
}

/// Replaces the boxes by those of the nodes in another state, whatever the old boxes were. Fails
/// with `AllocError` if memory runs out.
pub fn put_boxes(
    boxes: &mut BoxCache,
    alloc: Global,
    scene: &Scene,
    state: &[Fields],
) -> Result<(), AllocError>
    ensures { OnOk result (boxes.new ≡ rows_of scene.now state.now) }
{
    let made = BoxCache::new(alloc, scene, state)?;
    drop(mem::replace(boxes, made));
    Ok(())
}
