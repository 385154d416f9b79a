//! A walk over the nodes of a scene in number order. Blocks of nodes at which nothing happens are
//! skipped.

ghost use Rattle.std.specs.Prelude.{◌≡◌, ◌*◌, ◌-◌, ◌/◌, ◌≤◌, ℕ, Bool, IsTrue, OnOk, true};
ghost use Rattle.std.specs.List.{fold, range_with_len};
ghost use Rattle.x3d_values.specs.declared.node_type.NodeType.{NodeType};
ghost use Rattle.scene_core.specs.Scene.{types_of};
ghost use Rattle.cascade_world.specs.Nodes.{is_of, numbers_of};
ghost use Rattle.cascade_core.specs.Course.{CourseView, wiring_at, seen};
ghost use Rattle.cascade_core.specs.Resting.{HasSameScripts, IsAtRest};
ghost use Rattle.cascade_core.specs.Walks.{over_block, where_passes};
ghost use Rattle.cascade_core.specs.declared.routed.RoutedScene.{RoutedScene as RoutedView};

use crate::buffers::Buffers;
use crate::course::Course;
use crate::routed::RoutedScene;
use cascade_world::{BLOCK, WorldData};
use scene_core::Scene;
use script_host::Behaviour;
use std::alloc::AllocError;

/// What visits the nodes of some types, each in turn: a tick of the clock, or a viewer's pointer.
pub trait VisitsNodes {
    /// Whether it concerns the nodes of a type.
    ghost wanted: { NodeType → Bool };

    /// The course after the visit of a node.
    ghost step: { Self → RoutedView → CourseView → ℕ → CourseView };

    /// Reports whether it concerns the node of that number.
    fn concerns(&self, scene: &Scene, node: u32) -> bool
        ensures { result ≡ is_of wanted (types_of scene.now) node };

    /// Reports whether it is known to do nothing at any node of a block.
    fn skips(&self, world: &WorldData, block: u32) -> bool
        ensures { (routed : RoutedView) (c : CourseView) (node : ℕ) → IsTrue result
            → node / 32 ≡ block → c.live.world ≡ world.now → c ≡ step self.now routed c node };

    /// Visits a node that it concerns, and follows the events that the node sends.
    fn visit<B: Behaviour>(
        &self,
        routed: &RoutedScene,
        buffers: &mut Buffers,
        course: &mut Course<B>,
        node: u32,
    ) -> Result<(), AllocError>
        requires rest { IsAtRest routed.now buffers.old (seen course.old) }
        requires concerned { is_of wanted (types_of routed.now.scene) node ≡ true }
        ensures course { OnOk result
            (seen course.new ≡ step self.now routed.now (seen course.old) node) }
        ensures rest { OnOk result (IsAtRest routed.now buffers.new (seen course.new)) }
        ensures scripts { HasSameScripts (seen course.old) (seen course.new) };

    /// Remembers whether it does nothing at any node of a block.
    fn remember(&self, world: &mut WorldData, block: u32)
        ensures { world.new ≡ world.old };
}

/// Visits the node of that number, if the visitor concerns it.
fn walk_node<V: VisitsNodes, B: Behaviour>(
    routed: &RoutedScene,
    buffers: &mut Buffers,
    course: &mut Course<B>,
    visitor: &V,
    node: u32,
) -> Result<(), AllocError>
    requires rest { IsAtRest routed.now buffers.old (seen course.old) }
    ensures course { OnOk result (seen course.new
        ≡ where_passes (is_of V.wanted (types_of routed.now.scene))
        (V.step visitor.now routed.now) (seen course.old) node) }
    ensures rest { OnOk result (IsAtRest routed.now buffers.new (seen course.new)) }
    ensures scripts { HasSameScripts (seen course.old) (seen course.new) }
{
    if !visitor.concerns(&routed.scene, node) {
        return Ok(());
    }
    visitor.visit(routed, buffers, course, node)
}

/// Visits each node from `start` to before `end` that the visitor concerns.
fn walk_range<V: VisitsNodes, B: Behaviour>(
    routed: &RoutedScene,
    buffers: &mut Buffers,
    course: &mut Course<B>,
    visitor: &V,
    start: u32,
    end: u32,
) -> Result<(), AllocError>
    requires rest { IsAtRest routed.now buffers.old (seen course.old) }
    ensures course { OnOk result (seen course.new
        ≡ fold (where_passes (is_of V.wanted (types_of routed.now.scene))
        (V.step visitor.now routed.now)) (seen course.old)
        (range_with_len start (end - start))) }
    ensures rest { OnOk result (IsAtRest routed.now buffers.new (seen course.new)) }
    ensures scripts { HasSameScripts (seen course.old) (seen course.new) }
{
    for node in start..end {
        walk_node(routed, buffers, course, visitor, node)?;
    }
    Ok(())
}

/// Visits the nodes of a block that the visitor concerns, in a scene of `count` nodes. Skips a
/// block where it is known to do nothing.
fn walk_block<V: VisitsNodes, B: Behaviour>(
    routed: &RoutedScene,
    buffers: &mut Buffers,
    course: &mut Course<B>,
    visitor: &V,
    block: u32,
    count: u32,
) -> Result<(), AllocError>
    requires within { block * 32 ≤ count }
    requires rest { IsAtRest routed.now buffers.old (seen course.old) }
    ensures course { OnOk result (seen course.new
        ≡ over_block (where_passes (is_of V.wanted (types_of routed.now.scene))
        (V.step visitor.now routed.now)) (seen course.old) block count) }
    ensures rest { OnOk result (IsAtRest routed.now buffers.new (seen course.new)) }
    ensures scripts { HasSameScripts (seen course.old) (seen course.new) }
{
    if visitor.skips(&course.live.world, block) {
        return Ok(());
    }
    let start = block * BLOCK;
    let many = (count - start).min(BLOCK);
    walk_range(routed, buffers, course, visitor, start, start + many)?;
    visitor.remember(&mut course.live.world, block);
    Ok(())
}

/// Visits each node that the visitor concerns, in number order. Fails with `AllocError` if memory
/// runs out.
pub fn walk_all<V: VisitsNodes, B: Behaviour>(
    routed: &RoutedScene,
    buffers: &mut Buffers,
    course: &mut Course<B>,
    visitor: &V,
) -> Result<(), AllocError>
    requires rest { IsAtRest routed.now buffers.old (seen course.old) }
    ensures course { OnOk result (seen course.new
        ≡ fold (V.step visitor.now routed.now) (seen course.old)
        (numbers_of V.wanted (types_of routed.now.scene))) }
    ensures rest { OnOk result (IsAtRest routed.now buffers.new (seen course.new)) }
    ensures scripts { HasSameScripts (seen course.old) (seen course.new) }
{
    let count = routed.scene.count()?;
    for block in 0..count / BLOCK + 1 {
        walk_block(routed, buffers, course, visitor, block, count)?;
    }
    Ok(())
}
