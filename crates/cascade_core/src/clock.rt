//! The clock ticks for each TimeSensor in number order.

ghost use Rattle.std.specs.Prelude.{◌≡◌, OnOk, true};
ghost use Rattle.std.specs.List.{fold};
ghost use Rattle.react_core.specs.Reaction.{is_time_sensor};
ghost use Rattle.scene_core.specs.Scene.{types_of};
ghost use Rattle.cascade_core.specs.Course.{wiring_at, seen};
ghost use Rattle.cascade_core.specs.Resting.{HasSameScripts, IsAtRest};
ghost use Rattle.cascade_world.specs.Nodes.{clocks_of, is_clock};
ghost use Rattle.cascade_core.specs.Apply.{tick_node as tick_node_of};

use crate::buffers::Buffers;
use crate::course::Course;
use crate::nodes::is_clock;
use crate::routed::RoutedScene;
use crate::stack::send_replies;
use crate::walk::{VisitsNodes, walk_all};
use cascade_world::WorldData;
use scene_core::Scene;
use script_host::Behaviour;
use std::alloc::AllocError;
use x3d_values::Stamped;

/// Lets a TimeSensor tick and follows the events that it sends.
fn tick_node<B: Behaviour>(
    routed: &RoutedScene,
    buffers: &mut Buffers,
    course: &mut Course<B>,
    node: u32,
    input: &Stamped,
) -> Result<(), AllocError>
    requires rest { IsAtRest routed.now buffers.old (seen course.old) }
    requires clock { is_clock (types_of routed.now.scene) node ≡ true }
    ensures course { OnOk result (seen course.new
        ≡ tick_node_of (wiring_at routed.now) input.now.time (seen course.old) node) }
    ensures rest { OnOk result (IsAtRest routed.now buffers.new (seen course.new)) }
    ensures scripts { HasSameScripts (seen course.old) (seen course.new) }
{
    course.live.world.tick(node, input, &mut buffers.replies);
    send_replies(routed, buffers, course, node)
}

/// The clock ticks at an input.
#[derive(Clone, Copy)]
struct Ticks<'a> {
    input: &'a Stamped,
}

impl<'a> VisitsNodes for Ticks<'a> {
    ghost wanted = { is_time_sensor };

    ghost step = { λ ticks routed. tick_node_of (wiring_at routed) ticks.input.now.time };

    fn concerns(&self, scene: &Scene, node: u32) -> bool {
        is_clock(scene, node)
    }

    fn skips(&self, world: &WorldData, block: u32) -> bool {
        world.is_idle(block, self.input)
    }

    fn visit<B: Behaviour>(
        &self,
        routed: &RoutedScene,
        buffers: &mut Buffers,
        course: &mut Course<B>,
        node: u32,
    ) -> Result<(), AllocError> {
        tick_node(routed, buffers, course, node, self.input)
    }

    fn remember(&self, world: &mut WorldData, block: u32) {
        world.remember_idle(block, self.input);
    }
}

/// Lets each TimeSensor tick in turn. Fails with `AllocError` if memory runs out.
pub fn clock<B: Behaviour>(
    routed: &RoutedScene,
    buffers: &mut Buffers,
    course: &mut Course<B>,
    input: &Stamped,
) -> Result<(), AllocError>
    requires rest { IsAtRest routed.now buffers.old (seen course.old) }
    ensures course { OnOk result (seen course.new
        ≡ fold (tick_node_of (wiring_at routed.now) input.now.time) (seen course.old)
        (clocks_of (types_of routed.now.scene))) }
    ensures rest { OnOk result (IsAtRest routed.now buffers.new (seen course.new)) }
    ensures scripts { HasSameScripts (seen course.old) (seen course.new) }
{
    let ticks = Ticks { input };
    walk_all(routed, buffers, course, &ticks)
}
