//! Handles a viewer's pointer: what it concerns is fixed first, and then each sensor gets the
//! pointer in turn (ISO/IEC 19775-1, pointing device sensor component).

ghost use Rattle.std.specs.Prelude.{◌≡◌, OnOk, map};
ghost use Rattle.std.specs.List.{fold};
ghost use Rattle.scene_core.specs.Places.{is_pointing};
ghost use Rattle.scene_core.specs.Scene.{types_of};
ghost use Rattle.cascade_core.specs.Course.{wiring_at, seen};
ghost use Rattle.cascade_core.specs.Resting.{HasSameScripts, IsAtRest};
ghost use Rattle.cascade_core.specs.Apply.{point as point_of, point_node as point_node_of};
ghost use Rattle.cascade_world.specs.Insides.{seen as insides_seen};
ghost use Rattle.cascade_world.specs.Nodes.{pointing_sensors_of};
ghost use Rattle.cascade_world.specs.Pointer.{or_all, untracked};
ghost use Rattle.cascade_core.specs.Walks.{untracked_by};

use crate::buffers::Buffers;
use crate::course::Course;
use crate::pressed::list_pressed;
use crate::routed::RoutedScene;
use crate::stack::send_replies;
use crate::walk::{VisitsNodes, walk_all};
use cascade_world::{AimedAt, Concerned, WorldData, insides};
use pick_core::is_sensor;
use scene_core::Scene;
use script_host::Behaviour;
use std::alloc::AllocError;
use std::mem;
use x3d_values::Pointer;

/// Hands a pointer to a pointing sensor and follows the events that it sends.
fn point_node<B: Behaviour>(
    routed: &RoutedScene,
    buffers: &mut Buffers,
    course: &mut Course<B>,
    concerned: Concerned,
    aim: &AimedAt,
) -> Result<(), AllocError>
    requires rest { IsAtRest routed.now buffers.old (seen course.old) }
    ensures course { OnOk result
        (seen course.new
        ≡ point_node_of routed.now.scene (wiring_at routed.now) aim.now.pointer aim.now.before
        (insides_seen aim.now.inside) (seen course.old) concerned) }
    ensures rest { OnOk result (IsAtRest routed.now buffers.new (seen course.new)) }
    ensures scripts { HasSameScripts (seen course.old) (seen course.new) }
{
    if course.live.world.passes(concerned, aim) {
        return Ok(());
    }
    course
        .live
        .world
        .meet(&routed.scene, concerned, aim, &mut buffers.replies);
    send_replies(routed, buffers, course, concerned.sensor)
}

/// Hands a pointer to each of these sensors in turn.
fn point_listed<B: Behaviour>(
    routed: &RoutedScene,
    buffers: &mut Buffers,
    course: &mut Course<B>,
    sensors: &[Concerned],
    aim: &AimedAt,
) -> Result<(), AllocError>
    requires rest { IsAtRest routed.now buffers.old (seen course.old) }
    ensures course { OnOk result
        (seen course.new
        ≡ fold
        (point_node_of routed.now.scene (wiring_at routed.now) aim.now.pointer aim.now.before
        (insides_seen aim.now.inside))
        (seen course.old) sensors.now) }
    ensures rest { OnOk result (IsAtRest routed.now buffers.new (seen course.new)) }
    ensures scripts { HasSameScripts (seen course.old) (seen course.new) }
{
    for sensor in sensors {
        point_node(routed, buffers, course, *sensor, aim)?;
    }
    Ok(())
}

/// A viewer points at the scene, and drags no sensor.
#[derive(Clone, Copy)]
struct Points<'a> {
    aim: &'a AimedAt,
}

impl<'a> VisitsNodes for Points<'a> {
    ghost wanted = { is_pointing };

    ghost step = { λ points routed. untracked_by
        (point_node_of routed.scene (wiring_at routed) points.aim.now.pointer
        points.aim.now.before (insides_seen points.aim.now.inside)) };

    fn concerns(&self, scene: &Scene, node: u32) -> bool {
        is_sensor(scene, node)
    }

    fn skips(&self, world: &WorldData, block: u32) -> bool {
        world.passes_block(block, self.aim)
    }

    fn visit<B: Behaviour>(
        &self,
        routed: &RoutedScene,
        buffers: &mut Buffers,
        course: &mut Course<B>,
        node: u32,
    ) -> Result<(), AllocError> {
        let concerned = Concerned {
            sensor: node,
            tracked: None,
        };
        point_node(routed, buffers, course, concerned, self.aim)
    }

    fn remember(&self, world: &mut WorldData, block: u32) {
        world.remember_pointing(block);
    }
}

/// Hands a pointer to each pointing sensor in turn.
fn point_all<B: Behaviour>(
    routed: &RoutedScene,
    buffers: &mut Buffers,
    course: &mut Course<B>,
    aim: &AimedAt,
) -> Result<(), AllocError>
    requires rest { IsAtRest routed.now buffers.old (seen course.old) }
    ensures course { OnOk result
        (seen course.new
        ≡ fold
        (point_node_of routed.now.scene (wiring_at routed.now) aim.now.pointer aim.now.before
        (insides_seen aim.now.inside))
        (seen course.old)
        (map untracked (pointing_sensors_of (types_of routed.now.scene)))) }
    ensures rest { OnOk result (IsAtRest routed.now buffers.new (seen course.new)) }
    ensures scripts { HasSameScripts (seen course.old) (seen course.new) }
{
    let points = Points { aim };
    walk_all(routed, buffers, course, &points)
}

/// Hands a pointer to each pressed sensor in turn, or to each pointing sensor if none is pressed.
fn point_concerned<B: Behaviour>(
    routed: &RoutedScene,
    buffers: &mut Buffers,
    course: &mut Course<B>,
    pressed: &[Concerned],
    aim: &AimedAt,
) -> Result<(), AllocError>
    requires rest { IsAtRest routed.now buffers.old (seen course.old) }
    ensures course { OnOk result
        (seen course.new
        ≡ fold
        (point_node_of routed.now.scene (wiring_at routed.now) aim.now.pointer aim.now.before
        (insides_seen aim.now.inside))
        (seen course.old)
        (or_all pressed.now (map untracked (pointing_sensors_of (types_of routed.now.scene))))) }
    ensures rest { OnOk result (IsAtRest routed.now buffers.new (seen course.new)) }
    ensures scripts { HasSameScripts (seen course.old) (seen course.new) }
{
    match pressed {
        [] => point_all(routed, buffers, course, aim),
        _ => point_listed(routed, buffers, course, pressed, aim),
    }
}

/// Handles a viewer's pointer. Fails with `AllocError` if memory runs out.
#[tactic(auto, unfolding(crate::specs::Apply::point, cascade_world::specs::Pointer::concerned))]
pub fn point<B: Behaviour>(
    routed: &RoutedScene,
    buffers: &mut Buffers,
    course: &mut Course<B>,
    pointer: Pointer,
) -> Result<(), AllocError>
    requires rest { IsAtRest routed.now buffers.old (seen course.old) }
    ensures course { OnOk result (seen course.new
        ≡ point_of routed.now.scene (wiring_at routed.now) (seen course.old) pointer) }
    ensures rest { OnOk result (IsAtRest routed.now buffers.new (seen course.new)) }
    ensures scripts { HasSameScripts (seen course.old) (seen course.new) }
{
    let world = &course.live.world;
    list_pressed(world, &routed.scene, pointer, &mut buffers.pressed)?;
    let aim = AimedAt {
        pointer,
        before: world.is_down(pointer.who()),
        inside: insides(
            &routed.scene,
            world.fields.as_slice(),
            &buffers.boxes,
            pointer.ray(),
        ),
    };
    course.live.set_button(pointer);
    // The list is lent apart from the other buffers.
    let none = Vec::new(*buffers.pressed.allocator());
    let pressed = mem::replace(&mut buffers.pressed, none);
    let pointed = point_concerned(routed, buffers, course, &pressed, &aim);
    drop(mem::replace(&mut buffers.pressed, pressed));
    pointed
}
