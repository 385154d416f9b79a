//! A cascade with a stack of tasks, whose depth only memory limits.

ghost use Rattle.std.specs.Prelude.{◌≡◌, ◌+◌, ◌≤◌, ◌<◌, ◌^◌, [], true, false, None, Some, IfNone, IfSome, OnOk, map, reverse, slice_get};
ghost use Rattle.std.specs.List.{AllByRecursion};
ghost use Rattle.scene_core.specs.Scene.{shapes_of};
ghost use Rattle.cascade_trace.specs.Ends.{targets_of};
ghost use Rattle.cascade_core.specs.Replies.{send_by};
ghost use Rattle.cascade_core.specs.Outputs.{is_scene_output};
ghost use Rattle.cascade_core.specs.Course.{wiring_at, seen};
ghost use Rattle.cascade_core.specs.Cascade.{send_full, send_replies as send_replies_of};
ghost use Rattle.cascade_core.specs.Sound.{HasScriptsOf};
ghost use Rattle.pick_core.specs.Sites.{rows_of};
ghost use Rattle.cascade_core.specs.Resting.{HasSameScripts, IsAtRest, IsWorking};
ghost use Rattle.cascade_core.specs.Stack.{do_task, finish, IsReady, weight, work_left};

use crate::buffers::Buffers;
use crate::course::Course;
use crate::routed::RoutedScene;
use crate::sending::send;
use crate::tasks::{CascadeTask, push_before, push_replies};
use route_core::Routes;
use scene_core::End;
use script_host::Behaviour;
use std::alloc::AllocError;
use x3d_values::Value;

/// Sends the replies of a node in order, each with all its consequences. Fails with `AllocError` if
/// memory runs out.
pub fn send_replies<B: Behaviour>(
    routed: &RoutedScene,
    buffers: &mut Buffers,
    course: &mut Course<B>,
    node: u32,
) -> Result<(), AllocError>
    requires empty { buffers.old.tasks.items ≡ [] }
    requires boxes { buffers.old.boxes
        ≡ rows_of routed.now.scene course.old.live.world.fields }
    requires has_scripts { HasScriptsOf (wiring_at routed.now) (seen course.old) }
    requires ready { AllByRecursion (IsReady (shapes_of routed.now.scene))
        (map (send_by node) (reverse buffers.old.replies.items)) }
    ensures course { OnOk result (seen course.new
        ≡ send_replies_of (wiring_at routed.now) node (seen course.old) buffers.old.replies.items) }
    ensures rest { OnOk result (IsAtRest routed.now buffers.new (seen course.new)) }
    ensures scripts { HasSameScripts (seen course.old) (seen course.new) }
{
    push_replies(&mut buffers.tasks, node, &mut buffers.replies)?;
    run_tasks(routed, buffers, course)?;
    Ok(())
}

/// Does all tasks, the last one first.
fn run_tasks<B: Behaviour>(
    routed: &RoutedScene,
    buffers: &mut Buffers,
    course: &mut Course<B>,
) -> Result<(), AllocError>
    requires working { IsWorking routed.now buffers.old (seen course.old) }
    ensures course { OnOk result (seen course.new
        ≡ finish (wiring_at routed.now) (seen course.old) buffers.old.tasks.items) }
    ensures rest { OnOk result (IsAtRest routed.now buffers.new (seen course.new)) }
    ensures scripts { HasSameScripts (seen course.old) (seen course.new) }
{
    while let Some(task) = buffers.tasks.pop() {
        step(routed, buffers, course, task)?;
    }
    Ok(())
}

/// Does one task, which may push others.
fn step<B: Behaviour>(
    routed: &RoutedScene,
    buffers: &mut Buffers,
    course: &mut Course<B>,
    task: CascadeTask,
) -> Result<(), AllocError>
    requires working { IsWorking routed.now buffers.old (seen course.old) }
    requires task { IsReady (shapes_of routed.now.scene) task }
    ensures done { OnOk result
        (finish (wiring_at routed.now) (seen course.new) buffers.new.tasks.items
        ≡ finish (wiring_at routed.now) (do_task (wiring_at routed.now) (seen course.old) task)
        buffers.old.tasks.items) }
    ensures fewer { OnOk result
        (work_left (wiring_at routed.now) (seen course.new) buffers.new.tasks.items + 1
        ≤ work_left (wiring_at routed.now) (seen course.old) buffers.old.tasks.items
        + weight routed.now.routes task) }
    ensures working { OnOk result (IsWorking routed.now buffers.new (seen course.new)) }
    ensures scripts { HasSameScripts (seen course.old) (seen course.new) }
{
    match task {
        CascadeTask::Send(source, value) => begin(routed, buffers, course, source, value),
        CascadeTask::Follow(source, value, next) => {
            follow(routed, buffers, course, source, value, next)
        }
    }
}

/// Sends an event by an output, unless the output has sent before.
fn begin<B: Behaviour>(
    routed: &RoutedScene,
    buffers: &mut Buffers,
    course: &mut Course<B>,
    source: End,
    value: Value,
) -> Result<(), AllocError>
    requires working { IsWorking routed.now buffers.old (seen course.old) }
    requires task { is_scene_output (shapes_of routed.now.scene) source ≡ true }
    ensures done { OnOk result
        (finish (wiring_at routed.now) (seen course.new) buffers.new.tasks.items
        ≡ finish (wiring_at routed.now)
        (send_full (wiring_at routed.now) (seen course.old) source value)
        buffers.old.tasks.items) }
    ensures fewer { OnOk result
        (work_left (wiring_at routed.now) (seen course.new) buffers.new.tasks.items + 1
        ≤ work_left (wiring_at routed.now) (seen course.old) buffers.old.tasks.items + 1) }
    ensures working { OnOk result (IsWorking routed.now buffers.new (seen course.new)) }
    ensures scripts { HasSameScripts (seen course.old) (seen course.new) }
{
    // For the prover: the value is dropped by a call; otherwise its drop is proved at each exit.
    let alloc = *buffers.tasks.allocator();
    let Ok(sends) = send(&mut course.live, alloc, source, &value) else {
        drop(value);
        return Err(AllocError);
    };
    if sends {
        follow(routed, buffers, course, source, value, 0)?;
        return Ok(());
    }
    drop(value);
    Ok(())
}

/// Follows the route at this place among those of the output, and leaves the rest as a task.
fn follow<B: Behaviour>(
    routed: &RoutedScene,
    buffers: &mut Buffers,
    course: &mut Course<B>,
    source: End,
    value: Value,
    next: usize,
) -> Result<(), AllocError>
    requires working { IsWorking routed.now buffers.old (seen course.old) }
    ensures done { OnOk result
        (finish (wiring_at routed.now) (seen course.new) buffers.new.tasks.items
        ≡ finish (wiring_at routed.now)
        (do_task (wiring_at routed.now) (seen course.old) (CascadeTask.Follow source value next))
        buffers.old.tasks.items) }
    ensures fewer { OnOk result
        (work_left (wiring_at routed.now) (seen course.new) buffers.new.tasks.items + 1
        ≤ work_left (wiring_at routed.now) (seen course.old) buffers.old.tasks.items
        + weight routed.now.routes (CascadeTask.Follow source value next)) }
    ensures working { OnOk result (IsWorking routed.now buffers.new (seen course.new)) }
    ensures scripts { HasSameScripts (seen course.old) (seen course.new) }
{
    // For the prover: the value is dropped by a call; otherwise its drop is proved at each exit.
    let Some(hop) = hop_at(&routed.routes, source, next) else {
        drop(value);
        return Ok(());
    };
    let Ok(()) = course.deliver(routed, buffers, hop.target, &value) else {
        drop(value);
        return Err(AllocError);
    };
    if hop.more {
        let rest = CascadeTask::Follow(source, value, next + 1);
        push_before(
            &mut buffers.tasks,
            rest,
            hop.target.node,
            &mut buffers.replies,
        )?;
        return Ok(());
    }
    drop(value);
    push_replies(&mut buffers.tasks, hop.target.node, &mut buffers.replies)?;
    Ok(())
}

/// The target of a route, and whether its output has more routes after it.
#[derive(Clone, Copy)]
struct Hop {
    target: End,
    more: bool,
}

/// Returns the route at this place among those of the output, or `None` if there are fewer.
fn hop_at(routes: &Routes, source: End, next: usize) -> Option<Hop>
    ensures none { IfNone result (slice_get (targets_of routes.now source) next ≡ None) }
    ensures target { IfSome result (λ hop. slice_get (targets_of routes.now source) next
        ≡ Some hop.target) }
    ensures last { IfSome result (λ hop. hop.more ≡ false
        → slice_get (targets_of routes.now source) (next + 1) ≡ None) }
    ensures few { IfSome result (λ hop. next < 2 ^ 63) }
{
    let places = routes.from_output(source);
    if next >= places.len() {
        return None;
    }
    Some(Hop {
        target: routes.route(places[next]).target,
        more: places.len() - next > 1,
    })
}
