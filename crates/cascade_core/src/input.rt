//! Handles an input: it goes to the nodes that it concerns, scripts settle, and the world advances.

ghost use Rattle.std.specs.Prelude.{◌≡◌, ◌+◌, IfOk, OnOk, length};
ghost use Rattle.pick_core.specs.Sites.{rows_of};
ghost use Rattle.script_running.specs.Acting.{kinds_of};
ghost use Rattle.cascade_core.specs.Course.{wiring_at, seen};
ghost use Rattle.cascade_core.specs.Resting.{HasSameScripts, HasSceneScripts, IsAtRest};
ghost use Rattle.cascade_core.specs.Course.{course as course_of, ended};
ghost use Rattle.cascade_core.specs.Scripts.{running, states_of};
ghost use Rattle.cascade_core.specs.Apply.{begin as begin_of};
ghost use Rattle.cascade_core.specs.Sound.{HasScriptsOf};
ghost use Rattle.cascade_core.specs.Work.{IsWork};
ghost use Rattle.cascade_core.specs.Apply.{apply, course_after, happen};

use crate::buffers::Buffers;
use crate::clock::clock;
use crate::course::Course;
use crate::pointer::point;
use crate::routed::RoutedScene;
use crate::settle::settle;
use crate::work::Work;
use cascade_trace::deliveries;
use script_host::Behaviour;
use std::alloc::AllocError;
use x3d_values::{Cause, Stamped};

impl<B: Behaviour> Course<B> {
    /// Begins an input: no output has sent, and no script has received an event.
    fn begin(&mut self, input: &Stamped)
        requires next { input.now.number ≡ self.old.live.world.applied + 1 }
        requires counted { self.old.settling.count ≡ length self.old.scripts }
        ensures course { seen self.new
            ≡ course_of (begin_of self.old.live.world input.now) self.old.scripts }
        ensures begun { self.old.scripts
            ≡ running (kinds_of self.old.scripts) (states_of self.old.scripts) }
    {
        self.live.begin(input);
        self.scripts.begin(&mut self.settling);
    }
}

/// Hands the cause of an input to the nodes that it concerns.
fn happen<B: Behaviour>(
    routed: &RoutedScene,
    buffers: &mut Buffers,
    course: &mut Course<B>,
    input: &Stamped,
) -> Result<(), AllocError>
    requires rest { IsAtRest routed.now buffers.old (seen course.old) }
    ensures course { OnOk result (seen course.new
        ≡ happen routed.now.scene (wiring_at routed.now) input.now.time (seen course.old)
        input.now.cause) }
    ensures rest { OnOk result (IsAtRest routed.now buffers.new (seen course.new)) }
    ensures scripts { HasSameScripts (seen course.old) (seen course.new) }
{
    match input.cause() {
        Cause::Clock => clock(routed, buffers, course, input),
        Cause::Pointer(pointer) => point(routed, buffers, course, pointer),
    }
}

/// Advances the world by one input. Fails with `AllocError` if memory runs out; the world is then
/// unusable.
#[tactic(auto, unfolding(crate::specs::Apply::apply))]
pub fn advance<B: Behaviour>(
    routed: &RoutedScene,
    buffers: &mut Buffers,
    course: &mut Course<B>,
    input: &Stamped,
) -> Result<Work, AllocError>
    requires boxes { buffers.old.boxes
        ≡ rows_of routed.now.scene course.old.live.world.fields }
    requires has_scripts { HasScriptsOf (wiring_at routed.now) (seen course.old) }
    requires scene { HasSceneScripts routed.now (seen course.old) }
    requires next { input.now.number ≡ course.old.live.world.applied + 1 }
    ensures world { OnOk result (ended (seen course.new)
        ≡ apply routed.now.scene routed.now.routes (ended (seen course.old)) input.now) }
    ensures rest { OnOk result (IsAtRest routed.now buffers.new (seen course.new)) }
    ensures work { IfOk result
        (IsWork routed.now.routes course.old.live.world.trace course.new.live.world.trace
        (course_after routed.now.scene routed.now.routes (ended (seen course.old))
        input.now).settling.settled) }
    ensures scripts { HasSameScripts (seen course.old) (seen course.new) }
{
    buffers.tasks.clear();
    buffers.replies.clear();
    course.begin(input);
    happen(routed, buffers, course, input)?;
    settle(routed, buffers, course)?;
    let sent = course.live.sent.as_slice();
    Ok(Work {
        sends: sent.len(),
        deliveries: deliveries(&routed.routes, sent),
        settles: course.settling.settles(),
    })
}
