//! Scripts settle after the events of a timestamp, the lowest number first.

ghost use Rattle.std.specs.Prelude.{◌≡◌, ◌<◌, [], OnOk, true, length};
ghost use Rattle.script_slots.specs.Settling.{is_due};
ghost use Rattle.cascade_core.specs.Course.{wiring_at, seen};
ghost use Rattle.cascade_core.specs.Resting.{HasSameScripts, IsAtRest};
ghost use Rattle.cascade_core.specs.Settles.{settle as settle_of, settle_one as settle_one_of};

use crate::buffers::Buffers;
use crate::course::Course;
use crate::routed::RoutedScene;
use crate::stack::send_replies;
use script_host::Behaviour;
use std::alloc::AllocError;

/// Settles a script that is due and follows the events that its node sends.
fn settle_one<B: Behaviour>(
    routed: &RoutedScene,
    buffers: &mut Buffers,
    course: &mut Course<B>,
    k: usize,
) -> Result<(), AllocError>
    requires rest { IsAtRest routed.now buffers.old (seen course.old) }
    requires there { k < length course.old.scripts }
    requires due { is_due course.old.settling k ≡ true }
    ensures course { OnOk result
        (seen course.new ≡ settle_one_of (wiring_at routed.now) (seen course.old) k) }
    ensures rest { OnOk result (IsAtRest routed.now buffers.new (seen course.new)) }
    ensures scripts { HasSameScripts (seen course.old) (seen course.new) }
{
    course
        .scripts
        .settle(k, routed.runs.ports(k), &mut buffers.replies);
    course.settling.settle(k)?;
    send_replies(routed, buffers, course, routed.runs.node(k))
}

/// Settles scripts until none is due. Fails with `AllocError` if memory runs out.
pub fn settle<B: Behaviour>(
    routed: &RoutedScene,
    buffers: &mut Buffers,
    course: &mut Course<B>,
) -> Result<(), AllocError>
    requires rest { IsAtRest routed.now buffers.old (seen course.old) }
    requires fresh { course.old.settling.settled ≡ [] }
    ensures course { OnOk result
        (seen course.new ≡ settle_of (wiring_at routed.now) (seen course.old)) }
    ensures rest { OnOk result (IsAtRest routed.now buffers.new (seen course.new)) }
    ensures scripts { HasSameScripts (seen course.old) (seen course.new) }
{
    while let Some(k) = course.settling.next() {
        settle_one(routed, buffers, course, k)?;
    }
    Ok(())
}
