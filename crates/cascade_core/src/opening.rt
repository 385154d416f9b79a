//! Input 0: all scripts are initialized, then their events are sent, and then they settle.

ghost use Rattle.std.specs.Prelude.{◌≡◌, ◌<◌, [], IfOk, OnOk, true, length};
ghost use Rattle.std.specs.List.{list_all};
ghost use Rattle.scene_core.specs.Scene.{shapes_of};
ghost use Rattle.script_host.specs.Behaviour.{Initialize};
ghost use Rattle.script_running.specs.Acting.{act, kinds_of};
ghost use Rattle.cascade_core.specs.Apply.{opening as opening_of, sent_by_all, started, untold};
ghost use Rattle.cascade_core.specs.Cascade.{send_replies as send_replies_of};
ghost use Rattle.cascade_core.specs.Course.{course as course_of, ended, node_of, wiring_at, ports_of, seen};
ghost use Rattle.cascade_core.specs.Scripts.{scripts_in};
ghost use Rattle.cascade_core.specs.Settles.{settle as settle_of};
ghost use Rattle.cascade_core.specs.Sound.{IsSound, RunsItsScripts, are_sent};
ghost use Rattle.cascade_core.specs.Resting.{HasSameScripts, HasSceneScripts, IsAtRest};

use crate::buffers::Buffers;
use crate::course::Course;
use crate::routed::RoutedScene;
use crate::settle::settle;
use crate::stack::send_replies;
use cascade_world::Live;
use react_core::Outbox;
use script_host::{Behaviour, Scripts};
use script_running::BegunScripts;
use script_slots::DueScripts;
use std::alloc::{AllocError, Global};
use std::marker::Model;

/// The events that the node of a script is to send.
#[derive(Drop)]
struct Sending {
    node: u32,
    replies: Outbox,
}

impl Model for Sending {
    ghost use Rattle.cascade_core.specs.Apply.{SendingView};

    ghost Value = { SendingView };

    ghost view = { λ s. record { node = s.node; replies = s.replies.items } };
}

/// Initializes the k-th script and returns the events that its node is to send.
#[tactic(auto, using(crate::proofs::Openings::script_run))]
fn initialize_one<B: Behaviour>(routed: &RoutedScene, scripts: &mut Scripts<B>, k: usize) -> Sending
    requires there { k < length scripts.old }
    requires sound { IsSound (wiring_at routed.now) (kinds_of scripts.old) }
    ensures scripts { scripts.new
        ≡ (act (ports_of (wiring_at routed.now) k) Initialize k scripts.old).scripts }
    ensures sending { result
        ≡ record {
          node = node_of (wiring_at routed.now) k;
          replies = (act (ports_of (wiring_at routed.now) k) Initialize k scripts.old).replies;
        } }
    ensures kinds { kinds_of scripts.new ≡ kinds_of scripts.old }
{
    let mut replies = Outbox::new();
    script_running::initialize(scripts, k, routed.runs.ports(k), &mut replies);
    Sending {
        node: routed.runs.node(k),
        replies,
    }
}

/// Initializes all scripts in number order and returns the events that their nodes are to send.
fn initialize_all<B: Behaviour>(
    alloc: Global,
    routed: &RoutedScene,
    scripts: &mut Scripts<B>,
) -> Result<Vec<Sending>, AllocError>
    requires sound { IsSound (wiring_at routed.now) (kinds_of scripts.old) }
    ensures scripts { OnOk result
        (scripts.new ≡ (started (wiring_at routed.now) scripts.old).scripts) }
    ensures sendings { IfOk result (λ sendings.
        sendings.items ≡ (started (wiring_at routed.now) scripts.old).sendings) }
    ensures kinds { kinds_of scripts.new ≡ kinds_of scripts.old }
{
    let count = scripts.len();
    let mut sendings = Vec::with_capacity(alloc, count)?;
    for k in 0..count {
        sendings.push(initialize_one(routed, scripts, k))?;
    }
    Ok(sendings)
}

/// Sends the events of one script's node.
fn send_one<B: Behaviour>(
    routed: &RoutedScene,
    buffers: &mut Buffers,
    course: &mut Course<B>,
    sending: Sending,
) -> Result<(), AllocError>
    requires rest { IsAtRest routed.now buffers.old (seen course.old) }
    requires outputs { are_sent (shapes_of routed.now.scene) sending ≡ true }
    ensures course { OnOk result (seen course.new
        ≡ send_replies_of (wiring_at routed.now) sending.node (seen course.old) sending.replies) }
    ensures rest { OnOk result (IsAtRest routed.now buffers.new (seen course.new)) }
    ensures scripts { HasSameScripts (seen course.old) (seen course.new) }
{
    let Sending { node, replies } = sending;
    buffers.replies = replies;
    send_replies(routed, buffers, course, node)
}

/// Sends the events of the scripts' nodes, in order.
fn send_all<B: Behaviour>(
    routed: &RoutedScene,
    buffers: &mut Buffers,
    course: &mut Course<B>,
    sendings: Vec<Sending>,
) -> Result<(), AllocError>
    requires rest { IsAtRest routed.now buffers.old (seen course.old) }
    requires outputs { list_all (are_sent (shapes_of routed.now.scene)) sendings.items ≡ true }
    ensures course { OnOk result (seen course.new
        ≡ sent_by_all (wiring_at routed.now) (seen course.old) sendings.items) }
    ensures rest { OnOk result (IsAtRest routed.now buffers.new (seen course.new)) }
    ensures scripts { HasSameScripts (seen course.old) (seen course.new) }
{
    for sending in sendings {
        send_one(routed, buffers, course, sending)?;
    }
    Ok(())
}

/// Sends the events of the scripts' nodes, and then lets the scripts settle.
fn send_and_settle<B: Behaviour>(
    routed: &RoutedScene,
    buffers: &mut Buffers,
    course: &mut Course<B>,
    sendings: Vec<Sending>,
) -> Result<(), AllocError>
    requires rest { IsAtRest routed.now buffers.old (seen course.old) }
    requires outputs { list_all (are_sent (shapes_of routed.now.scene)) sendings.items ≡ true }
    requires fresh { course.old.settling.settled ≡ [] }
    ensures course { OnOk result (seen course.new ≡ settle_of (wiring_at routed.now)
        (sent_by_all (wiring_at routed.now) (seen course.old) sendings.items)) }
    ensures rest { OnOk result (IsAtRest routed.now buffers.new (seen course.new)) }
    ensures scripts { HasSameScripts (seen course.old) (seen course.new) }
{
    send_all(routed, buffers, course, sendings)?;
    settle(routed, buffers, course)?;
    Ok(())
}

/// Runs input 0 of these scripts, on a world in which nothing has happened, and returns its course.
/// Fails with `AllocError` if memory runs out.
pub fn open<B: Behaviour>(
    alloc: Global,
    routed: &RoutedScene,
    buffers: &mut Buffers,
    live: Live,
    mut scripts: Scripts<B>,
) -> Result<Course<B>, AllocError>
    requires rest { IsAtRest routed.now buffers.old (course_of live scripts) }
    requires runs { RunsItsScripts routed.now }
    requires scripts { scripts ≡ scripts_in routed.now.scene }
    requires live { live ≡ record { world = untold routed.now.scene; sent = [] } }
    ensures world { IfOk result (λ course.
        ended (seen course) ≡ opening_of routed.now.scene routed.now.routes) }
    ensures rest { IfOk result (λ course.
        IsAtRest routed.now buffers.new (seen course)) }
    ensures scene { IfOk result (λ course. HasSceneScripts routed.now (seen course)) }
{
    // For the prover: each exit drops by calls; an in-place drop is proved again at each exit.
    let Ok(settling) = DueScripts::new(alloc, scripts.len()) else {
        drop(scripts);
        drop(live);
        return Err(AllocError);
    };
    let Ok(sendings) = initialize_all(alloc, routed, &mut scripts) else {
        drop(settling);
        drop(scripts);
        drop(live);
        return Err(AllocError);
    };
    let mut course = Course {
        live,
        scripts: BegunScripts::new(scripts),
        settling,
    };
    let Ok(()) = send_and_settle(routed, buffers, &mut course, sendings) else {
        drop(course);
        return Err(AllocError);
    };
    Ok(course)
}
