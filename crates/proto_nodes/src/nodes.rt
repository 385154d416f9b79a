//! The walk over a node and all that is inside, including the bodies of instances.

ghost use Rattle.std.specs.Prelude.{◌≡◌, [], List, IfOk, IfSome};
ghost use Rattle.proto_meaning.specs.Sight.{Prototype};
ghost use Rattle.proto_parts.specs.Settled.{doing};
ghost use Rattle.proto_meaning.specs.trees.Meaning as meaning;
ghost use Rattle.proto_nodes.specs.Shown as shown;
ghost use Rattle.proto_nodes.specs.Protos.{Knows};
ghost use Rattle.proto_nodes.specs.Does.{after};
ghost use Rattle.proto_nodes.specs.Frames.{AllGoes, Ends, FrameSound, Goes, MachineSound, StepsOn, TaskSound, all_comes, frame_comes, frames_come};

use crate::bodies::{hold, next_statement};
use crate::braces::begin;
use crate::frames::{Frame, NodeTask, WalkState};
use crate::holders::{add_number, go_on, keep, next_in_list};
use classic_tree::RawValue;
use proto_flat::{ExpandFault, ExpandFaultKind};
use proto_meaning::NodeTree;
use std::alloc::Global;
use std::mem;

/// Gives the frame the number that it waits for.
fn give<'t, 'a>(
    alloc: Global,
    machine: &mut WalkState<'t, 'a>,
    frame: Frame<'t, 'a>,
    number: u32,
) -> Result<NodeTask<'t, 'a>, ExpandFault>
    requires machine { MachineSound machine.old }
    requires frame { FrameSound frame }
    ensures goes { (ps : List Prototype) → Goes ps
        (frame_comes ps frame.entry number (shown.shown machine.old.walker)) result
        (shown.shown machine.new.walker) }
    ensures sound { IfOk result (λ t. TaskSound t) }
    ensures machine { IfOk result (λ _. MachineSound machine.new) }
    ensures frames { machine.new.frames ≡ machine.old.frames }
    ensures protos { machine.new.protos ≡ machine.old.protos }
{
    match frame {
        Frame::One(holder, place) => keep(alloc, holder, place, RawValue::Node(number)),
        Frame::List(holder, listing) => add_number(holder, listing, number),
        Frame::Body(body) => hold(&mut machine.walker, body, number),
    }
}

/// Begins the node; the frame waits for its number.
fn wait<'t, 'a>(
    alloc: Global,
    machine: &mut WalkState<'t, 'a>,
    frame: Frame<'t, 'a>,
    node: &'t NodeTree<'a>,
) -> Result<NodeTask<'t, 'a>, ExpandFault>
    requires machine { MachineSound machine.old }
    requires frame { FrameSound frame }
    ensures goes { (ps : List Prototype) → Knows ps machine.old.protos.now → AllGoes ps
        (after (after
        (doing (meaning.node ps node.now).does (shown.shown machine.old.walker))
        (frame_comes ps frame.entry))
        (frames_come ps machine.old.frames.items)) result machine.new }
    ensures sound { IfOk result (λ t. TaskSound t) }
    ensures machine { IfOk result (λ _. MachineSound machine.new) }
    ensures protos { machine.new.protos ≡ machine.old.protos }
{
    machine.frames.push(frame)?;
    begin(alloc, &mut machine.walker, machine.protos, node)
}

/// Does the next step of the task.
fn step<'t, 'a>(
    alloc: Global,
    machine: &mut WalkState<'t, 'a>,
    task: NodeTask<'t, 'a>,
) -> Result<NodeTask<'t, 'a>, ExpandFault>
    requires machine { MachineSound machine.old }
    requires task { TaskSound task }
    ensures goes { (ps : List Prototype) → Knows ps machine.old.protos.now → AllGoes ps
        (all_comes ps task.entry machine.old) result machine.new }
    ensures sound { IfOk result (λ t. TaskSound t) }
    ensures machine { IfOk result (λ _. MachineSound machine.new) }
    ensures protos { machine.new.protos ≡ machine.old.protos }
{
    match task {
        NodeTask::On(holder) => go_on(alloc, &mut machine.walker, machine.protos, holder),
        NodeTask::List(holder, listing) => next_in_list(alloc, holder, listing),
        NodeTask::Body(body) => next_statement(alloc, &mut machine.walker, body),
        NodeTask::NodeFor(frame, node) => wait(alloc, machine, frame, node),
        NodeTask::Number(number) => match machine.frames.pop() {
            None => Ok(NodeTask::Number(number)),
            Some(frame) => give(alloc, machine, frame, number),
        },
    }
}

/// Returns the number, if no work is left.
fn result_of(machine: &WalkState<'_, '_>, task: &NodeTask<'_, '_>) -> Option<u32>
    ensures { IfSome result (λ n.
        (task.now ≡ NodeTask.Number n) × (machine.now.frames.items ≡ [])) }
{
    match task {
        NodeTask::Number(number) if machine.frames.is_empty() => Some(*number),
        _ => None,
    }
}

/// Does one step; what is to be done next replaces the task.
fn step_on<'t, 'a>(
    alloc: Global,
    machine: &mut WalkState<'t, 'a>,
    task: &mut NodeTask<'t, 'a>,
) -> Result<(), ExpandFault>
    requires machine { MachineSound machine.old }
    requires task { TaskSound task.old }
    ensures goes { (ps : List Prototype) → Knows ps machine.old.protos.now → StepsOn ps
        (all_comes ps task.old machine.old) result task.new machine.new }
    ensures sound { IfOk result (λ _. TaskSound task.new) }
    ensures machine { IfOk result (λ _. MachineSound machine.new) }
    ensures protos { machine.new.protos ≡ machine.old.protos }
{
    let begun = mem::replace(task, NodeTask::Number(0));
    let next = step(alloc, machine, begun)?;
    drop(mem::replace(task, next));
    Ok(())
}

fn run<'t, 'a>(
    alloc: Global,
    machine: &mut WalkState<'t, 'a>,
    task: &mut NodeTask<'t, 'a>,
) -> Result<u32, ExpandFault>
    requires machine { MachineSound machine.old }
    requires task { TaskSound task.old }
    ensures goes { (ps : List Prototype) → Knows ps machine.old.protos.now → Ends (λ n. n)
        (all_comes ps task.old machine.old) result (shown.shown machine.new.walker) }
    ensures machine { IfOk result (λ _. MachineSound machine.new) }
    ensures frames { IfOk result (λ _. machine.new.frames.items ≡ []) }
    ensures protos { machine.new.protos ≡ machine.old.protos }
{
    for _ in 0..u64::MAX {
        if let Some(number) = result_of(machine, task) {
            return Ok(number);
        }
        step_on(alloc, machine, task)?;
    }
    Err(ExpandFaultKind::Memory.on_line(0))
}

/// Adds a node with all that is inside, including the bodies of instances, and returns its number.
/// Err is the first fault inside, with its line; TooLarge (line 0) if that passes a limit; Memory
/// if memory runs out.
pub fn put_node<'t, 'a>(
    alloc: Global,
    machine: &mut WalkState<'t, 'a>,
    node: &'t NodeTree<'a>,
) -> Result<u32, ExpandFault>
    requires machine { MachineSound machine.old }
    requires idle { machine.old.frames.items ≡ [] }
    ensures goes { (ps : List Prototype) → Knows ps machine.old.protos.now → Ends (λ n. n)
        (doing (meaning.node ps node.now).does (shown.shown machine.old.walker)) result
        (shown.shown machine.new.walker) }
    ensures machine { IfOk result (λ _. MachineSound machine.new) }
    ensures frames { IfOk result (λ _. machine.new.frames.items ≡ []) }
    ensures protos { machine.new.protos ≡ machine.old.protos }
{
    let mut task = begin(alloc, &mut machine.walker, machine.protos, node)?;
    let number = run(alloc, machine, &mut task);
    drop(task);
    number
}
