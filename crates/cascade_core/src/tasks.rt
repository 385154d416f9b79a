//! The remaining tasks of a cascade; the last is done first.

ghost use Rattle.std.specs.Prelude.{◌≡◌, ◌≤◌, ◌++◌, [], ◌∷◌, OnOk, length, map, reverse};
ghost use Rattle.cascade_core.specs.Replies.{send_by};

use react_core::Outbox;
use scene_core::End;
use std::alloc::AllocError;
use x3d_values::Value;

/// A task of a cascade.
#[derive(Drop)]
pub enum CascadeTask {
    /// Send an event by an output.
    Send(End, Value),
    /// Follow the routes of an output, from this place among them on.
    Follow(End, Value, usize),
}

/// Pushes the sending of each reply, so that the first is sent next. `rest` waits until all replies
/// and their consequences are done. Fails with `AllocError` if memory runs out.
pub fn push_before(
    tasks: &mut Vec<CascadeTask>,
    rest: CascadeTask,
    node: u32,
    replies: &mut Outbox,
) -> Result<(), AllocError>
    ensures tasks { OnOk result (tasks.new.items
        ≡ (tasks.old.items ++ rest ∷ []) ++ map (send_by node) (reverse replies.old.items)) }
    ensures none { OnOk result (replies.new.items ≡ []) }
    ensures few { OnOk result (length replies.old.items ≤ 5) }
{
    tasks.push(rest)?;
    push_replies(tasks, node, replies)
}

/// Pushes the sending of each reply, so that the first is sent next. Fails with `AllocError` if
/// memory runs out.
pub fn push_replies(
    tasks: &mut Vec<CascadeTask>,
    node: u32,
    replies: &mut Outbox,
) -> Result<(), AllocError>
    ensures tasks { OnOk result (tasks.new.items
        ≡ tasks.old.items ++ map (send_by node) (reverse replies.old.items)) }
    ensures none { OnOk result (replies.new.items ≡ []) }
    ensures few { length replies.old.items ≤ 5 }
{
    // For the prover: the number of replies is small.
    let _few = replies.as_slice().len();
    while let Some(reply) = replies.pop() {
        tasks.push(CascadeTask::Send(
            End {
                node,
                field: reply.field,
            },
            reply.value,
        ))?;
    }
    Ok(())
}
