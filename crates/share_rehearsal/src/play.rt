//! Runs the steps of a rehearsal in order.

ghost use Rattle.std.specs.Prelude.{OnOk};
ghost use Rattle.share_rehearsal.specs.Calls.{seen};
ghost use Rattle.share_rehearsal.specs.Rehearsed.{IsPlayed};

use crate::log::push_line;
use crate::nodes::Nodes;
use script_host::Behaviour;
use share_law::Step;
use std::alloc::{AllocError, Global};

/// Runs the steps and appends the line of each. On an error, the lines of some steps may be
/// appended.
pub(crate) fn play<B: Behaviour>(
    alloc: Global,
    nodes: &mut Nodes<B>,
    steps: &[Step],
    out: &mut Vec<u8>,
) -> Result<(), AllocError>
    ensures { OnOk result (IsPlayed (seen nodes.old) steps.now out.old.items out.new.items
        (seen nodes.new)) }
{
    for (place, step) in steps.iter().enumerate() {
        let answer = nodes.go(alloc, *step)?;
        push_line(place + 1, answer, out)?;
    }
    Ok(())
}
