//! An output sends only once in the course of an input.

ghost use Rattle.std.specs.Prelude.{◌≡◌, IfOk, OnOk, if◌then◌else◌, not};
ghost use Rattle.cascade_trace.specs.Ends.{has_sent};
ghost use Rattle.cascade_world.specs.World.{record_event};

use cascade_world::Live;
use scene_core::End;
use std::alloc::{AllocError, Global};
use x3d_values::Value;

/// Sends an event by an output, unless the output has already sent in the course of the input.
/// Returns whether it sends. Fails with `AllocError` if memory runs out.
pub fn send(live: &mut Live, alloc: Global, source: End, value: &Value) -> Result<bool, AllocError>
    ensures first { IfOk result (λ sends. sends ≡ not (has_sent live.old.sent source)) }
    ensures live { OnOk result (live.new
        ≡ (if has_sent live.old.sent source
        then live.old
        else record_event live.old source value.now)) }
{
    if live.sent.contains(source) {
        return Ok(false);
    }
    live.record_event(alloc, source, value)?;
    Ok(true)
}
