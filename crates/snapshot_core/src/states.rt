//! The states of scripts as bytes.

ghost use Rattle.std.specs.Prelude.{◌≡◌, ◌++◌, OnOk, ℕ};
ghost use Rattle.x3d_lists.specs.Extends.{Extends};
ghost use Rattle.snapshot_codec.specs.Parts.{states_codec};
ghost use Rattle.snapshot_codec.specs.Reads.{ReadsPart};

use snapshot_codec::{PartFault, push_state, states_of as some_states_of};
use std::alloc::{AllocError, Global};
use x3d_values::Items;

/// Reads the states of `scripts` scripts. Returns them with the rest of the bytes. Returns
/// `NotCanonical` if the bytes are too few, and `Memory` if memory runs out or there are 2^32
/// scripts or more.
pub fn states_of(
    alloc: Global,
    scripts: usize,
    bytes: &[u8],
) -> Result<(Items<Items<i64>>, &[u8]), PartFault>
    ensures { ReadsPart (λ x. (x.0, x.1.now)) result ((states_codec scripts).read bytes.now) }
{
    let Ok(count) = u32::try_from(scripts) else {
        return Err(PartFault::Memory);
    };
    some_states_of(alloc, count, bytes)
}

/// Appends the states of scripts. On `AllocError`, `out` may hold a part of them.
pub fn push_states(states: &[Items<i64>], out: &mut Vec<u8>) -> Result<(), AllocError>
    ensures ok { (scripts : ℕ)
        → OnOk result (out.new.items ≡ out.old.items ++ (states_codec scripts).write states.now) }
    ensures kept { Extends out.old.items out.new.items }
{
    for state in states {
        push_state(state.as_slice(), out)?;
    }
    Ok(())
}
