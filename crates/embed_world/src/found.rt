//! What was found, if anything, for C.

ghost use Rattle.embed_world.specs.Status.{IsWritten};

use crate::status::DONE;

/// Writes what was found to `told`, and returns the status: `missing` if nothing was found.
pub(crate) fn write_found<T: Copy>(found: Option<T>, missing: u8, told: &mut T) -> u8
    ensures { IsWritten missing found told.old result told.new }
{
    let Some(item) = found else {
        return missing;
    };
    *told = item;
    DONE
}
