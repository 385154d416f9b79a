//! Lists whose next item may be a fault.

ghost use Rattle.x3d_lists.specs.Answers.{Gives};
ghost use Rattle.scene_core.specs.Faults.{memory, with_item};

use crate::fault::SceneFault;
use x3d_lists::Items;

/// Appends an item to `made`, or returns the item's fault.
pub(crate) fn with_item<T: Drop>(
    mut made: Items<T>,
    item: Result<T, SceneFault>,
) -> Result<Items<T>, SceneFault>
    ensures { Gives memory (λ all. all) result (with_item made item) }
{
    made.push(item?)?;
    Ok(made)
}
