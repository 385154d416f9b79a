//! Values of one numeral: numbers, times and whole numbers.

ghost use Rattle.std.specs.Prelude.{◌≡◌, ◌∷◌, [], map};
ghost use Rattle.x3d_lists.specs.Answers.{Gives};
ghost use Rattle.scene_values.specs.declared.quantity.Quantity.TheVariants.{Integer};
ghost use Rattle.scene_values.specs.Grouping.{component};
ghost use Rattle.scene_values.specs.Quantities.{whole};
ghost use Rattle.scene_values.specs.Typing.{made, run, runs};

use crate::fault::ValueFault;
use crate::grouping::wholes;
use crate::numerals::{run, runs};
use crate::quantity::{Quantity, whole};
use classic_tree::RawValue;
use std::alloc::Global;
use x3d_values::Items;

/// Returns a single number or time.
pub(crate) fn scalar(quantity: Quantity, raw: &RawValue<u32>) -> Result<i64, ValueFault>
    ensures { result ≡ made (λ list. component list 0) (run 1 quantity raw.now) }
{
    let list = run(1, quantity, raw)?;
    Ok(list[0])
}

pub(crate) fn integer(raw: &RawValue<u32>) -> Result<i32, ValueFault>
    ensures { result ≡ made (λ list. whole (component list 0)) (run 1 Integer raw.now) }
{
    let list = run(1, Quantity::Integer, raw)?;
    Ok(whole(list[0]))
}

/// Returns a list of numbers or times.
pub(crate) fn scalars(
    alloc: Global,
    quantity: Quantity,
    raw: &RawValue<u32>,
) -> Result<Items<i64>, ValueFault>
    ensures { Gives ValueFault.Memory (λ v. v) result (runs 1 quantity raw.now) }
{
    let list = runs(1, quantity, raw)?;
    Ok(Items::from_slice(alloc, list)?)
}

pub(crate) fn integers(alloc: Global, raw: &RawValue<u32>) -> Result<Items<i32>, ValueFault>
    ensures { Gives ValueFault.Memory (λ v. v) result (made (map whole) (runs 1 Integer raw.now)) }
{
    let list = runs(1, Quantity::Integer, raw)?;
    Ok(wholes(alloc, list)?)
}
