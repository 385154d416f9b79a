//! The numerals of a raw value: checks their count against the type, and their range.

ghost use Rattle.std.specs.Prelude.{◌≡◌, ◌<◌, true, length, IfOk};
ghost use Rattle.std.specs.Result.{result_map_both};
ghost use Rattle.std.specs.List.{list_all};
ghost use Rattle.scene_values.specs.Quantities.{fits};
ghost use Rattle.scene_values.specs.Typing.{checked, run, runs};

use crate::fault::ValueFault;
use crate::quantity::Quantity;
use classic_tree::RawValue;

/// Reports whether all the numerals are in range. Reads each numeral at most once.
fn all_fit(quantity: Quantity, numbers: &[i64]) -> bool
    ensures { result ≡ list_all (fits quantity) numbers.now }
{
    for number in numbers {
        if !quantity.fits(*number) {
            return false;
        }
    }
    true
}

/// Returns the numerals if their count is right and all are in range.
fn checked(right_count: bool, quantity: Quantity, numbers: &[i64]) -> Result<&[i64], ValueFault>
    ensures exact { result_map_both (λ list. list.now) (λ fault. fault) result
        ≡ checked right_count quantity numbers.now }
{
    if !right_count {
        return Err(ValueFault::WrongType);
    }
    if !all_fit(quantity, numbers) {
        return Err(ValueFault::ValueRange);
    }
    Ok(numbers)
}

/// Returns the numerals of a single value of `size` components, which is a bare run.
pub(crate) fn run(
    size: usize,
    quantity: Quantity,
    raw: &RawValue<u32>,
) -> Result<&[i64], ValueFault>
    ensures exact { result_map_both (λ list. list.now) (λ fault. fault) result
        ≡ run size quantity raw.now }
    ensures count { IfOk result (λ list. length list.now ≡ size) }
    ensures fit { IfOk result (λ list. list_all (fits quantity) list.now ≡ true) }
{
    match raw {
        RawValue::Numbers(list) => checked(list.len() == size, quantity, list.as_slice()),
        _ => Err(ValueFault::WrongType),
    }
}

/// Returns the numerals of a list of values of `size` components each: a list, or a bare run of one
/// value.
pub(crate) fn runs(
    size: usize,
    quantity: Quantity,
    raw: &RawValue<u32>,
) -> Result<&[i64], ValueFault>
    requires { 0 < size }
    ensures exact { result_map_both (λ list. list.now) (λ fault. fault) result
        ≡ runs size quantity raw.now }
    ensures fit { IfOk result (λ list. list_all (fits quantity) list.now ≡ true) }
{
    match raw {
        RawValue::Numbers(run) => checked(run.len() == size, quantity, run.as_slice()),
        RawValue::NumberList(list) => checked(list.len() % size == 0, quantity, list.as_slice()),
        RawValue::EmptyList => Ok(&[]),
        _ => Err(ValueFault::WrongType),
    }
}
