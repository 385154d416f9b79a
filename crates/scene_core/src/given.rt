//! The values that a node gives to its fields.

ghost use Rattle.std.specs.Prelude.{◌≡◌, ◌+◌, ◌<◌, ◌==◌, ℕ, IfOk, None, Some, cond, get_or, length};
ghost use Rattle.std.specs.Option.{option_copied, option_or};
ghost use Rattle.scene_core.specs.Parts as spec;

use proto_flat::FlatField;
use std::alloc::{AllocError, Global};

/// Returns what a node gives to the field with number `number`.
pub(crate) fn given(fields: &[FlatField], number: usize) -> Option<&FlatField>
    ensures { option_copied result ≡ spec.given fields.now number }
{
    fields.iter().find(|field| field.number as usize == number)
}

/// Puts the field into its place in the table, unless the place is taken.
#[tactic(auto, using(crate::proofs::GivenFields::placing))]
fn put_field<'a>(table: &mut Vec<Option<&'a FlatField>>, number: usize, field: &'a FlatField)
    ensures all { length table.new.items ≡ length table.old.items }
    ensures each { (k : ℕ) → k < length table.old.items
        → option_copied (get_or table.new.items k None)
        ≡ option_or (option_copied (get_or table.old.items k None))
        (cond (field.now.number == number + k) (Some field.now) None) }
{
    let Some(place) = (field.number as usize).checked_sub(number) else {
        return;
    };
    if place < table.len() && table[place].is_none() {
        table[place] = Some(field);
    }
}

/// Returns what a node gives to each of `count` fields, numbered from `number` on.
pub(crate) fn all_given<'a>(
    alloc: Global,
    fields: &'a [FlatField],
    number: usize,
    count: usize,
) -> Result<Vec<Option<&'a FlatField>>, AllocError>
    ensures all { IfOk result (λ table. length table.items ≡ count) }
    ensures each { IfOk result (λ table. (k : ℕ) → k < count
        → option_copied (get_or table.items k None) ≡ spec.given fields.now (number + k)) }
{
    let mut table = vec![in alloc; None; count]?;
    for field in fields {
        put_field(&mut table, number, field);
    }
    Ok(table)
}
