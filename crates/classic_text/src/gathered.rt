//! Lists that grow as values are read.

ghost use Rattle.std.specs.Prelude.{◌≡◌, ◌⊎◌, ◌++◌, ◌∷◌, [], Ok, Err, IfOk, IfErr};
ghost use Rattle.classic_text.specs.declared.refusal.Refusal.TheVariants.{Memory};

use crate::refusal::Refusal;
use x3d_values::Items;

/// Appends the value that was read to the list. Fails as the read did, or if memory runs out.
pub(crate) fn grown<T: Drop>(list: Items<T>, read: Result<T, Refusal>) -> Result<Items<T>, Refusal>
    ensures ok { IfOk result (λ l. (x : T) × (read ≡ Ok x) × (l ≡ list ++ x ∷ [])) }
    ensures err { IfErr result (λ e. (e ≡ Memory) ⊎ (read ≡ Err e)) }
{
    let mut list = list;
    list.push(read?)?;
    Ok(list)
}
