//! Access to lists by node number.

ghost use Rattle.std.specs.Prelude.{◌≡◌, false, slice_index_or};

/// Returns the flag at index `n`, or false if there is none.
pub(crate) fn flag_at(flags: &[bool], n: u32) -> bool
    ensures { result ≡ slice_index_or flags.now n false }
{
    match flags.get(n as usize) {
        Some(flag) => *flag,
        None => false,
    }
}

/// Returns the number at index `n`, or 0 if there is none.
pub(crate) fn number_at(numbers: &[u32], n: u32) -> u32
    ensures { result ≡ slice_index_or numbers.now n 0 }
{
    match numbers.get(n as usize) {
        Some(number) => *number,
        None => 0,
    }
}
