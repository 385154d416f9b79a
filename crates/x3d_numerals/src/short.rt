//! Whether a text is a numeral, without its value.

ghost use Rattle.std.specs.Prelude.{◌≡◌, ◌≤◌, ◌∷◌, ℤ, IfSome, IsTrue, Ok, length};
ghost use Rattle.x3d_numerals.specs.Plain.{IsPlain};
ghost use Rattle.x3d_numerals.specs.Reading.{checked, numeral, run};

use crate::fault::NumeralFault;
use crate::form::{cut_sign, millionths};
use classic_bytes::is_digit;

/// The most bytes of a short numeral after its sign. So few digits write a number that is within
/// the limit, wherever the point is.
const MOST_SHORT: usize = 12;

/// Returns the number of decimal digits that the text begins with.
fn decimals(text: &[u8]) -> usize
    ensures count { result ≡ run 10 text.now }
    ensures within { result ≤ length text.now }
{
    let mut len = 0;
    while len < text.len() && is_digit(text[len]) {
        len += 1;
    }
    len
}

/// Returns the text after a point that a text begins with, or `None` if it begins with none.
fn behind_point(text: &[u8]) -> Option<&[u8]>
    ensures { IfSome result (λ rest. text.now ≡ 46 ∷ rest.now) }
{
    match text {
        [b'.', rest @ ..] => Some(rest),
        _ => None,
    }
}

/// Reports whether a text is one or more digits, with at most one point among them.
fn is_plain(text: &[u8]) -> bool
    ensures { IsTrue result → IsPlain text.now }
{
    let (whole, rest) = text.split_at(decimals(text));
    if rest.is_empty() {
        return !whole.is_empty();
    }
    match behind_point(rest) {
        Some(fraction) => {
            whole.len() + fraction.len() > 0 && decimals(fraction) == fraction.len()
        }
        None => false,
    }
}

/// Reports whether a text is an optional sign and at most `MOST_SHORT` bytes: one or more digits,
/// and at most one point among them.
fn is_short(text: &[u8]) -> bool
    ensures { IsTrue result → (n : ℤ) × (numeral text.now ≡ Ok n) }
{
    let (_minus, rest) = cut_sign(text);
    if rest.len() > MOST_SHORT {
        return false;
    }
    is_plain(rest)
}

/// Checks whether a text is a numeral. Fails as `millionths` does, and takes fewer steps for a text
/// of at most 12 digits.
pub fn check(text: &[u8]) -> Result<(), NumeralFault>
    ensures { result ≡ checked (numeral text.now) }
{
    if is_short(text) {
        return Ok(());
    }
    match millionths(text) {
        Ok(_number) => Ok(()),
        Err(fault) => Err(fault),
    }
}
