//! Numbers as text: ours in hexadecimal digits, etcd's in decimal.

ghost use Rattle.std.specs.Prelude.{◌≡◌, Some, None, nat_eq, decimal, if◌then◌else◌};
ghost use Rattle.std.specs.Cmp.Lexicographic.{pointwise};
ghost use Rattle.std.specs.Int.{w64, from_be_bytes};
ghost use Rattle.hex.specs.Hex.{encode_lower};
ghost use Rattle.share_etcd.specs.Numerals as spec;

use hex::{FromHex, encode_to_slice};
use itoa::Buffer;

/// The number of digits of a number in a key, and in the value of a tail.
const DIGITS: usize = 16;

/// The lowest number above all revisions.
const END_OF_REVISIONS: u64 = 1 << 63;

/// Returns the 16 hexadecimal digits of a number, in lower case.
#[tactic(auto, unfolding(byte_codec::specs::Codec::number_text))]
pub(crate) fn digits_of(number: u64) -> [u8; DIGITS]
    ensures { result ≡ spec.digits_of number }
{
    let mut digits = [0; DIGITS];
    let _fits = encode_to_slice(number.to_be_bytes().as_slice(), &mut digits);
    digits
}

/// Returns the number of these bytes, if the text is their digits.
fn with_digits(text: &[u8], bytes: [u8; 8]) -> Option<u64>
    ensures { result ≡ (if pointwise nat_eq text.now (encode_lower bytes)
        then Some (from_be_bytes w64 bytes) else None) }
{
    let number = u64::from_be_bytes(bytes);
    let mut digits = [0; DIGITS];
    let _fits = encode_to_slice(bytes.as_slice(), &mut digits);
    if text == digits.as_slice() {
        Some(number)
    } else {
        None
    }
}

/// Returns the number whose digits a text is.
pub(crate) fn number_of(text: &[u8]) -> Option<u64>
    ensures { result ≡ spec.number_of text.now }
{
    match <[u8; 8] as FromHex>::from_hex(text) {
        Ok(bytes) => with_digits(text, bytes),
        Err(_) => None,
    }
}

fn is_revision(number: u64) -> bool
    ensures { result ≡ spec.is_revision number }
{
    1 <= number && number < END_OF_REVISIONS
}

fn is_decimal(text: &[u8], number: u64) -> bool
    ensures { result ≡ pointwise nat_eq text.now (decimal number) }
{
    let mut buffer = Buffer::new();
    text == buffer.format(number).as_bytes()
}

/// Returns the revision, if the text is its decimal numeral.
fn with_decimal(text: &[u8], number: u64) -> Option<u64>
    ensures { result ≡ spec.with_decimal text.now number }
{
    if is_revision(number) && is_decimal(text, number) {
        Some(number)
    } else {
        None
    }
}

/// Returns the revision whose decimal numeral a text is.
pub(crate) fn revision_of(text: &str) -> Option<u64>
    ensures { result ≡ spec.revision_of text.now }
{
    match text.parse::<u64>() {
        Ok(number) => with_decimal(text.as_bytes(), number),
        Err(_) => None,
    }
}

/// A number is read from its digits and a revision from its decimal numeral, and from no other
/// text.
pub fn numerals_are_exact()
    ensures { spec.NumeralsAreExact }
{}
