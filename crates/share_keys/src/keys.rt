//! Key files: the keys of a world's viewers, a line each.

ghost use Rattle.std.specs.Prelude.{◌≡◌, ◌<◌, ◌≤◌, ◌+◌, ◌/◌, ◌%◌, ◌∷◌, [], ℕ, List, Ok, Some, IfSome, length};
ghost use Rattle.share_keys.specs.declared.keys.ViewerKey.{ViewerKey};
ghost use Rattle.std.specs.Option.{option_map};
ghost use Rattle.hex.specs.Hex.{decode_sized};
ghost use Rattle.share_keys.specs.Keys as spec;

use crate::sealing::Key;
use hex::FromHex;

/// The key of a viewer.
#[derive(Clone, Copy)]
pub struct ViewerKey {
    /// 0 to 63.
    pub who: u8,
    pub key: Key,
}

/// Returns the number of one digit.
fn one_digit(one: u8) -> Option<u8>
    ensures { result ≡ spec.one_digit one }
{
    if b'0' <= one && one <= b'9' {
        Some(one - b'0')
    } else {
        None
    }
}

fn within(who: u8) -> Option<u8>
    ensures { result ≡ spec.within who }
{
    if 10 <= who && who < 64 {
        Some(who)
    } else {
        None
    }
}

/// Returns the number below 64 of two digits, the first of which isn't 0.
fn two_digits(ten: u8, one: u8) -> Option<u8>
    ensures { result ≡ spec.two_digits (spec.one_digit ten) (spec.one_digit one) }
{
    let ten = one_digit(ten)?;
    let one = one_digit(one)?;
    within(ten * 10 + one)
}

fn keyed(who: u8, digits: &[u8]) -> Option<ViewerKey>
    ensures { result ≡ spec.keyed who (decode_sized digits.now 32) }
{
    match <[u8; 32] as FromHex>::from_hex(digits) {
        Ok(bytes) => Some(ViewerKey {
            who,
            key: Key { bytes },
        }),
        Err(_) => None,
    }
}

fn numbered(who: Option<u8>, digits: &[u8]) -> Option<ViewerKey>
    ensures { result ≡ spec.numbered who digits.now }
{
    keyed(who?, digits)
}

#[tactic(auto, unfolding(crate::specs::Keys::after_two))]
fn after_two(who: Option<u8>, rest: &[u8]) -> Option<ViewerKey>
    ensures { result ≡ spec.after_two who rest.now }
{
    match rest {
        [b' ', digits @ ..] => numbered(who, digits),
        _ => None,
    }
}

#[tactic(auto, unfolding(crate::specs::Keys::after_one))]
fn after_one(one: u8, rest: &[u8]) -> Option<ViewerKey>
    ensures { result ≡ spec.after_one one rest.now }
{
    match rest {
        [b' ', digits @ ..] => numbered(one_digit(one), digits),
        [other, rest @ ..] => after_two(two_digits(one, *other), rest),
        [] => None,
    }
}

#[tactic(auto, unfolding(crate::specs::Keys::line_key))]
fn line_key(line: &[u8]) -> Option<ViewerKey>
    ensures { result ≡ spec.line_key line.now }
{
    match line {
        [one, rest @ ..] => after_one(*one, rest),
        [] => None,
    }
}

/// Returns the viewer's key that a line has: the viewer's number, 0 to 63, a space, and 64
/// hexadecimal digits in either case. `None` if the line isn't of this form.
pub fn key_of(line: &[u8]) -> Option<ViewerKey>
    ensures found { IfSome result (λ key. spec.IsLineOf key line.now) }
    ensures only { (key : ViewerKey) → spec.IsLineOf key line.now → result ≡ Some key }
    // The exact result.
    ensures exact { result ≡ spec.line_key line.now }
{
    line_key(line)
}
