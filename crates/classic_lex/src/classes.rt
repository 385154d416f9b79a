//! Runs of bytes of one class at the front of a text.

ghost use Rattle.std.specs.Prelude.{◌≡◌, ◌≤◌, ℕ, Bool, length, not};
ghost use Rattle.std.specs.List.{prefix_len};
ghost use Rattle.classic_bytes.specs.Bytes as spec;

use classic_bytes::{continues_name, ends_numeral, is_digit, is_line_end};

/// A class of bytes.
pub(crate) trait Class {
    ghost class: { ℕ → Bool };

    fn has(b: u8) -> bool
        ensures { result ≡ class b };
}

/// Bytes that may follow in an identifier.
pub(crate) struct NameBytes;

impl Class for NameBytes {
    ghost class = { spec.continues_name };

    fn has(b: u8) -> bool {
        continues_name(b)
    }
}

/// Bytes that may follow in a numeral.
pub(crate) struct NumeralBytes;

impl Class for NumeralBytes {
    ghost class = { λ b. not (spec.ends_numeral b) };

    fn has(b: u8) -> bool {
        !ends_numeral(b)
    }
}

/// Bytes that may follow in a comment.
pub(crate) struct CommentBytes;

impl Class for CommentBytes {
    ghost class = { λ b. not (spec.is_line_end b) };

    fn has(b: u8) -> bool {
        !is_line_end(b)
    }
}

pub(crate) struct Digits;

impl Class for Digits {
    ghost class = { spec.is_digit };

    fn has(b: u8) -> bool {
        is_digit(b)
    }
}

/// Returns the number of bytes of the class at the front.
pub(crate) fn run_len<C: Class>(text: &[u8]) -> usize
    ensures value { result ≡ prefix_len C.Class.class text.now }
    ensures within { result ≤ length text.now }
{
    text.iter().take_while(|b| C::has(**b)).count()
}
