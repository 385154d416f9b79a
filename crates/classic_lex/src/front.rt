//! What a text begins with.

ghost use Rattle.std.specs.Prelude.{◌≡◌, ◌≤◌, ◌<◌, length};
ghost use Rattle.classic_lex.specs.Front as spec;

use crate::classes::{CommentBytes, NameBytes, NumeralBytes, run_len};
use crate::fault::LexFaultKind;
use crate::token::TokenKind;
use classic_bytes::{begins_name, closing, is_digit, is_space};
use x3d_numerals::{NumeralFault, check};

/// What a text begins with: white space or a comment of n bytes, a token of n bytes, or a fault.
#[derive(Clone, Copy)]
pub(crate) enum Start {
    Blank(usize),
    Piece(TokenKind, usize),
    Bad(LexFaultKind),
}

#[tactic(auto, unfolding(crate::specs::Front::begins_numeral))]
fn begins_numeral(first: u8, rest: &[u8]) -> bool
    ensures { result ≡ spec.begins_numeral first rest.now }
{
    if is_digit(first) || first == b'+' || first == b'-' {
        return true;
    }
    match rest {
        [] => false,
        [b, ..] => first == b'.' && is_digit(*b),
    }
}

/// Returns the numeral of the first `len` bytes, or the fault of these bytes.
fn numeral_front(text: &[u8], len: usize) -> Start
    requires some { 0 < len }
    requires room { len ≤ length text.now }
    ensures value { result ≡ spec.numeral_front len text.now }
    ensures within { spec.IsWithin (length text.now) result }
{
    match check(&text[..len]) {
        Ok(()) => Start::Piece(TokenKind::Numeral, len),
        Err(NumeralFault::NotNumeral) => Start::Bad(LexFaultKind::BadNumeral),
        Err(NumeralFault::NumberRange) => Start::Bad(LexFaultKind::NumberRange),
    }
}

#[tactic(auto, unfolding(crate::specs::Front::mark))]
fn mark(b: u8) -> Start
    ensures value { result ≡ spec.mark b }
    ensures within { spec.IsWithin 1 result }
{
    match b {
        b'{' => Start::Piece(TokenKind::OpenBrace, 1),
        b'}' => Start::Piece(TokenKind::CloseBrace, 1),
        b'[' => Start::Piece(TokenKind::OpenBracket, 1),
        b']' => Start::Piece(TokenKind::CloseBracket, 1),
        b'.' => Start::Piece(TokenKind::Point, 1),
        _ => Start::Bad(LexFaultKind::BadCharacter),
    }
}

/// Returns what a text begins with. The text must not be empty.
#[tactic(auto, unfolding(crate::specs::Front::front_at))]
pub(crate) fn front(text: &[u8]) -> Start
    requires { 0 < length text.now }
    ensures value { result ≡ spec.front text.now }
    ensures within { spec.IsWithin (length text.now) result }
{
    let first = text[0];
    let rest = &text[1..];
    if is_space(first) {
        Start::Blank(1)
    } else if first == b'#' {
        Start::Blank(run_len::<CommentBytes>(rest) + 1)
    } else if first == b'"' {
        match closing(rest) {
            None => Start::Bad(LexFaultKind::OpenString),
            Some(n) => Start::Piece(TokenKind::Text, n + 1),
        }
    } else if begins_numeral(first, rest) {
        numeral_front(text, run_len::<NumeralBytes>(rest) + 1)
    } else if begins_name(first) {
        Start::Piece(TokenKind::Identifier, run_len::<NameBytes>(rest) + 1)
    } else {
        mark(first)
    }
}
