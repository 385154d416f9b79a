//! The tokens of a text with what each is to the statements that are left out.

ghost use Rattle.std.specs.Prelude.{◌≡◌, map, IfOk};
ghost use Rattle.classic_lenient.specs.Pieces as spec;

use crate::mark::{Mark, mark_of};
use classic_lex::Token;
use std::alloc::{AllocError, Global};
use x3d_values::Items;

/// A token in its place: its bytes from `start` up to `end`, and its line.
#[derive(Clone, Copy)]
pub(crate) struct Piece {
    pub mark: Mark,
    pub start: u32,
    pub end: u32,
    pub line: u32,
}

/// Returns the bytes of a text from `start` up to `end`; no bytes if that place isn't in the text.
pub fn bytes_at(text: &[u8], start: u32, end: u32) -> &[u8]
    ensures { result.now ≡ spec.bytes_at text.now start end }
{
    let (start, end) = (start as usize, end as usize);
    if start <= end && end <= text.len() {
        return &text[start..end];
    }
    &[]
}

fn piece_of(text: &[u8], token: &Token) -> Piece
    ensures { result ≡ spec.piece_of text.now token.now }
{
    Piece {
        mark: mark_of(token.kind, bytes_at(text, token.start, token.end)),
        start: token.start,
        end: token.end,
        line: token.line,
    }
}

/// Returns the tokens of a text with what each is.
pub(crate) fn pieces_of(
    alloc: Global,
    text: &[u8],
    tokens: &[Token],
) -> Result<Items<Piece>, AllocError>
    ensures { IfOk result (λ r. r ≡ map (spec.piece_of text.now) tokens.now) }
{
    let mut pieces = Items::new(alloc);
    for token in tokens {
        pieces.push(piece_of(text, token))?;
    }
    Ok(pieces)
}
