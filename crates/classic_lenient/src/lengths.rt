//! How many tokens a statement that is left out has; 0 if the tokens are not such a statement.

ghost use Rattle.std.specs.Prelude.{◌≡◌, ◌≤◌, ◌+◌, length, not};
ghost use Rattle.std.specs.List.{prefix_len};
ghost use Rattle.classic_lenient.specs.Lengths as spec;

use crate::mark::Mark;
use crate::pieces::Piece;

fn is_name(piece: &Piece) -> bool
    ensures { result ≡ spec.is_name piece.now }
{
    matches!(
        piece.mark,
        Mark::ExternProto
            | Mark::Import
            | Mark::Export
            | Mark::Unit
            | Mark::As
            | Mark::FieldType
            | Mark::Name
    )
}

fn is_close(piece: &Piece) -> bool
    ensures { result ≡ spec.is_close piece.now }
{
    matches!(piece.mark, Mark::CloseBracket)
}

fn is_numeral(piece: &Piece) -> bool
    ensures { result ≡ spec.is_numeral piece.now }
{
    matches!(piece.mark, Mark::Numeral)
}

fn is_point(piece: &Piece) -> bool
    ensures { result ≡ spec.is_point piece.now }
{
    matches!(piece.mark, Mark::Point)
}

fn is_open(piece: &Piece) -> bool
    ensures { result ≡ spec.is_open piece.now }
{
    matches!(piece.mark, Mark::OpenBracket)
}

fn is_as(piece: &Piece) -> bool
    ensures { result ≡ spec.is_as piece.now }
{
    matches!(piece.mark, Mark::As)
}

/// Reports whether a name is that of no field type that is read.
fn is_other_type(piece: &Piece) -> bool
    ensures { result ≡ spec.is_other_type piece.now }
{
    matches!(piece.mark, Mark::Name)
}

/// Returns the number of tokens before the first closing bracket.
fn before_close(pieces: &[Piece]) -> usize
    ensures value { result ≡ prefix_len (λ p. not (spec.is_close p)) pieces.now }
    ensures within { result ≤ length pieces.now }
{
    pieces.iter().take_while(|piece| !is_close(piece)).count()
}

fn numerals(pieces: &[Piece]) -> usize
    ensures value { result ≡ prefix_len spec.is_numeral pieces.now }
    ensures within { result ≤ length pieces.now }
{
    pieces.iter().take_while(|piece| is_numeral(piece)).count()
}

/// Returns the number of tokens of a list after its opening bracket, counting both brackets.
fn list_len(pieces: &[Piece]) -> usize
    ensures value { result ≡ spec.list_len pieces.now }
    ensures within { result ≤ length pieces.now + 1 }
{
    let inner = before_close(pieces);
    if inner < pieces.len() {
        return inner + 2;
    }
    0
}

/// Returns the number of tokens of a string or a list at the front.
fn url_len(pieces: &[Piece]) -> usize
    ensures value { result ≡ spec.url_len pieces.now }
    ensures within { result ≤ length pieces.now }
{
    match pieces {
        [] => 0,
        [first, rest @ ..] => match first.mark {
            Mark::Text => 1,
            Mark::OpenBracket => list_len(rest),
            _ => 0,
        },
    }
}

/// Returns the number of tokens of `IS name`, or of a value without nodes, at the front.
fn value_len(pieces: &[Piece]) -> usize
    ensures value { result ≡ spec.value_len pieces.now }
    ensures within { result ≤ length pieces.now + 1 }
{
    match pieces {
        [] => 0,
        [first, rest @ ..] => match first.mark {
            Mark::Is => 2,
            Mark::Text => 1,
            Mark::Constant => 1,
            Mark::Numeral => numerals(rest) + 1,
            Mark::OpenBracket => list_len(rest),
            _ => 0,
        },
    }
}

/// Returns the number of tokens of an EXTERNPROTO, given those after its opening bracket.
fn interface_len(pieces: &[Piece]) -> usize
    ensures value { result ≡ spec.interface_len pieces.now }
    ensures within { result ≤ length pieces.now + 3 }
{
    let inner = before_close(pieces);
    if inner == pieces.len() {
        return 0;
    }
    let url = url_len(&pieces[inner + 1..]);
    if url == 0 {
        return 0;
    }
    inner + 4 + url
}

/// Returns the number of tokens of an EXTERNPROTO, given those after the word.
pub(crate) fn extern_len(pieces: &[Piece]) -> usize
    ensures value { result ≡ spec.extern_len pieces.now }
    ensures within { result ≤ length pieces.now + 1 }
{
    match pieces {
        [name, open, rest @ ..] => {
            if is_name(name) && is_open(open) {
                return interface_len(rest);
            }
            0
        }
        _ => 0,
    }
}

/// Returns the number of tokens of `AS name` at the front.
fn as_len(pieces: &[Piece]) -> usize
    ensures value { result ≡ spec.as_len pieces.now }
    ensures within { result ≤ length pieces.now }
{
    match pieces {
        [word, name, ..] => {
            if is_as(word) && is_name(name) {
                return 2;
            }
            0
        }
        _ => 0,
    }
}

/// Returns the number of tokens of an IMPORT, given those after the word.
pub(crate) fn import_len(pieces: &[Piece]) -> usize
    ensures value { result ≡ spec.import_len pieces.now }
    ensures within { result ≤ length pieces.now + 1 }
{
    match pieces {
        [node, point, name, rest @ ..] => {
            if is_name(node) && is_point(point) && is_name(name) {
                return as_len(rest) + 4;
            }
            0
        }
        _ => 0,
    }
}

/// Returns the number of tokens of an EXPORT, given those after the word.
pub(crate) fn export_len(pieces: &[Piece]) -> usize
    ensures value { result ≡ spec.export_len pieces.now }
    ensures within { result ≤ length pieces.now + 1 }
{
    match pieces {
        [] => 0,
        [name, rest @ ..] => {
            if is_name(name) {
                return as_len(rest) + 2;
            }
            0
        }
    }
}

/// Returns the number of tokens of a UNIT, given those after the word.
pub(crate) fn unit_len(pieces: &[Piece]) -> usize
    ensures value { result ≡ spec.unit_len pieces.now }
    ensures within { result ≤ length pieces.now + 1 }
{
    match pieces {
        [category, name, factor, ..] => {
            if is_name(category) && is_name(name) && is_numeral(factor) {
                return 4;
            }
            0
        }
        _ => 0,
    }
}

/// Returns the number of tokens of a declaration with a value, given those of the value.
fn valued_len(pieces: &[Piece]) -> usize
    ensures value { result ≡ spec.valued_len pieces.now }
    ensures within { result ≤ length pieces.now + 4 }
{
    let value = value_len(pieces);
    if value == 0 {
        return 0;
    }
    value + 3
}

/// Returns the number of tokens of a declaration whose type is not one that is read, given those
/// after the access, and whether the field holds a value.
pub(crate) fn declaration_len(pieces: &[Piece], holds: bool) -> usize
    ensures value { result ≡ spec.declaration_len holds pieces.now }
    ensures within { result ≤ length pieces.now + 2 }
{
    match pieces {
        [field_type, name, rest @ ..] => {
            if !is_other_type(field_type) || !is_name(name) {
                return 0;
            }
            if holds { valued_len(rest) } else { 3 }
        }
        _ => 0,
    }
}
