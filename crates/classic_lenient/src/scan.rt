//! The statements that are left out, in the order of the text.

ghost use Rattle.std.specs.Prelude.{◌≡◌, ◌≤◌, ◌<◌, ◌+◌, ◌++◌, length, drop, IfOk};
ghost use Rattle.classic_lenient.specs.Scan as spec;

use crate::lengths::{declaration_len, export_len, extern_len, import_len, unit_len};
use crate::mark::Mark;
use crate::pieces::Piece;
use std::alloc::{AllocError, Global};
use x3d_values::Items;

/// A statement that goes out of a text.
#[derive(Clone, Copy)]
pub enum UnreadKind {
    ExternProto,
    Import,
    Export,
    Unit,
    /// The declaration of a field whose type is not one that is read.
    Declaration,
}

/// A statement that is left out: its line, its bytes from `start` up to `end`, and those of the
/// name in it.
#[derive(Clone, Copy)]
pub struct Unread {
    pub kind: UnreadKind,
    pub line: u32,
    pub start: u32,
    pub end: u32,
    pub name_start: u32,
    pub name_end: u32,
}

/// What the token before was.
#[derive(Clone, Copy)]
pub(crate) enum Before {
    /// A word or a point after which a name follows.
    Binding,
    /// A closing bracket, after which a brace opens the body of a PROTO.
    CloseBracket,
    Other,
}

/// What is around a token.
#[derive(Clone, Copy)]
pub(crate) struct Around {
    /// How many braces of nodes and brackets are open; those of PROTO bodies around them don't
    /// count.
    pub inside: usize,
    pub before: Before,
}

/// A place in the scan: how many tokens are still to be left out, and what is around the next.
#[derive(Clone, Copy)]
pub(crate) struct Place {
    pub skip: usize,
    pub around: Around,
}

fn is_binding(before: Before) -> bool
    ensures { result ≡ spec.is_binding before }
{
    matches!(before, Before::Binding)
}

fn is_after_list(before: Before) -> bool
    ensures { result ≡ spec.is_after_list before }
{
    matches!(before, Before::CloseBracket)
}

/// Reports whether a statement of a text or of the body of a PROTO may begin here.
fn is_statement(around: Around) -> bool
    ensures { result ≡ spec.is_statement around }
{
    around.inside == 0 && !is_binding(around.before)
}

/// Returns the number of tokens of the statement at the front that is left out; 0 if there is none.
fn unread_len(around: Around, pieces: &[Piece]) -> usize
    ensures value { result ≡ spec.unread_len around pieces.now }
    ensures within { result ≤ length pieces.now + 1 }
{
    match pieces {
        [] => 0,
        [first, rest @ ..] => match first.mark {
            Mark::ExternProto if !is_binding(around.before) => extern_len(rest),
            Mark::Import if is_statement(around) => import_len(rest),
            Mark::Export if is_statement(around) => export_len(rest),
            Mark::Unit if is_statement(around) => unit_len(rest),
            Mark::Holds => declaration_len(rest, true),
            Mark::Event => declaration_len(rest, false),
            _ => 0,
        },
    }
}

fn kind_of(mark: Mark) -> UnreadKind
    ensures { result ≡ spec.kind_of mark }
{
    match mark {
        Mark::ExternProto => UnreadKind::ExternProto,
        Mark::Import => UnreadKind::Import,
        Mark::Export => UnreadKind::Export,
        Mark::Unit => UnreadKind::Unit,
        _ => UnreadKind::Declaration,
    }
}

fn no_piece() -> Piece
    ensures { result ≡ spec.no_piece }
{
    Piece {
        mark: Mark::Point,
        start: 0,
        end: 0,
        line: 0,
    }
}

/// Returns the piece at that place, or one of no bytes.
fn piece_at(pieces: &[Piece], at: usize) -> Piece
    ensures { result ≡ spec.piece_at pieces.now at }
{
    match pieces.get(at) {
        Some(piece) => *piece,
        None => no_piece(),
    }
}

/// Returns the place of the name among the tokens of a statement.
fn name_place(kind: UnreadKind) -> usize
    ensures value { result ≡ spec.name_place kind }
{
    match kind {
        UnreadKind::Declaration => 2,
        _ => 1,
    }
}

/// Returns the statement of the first `len` tokens.
fn unread_of(len: usize, pieces: &[Piece]) -> Unread
    ensures { result ≡ spec.unread_of len pieces.now }
{
    let first = piece_at(pieces, 0);
    let last = piece_at(pieces, len.saturating_sub(1));
    let kind = kind_of(first.mark);
    let name = piece_at(pieces, name_place(kind));
    Unread {
        kind,
        line: first.line,
        start: first.start,
        end: last.end,
        name_start: name.start,
        name_end: name.end,
    }
}

fn before_of(mark: Mark) -> Before
    ensures { result ≡ spec.before_of mark }
{
    match mark {
        Mark::Binding => Before::Binding,
        Mark::Is => Before::Binding,
        Mark::Point => Before::Binding,
        Mark::CloseBracket => Before::CloseBracket,
        _ => Before::Other,
    }
}

/// Returns how many braces and brackets are open after a token.
fn inside_after(around: Around, mark: Mark) -> usize
    ensures { result ≡ spec.inside_after around mark }
{
    match mark {
        Mark::OpenBrace if around.inside == 0 && is_after_list(around.before) => 0,
        Mark::OpenBrace => around.inside.saturating_add(1),
        Mark::OpenBracket => around.inside.saturating_add(1),
        Mark::CloseBrace => around.inside.saturating_sub(1),
        Mark::CloseBracket => around.inside.saturating_sub(1),
        _ => around.inside,
    }
}

/// Returns what is around the token after this one.
fn passed(around: Around, mark: Mark) -> Around
    ensures { result ≡ spec.passed around mark }
{
    Around {
        inside: inside_after(around, mark),
        before: before_of(mark),
    }
}

/// Takes the first of these tokens, and appends the statement that begins with it if that is left
/// out.
fn step(place: Place, rest: &[Piece], found: &mut Items<Unread>) -> Result<Place, AllocError>
    requires { 0 < length rest.now }
    ensures { IfOk result (λ then. found.new ++ spec.scan then.skip then.around (drop 1 rest.now)
        ≡ found.old ++ spec.scan place.skip place.around rest.now) }
{
    if place.skip > 0 {
        return Ok(Place {
            skip: place.skip - 1,
            around: place.around,
        });
    }
    let len = unread_len(place.around, rest);
    if len == 0 {
        return Ok(Place {
            skip: 0,
            around: passed(place.around, rest[0].mark),
        });
    }
    found.push(unread_of(len, rest))?;
    Ok(Place {
        skip: len - 1,
        around: Around {
            inside: place.around.inside,
            before: Before::Other,
        },
    })
}

/// Returns the statements that are left out, in the order of the text.
pub(crate) fn unread_in(alloc: Global, pieces: &[Piece]) -> Result<Items<Unread>, AllocError>
    ensures { IfOk result (λ r. r ≡ spec.unread_in pieces.now) }
{
    let mut found = Items::new(alloc);
    let mut place = Place {
        skip: 0,
        around: Around {
            inside: 0,
            before: Before::Other,
        },
    };
    for at in 0..pieces.len() {
        place = step(place, &pieces[at..], &mut found)?;
    }
    Ok(found)
}
