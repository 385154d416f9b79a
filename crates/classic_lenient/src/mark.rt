//! What a token is to the statements that are left out.

ghost use Rattle.std.specs.Prelude.{◌≡◌};
ghost use Rattle.std.specs.Str.{bytes_eq};
ghost use Rattle.classic_lenient.specs.Marks as spec;

use classic_lex::TokenKind;
use x3d_values::{Access, FieldType};

/// What a token is to the statements that are left out.
#[derive(Clone, Copy)]
pub(crate) enum Mark {
    ExternProto,
    Import,
    Export,
    Unit,
    As,
    /// The access of a field with a value.
    Holds,
    /// The access of an input or an output.
    Event,
    Is,
    /// DEF, USE, PROTO, ROUTE or TO, after which a name follows.
    Binding,
    /// TRUE, FALSE or NULL.
    Constant,
    /// The name of a field type.
    FieldType,
    /// Another name.
    Name,
    Numeral,
    Text,
    OpenBracket,
    CloseBracket,
    OpenBrace,
    CloseBrace,
    Point,
}

fn is(word: &str, other: &str) -> bool
    ensures { result ≡ bytes_eq word.now other.now }
{
    word == other
}

fn access_mark(access: Access) -> Mark
    ensures { result ≡ spec.access_mark access }
{
    match access {
        Access::InputOnly => Mark::Event,
        Access::OutputOnly => Mark::Event,
        Access::InputOutput => Mark::Holds,
        Access::InitializeOnly => Mark::Holds,
    }
}

fn type_mark(word: &str) -> Mark
    ensures { result ≡ spec.type_mark word.now }
{
    match FieldType::named(word) {
        Some(_field_type) => Mark::FieldType,
        None => Mark::Name,
    }
}

fn plain_mark(word: &str) -> Mark
    ensures { result ≡ spec.plain_mark word.now }
{
    match Access::named(word) {
        Some(access) => access_mark(access),
        None => type_mark(word),
    }
}

#[tactic(auto, unfolding(crate::specs::Marks::is_binding))]
fn is_binding(word: &str) -> bool
    ensures { result ≡ spec.is_binding word.now }
{
    is(word, "DEF") || is(word, "USE") || is(word, "PROTO") || is(word, "ROUTE") || is(word, "TO")
}

#[tactic(auto, unfolding(crate::specs::Marks::is_constant))]
fn is_constant(word: &str) -> bool
    ensures { result ≡ spec.is_constant word.now }
{
    is(word, "TRUE") || is(word, "FALSE") || is(word, "NULL")
}

#[tactic(auto, unfolding(crate::specs::Marks::reserved_mark))]
fn reserved_mark(word: &str) -> Mark
    ensures { result ≡ spec.reserved_mark word.now }
{
    if is(word, "IS") {
        Mark::Is
    } else if is_binding(word) {
        Mark::Binding
    } else if is_constant(word) {
        Mark::Constant
    } else {
        plain_mark(word)
    }
}

#[tactic(auto, unfolding(crate::specs::Marks::word_mark))]
fn word_mark(word: &str) -> Mark
    ensures { result ≡ spec.word_mark word.now }
{
    if is(word, "EXTERNPROTO") {
        Mark::ExternProto
    } else if is(word, "IMPORT") {
        Mark::Import
    } else if is(word, "EXPORT") {
        Mark::Export
    } else if is(word, "UNIT") {
        Mark::Unit
    } else if is(word, "AS") {
        Mark::As
    } else {
        reserved_mark(word)
    }
}

fn identifier_mark(text: &[u8]) -> Mark
    ensures { result ≡ spec.identifier_mark text.now }
{
    match std::str::from_utf8(text) {
        Ok(word) => word_mark(word),
        Err(_) => Mark::Name,
    }
}

/// Returns what a token of this kind with these bytes is.
pub(crate) fn mark_of(kind: TokenKind, text: &[u8]) -> Mark
    ensures { result ≡ spec.mark_of kind text.now }
{
    match kind {
        TokenKind::Identifier => identifier_mark(text),
        TokenKind::Numeral => Mark::Numeral,
        TokenKind::Text => Mark::Text,
        TokenKind::OpenBracket => Mark::OpenBracket,
        TokenKind::CloseBracket => Mark::CloseBracket,
        TokenKind::OpenBrace => Mark::OpenBrace,
        TokenKind::CloseBrace => Mark::CloseBrace,
        TokenKind::Point => Mark::Point,
    }
}
