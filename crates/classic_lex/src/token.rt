//! Tokens.

/// The kind of a token.
#[derive(Clone, Copy, PartialEq, Eq)]
pub enum TokenKind {
    /// A name, a keyword or a truth value, such as `DEF`, `children` or `Name:1`.
    Identifier,
    /// A number, such as `-.5e3` or `0xFF`.
    Numeral,
    /// A string, with its quotes.
    Text,
    OpenBracket,
    CloseBracket,
    OpenBrace,
    CloseBrace,
    /// The point between the node's name and the field's name in a ROUTE.
    Point,
}

/// A token of a text: its kind, its bytes from `start` up to `end`, and the line of its first byte.
///
/// Bytes are counted from 0 at the beginning of the text, including a byte order mark; lines from
/// 1.
#[derive(Clone, Copy, PartialEq, Eq)]
pub struct Token {
    pub kind: TokenKind,
    pub start: u32,
    pub end: u32,
    pub line: u32,
}
