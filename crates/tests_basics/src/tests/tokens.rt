//! Texts with their tokens by hand. (Faults of tokens and headers are cases in cases/grammar.cases,
//! versions in cases/formats.cases.)

use super::{Row, all_hold, holds};
use classic_lex::{Token, TokenKind, Version, lex, version};
use std::alloc::Global;
use std::process::Abort;
use x3d_values::Show;

/// Returns the letter of a token's kind: a word, a string, a numeral, or a mark.
fn kind_of(kind: TokenKind) -> &'static [u8] {
    match kind {
        TokenKind::Identifier => b"w",
        TokenKind::Text => b"s",
        TokenKind::Numeral => b"n",
        TokenKind::OpenBrace => b"{",
        TokenKind::CloseBrace => b"}",
        TokenKind::OpenBracket => b"[",
        TokenKind::CloseBracket => b"]",
        TokenKind::Point => b".",
    }
}

/// Appends the kind, the line and the bytes of a token. Reports whether memory is granted.
fn push_token(text: &[u8], token: &Token, out: &mut Vec<u8>) -> bool {
    let piece = text.get(token.start as usize..token.end as usize);
    let kind = out.extend_from_slice(kind_of(token.kind)).is_ok();
    let number = i32::try_from(token.line).unwrap_or(-1);
    let line = number.show(out).is_ok();
    let space = out.extend_from_slice(b" ").is_ok();
    let bytes = out.extend_from_slice(piece.unwrap_or(b"?")).is_ok();
    let end = out.extend_from_slice(b"|").is_ok();
    kind & line & space & bytes & end
}

fn are(alloc: Global, text: &[u8], tokens: &[Token], wanted: &str) -> bool {
    let mut out = Vec::new(alloc);
    let mut is_whole = true;
    for token in tokens {
        is_whole &= push_token(text, token, &mut out);
    }
    let same = out.as_slice() == wanted.as_bytes();
    drop(out);
    is_whole && same
}

/// A text, and its tokens.
struct Cut(&'static [u8], &'static str);

impl Row for Cut {
    fn holds(&self, alloc: Global) -> bool {
        match lex(alloc, self.0) {
            Ok(tokens) => are(alloc, self.0, tokens.as_slice(), self.1),
            Err(_) => false,
        }
    }
}

static TOKENS: [Cut; 16] = [
    // nothing after the header
    Cut(b"#X3D V3.0 utf8", ""),
    Cut(b"#X3D V3.0 utf8\n", ""),
    // a byte order mark counts in the places
    Cut(
        b"\xef\xbb\xbf#X3D V3.0 utf8\nA \"b\"\n}",
        "w2 A|s2 \"b\"|}3 }|",
    ),
    // identifiers and marks
    Cut(
        b"#X3D V3.0 utf8\nDEF A_1 Group{children[USE B]}",
        "w2 DEF|w2 A_1|w2 Group|{2 {|w2 children|[2 [|w2 USE|w2 B|]2 ]|}2 }|",
    ),
    Cut(
        b"#X3D V3.0 utf8\nCOMPONENT Name:1 :a",
        "w2 COMPONENT|w2 Name:1|w2 :a|",
    ),
    Cut(
        b"#X3D V3.0 utf8\na-b+c9 !$%&()*/;<=>?@^_`|~ \xc3\xa9\xc2\xa0",
        "w2 a-b+c9|w2 !$%&()*/;<=>?@^_`|~|w2 \u{e9}\u{a0}|",
    ),
    Cut(
        b"#X3D V3.0 utf8\nROUTE a.x TO b . y .z..",
        "w2 ROUTE|w2 a|.2 .|w2 x|w2 TO|w2 b|.2 .|w2 y|.2 .|w2 z|.2 .|.2 .|",
    ),
    // white space, comments and lines
    Cut(
        b"#X3D V3.0 utf8 ' \"\n a,b\t,\r\nc\rd\n\ne",
        "w2 a|w2 b|w3 c|w3 d|w5 e|",
    ),
    Cut(b"#X3D V3.0 utf8\ra", "w1 a|"),
    Cut(b"#X3D V3.0 utf8\na#b ' \"\nc # d\re#", "w2 a|w3 c|w3 e|"),
    Cut(b"#X3D V3.0 utf8\n# the end", ""),
    Cut(
        b"#X3D V3.0 utf8\n\"#a\n\r\n\"b\nc",
        "s2 \"#a\n\r\n\"|w4 b|w5 c|",
    ),
    // strings
    Cut(
        b"#X3D V3.0 utf8\n\"\" \"a\\\"b\" \"\\\\\" \"\\n'\"\"\xc3\xa9\"",
        "s2 \"\"|s2 \"a\\\"b\"|s2 \"\\\\\"|s2 \"\\n'\"|s2 \"\u{e9}\"|",
    ),
    // a numeral ends where its form ends
    Cut(
        b"#X3D V3.0 utf8\n0 -.5e3 +2. .5 1E-7,0xFF -0X10",
        "n2 0|n2 -.5e3|n2 +2.|n2 .5|n2 1E-7|n2 0xFF|n2 -0X10|",
    ),
    Cut(
        b"#X3D V3.0 utf8\n1[2]3{4}5\"6\"7#8\n9",
        "n2 1|[2 [|n2 2|]2 ]|n2 3|{2 {|n2 4|}2 }|n2 5|s2 \"6\"|n2 7|n3 9|",
    ),
    // a point begins a numeral if a digit follows
    Cut(
        b"#X3D V3.0 utf8\na.5 a-5 ..5",
        "w2 a|n2 .5|w2 a-5|.2 .|n2 .5|",
    ),
];

/// The version is that of the header, whatever follows it.
#[test]
fn texts_have_their_tokens(rt: HostRuntime) {
    all_hold(&rt, rt.alloc(), &TOKENS);
    holds(&rt, version(b"#X3D V3.0 utf8\n'") == Ok(Version::V3_0));
}
