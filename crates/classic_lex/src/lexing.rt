//! From a text to its tokens.

ghost use Rattle.std.specs.Prelude.{◌≡◌, ◌==◌, ◌≤◌, List, count_by, length, map, drop, IfOk, OnOk, MatchResult};
ghost use Rattle.x3d_lists.specs.Answers.{Gives};
ghost use Rattle.classic_lex.specs.Header.{mark_len, max_len};
ghost use Rattle.classic_lex.specs.Lexed.{Tok, last_line, lexed, memory, seen, tokens_at};
ghost use Rattle.classic_lex.specs.Spans.{AreSpans};
ghost use Rattle.classic_lex.specs.Tokens.{HasTokens};

use crate::fault::LexFault;
use crate::front::{Start, front};
use crate::header::{mark_len, version};
use crate::token::Token;
use classic_bytes::{end_of, is_line_feed};
use std::alloc::Global;

fn line_feeds(text: &[u8]) -> usize
    ensures value { result ≡ count_by (λ b. b == 10) text.now }
    ensures within { result ≤ length text.now }
{
    text.iter().filter(|b| is_line_feed(**b)).count()
}

/// Returns the line on which a text ends, from 1.
pub fn last_line(text: &[u8]) -> u32
    requires { length text.now ≤ max_len }
    ensures { result ≡ last_line text.now }
{
    (line_feeds(text) + 1) as u32
}

/// Returns the tokens of a text. Fails with the fault of the text that comes first (see
/// `LexFaultKind`), or with `Memory` if memory runs out.
pub fn lex(alloc: Global, text: &[u8]) -> Result<Vec<Token>, LexFault>
    ensures exact { Gives memory (λ v. map (seen text.now) v.items) result (lexed text.now) }
    // The tokens returned are exactly those of the text, unless memory runs out.
    ensures found { IfOk result (λ v. HasTokens text.now (map (seen text.now) v.items)) }
    ensures only { (tokens : List Tok) → HasTokens text.now tokens
        → MatchResult result (λ v. map (seen text.now) v.items ≡ tokens) (λ fault. fault ≡ memory) }
    // The tokens have their places in the text.
    ensures spans { IfOk result (λ v. AreSpans text.now (mark_len text.now) v.items) }
    ensures size { OnOk result (length text.now ≤ max_len) }
{
    tokens_of(alloc, text)
}

#[tactic(auto, unfolding(crate::specs::Lexed::lexed))]
fn tokens_of(alloc: Global, text: &[u8]) -> Result<Vec<Token>, LexFault>
    ensures exact { Gives memory (λ v. map (seen text.now) v.items) result (lexed text.now) }
    ensures spans { IfOk result (λ v. AreSpans text.now (mark_len text.now) v.items) }
    ensures size { OnOk result (length text.now ≤ max_len) }
{
    version(text)?;
    cut(alloc, text, mark_len(text))
}

/// Returns the tokens after the first `start` bytes.
fn cut(alloc: Global, text: &[u8], start: usize) -> Result<Vec<Token>, LexFault>
    requires room { start ≤ length text.now }
    requires size { length text.now ≤ max_len }
    ensures exact { Gives memory (λ v. map (seen text.now) v.items) result
        (tokens_at 0 1 (drop start text.now)) }
    ensures spans { IfOk result (λ v. AreSpans text.now start v.items) }
{
    let mut tokens = Vec::new(alloc);
    let mut rest = &text[start..];
    let mut at = start;
    let mut line = 1;
    while !rest.is_empty() {
        let len = match front(rest) {
            Start::Blank(n) => n,
            Start::Piece(kind, n) => {
                tokens.push(Token {
                    kind,
                    start: at as u32,
                    end: end_of(at, n),
                    line: line as u32,
                })?;
                n
            }
            Start::Bad(kind) => {
                return Err(LexFault {
                    kind,
                    line: line as u32,
                });
            }
        };
        let (piece, behind) = rest.split_at(len);
        line += line_feeds(piece);
        at += len;
        rest = behind;
    }
    Ok(tokens)
}
