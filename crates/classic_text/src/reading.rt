//! From a text to its document.

ghost use Rattle.std.specs.Prelude.{◌≡◌, ◌≤◌, map, length, All, Ok, IfOk, OnOk};
ghost use Rattle.x3d_lists.specs.Answers.{Gives};
ghost use Rattle.classic_lex.specs.Header.{max_len};
ghost use Rattle.classic_lex.specs.Lexed as tokens;
ghost use Rattle.classic_lex.specs.Lexed.{last_line, seen};
ghost use Rattle.classic_text.specs.Cursor.{IsPlaced};
ghost use Rattle.classic_text.specs.Spells.{Spells};
ghost use Rattle.classic_tree.specs.declared.tree.Document.{Document};
ghost use Rattle.classic_text.specs.Reading.{kind_of, of_tokens, of_grammar, memory, read_text};

use crate::fault::{ReadFault, ReadFaultKind};
use crate::head::whole;
use crate::refusal::Refusal;
use crate::tokens::Tokens;
use classic_lex::{LexFault, LexFaultKind, Token, last_line, lex, tokens_are_utf8, version};
use classic_tree::Document;
use std::alloc::Global;

fn kind_of(kind: LexFaultKind) -> ReadFaultKind
    ensures { result ≡ kind_of kind }
{
    match kind {
        LexFaultKind::TooLong => ReadFaultKind::TooLong,
        LexFaultKind::NotUtf8 => ReadFaultKind::NotUtf8,
        LexFaultKind::NoHeader => ReadFaultKind::NoHeader,
        LexFaultKind::BadVersion => ReadFaultKind::BadVersion,
        LexFaultKind::OpenString => ReadFaultKind::OpenString,
        LexFaultKind::BadNumeral => ReadFaultKind::BadNumeral,
        LexFaultKind::NumberRange => ReadFaultKind::NumberRange,
        LexFaultKind::BadCharacter => ReadFaultKind::BadCharacter,
        LexFaultKind::Memory => ReadFaultKind::Memory,
    }
}

impl From<LexFault> for ReadFault {
    ghost from_gives = { λ fault read. read ≡ of_tokens fault };

    fn from(fault: LexFault) -> ReadFault {
        ReadFault {
            kind: kind_of(fault.kind),
            line: fault.line,
        }
    }
}

/// Returns the fault for a refusal of the grammar, in a text that ends on line `last`.
fn of_grammar(last: u32, refusal: Refusal) -> ReadFault
    ensures { result ≡ of_grammar last refusal }
{
    let (kind, line) = match refusal {
        Refusal::Unexpected(line) => (ReadFaultKind::Unexpected, line),
        Refusal::UnexpectedEnd => (ReadFaultKind::UnexpectedEnd, last),
        Refusal::TooDeep(line) => (ReadFaultKind::TooDeep, line),
        Refusal::Unsupported(line) => (ReadFaultKind::Unsupported, line),
        Refusal::Memory => (ReadFaultKind::Memory, 0),
    };
    ReadFault { kind, line }
}

/// Returns the tokens of a text, each in its place.
fn tokens_of(alloc: Global, text: &[u8]) -> Result<Vec<Token>, LexFault>
    ensures exact { Gives tokens.memory (λ v. map (seen text.now) v.items) result
        (tokens.lexed text.now) }
    ensures placed { IfOk result (λ v. All (IsPlaced text.now) v.items) }
    ensures size { OnOk result (length text.now ≤ max_len) }
{
    tokens_are_utf8();
    lex(alloc, text)
}

#[tactic(auto, unfolding(crate::specs::Reading::read_text))]
fn document(alloc: Global, text: &[u8]) -> Result<Document, ReadFault>
    ensures { Gives memory (λ d. d) result (read_text text.now) }
{
    let version = version(text)?;
    let found = tokens_of(alloc, text)?;
    let mut tokens = Tokens::new(text, found.as_slice());
    match whole(alloc, version, &mut tokens) {
        Ok(document) => Ok(document),
        Err(refusal) => Err(of_grammar(last_line(text), refusal)),
    }
}

/// Returns the document that the text spells. Fails with the fault of the text that comes first
/// (see `ReadFaultKind`), or with `Memory` if memory runs out.
pub fn read(alloc: Global, text: &[u8]) -> Result<Document, ReadFault>
    // The document or the first fault, unless memory runs out.
    ensures exact { Gives memory (λ d. d) result (read_text text.now) }
    // The text spells the document that is read.
    ensures found { IfOk result (λ d. Spells text.now d) }
    // A document that the text spells is read, unless memory runs out.
    ensures only { (d : Document) → Spells text.now d → Gives memory (λ e. e) result (Ok d) }
{
    document(alloc, text)
}
