//! Names of nodes that have to stay in a part.

ghost use Rattle.std.specs.Prelude.{◌≡◌, ◌++◌, ◌⊎◌, None, false, codes, map, option_map, IfOk, IfErr, OnOk};
ghost use Rattle.std.specs.Str.{bytes_eq};
ghost use Rattle.std.specs.Str.Lines.{lines};
ghost use Rattle.app_jobs.specs.declared.fault.JobFault.TheVariants.{Memory};
ghost use Rattle.app_part.specs.Kept as spec;
ghost use Rattle.app_part.specs.Tokens.{AreTokens, HasNoTokens, placed};

use crate::part::ScenePart;
use crate::told::push_note;
use crate::words::is_grouped;
use app_jobs::JobFault;
use classic_lenient::bytes_at;
use classic_lex::{Token, lex};
use classic_part::Note;
use classic_text::ReadFault;
use share_rules::cut_line;
use std::alloc::{AllocError, Global};

/// Returns the tokens of a text.
pub(crate) fn tokens_of(alloc: Global, text: &[u8]) -> Result<Vec<Token>, JobFault>
    ensures tokens { IfOk result (λ v. AreTokens text.now v.items) }
    ensures refused { IfErr result (λ f. (f ≡ Memory) ⊎ HasNoTokens text.now f) }
{
    match lex(alloc, text) {
        Ok(tokens) => Ok(tokens),
        Err(fault) => Err(JobFault::from(ReadFault::from(fault))),
    }
}

fn is(word: &[u8], other: &[u8]) -> bool
    ensures { result ≡ bytes_eq word.now other.now }
{
    word == other
}

/// Returns the line of the first `DEF name` among the tokens of a text.
fn defined_at(text: &[u8], tokens: &[Token], name: &[u8]) -> Option<u32>
    ensures { result ≡ spec.defined_at name.now false (map (placed text.now) tokens.now) }
{
    let mut behind = false;
    for token in tokens {
        let word = bytes_at(text, token.start, token.end);
        if behind && is(word, name) {
            return Some(token.line);
        }
        behind = is(word, b"DEF");
    }
    None
}

fn is_lost(text: &[u8], tokens: &[Token], name: &[u8]) -> bool
    ensures { result ≡ spec.is_lost (map (placed text.now) tokens.now) name.now }
{
    if name.is_empty() {
        return false;
    }
    defined_at(text, tokens, name).is_none()
}

fn first_among<'n>(text: &[u8], tokens: &[Token], names: &'n [u8]) -> Option<&'n [u8]>
    ensures { option_map (λ n. n.now) result
        ≡ spec.first_lost (map (placed text.now) tokens.now) (lines names.now) }
{
    let mut rest = names;
    while !rest.is_empty() {
        let (name, behind) = cut_line(rest);
        if is_lost(text, tokens, name) {
            return Some(name);
        }
        rest = behind;
    }
    None
}

/// Returns the first of the names, one a line, that no node of a text has, if there is one. Fails
/// with the fault of the text's tokens, or if memory runs out.
pub fn first_lost<'n>(
    alloc: Global,
    text: &[u8],
    names: &'n [u8],
) -> Result<Option<&'n [u8]>, JobFault>
    ensures lost { IfOk result
        (λ lost. spec.IsFirstLost text.now names.now (option_map (λ n. n.now) lost)) }
    ensures refused { IfErr result (λ f. (f ≡ Memory) ⊎ HasNoTokens text.now f) }
{
    let tokens = tokens_of(alloc, text)?;
    Ok(first_among(text, tokens.as_slice(), names))
}

fn may_take(note: &Note, place: u32) -> bool
    ensures { result ≡ spec.may_take place note.now }
{
    !is_grouped(note.kind) && note.line <= place
}

/// Returns the last of the notes, which are in the order of their places, on what went up to a
/// place.
fn taker(notes: &[Note], place: u32) -> Option<&Note>
    ensures { option_map (λ n. n.now) result ≡ spec.taker place None notes.now }
{
    let mut found = None;
    for note in notes {
        if may_take(note, place) {
            found = Some(note);
        }
    }
    found
}

fn push_taken(part: &ScenePart, note: Option<&Note>, out: &mut Vec<u8>) -> Result<(), AllocError>
    ensures { OnOk result (out.new.items
        ≡ out.old.items ++ spec.taken_by part.now (option_map (λ n. n.now) note.entry)) }
{
    match note {
        Some(note) => push_note(note, part.lines.as_slice(), part.blames.as_slice(), out),
        None => {
            out.extend_from_slice(b"no node has this name\n")?;
            Ok(())
        }
    }
}

fn push_reason(part: &ScenePart, place: Option<u32>, out: &mut Vec<u8>) -> Result<(), AllocError>
    ensures { OnOk result (out.new.items ≡ out.old.items ++ spec.reason_at part.now place) }
{
    match place {
        Some(place) => push_taken(part, taker(part.left.as_slice(), place), out),
        None => push_taken(part, None, out),
    }
}

fn push_lost(
    part: &ScenePart,
    name: &[u8],
    place: Option<u32>,
    out: &mut Vec<u8>,
) -> Result<(), AllocError>
    ensures { OnOk result (out.new.items
        ≡ out.old.items ++ name.now ++ codes ": " ++ spec.reason_at part.now place) }
{
    out.extend_from_slice(name)?;
    out.extend_from_slice(b": ")?;
    push_reason(part, place, out)
}

/// Returns where a text, which has places as lines, first names a node so.
fn place_in(alloc: Global, source: &[u8], name: &[u8]) -> Result<Option<u32>, JobFault>
    ensures place { IfOk result (λ place. spec.IsDefPlace source.now name.now place) }
{
    let tokens = tokens_of(alloc, source)?;
    Ok(defined_at(source, tokens.as_slice(), name))
}

/// Returns why a part, whose notes are in the order of their places, lacks a name.
fn lost_line(alloc: Global, part: &ScenePart, name: &[u8]) -> Result<Vec<u8>, JobFault>
    ensures told { IfOk result (λ v. spec.IsLostLine part.now name.now v.items) }
{
    let place = place_in(alloc, part.source.as_slice(), name)?;
    let mut out = Vec::new(alloc);
    push_lost(part, name, place, &mut out)?;
    Ok(out)
}

/// Returns what is said of the first name that a part lacks, if it lacks one.
fn said(alloc: Global, part: &ScenePart, lost: Option<&[u8]>) -> Result<Option<Vec<u8>>, JobFault>
    ensures told { IfOk result (λ told. spec.IsSaid part.now
        (option_map (λ n. n.now) lost.entry) (option_map (λ v. v.items) told)) }
{
    match lost {
        None => Ok(None),
        Some(name) => Ok(Some(lost_line(alloc, part, name)?)),
    }
}

/// Returns, of the first of the names, one a line, that a part lacks, the name and the line on what
/// it went with: `Pot: line 2: node Teapot left out`. The part's notes are in the order of their
/// places. Fails if memory runs out.
pub(crate) fn lost_text(
    alloc: Global,
    part: &ScenePart,
    names: &[u8],
) -> Result<Option<Vec<u8>>, JobFault>
    ensures told { IfOk result (λ told. spec.IsLostOf part.now names.now
        (option_map (λ v. v.items) told)) }
{
    let lost = first_lost(alloc, part.text.as_slice(), names)?;
    said(alloc, part, lost)
}
