//! A text with each token on a line of its own.

ghost use Rattle.std.specs.Prelude.{◌≡◌, ◌++◌, Ok, IfOk, OnOk};
ghost use Rattle.std.specs.List.{flat_map};
ghost use Rattle.classic_lex.specs.Header.{version_of};
ghost use Rattle.classic_tree.specs.Writing.{header_line};
ghost use Rattle.app_part.specs.Apart as spec;
ghost use Rattle.app_part.specs.Tokens.{placed};

use crate::kept::tokens_of;
use app_jobs::JobFault;
use classic_lenient::bytes_at;
use classic_lex::{Token, Version, version};
use classic_text::ReadFault;
use std::alloc::{AllocError, Global};

/// A text with each token on a line of its own, and for each of its lines that of the text.
#[derive(Drop)]
pub struct Apart {
    pub text: Vec<u8>,
    pub lines: Vec<u32>,
}

/// Returns the line of a place, or 0 if the place is 0. A place that isn't in the lines is a line.
pub fn line_at(lines: &[u32], place: u32) -> u32
    ensures { result ≡ spec.line_at lines.now place }
{
    if place == 0 {
        return 0;
    }
    lines.get(place as usize - 1).copied().unwrap_or(place)
}

fn push_if_ended(line: u32, byte: u8, lines: &mut Vec<u32>) -> Result<(), AllocError>
    ensures { OnOk result (lines.new.items ≡ lines.old.items ++ spec.if_ended line byte) }
{
    if byte == b'\n' {
        lines.push(line)?;
    }
    Ok(())
}

fn push_ends(line: u32, bytes: &[u8], lines: &mut Vec<u32>) -> Result<(), AllocError>
    ensures { OnOk result
        (lines.new.items ≡ lines.old.items ++ flat_map (spec.if_ended line) bytes.now) }
{
    for byte in bytes {
        push_if_ended(line, *byte, lines)?;
    }
    Ok(())
}

/// Appends the line of a token, for each line that it is on when it stands alone.
fn push_lines(text: &[u8], token: &Token, lines: &mut Vec<u32>) -> Result<(), AllocError>
    ensures { OnOk result
        (lines.new.items ≡ lines.old.items ++ spec.lines_of (placed text.now token.now)) }
{
    push_ends(token.line, bytes_at(text, token.start, token.end), lines)?;
    lines.push(token.line)?;
    Ok(())
}

fn push_spelled(text: &[u8], token: &Token, out: &mut Vec<u8>) -> Result<(), AllocError>
    ensures { OnOk result
        (out.new.items ≡ out.old.items ++ spec.spelled (placed text.now token.now)) }
{
    out.extend_from_slice(bytes_at(text, token.start, token.end))?;
    out.extend_from_slice(b"\n")?;
    Ok(())
}

fn push_version(version: Version, out: &mut Vec<u8>) -> Result<(), AllocError>
    ensures { OnOk result (out.new.items ≡ out.old.items ++ header_line version) }
{
    out.extend_from_slice(b"#X3D V")?;
    out.extend_from_slice(version.text().as_bytes())?;
    out.extend_from_slice(b" utf8\n")?;
    Ok(())
}

fn push_tokens(text: &[u8], tokens: &[Token], out: &mut Vec<u8>) -> Result<(), AllocError>
    ensures { OnOk result (out.new.items
        ≡ out.old.items ++ flat_map (λ t. spec.spelled (placed text.now t)) tokens.now) }
{
    for token in tokens {
        push_spelled(text, token, out)?;
    }
    Ok(())
}

fn push_all_lines(text: &[u8], tokens: &[Token], lines: &mut Vec<u32>) -> Result<(), AllocError>
    ensures { OnOk result (lines.new.items
        ≡ lines.old.items ++ flat_map (λ t. spec.lines_of (placed text.now t)) tokens.now) }
{
    for token in tokens {
        push_lines(text, token, lines)?;
    }
    Ok(())
}

fn text_of(
    alloc: Global,
    version: Version,
    text: &[u8],
    tokens: &[Token],
) -> Result<Vec<u8>, AllocError>
    ensures { IfOk result
        (λ v. v.items ≡ spec.apart_text version text.now tokens.now) }
{
    let mut out = Vec::new(alloc);
    push_version(version, &mut out)?;
    push_tokens(text, tokens, &mut out)?;
    Ok(out)
}

fn lines_of(alloc: Global, text: &[u8], tokens: &[Token]) -> Result<Vec<u32>, AllocError>
    ensures { IfOk result (λ v. v.items ≡ spec.apart_lines text.now tokens.now) }
{
    let mut lines = Vec::new(alloc);
    lines.push(1)?;
    push_all_lines(text, tokens, &mut lines)?;
    Ok(lines)
}

fn version_in(text: &[u8]) -> Result<Version, JobFault>
    ensures { IfOk result (λ v. version_of text.now ≡ Ok v) }
{
    match version(text) {
        Ok(version) => Ok(version),
        Err(fault) => Err(JobFault::from(ReadFault::from(fault))),
    }
}

/// Returns a text with each token on a line of its own. Fails with the fault of its tokens, or with
/// `Memory` if memory runs out.
pub(crate) fn apart_of(alloc: Global, text: &[u8]) -> Result<Apart, JobFault>
    ensures made { IfOk result (spec.IsApart text.now) }
{
    let version = version_in(text)?;
    let tokens = tokens_of(alloc, text)?;
    let lines = lines_of(alloc, text, tokens.as_slice())?;
    let made = text_of(alloc, version, text, tokens.as_slice())?;
    Ok(Apart { text: made, lines })
}
