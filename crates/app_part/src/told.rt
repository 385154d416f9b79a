//! The line on one thing that was left out.

ghost use Rattle.std.specs.Prelude.{◌≡◌, ◌++◌, OnOk};
ghost use Rattle.app_part.specs.Told as spec;

use crate::apart::line_at;
use crate::words::{after_name, after_unread, before_name, before_unread, is_refused};
use classic_lenient::{Unread, bytes_at};
use classic_part::Note;
use itoa::Buffer;
use scene_faults::Blame;
use std::alloc::AllocError;

/// Appends `line N: `.
#[tactic(auto, unfolding(crate::specs::Told::head))]
fn push_head(line: u32, out: &mut Vec<u8>) -> Result<(), AllocError>
    ensures { OnOk result (out.new.items ≡ out.old.items ++ spec.head line) }
{
    let mut digits = Buffer::new();
    out.extend_from_slice(b"line ")?;
    out.extend_from_slice(digits.format(line).as_bytes())?;
    out.extend_from_slice(b": ")?;
    Ok(())
}

/// Appends three texts.
fn push_three(one: &[u8], two: &[u8], three: &[u8], out: &mut Vec<u8>) -> Result<(), AllocError>
    ensures { OnOk result (out.new.items ≡ out.old.items ++ one.now ++ two.now ++ three.now) }
{
    out.extend_from_slice(one)?;
    out.extend_from_slice(two)?;
    out.extend_from_slice(three)?;
    Ok(())
}

/// Appends the field that a node was in, if it was in one.
fn push_field(field: &str, out: &mut Vec<u8>) -> Result<(), AllocError>
    ensures { OnOk result (out.new.items ≡ out.old.items ++ spec.in_field field.now) }
{
    if field.is_empty() {
        return Ok(());
    }
    push_three(b" (field ", field.as_bytes(), b")", out)
}

/// Returns the name of the first fault at a place, or nothing.
fn reason_of(blames: &[Blame], at: u32) -> &'static str
    ensures { result.now ≡ spec.reason_of blames.now at }
{
    for blame in blames {
        if blame.line == at {
            return blame.reason.name();
        }
    }
    ""
}

/// Appends the fault for which something was left out.
fn push_reason(note: &Note, blames: &[Blame], out: &mut Vec<u8>) -> Result<(), AllocError>
    ensures { OnOk result (out.new.items ≡ out.old.items ++ spec.reason note.now blames.now) }
{
    if is_refused(note.kind) {
        out.extend_from_slice(reason_of(blames, note.line).as_bytes())?;
    }
    Ok(())
}

/// Appends what a note says.
fn push_words(note: &Note, out: &mut Vec<u8>) -> Result<(), AllocError>
    ensures { OnOk result (out.new.items ≡ out.old.items ++ spec.words note.now) }
{
    push_three(
        before_name(note.kind).as_bytes(),
        note.name.as_bytes(),
        after_name(note.kind).as_bytes(),
        out,
    )
}

/// Appends the end of a note's line.
fn push_end(note: &Note, blames: &[Blame], out: &mut Vec<u8>) -> Result<(), AllocError>
    ensures { OnOk result (out.new.items ≡ out.old.items ++ spec.ending note.now blames.now) }
{
    push_reason(note, blames, out)?;
    push_field(note.field.as_str(), out)?;
    out.extend_from_slice(b"\n")?;
    Ok(())
}

/// Appends the line of a note.
#[tactic(auto, unfolding(crate::specs::Told::note_line))]
pub(crate) fn push_note(
    note: &Note,
    lines: &[u32],
    blames: &[Blame],
    out: &mut Vec<u8>,
) -> Result<(), AllocError>
    ensures { OnOk result
        (out.new.items ≡ out.old.items ++ spec.note_line lines.now blames.now note.now) }
{
    push_head(line_at(lines, note.line), out)?;
    push_words(note, out)?;
    push_end(note, blames, out)
}

/// Appends what is said of a statement that isn't read.
fn push_unread_words(unread: &Unread, name: &[u8], out: &mut Vec<u8>) -> Result<(), AllocError>
    ensures { OnOk result
        (out.new.items ≡ out.old.items ++ spec.unread_words unread.now name.now) }
{
    push_three(
        before_unread(unread.kind).as_bytes(),
        name,
        after_unread(unread.kind).as_bytes(),
        out,
    )
}

/// Appends the line of a statement of a text that isn't read.
#[tactic(auto, unfolding(crate::specs::Told::unread_line))]
pub(crate) fn push_unread(
    source: &[u8],
    lines: &[u32],
    unread: &Unread,
    out: &mut Vec<u8>,
) -> Result<(), AllocError>
    ensures { OnOk result
        (out.new.items ≡ out.old.items ++ spec.unread_line source.now lines.now unread.now) }
{
    let name = bytes_at(source, unread.name_start, unread.name_end);
    push_head(line_at(lines, unread.line), out)?;
    push_unread_words(unread, name, out)?;
    out.extend_from_slice(b"\n")?;
    Ok(())
}
