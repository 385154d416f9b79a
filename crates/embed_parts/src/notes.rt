//! Line and kind of each thing that was left out, as numbers.

ghost use Rattle.std.specs.Prelude.{◌≡◌, ◌++◌, IfOk, OnOk};
ghost use Rattle.std.specs.List.{flat_map};
ghost use Rattle.embed_parts.specs.LeftOut as spec;

use crate::kinds::{note_number, unread_number};
use app_part::{ScenePart, line_at};
use classic_lenient::Unread;
use classic_part::Note;
use std::alloc::{AllocError, Global};

fn push_note(lines: &[u32], note: &Note, out: &mut Vec<i64>) -> Result<(), AllocError>
    ensures { OnOk result (out.new.items ≡ out.old.items ++ spec.note_pair lines.now note.now) }
{
    let line = i64::from(line_at(lines, note.line));
    out.extend_from_slice(&[line, i64::from(note_number(note.kind))])
}

fn push_unread(lines: &[u32], one: &Unread, out: &mut Vec<i64>) -> Result<(), AllocError>
    ensures { OnOk result (out.new.items ≡ out.old.items ++ spec.unread_pair lines.now one.now) }
{
    let line = i64::from(line_at(lines, one.line));
    out.extend_from_slice(&[line, i64::from(unread_number(one.kind))])
}

fn push_notes(lines: &[u32], notes: &[Note], out: &mut Vec<i64>) -> Result<(), AllocError>
    ensures { OnOk result
        (out.new.items ≡ out.old.items ++ flat_map (spec.note_pair lines.now) notes.now) }
{
    for note in notes {
        push_note(lines, note, out)?;
    }
    Ok(())
}

fn push_unreads(lines: &[u32], unread: &[Unread], out: &mut Vec<i64>) -> Result<(), AllocError>
    ensures { OnOk result
        (out.new.items ≡ out.old.items ++ flat_map (spec.unread_pair lines.now) unread.now) }
{
    for one in unread {
        push_unread(lines, one, out)?;
    }
    Ok(())
}

fn push_left(part: &ScenePart, out: &mut Vec<i64>) -> Result<(), AllocError>
    ensures { OnOk result (out.new.items ≡ out.old.items ++ spec.left_numbers part.now) }
{
    let lines = part.lines.as_slice();
    push_unreads(lines, part.unread.as_slice(), out)?;
    push_notes(lines, part.left.as_slice(), out)
}

/// Returns the line and the kind of each thing that was left out, as two numbers for each. Fails if
/// memory runs out.
pub(crate) fn left_numbers(alloc: Global, part: &ScenePart) -> Result<Vec<i64>, AllocError>
    ensures { IfOk result (λ v. v.items ≡ spec.left_numbers part.now) }
{
    let mut out = Vec::new(alloc);
    push_left(part, &mut out)?;
    Ok(out)
}
