//! The lines on all that was left out, and how much that was.

ghost use Rattle.std.specs.Prelude.{◌≡◌, ◌++◌, ◌≤◌, [], count_by, length, IfOk, OnOk};
ghost use Rattle.std.specs.List.{flat_map};
ghost use Rattle.app_part.specs.Listing as spec;
ghost use Rattle.app_part.specs.Told.{note_line, unread_line};

use crate::part::ScenePart;
use crate::told::{push_note, push_unread};
use crate::words::is_grouped;
use classic_lenient::Unread;
use classic_part::Note;
use itoa::Buffer;
use scene_faults::Blame;
use std::alloc::{AllocError, Global};

fn push_notes(
    notes: &[Note],
    lines: &[u32],
    blames: &[Blame],
    out: &mut Vec<u8>,
) -> Result<(), AllocError>
    ensures { OnOk result (out.new.items
        ≡ out.old.items ++ flat_map (note_line lines.now blames.now) notes.now) }
{
    for note in notes {
        push_note(note, lines, blames, out)?;
    }
    Ok(())
}

fn push_unreads(
    source: &[u8],
    lines: &[u32],
    unread: &[Unread],
    out: &mut Vec<u8>,
) -> Result<(), AllocError>
    ensures { OnOk result (out.new.items
        ≡ out.old.items ++ flat_map (unread_line source.now lines.now) unread.now) }
{
    for one in unread {
        push_unread(source, lines, one, out)?;
    }
    Ok(())
}

fn is_group(note: &Note) -> bool
    ensures { result ≡ spec.is_group note.now }
{
    is_grouped(note.kind)
}

/// Returns how many nodes became groups.
fn groups(notes: &[Note]) -> usize
    ensures value { result ≡ count_by spec.is_group notes.now }
    ensures within { result ≤ length notes.now }
{
    notes.iter().filter(|note| is_group(note)).count()
}

/// Appends the last line.
#[tactic(auto, unfolding(crate::specs::Listing::counts))]
fn push_counts(left: usize, groups: usize, out: &mut Vec<u8>) -> Result<(), AllocError>
    ensures { OnOk result (out.new.items ≡ out.old.items ++ spec.counts left groups) }
{
    let mut digits = Buffer::new();
    out.extend_from_slice(digits.format(left).as_bytes())?;
    out.extend_from_slice(b" left out, ")?;
    out.extend_from_slice(digits.format(groups).as_bytes())?;
    out.extend_from_slice(b" read as groups\n")?;
    Ok(())
}

fn push_last(unread: &[Unread], notes: &[Note], out: &mut Vec<u8>) -> Result<(), AllocError>
    ensures { OnOk result (out.new.items ≡ out.old.items ++ spec.last unread.now notes.now) }
{
    let groups = groups(notes);
    let left = unread.len().saturating_add(notes.len() - groups);
    push_counts(left, groups, out)
}

/// Appends a line for each thing that was left out, and the line of counts.
fn push_told(part: &ScenePart, out: &mut Vec<u8>) -> Result<(), AllocError>
    ensures { OnOk result (out.new.items ≡ out.old.items ++ spec.told_text part.now) }
{
    let lines = part.lines.as_slice();
    push_unreads(part.source.as_slice(), lines, part.unread.as_slice(), out)?;
    push_notes(part.left.as_slice(), lines, part.blames.as_slice(), out)?;
    push_last(part.unread.as_slice(), part.left.as_slice(), out)
}

/// Returns a line for each thing that was left out, and a last line of counts. Fails if memory runs
/// out.
pub fn told_text(alloc: Global, part: &ScenePart) -> Result<Vec<u8>, AllocError>
    ensures { IfOk result (λ v. v.items ≡ spec.told_text part.now) }
{
    let mut out = Vec::new(alloc);
    push_told(part, &mut out)?;
    Ok(out)
}
