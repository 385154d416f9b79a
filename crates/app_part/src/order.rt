//! The notes on what was left out, in the order of their places.

ghost use Rattle.std.specs.Prelude.{◌≡◌, IfOk};
ghost use Rattle.app_part.specs.Order as spec;

use crate::part::ScenePart;
use classic_part::Note;
use std::alloc::AllocError;
use x3d_values::Items;

fn by_place(notes: Items<Note>) -> Result<Items<Note>, AllocError>
    ensures { IfOk result (spec.AreByPlace notes) }
{
    let mut notes = notes.into_vec();
    let Ok(()) = notes.sort_by_key(|note| note.line) else {
        drop(notes);
        return Err(AllocError);
    };
    Ok(Items::from_vec(notes))
}

/// Returns a part with its notes in the order of their places, which is that of the text. Fails if
/// memory runs out.
pub fn ordered(part: ScenePart) -> Result<ScenePart, AllocError>
    ensures { IfOk result (spec.IsOrdered part) }
{
    let ScenePart {
        text,
        source,
        lines,
        unread,
        left,
        blames,
    } = part;
    let Ok(left) = by_place(left) else {
        drop(text);
        drop(source);
        drop(lines);
        drop(unread);
        drop(blames);
        return Err(AllocError);
    };
    Ok(ScenePart {
        text,
        source,
        lines,
        unread,
        left,
        blames,
    })
}
