//! Notes: what one round says of the tree.

ghost use Rattle.std.specs.Prelude.{◌≡◌, ◌++◌, ◌∷◌, [], OnOk};
ghost use Rattle.classic_part.specs.Notes as spec;

use std::alloc::{AllocError, Global};
use x3d_values::{Duplicate, Items, Text};

/// What a note says. `Named` and `Declared` are of what stays, the others of what was left out.
#[derive(Clone, Copy)]
pub enum NoteKind {
    /// A node of this name stays.
    Named,
    /// A prototype of this name stays.
    Declared,
    /// A grouping node outside the table became a node of the table with its children.
    Grouped,
    /// A node whose type is neither in the table nor a prototype.
    Node,
    /// A field that its node's type doesn't have.
    Field,
    /// A rotation that turns.
    Turned,
    /// A USE of a name that no node has.
    Use,
    /// A ROUTE with an end that no node has.
    Route,
    /// A PROTO without a node in its body.
    Proto,
    /// What is on a line that was refused.
    Refused,
}

/// A note, the line that it is of, a name, and for a node in a field the field's name.
#[derive(Drop)]
pub struct Note {
    pub kind: NoteKind,
    pub line: u32,
    pub name: Text,
    pub field: Text,
}

impl Duplicate for Note {
    fn duplicate(&self, alloc: Global) -> Result<Note, AllocError> {
        let name = self.name.duplicate(alloc)?;
        let field = self.field.duplicate(alloc)?;
        Ok(Note {
            kind: self.kind,
            line: self.line,
            name,
            field,
        })
    }
}

impl NoteKind {
    /// Reports whether the note is of something that was left out or changed.
    pub fn is_left_out(self) -> bool
        ensures { result ≡ spec.is_left_out self }
    {
        !matches!(self, NoteKind::Named | NoteKind::Declared)
    }

    /// Reports whether the note names a node that stays.
    pub(crate) fn is_named(self) -> bool
        ensures { result ≡ spec.is_named self }
    {
        matches!(self, NoteKind::Named)
    }

    /// Reports whether the note names a prototype that stays.
    pub(crate) fn is_declared(self) -> bool
        ensures { result ≡ spec.is_declared self }
    {
        matches!(self, NoteKind::Declared)
    }
}

/// Appends a note. Fails, with the list unchanged, if memory runs out.
pub(crate) fn push_note(
    alloc: Global,
    kind: NoteKind,
    line: u32,
    name: &str,
    field: &str,
    notes: &mut Items<Note>,
) -> Result<(), AllocError>
    ensures { OnOk result
        (notes.new ≡ notes.old ++ spec.note kind line name.now field.now ∷ []) }
{
    let name = Text::from_str(alloc, name)?;
    let Ok(field) = Text::from_str(alloc, field) else {
        drop(name);
        return Err(AllocError);
    };
    notes.push(Note {
        kind,
        line,
        name,
        field,
    })
}
