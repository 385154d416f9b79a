//! Rounds of leaving out, until nothing more goes.

ghost use Rattle.std.specs.Prelude.{◌≡◌, ◌++◌, IfOk, OnOk};
ghost use Rattle.std.specs.List.{flat_map, list_any};
ghost use Rattle.classic_part.specs.Part.{kept_in, notes_in, statement_part};
ghost use Rattle.classic_part.specs.Rounds as spec;

use crate::index::Index;
use crate::knowing::Known;
use crate::lists::statements_part;
use crate::notes::Note;
use classic_tree::{Document, Statement};
use std::alloc::{AllocError, Global};
use std::mem;
use x3d_values::{Duplicate, Items};

/// What stays of a document in one round, and the notes on it.
#[derive(Drop)]
pub struct Round {
    pub document: Document,
    pub notes: Items<Note>,
}

fn goes(note: &Note) -> bool
    ensures { result ≡ spec.goes note.now }
{
    note.kind.is_left_out()
}

/// Reports whether a note is of something that was left out or changed.
pub fn any_goes(notes: &[Note]) -> bool
    ensures { result ≡ list_any spec.goes notes.now }
{
    notes.iter().any(|note| goes(note))
}

/// Returns what stays of statements in one round.
fn known_part(
    alloc: Global,
    statements: &[Statement],
    known: &Known,
    notes: &mut Items<Note>,
) -> Result<Items<Statement>, AllocError>
    ensures made { IfOk result (λ r. r ≡ kept_in (statement_part known.now) statements.now) }
    ensures told { OnOk result
        (notes.new ≡ notes.old ++ notes_in (statement_part known.now) statements.now) }
{
    let index = Index::of(alloc, known)?;
    statements_part(alloc, statements, &index, notes)
}

/// Returns what stays of a document in one round. Fails if memory runs out.
pub fn one_round(alloc: Global, document: &Document, known: &Known) -> Result<Round, AllocError>
    ensures { IfOk result (λ r. r ≡ spec.one_round known.now document.now) }
{
    let profile = document.profile.duplicate(alloc)?;
    let components = document.components.duplicate(alloc)?;
    let metas = document.metas.duplicate(alloc)?;
    let mut notes = Items::new(alloc);
    let statements = known_part(alloc, document.statements.as_slice(), known, &mut notes)?;
    Ok(Round {
        document: Document {
            version: document.version,
            profile,
            components,
            metas,
            statements,
        },
        notes,
    })
}

/// Returns what stays in the first round, which takes each name for one that is there. Fails if
/// memory runs out.
pub fn first_round(alloc: Global, document: &Document, refused: &[u32]) -> Result<Round, AllocError>
    ensures { IfOk result (λ r. r ≡ spec.first refused.now document.now) }
{
    let known = Known {
        notes: None,
        refused: Items::from_slice(alloc, refused)?,
    };
    one_round(alloc, document, &known)
}

/// Returns what stays in a further round, which knows the names that stayed in the round before.
/// Fails if memory runs out.
pub fn next_round(alloc: Global, before: &Round, refused: &[u32]) -> Result<Round, AllocError>
    ensures { IfOk result (λ r. r ≡ spec.next refused.now before.now) }
{
    let known = Known {
        notes: Some(before.notes.duplicate(alloc)?),
        refused: Items::from_slice(alloc, refused)?,
    };
    one_round(alloc, &before.document, &known)
}

fn collect_one(alloc: Global, note: &Note, left: &mut Items<Note>) -> Result<(), AllocError>
    ensures { OnOk result (left.new ≡ left.old ++ spec.left_one note.now) }
{
    if !goes(note) {
        return Ok(());
    }
    left.push(note.duplicate(alloc)?)
}

/// Appends the notes on what was left out or changed.
fn collect(alloc: Global, notes: &[Note], left: &mut Items<Note>) -> Result<(), AllocError>
    ensures { OnOk result (left.new ≡ left.old ++ flat_map spec.left_one notes.now) }
{
    for note in notes {
        collect_one(alloc, note, left)?;
    }
    Ok(())
}

/// Returns the round after which nothing more goes, and appends the notes on what went in each
/// round. Fails if memory runs out.
pub fn part_of(
    alloc: Global,
    document: &Document,
    refused: &[u32],
    left: &mut Items<Note>,
) -> Result<Round, AllocError>
    ensures { IfOk result
        (λ made. spec.IsSettled refused.now document.now made left.old left.new) }
{
    let mut made = first_round(alloc, document, refused)?;
    collect(alloc, made.notes.as_slice(), left)?;
    let mut after = next_round(alloc, &made, refused)?;
    while any_goes(after.notes.as_slice()) {
        collect(alloc, after.notes.as_slice(), left)?;
        let further = next_round(alloc, &after, refused)?;
        let before = mem::replace(&mut after, further);
        drop(mem::replace(&mut made, before));
    }
    drop(after);
    Ok(made)
}
