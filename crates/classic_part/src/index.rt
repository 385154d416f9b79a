//! What a round knows, with its names in order.

ghost use Rattle.std.specs.Prelude.{◌≡◌, ◌&&◌, ◌||◌, ◌++◌, ◌∷◌, [], List, ℕ, true, false, IfOk, IfSome, option_map, if◌then◌else◌};
ghost use Rattle.std.specs.List.{list_any};
ghost use Rattle.std.specs.Str.{bytes_eq};
ghost use Rattle.classic_part.specs.Index.{IsOf, holds};
ghost use Rattle.classic_part.specs.Notes as spec;
ghost use Rattle.classic_part.specs.declared.notes.Note.{Note as NoteOf};

use crate::knowing::Known;
use crate::lines::LineSet;
use crate::notes::Note;
use std::alloc::{AllocError, AllocFailed, Global};
use std::collections::BTreeSet;
use std::marker::Model;
use x3d_values::Text;

/// Names in order.
#[derive(Drop)]
pub struct NameSet<'k> {
    pub names: BTreeSet<&'k str>,
}

/// The names of nodes, and the names of prototypes.
#[derive(Drop)]
pub struct Tables<'k> {
    pub named: NameSet<'k>,
    pub declared: NameSet<'k>,
}

/// What a round knows, with the names of its notes and the lines of what was refused in order.
#[derive(Drop)]
pub struct Index<'k> {
    known: &'k Known,
    tables: Tables<'k>,
    lines: LineSet,
}

impl<'k> Model for Index<'k> {
    ghost use Rattle.std.specs.Prelude.{IfSome};
    ghost use Rattle.classic_part.specs.Index.{AreOf, IsOf};
    ghost use Rattle.classic_part.specs.declared.knowing.Known.{Known as KnownOf};

    ghost Value = { KnownOf };

    ghost view = { λ i. i.known.now };

    ghost invariant = { λ i. IfSome i.known.now.notes (IsOf i.tables)
        × AreOf i.lines i.known.now.refused };
}

impl<'k> NameSet<'k> {
    fn new(alloc: Global) -> NameSet<'k>
        ensures { (name : List ℕ) → holds result name ≡ false }
    {
        NameSet {
            names: BTreeSet::new(alloc),
        }
    }

    #[tactic(auto, unfolding(crate::specs::Index::holds))]
    fn has(&self, name: &str) -> bool
        ensures { result ≡ holds self.now name.now }
    {
        self.names.contains(name)
    }

    fn add(&mut self, name: &'k Text) -> Result<(), AllocFailed<&'k str>>
        ensures { IfOk result (λ _. (other : List ℕ)
            → holds self.new other
            ≡ (if bytes_eq name.now other then true else holds self.old other)) }
    {
        self.names.insert(name.as_str())?;
        Ok(())
    }

    /// Adds a name, if it is of the kind of these names.
    fn add_if(&mut self, is_of: bool, name: &'k Text) -> Result<(), AllocError>
        ensures { IfOk result (λ _. (other : List ℕ)
            → holds self.new other ≡ (is_of && bytes_eq name.now other || holds self.old other)) }
    {
        if is_of {
            self.add(name)?;
        }
        Ok(())
    }
}

impl<'k> Tables<'k> {
    fn new(alloc: Global) -> Tables<'k>
        ensures { IsOf result [] }
    {
        Tables {
            named: NameSet::new(alloc),
            declared: NameSet::new(alloc),
        }
    }

    /// Adds the name of a note.
    fn add(&mut self, note: &'k Note) -> Result<(), AllocError>
        ensures { (notes : List NoteOf) → IsOf self.old notes
            → IfOk result (λ _. IsOf self.new (notes ++ note.now ∷ [])) }
    {
        self.named.add_if(note.kind.is_named(), &note.name)?;
        self.declared.add_if(note.kind.is_declared(), &note.name)?;
        Ok(())
    }
}

/// Returns the names of notes.
fn tables_of<'k>(alloc: Global, notes: &'k [Note]) -> Result<Tables<'k>, AllocError>
    ensures { IfOk result (λ tables. IsOf tables notes.now) }
{
    let mut tables = Tables::new(alloc);
    for note in notes {
        tables.add(note)?;
    }
    Ok(tables)
}

/// Returns the names of the notes of the round before, if there was one.
fn known_tables<'k>(alloc: Global, known: &'k Known) -> Result<Tables<'k>, AllocError>
    ensures { IfOk result (λ tables. IfSome known.now.notes (IsOf tables)) }
{
    match &known.notes {
        None => Ok(Tables::new(alloc)),
        Some(notes) => tables_of(alloc, notes.as_slice()),
    }
}

impl<'k> Index<'k> {
    /// Returns the index of what a round knows. Fails if memory runs out.
    pub(crate) fn of(alloc: Global, known: &'k Known) -> Result<Index<'k>, AllocError>
        ensures { IfOk result (λ i. i ≡ known.now) }
    {
        let lines = LineSet::of(alloc, known.refused.as_slice())?;
        match known_tables(alloc, known) {
            Ok(tables) => Ok(Index {
                known,
                tables,
                lines,
            }),
            Err(refused) => {
                drop(lines);
                Err(refused)
            }
        }
    }

    /// Reports whether a node of that name is there. In the first round any name is taken for one.
    pub(crate) fn knows_name(&self, name: &str) -> bool
        ensures { result ≡ spec.knows_name self.now name.now }
    {
        match &self.known.notes {
            None => true,
            Some(_notes) => self.tables.named.has(name),
        }
    }

    /// Reports whether a prototype of that name is there, after the first round.
    pub(crate) fn declares(&self, name: &str) -> Option<bool>
        ensures { result ≡ option_map (list_any (spec.declares name.now)) self.now.notes }
    {
        match &self.known.notes {
            None => None,
            Some(_notes) => Some(self.tables.declared.has(name)),
        }
    }

    /// Reports whether what begins on that line is to be left out.
    pub(crate) fn refuses(&self, line: u32) -> bool
        ensures { result ≡ spec.refuses self.now line }
    {
        self.lines.has(line)
    }
}
