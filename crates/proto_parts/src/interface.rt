//! The interface of a prototype.

ghost use Rattle.std.specs.Prelude.{◌≡◌, ◌++◌, ◌∷◌, [], List, Some, None, length, map, IfOk, option_map, if◌then◌else◌};
ghost use Rattle.std.specs.Option.{option_or};
ghost use Rattle.proto_meaning.specs.Names.{Field, exposed_field, own_field};
ghost use Rattle.proto_meaning.specs.Flat.{field, numbered_from};
ghost use Rattle.proto_meaning.specs.Sight.{no_names};
ghost use Rattle.proto_parts.specs.Fields.{HasFields, field_named, numbered, twice_after};

use crate::fields::{Fields, KnownField, add_exposed, add_named};
use classic_tree::{Declaration, NodeText};
use std::alloc::{AllocError, Global};
use std::marker::Model;

/// What is known of an interface by its fields' names.
#[derive(Drop)]
pub struct Tables<'a> {
    pub named: Fields<'a>,
    pub exposed: Fields<'a>,
    /// The line of the first field whose name occurs earlier.
    pub twice: Option<u32>,
}

/// The fields of an interface, without their values.
#[derive(Drop)]
pub struct Interface<'a> {
    declarations: &'a [Declaration<NodeText>],
    tables: Tables<'a>,
}

impl<'a> Model for Interface<'a> {
    ghost use Rattle.std.specs.Prelude.{List, map};
    ghost use Rattle.proto_meaning.specs.Names.{Field};
    ghost use Rattle.proto_meaning.specs.Flat.{field};
    ghost use Rattle.proto_parts.specs.Fields.{HasFields};

    ghost Value = { List Field };

    ghost view = { λ s. map field s.declarations.now };

    ghost invariant = { λ s. HasFields s.tables (map field s.declarations.now) };
}

/// Returns the line that was found before, or else the line of a name that isn't new.
fn first_line(before: Option<u32>, new: bool, line: u32) -> Option<u32>
    ensures { result ≡ option_or before (if new then None else Some line) }
{
    if before.is_some() {
        return before;
    }
    if new {
        return None;
    }
    Some(line)
}

impl<'a> Tables<'a> {
    fn new(alloc: Global) -> Tables<'a>
        ensures { HasFields result [] }
    {
        Tables {
            named: Fields::new(alloc),
            exposed: Fields::new(alloc),
            twice: None,
        }
    }

    fn add(
        &mut self,
        declaration: &'a Declaration<NodeText>,
        number: usize,
    ) -> Result<(), AllocError>
        ensures { (fs : List Field) → number ≡ length fs → HasFields self.old fs
            → IfOk result (λ _. HasFields self.new (fs ++ field declaration.now ∷ [])) }
    {
        let new = add_named(&mut self.named, declaration, number)?;
        add_exposed(&mut self.exposed, declaration)?;
        self.twice = first_line(self.twice, new, declaration.line);
        Ok(())
    }
}

fn read<'a>(
    alloc: Global,
    declarations: &'a [Declaration<NodeText>],
) -> Result<Tables<'a>, AllocError>
    ensures { IfOk result (λ tables. HasFields tables (map field declarations.now)) }
{
    let mut tables = Tables::new(alloc);
    let mut number: usize = 0;
    for declaration in declarations {
        tables.add(declaration, number)?;
        number += 1;
    }
    Ok(tables)
}

impl<'a> Interface<'a> {
    /// Returns the interface of these declarations. AllocError if memory runs out.
    pub fn read(
        alloc: Global,
        declarations: &'a [Declaration<NodeText>],
    ) -> Result<Interface<'a>, AllocError>
        ensures { IfOk result (λ i. i ≡ map field declarations.now) }
    {
        let tables = read(alloc, declarations)?;
        Ok(Interface {
            declarations,
            tables,
        })
    }

    /// Returns the number of fields.
    pub fn len(&self) -> usize
        ensures { result ≡ length self.now }
    {
        self.declarations.len()
    }

    /// Returns the first field of that name; its number counts.
    pub fn field(&self, name: &str) -> Option<KnownField>
        ensures { option_map (numbered name.now) result ≡ numbered_from 0 name.now self.now }
    {
        self.tables.named.get(name)
    }

    /// Returns the first field of that name; its number doesn't count.
    pub fn known(&self, name: &str) -> Option<KnownField>
        ensures { option_map (field_named name.now) result ≡ own_field self.now name.now }
    {
        self.field(name)
    }

    /// Returns the first inputOutput field of that name.
    pub fn exposed(&self, name: &str) -> Option<KnownField>
        ensures { option_map (field_named name.now) result ≡ exposed_field self.now name.now }
    {
        self.tables.exposed.get(name)
    }

    /// Returns the line of the first field whose name occurs earlier, or None.
    pub fn twice(&self) -> Option<u32>
        ensures { result ≡ twice_after no_names self.now }
    {
        self.tables.twice
    }
}
