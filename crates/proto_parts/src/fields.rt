//! Fields in a table by name.

ghost use Rattle.std.specs.Prelude.{◌≡◌, ℕ, ◌+◌, ◌++◌, ◌∷◌, [], List, length, not, is_none, IfOk};
ghost use Rattle.proto_meaning.specs.Names.{Field};
ghost use Rattle.proto_meaning.specs.Flat.{field};
ghost use Rattle.proto_parts.specs.Fields.{IsExposed, AreFieldsNamed};
ghost use Rattle.proto_parts.specs.Fields.{added, fields_of, has_name, known, no_fields, with_entry};

use classic_tree::{Declaration, NodeText};
use std::alloc::{AllocError, AllocFailed, Global};
use std::collections::BTreeMap;
use x3d_lists::Text;
use x3d_values::{Access, FieldType};

/// A field that a name means.
#[derive(Clone, Copy)]
pub struct KnownField {
    /// The line of its declaration, 0 for a field of a node type.
    pub line: u32,
    /// Its number among the fields of its node or interface.
    pub number: usize,
    pub access: Access,
    pub field_type: FieldType,
}

/// The first field of each name.
#[derive(Drop)]
pub struct Fields<'a> {
    pub table: BTreeMap<&'a str, KnownField>,
}

impl<'a> Fields<'a> {
    /// Returns an empty table.
    pub fn new(alloc: Global) -> Fields<'a>
        ensures { fields_of result ≡ no_fields }
    {
        Fields {
            table: BTreeMap::new(alloc),
        }
    }

    /// Returns the first field of that name.
    #[tactic(auto, unfolding(crate::specs::Fields::fields_of))]
    pub fn get(&self, name: &str) -> Option<KnownField>
        ensures { result ≡ fields_of self.now name.now }
    {
        self.table.get(name).copied()
    }

    /// Stores the field under the name, and returns the field that it replaces.
    #[tactic(auto, unfolding(crate::specs::Fields::fields_of))]
    fn insert(
        &mut self,
        name: &'a Text,
        field: KnownField,
    ) -> Result<Option<KnownField>, AllocFailed<(&'a str, KnownField)>>
        ensures before { IfOk result (λ before. before ≡ fields_of self.old name.now) }
        ensures fields { IfOk result (λ _. fields_of self.new
            ≡ with_entry name.now field (fields_of self.old)) }
    {
        let before = self.table.insert(name.as_str(), field)?;
        Ok(before)
    }

    /// Adds a field of that name after the others. Returns whether none of them has the name. Most
    /// names are new, so the first of a name is put back afterwards: a new name needs one look-up.
    fn add(&mut self, name: &'a Text, field: KnownField) -> Result<bool, AllocError>
        ensures fields { IfOk result (λ _. fields_of self.new
            ≡ added field name.now (fields_of self.old)) }
        ensures new { IfOk result (λ new. new ≡ is_none (fields_of self.old name.now)) }
    {
        let Some(first) = self.insert(name, field)? else {
            return Ok(true);
        };
        self.insert(name, first)?;
        Ok(false)
    }
}

fn known(declaration: &Declaration<NodeText>, number: usize) -> KnownField
    ensures { result ≡ known number declaration.now }
{
    KnownField {
        line: declaration.line,
        number,
        access: declaration.access,
        field_type: declaration.field_type,
    }
}

/// Adds a declaration, with its number, after the fields of the table. Returns whether none of them
/// has its name. AllocError if memory runs out.
pub fn add_named<'a>(
    named: &mut Fields<'a>,
    declaration: &'a Declaration<NodeText>,
    number: usize,
) -> Result<bool, AllocError>
    ensures named { (first : ℕ) (fs : List Field) → number ≡ first + length fs
        → AreFieldsNamed named.old first fs → IfOk result (λ _.
        AreFieldsNamed named.new first (fs ++ field declaration.now ∷ [])) }
    ensures new { (first : ℕ) (fs : List Field) → AreFieldsNamed named.old first fs
        → IfOk result (λ new. new ≡ not (has_name declaration.now.name fs)) }
{
    let new = named.add(&declaration.name, known(declaration, number))?;
    Ok(new)
}

/// Adds an inputOutput field after the others, with number 0, since no number is read from such a
/// table; ignores other fields. AllocError if memory runs out.
pub fn add_exposed<'a>(
    exposed: &mut Fields<'a>,
    declaration: &'a Declaration<NodeText>,
) -> Result<(), AllocError>
    ensures { (fs : List Field) → IsExposed exposed.old fs → IfOk result (λ _.
        IsExposed exposed.new (fs ++ field declaration.now ∷ [])) }
{
    if !declaration.access.is_exposed() {
        return Ok(());
    }
    exposed.add(&declaration.name, known(declaration, 0))?;
    Ok(())
}
