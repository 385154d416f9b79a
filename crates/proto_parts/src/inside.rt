//! The fields between braces, by name and in the order of the text.

ghost use Rattle.std.specs.Prelude.{◌≡◌, ◌+◌, ◌++◌, ◌∷◌, [], false, length, option_map, IfOk};
ghost use Rattle.proto_meaning.specs.Flat as meaning;
ghost use Rattle.proto_meaning.specs.Flat.{field, numbered_from};
ghost use Rattle.proto_parts.specs.Given as given;
ghost use Rattle.proto_parts.specs.Fields.{known, numbered};
ghost use Rattle.proto_parts.specs.Inside.{Sound, fields_in, filled_in, fields_of_owner};

use crate::fields::{Fields, KnownField, add_named};
use crate::given::{Given, GivenField};
use crate::interface::Interface;
use classic_tree::{Declaration, NodeText};
use std::alloc::{AllocError, Global};
use x3d_lists::Text;
use x3d_values::{NodeType, field_of, fields_of};

/// Whose braces they are: of a node of a type, or of an instance with an interface.
#[derive(Clone, Copy)]
pub enum Owner<'t, 'a> {
    Node(NodeType),
    Instance(&'t Interface<'a>),
}

/// The state between braces.
#[derive(Drop)]
pub struct Inside<'t, 'a> {
    pub owner: Owner<'t, 'a>,
    /// The fields that a Script declared so far, after those of its type.
    pub declared: Vec<&'a Declaration<NodeText>>,
    pub named: Fields<'a>,
    pub given: Given<'a>,
}

/// Returns the field of that name of a node type.
fn type_field(node_type: NodeType, name: &Text) -> Option<KnownField>
    ensures { option_map (numbered name.now) result
        ≡ numbered_from 0 name.now (meaning.fields_of node_type) }
{
    let Some(row) = field_of(node_type, name.as_str()) else {
        return None;
    };
    Some(KnownField {
        line: 0,
        number: row.number as usize,
        access: row.access,
        field_type: row.field_type,
    })
}

/// Returns the field of that name of an owner.
fn owner_field(owner: Owner<'_, '_>, name: &Text) -> Option<KnownField>
    ensures { option_map (numbered name.now) result
        ≡ numbered_from 0 name.now (fields_of_owner owner.entry) }
{
    match owner {
        Owner::Node(node_type) => type_field(node_type, name),
        Owner::Instance(interface) => interface.field(name.as_str()),
    }
}

/// Returns the number of fields of an owner.
fn owner_count(owner: Owner<'_, '_>) -> usize
    ensures { result ≡ length (fields_of_owner owner.entry) }
{
    match owner {
        Owner::Node(node_type) => fields_of(node_type).len(),
        Owner::Instance(interface) => interface.len(),
    }
}

impl<'t, 'a> Inside<'t, 'a> {
    /// Returns the state of braces that just opened: nothing is given.
    pub fn new(alloc: Global, owner: Owner<'t, 'a>) -> Inside<'t, 'a>
        ensures fields { fields_in result ≡ fields_of_owner owner.entry }
        ensures filled { filled_in result ≡ [] }
        ensures owner { result.owner ≡ owner.entry }
        ensures sound { Sound result }
    {
        Inside {
            owner,
            declared: Vec::new(alloc),
            named: Fields::new(alloc),
            given: Given::new(alloc),
        }
    }

    /// Returns the first field of that name, with its number.
    pub fn field(&self, name: &Text) -> Option<KnownField>
        requires { Sound self.now }
        ensures { option_map (numbered name.now) result
            ≡ numbered_from 0 name.now (fields_in self.now) }
    {
        match owner_field(self.owner, name) {
            Some(field) => Some(field),
            None => self.named.get(name.as_str()),
        }
    }

    /// Reports whether the field of that name was given something.
    pub fn has(&self, name: &Text) -> bool
        requires { Sound self.now }
        ensures { result ≡ given.has_name name.now (filled_in self.now) }
    {
        self.given.has(name)
    }

    /// Adds a field that a Script declares, after the fields that it has, and returns it with its
    /// number. AllocError if memory runs out, or if the number doesn't fit.
    pub fn declare(
        &mut self,
        declaration: &'a Declaration<NodeText>,
    ) -> Result<KnownField, AllocError>
        requires { Sound self.old }
        ensures fields { IfOk result (λ _.
            fields_in self.new ≡ fields_in self.old ++ field declaration.now ∷ []) }
        ensures known { IfOk result (λ k. k ≡ known (length (fields_in self.old)) declaration.now) }
        ensures filled { filled_in self.new ≡ filled_in self.old }
        ensures owner { self.new.owner ≡ self.old.owner }
        ensures sound { IfOk result (λ _. Sound self.new) }
    {
        let Some(number) = owner_count(self.owner).checked_add(self.declared.len()) else {
            return Err(AllocError);
        };
        add_named(&mut self.named, declaration, number)?;
        self.declared.push(declaration)?;
        Ok(KnownField {
            line: declaration.line,
            number,
            access: declaration.access,
            field_type: declaration.field_type,
        })
    }

    /// Records what the field of that name is given, which was given nothing before. AllocError if
    /// memory runs out.
    pub fn fill(&mut self, name: &'a Text, field: GivenField) -> Result<(), AllocError>
        requires sound { Sound self.old }
        requires free { given.has_name name.now (filled_in self.old) ≡ false }
        ensures filled { IfOk result (λ _.
            filled_in self.new ≡ filled_in self.old ++ given.filled_of name.now field ∷ []) }
        ensures fields { fields_in self.new ≡ fields_in self.old }
        ensures owner { self.new.owner ≡ self.old.owner }
        ensures sound { IfOk result (λ _. Sound self.new) }
    {
        self.given.fill(name, field)
    }
}
