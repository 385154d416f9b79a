//! What fields are given, by name and in the order of the text.

ghost use Rattle.std.specs.Prelude.{◌≡◌, ◌++◌, ◌∷◌, [], List, false, option_map, IfOk};
ghost use Rattle.proto_meaning.specs.Names.{Filled, value_of};
ghost use Rattle.proto_parts.specs.Given.{Holds, entry_of, filled_of, has_name, held, shown, with_entry};

use classic_tree::RawValue;
use std::alloc::{AllocError, AllocFailed, Global};
use std::collections::BTreeMap;
use std::rc::Rc;
use x3d_lists::Text;

/// What a field is given: the line of its name, its number among the fields there, and its value.
/// The value is stored once, however many fields ISs hand it on to. There is no value if an IS
/// hands on nothing, if no IS takes the field, or if a Script's declaration has none.
#[derive(Drop)]
pub struct GivenField {
    pub line: u32,
    pub number: usize,
    pub value: Option<Rc<RawValue<u32>>>,
}

/// What fields are given, no field twice.
#[derive(Drop)]
pub struct Given<'a> {
    /// In the order of the text.
    pub fields: Vec<(&'a str, GivenField)>,
    /// The value of each, if it has one, by its name.
    pub values: BTreeMap<&'a str, Option<Rc<RawValue<u32>>>>,
}

/// Returns another reference to the same value.
fn shared(value: &Option<Rc<RawValue<u32>>>) -> Result<Option<Rc<RawValue<u32>>>, AllocError>
    ensures { IfOk result (λ made. option_map (λ v. v.value) made
        ≡ option_map (λ v. v.value) value.now) }
{
    match value {
        None => Ok(None),
        Some(value) => Ok(Some(value.clone()?)),
    }
}

impl<'a> Given<'a> {
    /// Returns an empty table.
    #[tactic(auto, unfolding(crate::specs::Given::entry_of))]
    pub fn new(alloc: Global) -> Given<'a>
        ensures { Holds result [] }
    {
        Given {
            fields: Vec::new(alloc),
            values: BTreeMap::new(alloc),
        }
    }

    #[tactic(auto, unfolding(crate::specs::Given::entry_of))]
    fn entry(&self, name: &Text) -> Option<&Option<Rc<RawValue<u32>>>>
        ensures { option_map (λ v. held v.now) result ≡ entry_of self.now name.now }
    {
        self.values.get(name.as_str())
    }

    /// Reports whether the field of that name was given something.
    pub fn has(&self, name: &Text) -> bool
        ensures { (filled : List Filled) → Holds self.now filled
            → result ≡ has_name name.now filled }
    {
        self.entry(name).is_some()
    }

    /// Returns the value that the field of that name was given, if there is one.
    pub fn value(&self, name: &Text) -> Option<&Rc<RawValue<u32>>>
        ensures { (filled : List Filled) → Holds self.now filled
            → option_map (λ v. v.now.value) result ≡ value_of name.now filled }
    {
        match self.entry(name) {
            None => None,
            Some(None) => None,
            Some(Some(value)) => Some(value),
        }
    }

    #[tactic(auto, unfolding(crate::specs::Given::entry_of))]
    fn know(
        &mut self,
        name: &'a Text,
        value: Option<Rc<RawValue<u32>>>,
    ) -> Result<(), AllocFailed<(&'a str, Option<Rc<RawValue<u32>>>)>>
        ensures values { IfOk result (λ _. entry_of self.new
            ≡ with_entry name.now (held value) (entry_of self.old)) }
        ensures fields { self.new.fields ≡ self.old.fields }
    {
        self.values.insert(name.as_str(), value)?;
        Ok(())
    }

    #[tactic(auto, unfolding(crate::specs::Given::entry_of))]
    fn push(
        &mut self,
        name: &'a Text,
        field: GivenField,
    ) -> Result<(), AllocFailed<(&'a str, GivenField)>>
        ensures fields { IfOk result (λ _.
            shown self.new ≡ shown self.old ++ filled_of name.now field ∷ []) }
        ensures values { entry_of self.new ≡ entry_of self.old }
    {
        self.fields.push((name.as_str(), field))?;
        Ok(())
    }

    /// Records what the field of that name is given, which was given nothing before. AllocError if
    /// memory runs out.
    pub fn fill(&mut self, name: &'a Text, field: GivenField) -> Result<(), AllocError>
        ensures { (filled : List Filled) → Holds self.old filled
            → has_name name.now filled ≡ false → IfOk result (λ _.
            Holds self.new (filled ++ filled_of name.now field ∷ [])) }
    {
        let value = shared(&field.value)?;
        self.know(name, value)?;
        self.push(name, field)?;
        Ok(())
    }
}
