//! The prototypes in sight, by number.

ghost use Rattle.std.specs.Prelude.{◌≡◌, [], None, Some, IfOk, if◌then◌else◌, option_map};
ghost use Rattle.std.specs.Str.{bytes_eq};
ghost use Rattle.proto_meaning.specs.Sight.{is_kept, no_names, with_name};
ghost use Rattle.proto_resolver.specs.Held.{found, in_sight, names_of, seen, taken_names};
ghost use Rattle.proto_resolver.specs.Held.{no_entries, with_entry};

use std::alloc::{AllocFailed, Global};
use std::collections::{BTreeMap, BTreeSet};
use std::rc::Rc;
use x3d_lists::Text;

/// The names that the ISs of a body take.
#[derive(Drop)]
pub struct TakenNames<'a> {
    pub names: BTreeSet<&'a str>,
}

/// Which fields between braces keep what they are given. A node keeps all. An instance keeps those
/// that some IS in the body of its prototype takes.
#[derive(Drop)]
pub struct Taker<'a> {
    /// The names that are taken, for an instance; None for a node.
    pub taken: Option<Rc<TakenNames<'a>>>,
}

/// A prototype that was declared, by its number.
#[derive(Drop)]
pub struct KnownProto<'a> {
    pub number: usize,
    pub takes: Rc<TakenNames<'a>>,
}

/// The prototypes declared in one scope, by name.
#[derive(Drop)]
pub struct Table<'a> {
    pub prototypes: BTreeMap<&'a str, KnownProto<'a>>,
}

/// The prototypes in sight at some place of a text.
#[derive(Drop)]
pub struct Scopes<'a> {
    /// The prototypes of the scope that is open.
    pub here: Table<'a>,
    /// The prototypes of the scopes around it, the nearest last.
    pub outside: Vec<Table<'a>>,
    /// The names that the ISs of the open body have taken so far.
    pub takes: TakenNames<'a>,
}

impl<'a> TakenNames<'a> {
    /// Returns an empty set.
    pub fn new(alloc: Global) -> TakenNames<'a>
        ensures { names_of result ≡ no_names }
    {
        TakenNames {
            names: BTreeSet::new(alloc),
        }
    }

    /// Reports whether the set has that name.
    #[tactic(auto, unfolding(crate::specs::Held::names_of))]
    pub fn has(&self, name: &Text) -> bool
        ensures { result ≡ names_of self.now name.now }
    {
        self.names.contains(name.as_str())
    }

    /// Adds a name. AllocFailed if memory runs out.
    pub fn take(&mut self, name: &'a Text) -> Result<(), AllocFailed<&'a str>>
        ensures { IfOk result (λ _. names_of self.new ≡ with_name name.now (names_of self.old)) }
    {
        self.names.insert(name.as_str())?;
        Ok(())
    }
}

impl<'a> Taker<'a> {
    /// Reports whether the field of that name keeps what it is given.
    pub fn keeps(&self, name: &Text) -> bool
        ensures { result ≡ is_kept (taken_names self.now) name.now }
    {
        match &self.taken {
            None => true,
            Some(taken) => taken.has(name),
        }
    }
}

impl<'a> Table<'a> {
    /// Returns an empty table.
    pub fn new(alloc: Global) -> Table<'a>
        ensures { found result ≡ no_entries }
    {
        Table {
            prototypes: BTreeMap::new(alloc),
        }
    }

    /// Returns the prototype of that name.
    #[tactic(auto, unfolding(crate::specs::Held::found))]
    pub fn get(&self, name: &Text) -> Option<&KnownProto<'a>>
        ensures { option_map (λ e. e.now) result ≡ found self.now name.now }
    {
        self.prototypes.get(name.as_str())
    }

    /// Adds a prototype under its name. AllocFailed if memory runs out.
    pub fn declare(
        &mut self,
        name: &'a Text,
        declared: KnownProto<'a>,
    ) -> Result<(), AllocFailed<(&'a str, KnownProto<'a>)>>
        ensures { IfOk result (λ _. found self.new
            ≡ with_entry name.now declared.entry (found self.old)) }
    {
        self.prototypes.insert(name.as_str(), declared)?;
        Ok(())
    }
}

/// Returns the prototype of that name in these scopes, the nearest last.
fn seen<'a, 'b>(scopes: &'b [Table<'a>], name: &Text) -> Option<&'b KnownProto<'a>>
    ensures { option_map (λ e. e.now) result ≡ seen scopes.now name.now }
{
    match scopes {
        [] => None,
        [outer, nearer @ ..] => match seen(nearer, name) {
            None => outer.get(name),
            Some(declared) => Some(declared),
        },
    }
}

impl<'a> Scopes<'a> {
    /// Returns the scopes at the start of a text.
    pub fn new(alloc: Global) -> Scopes<'a>
        ensures here { found result.here ≡ no_entries }
        ensures outside { result.outside.items ≡ [] }
        ensures takes { names_of result.takes ≡ no_names }
    {
        Scopes {
            here: Table::new(alloc),
            outside: Vec::new(alloc),
            takes: TakenNames::new(alloc),
        }
    }

    /// Returns the nearest prototype of that name that is in sight.
    pub fn get(&self, name: &Text) -> Option<&KnownProto<'a>>
        ensures { option_map (λ e. e.now) result ≡ in_sight self.now name.now }
    {
        match self.here.get(name) {
            None => seen(&self.outside, name),
            Some(declared) => Some(declared),
        }
    }
}
