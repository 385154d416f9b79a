//! A name scope, and each step that changes it.

ghost use Rattle.std.specs.Prelude.{◌≡◌, ◌++◌, ◌∷◌, [], true, None, Some, length, option_map, slice_get, IfOk};
ghost use Rattle.std.specs.List.{find};
ghost use Rattle.std.specs.Str.{bytes_eq};
ghost use Rattle.proto_meaning.specs.Names as meaning;
ghost use Rattle.proto_meaning.specs.Names.{Field, last_from, value_of};
ghost use Rattle.proto_parts.specs.Names.{opened};
ghost use Rattle.proto_parts.specs.Fields.{field_named};
ghost use Rattle.proto_parts.specs.Given as given;
ghost use Rattle.proto_parts.specs.Joined.{ends_in};
ghost use Rattle.proto_parts.specs.Joins.{stands_by};
ghost use Rattle.proto_parts.specs.Sides.{made_routes};
ghost use Rattle.proto_parts.specs.Scope as spec;
ghost use Rattle.proto_parts.specs.Scope.{Sound, shown};

use crate::fields::KnownField;
use crate::given::Given;
use crate::interface::Interface;
use crate::joined::JoinedEnds;
use crate::joins::{Braces, InstanceEnds, Join, Stands, joined_ends};
use crate::kept::Branches;
use crate::names::Names;
use crate::sides::{Pending, RoutePart, Side, routes_made};
use crate::wires::Wires;
use classic_tree::{RawValue, RouteEnd, RouteText};
use std::alloc::{AllocError, Global};
use std::rc::Rc;
use x3d_lists::Text;

/// A name scope so far: its braces in the order of the text, the names that DEFs give them, what
/// ISs join, ROUTEs, and what an IS finds.
#[derive(Drop)]
pub struct Scope<'t, 'a> {
    pub braces: Vec<Braces<'t, 'a>>,
    pub names: Names<'a>,
    pub joins: Vec<Join<'a>>,
    pub routes: Vec<RoutePart<'a>>,
    /// The interface of the prototype whose body this is, once the default values are added.
    pub interface: Option<&'t Interface<'a>>,
    /// What the instance is given.
    pub given: Given<'a>,
    /// The default values of the fields that the instance gives no value.
    pub defaults: Given<'a>,
}

fn is_same(one: &Option<Text>, other: &Option<Text>) -> bool
    ensures { result ≡ true → one.now ≡ other.now }
{
    match one {
        None => other.is_none(),
        Some(one) => match other {
            None => false,
            Some(other) => one.as_str() == other.as_str(),
        },
    }
}

impl<'t, 'a> Scope<'t, 'a> {
    /// Returns a scope that begins.
    pub fn new(alloc: Global) -> Scope<'t, 'a>
        ensures shown { shown result ≡ spec.nothing }
        ensures sound { Sound result }
    {
        Scope {
            braces: Vec::new(alloc),
            names: Names::new(alloc),
            joins: Vec::new(alloc),
            routes: Vec::new(alloc),
            interface: None,
            given: Given::new(alloc),
            defaults: Given::new(alloc),
        }
    }

    /// Opens braces, with the name that DEF gives them. Returns the number of braces of the scope
    /// that opened before. AllocError if memory runs out.
    pub fn open(&mut self, name: &'a Option<Text>) -> Result<usize, AllocError>
        requires { Sound self.old }
        ensures at { IfOk result (λ at. at ≡ length (shown self.old).braces) }
        ensures shown { IfOk result (λ _. shown self.new
            ≡ record (shown self.old) {
              braces = (shown self.old).braces ++ opened name.now ∷ [];
            }) }
        ensures sound { IfOk result (λ _. Sound self.new) }
    {
        let at = self.braces.len();
        self.names.open(name, at)?;
        self.braces.push(Braces { name, stands: None })?;
        Ok(at)
    }

    /// Reports whether the braces number `at` are open, and have that name.
    fn is_open(&self, name: &Option<Text>, at: usize) -> bool
        ensures { result ≡ true → slice_get (shown self.now).braces at ≡ Some (opened name.now) }
    {
        let Some(braces) = self.braces.get(at) else {
            return false;
        };
        if braces.stands.is_some() {
            return false;
        }
        is_same(braces.name, name)
    }

    fn set(
        &mut self,
        name: &'a Option<Text>,
        at: usize,
        node: u32,
        instance: Option<Rc<InstanceEnds<'t, 'a>>>,
    )
        ensures shown { shown self.new
            ≡ spec.closed_at at name.now (stands_by node instance.entry) (shown self.old) }
        ensures names { self.new.names ≡ self.old.names }
        ensures given { self.new.given ≡ self.old.given }
        ensures defaults { self.new.defaults ≡ self.old.defaults }
    {
        if at < self.braces.len() {
            self.braces[at] = Braces {
                name,
                stands: Some(Stands { node, instance }),
            };
        } else {
            drop(instance);
        }
    }

    /// Closes the braces number `at`, which opened with that name: they stand for the node of that
    /// number, and for the instance if there is one. AllocError if these braces aren't open, or if
    /// memory runs out.
    pub fn close(
        &mut self,
        name: &'a Option<Text>,
        at: usize,
        node: u32,
        instance: Option<Rc<InstanceEnds<'t, 'a>>>,
    ) -> Result<(), AllocError>
        requires { Sound self.old }
        ensures shown { IfOk result (λ _. shown self.new
            ≡ spec.closed_at at name.now (stands_by node instance.entry) (shown self.old)) }
        ensures sound { IfOk result (λ _. Sound self.new) }
    {
        if !self.is_open(name, at) {
            return Err(AllocError);
        }
        self.names.close(name, at, node)?;
        self.set(name, at, node, instance);
        Ok(())
    }

    /// Returns the node that USE takes.
    pub fn used(&self, name: &Text) -> Option<u32>
        requires { Sound self.now }
        ensures { result ≡ meaning.used name.now (shown self.now).braces }
    {
        self.names.used(name)
    }

    /// Returns the end of a ROUTE; it names the last braces of that name.
    fn side(&self, place: &'a RouteEnd) -> Side<'a>
        requires { Sound self.now }
        ensures at { result.at ≡ last_from 0 place.now.node (shown self.now).braces }
        ensures field { result.field.now ≡ place.now.field }
    {
        Side {
            at: self.names.named(&place.node),
            field: &place.field,
        }
    }

    /// Adds a ROUTE after the others. AllocError if memory runs out.
    pub fn note_route(&mut self, route: &'a RouteText) -> Result<(), AllocError>
        requires { Sound self.old }
        ensures shown { IfOk result (λ _.
            shown self.new ≡ spec.with_route route.now (shown self.old)) }
        ensures sound { IfOk result (λ _. Sound self.new) }
    {
        let source = self.side(&route.source);
        let target = self.side(&route.target);
        self.routes.push(RoutePart::Pending(Pending {
            line: route.line,
            source,
            target,
        }))?;
        Ok(())
    }

    /// Adds the ROUTEs of the body of an instance after the others. AllocError if memory runs out.
    pub fn add_routes(&mut self, made: Option<Rc<Wires<'a>>>) -> Result<(), AllocError>
        requires { Sound self.old }
        ensures shown { IfOk result (λ _. shown self.new
            ≡ spec.with_routes (made_routes made.entry) (shown self.old)) }
        ensures sound { IfOk result (λ _. Sound self.new) }
    {
        let Some(made) = made else {
            return Ok(());
        };
        self.routes.push(RoutePart::Made(made))?;
        Ok(())
    }

    /// Records that an IS joins a field of the braces number `at` to a field of the interface.
    /// AllocError if memory runs out.
    pub fn join(&mut self, outer: &'a Text, at: usize, field: &'a Text) -> Result<(), AllocError>
        requires { Sound self.old }
        ensures shown { IfOk result (λ _. shown self.new
            ≡ spec.with_join outer.now at field.now (shown self.old)) }
        ensures sound { IfOk result (λ _. Sound self.new) }
    {
        self.joins.push(Join { outer, at, field })?;
        Ok(())
    }

    /// Returns the field of the interface that an IS names.
    pub fn outer(&self, name: &Text) -> Option<KnownField>
        ensures { option_map (field_named name.now) result
            ≡ find (λ (f : Field). bytes_eq f.name name.now) (shown self.now).interface }
    {
        match self.interface {
            None => None,
            Some(interface) => interface.known(name.as_str()),
        }
    }

    /// Returns the value that an IS of that name hands on.
    pub fn value(&self, name: &Text) -> Option<&Rc<RawValue<u32>>>
        requires { Sound self.now }
        ensures { option_map (λ v. v.now.value) result ≡ value_of name.now (shown self.now).given }
    {
        match self.given.value(name) {
            Some(value) => Some(value),
            None => self.defaults.value(name),
        }
    }

    /// Begins the body, after the default values are added: an IS then finds the interface, and
    /// first what the instance is given, then the defaults.
    pub fn begin_body(
        &mut self,
        interface: &'t Interface<'a>,
        values: Given<'a>,
        defaults: Given<'a>,
    )
        requires holds { given.IsHeld values }
        requires defaults { given.IsHeld defaults }
        requires sound { Sound self.old }
        ensures shown { shown self.new ≡ record (shown self.old) {
          interface = interface.now;
          given = given.shown values.entry ++ given.shown defaults.entry;
        } }
        ensures sound { Sound self.new }
    {
        self.interface = Some(interface);
        self.given = values;
        self.defaults = defaults;
    }

    /// Returns the ends of the interface's fields; all braces of the scope are closed. AllocError
    /// if memory runs out.
    pub fn ends(&self, alloc: Global, kept: &mut Branches<'a>) -> Result<JoinedEnds<'a>, AllocError>
        ensures { IfOk result (λ joined. ends_in joined
            ≡ (shown self.now).ends (shown self.now).braces) }
    {
        joined_ends(alloc, kept, self.braces.as_slice(), self.joins.as_slice())
    }

    /// Returns the ROUTEs of the scope, whose braces are all closed, or None. AllocError if memory
    /// runs out.
    pub fn wires(
        &self,
        alloc: Global,
        kept: &mut Branches<'a>,
    ) -> Result<Option<Rc<Wires<'a>>>, AllocError>
        ensures { IfOk result (λ made. made_routes made
            ≡ (shown self.now).routes (shown self.now).braces) }
    {
        routes_made(alloc, kept, self.braces.as_slice(), self.routes.as_slice())
    }
}
