//! The state of the resolver: the scopes and the prototypes so far, and single steps on them.

ghost use Rattle.std.specs.Prelude.{◌≡◌, ◌∷◌, ◌++◌, [], List, IfOk, if◌then◌else◌};
ghost use Rattle.proto_meaning.specs.Sight.{Prototype, Sight, meant, taken_by};
ghost use Rattle.proto_meaning.specs.Texts as spec;
ghost use Rattle.proto_meaning.specs.trees.Meaning.{owner};
ghost use Rattle.proto_resolver.specs.declared.scopes.Table.{Table};
ghost use Rattle.proto_resolver.specs.Held.{names_of, taken_names};
ghost use Rattle.proto_resolver.specs.Standing.{Extends, Shows};
ghost use Rattle.proto_resolver.specs.Steps.{IsAside, IsBack, IsClosed, IsDeclared, IsScopeOpen};
ghost use Rattle.proto_resolver.specs.Steps.{IsTaking, defaults_taken};

use crate::scopes::{KnownProto, Scopes, Table, TakenNames, Taker};
use classic_tree::ProtoText;
use proto_flat::{ExpandFault, ExpandFaultKind};
use proto_meaning::{BodyTree, DefaultTree, ProtoTree, Word, find_inside, has_node};
use std::alloc::{AllocError, Global};
use std::mem;
use std::rc::Rc;
use x3d_lists::{Items, Text};
use x3d_values::NodeType;

/// The prototypes in sight, and all prototypes whose braces are closed.
#[derive(Drop)]
pub struct Resolver<'a> {
    pub scopes: Scopes<'a>,
    /// In the order of their closing braces.
    pub protos: Items<ProtoTree<'a>>,
}

/// What a word before braces means, and which fields between the braces keep what they are given.
#[derive(Drop)]
pub struct Meaning<'a> {
    pub word: Word,
    pub taker: Taker<'a>,
}

/// Returns what a word means: a node type, or else the nearest prototype of that name in sight, or
/// Unknown. AllocError if memory runs out.
pub fn meaning_of<'a>(scopes: &Scopes<'a>, word: &Text) -> Result<Meaning<'a>, AllocError>
    ensures { IfOk result (λ made. (ps : List Prototype) (s : Sight) → Shows ps scopes.now s
        → ((all : List Prototype) → Extends ps all → meant word.now s ≡ owner all made.word)
        × (taken_names made.taker ≡ taken_by (meant word.now s))) }
{
    if let Some(node_type) = NodeType::named(word.as_str()) {
        return Ok(Meaning {
            word: Word::Node(node_type),
            taker: Taker { taken: None },
        });
    }
    match scopes.get(word) {
        None => Ok(Meaning {
            word: Word::Unknown,
            taker: Taker { taken: None },
        }),
        Some(declared) => Ok(Meaning {
            word: Word::Instance(declared.number),
            taker: Taker {
                taken: Some(declared.takes.clone()?),
            },
        }),
    }
}

/// Reports whether a node type, or a prototype of the open scope, has that name.
fn is_known(scopes: &Scopes<'_>, name: &Text) -> bool
    ensures { (ps : List Prototype) (s : Sight) → Shows ps scopes.now s
        → result ≡ spec.is_known name.now s }
{
    NodeType::named(name.as_str()).is_some() || scopes.here.get(name).is_some()
}

/// Checks the declaration itself: ProtoTwice if its name is taken, ProtoItself if it contains an
/// instance of itself, EmptyBody if its body has no node; the first of these.
pub fn check_declaration(scopes: &Scopes<'_>, proto: &ProtoText) -> Result<(), ExpandFault>
    ensures { (ps : List Prototype) (s : Sight) → Shows ps scopes.now s
        → result ≡ spec.checked proto.now s }
{
    if is_known(scopes, &proto.name) {
        return Err(ExpandFaultKind::ProtoTwice.on_line(proto.line));
    }
    if let Err(line) = find_inside(&proto.name, proto, false) {
        return Err(ExpandFaultKind::ProtoItself.on_line(line));
    }
    if !has_node(proto.body.as_slice()) {
        return Err(ExpandFaultKind::EmptyBody.on_line(proto.line));
    }
    Ok(())
}

impl<'a> Resolver<'a> {
    /// Starts an empty set of taken names, and returns the set so far.
    pub fn set_aside(&mut self, alloc: Global) -> TakenNames<'a>
        ensures { IsAside self.old result self.new }
    {
        mem::replace(&mut self.scopes.takes, TakenNames::new(alloc))
    }

    /// Goes back to an earlier set of taken names.
    pub fn put_back(&mut self, before: TakenNames<'a>)
        ensures { IsBack self.old before.entry self.new }
    {
        drop(mem::replace(&mut self.scopes.takes, before));
    }

    /// Records that an IS takes the name. AllocError if memory runs out.
    pub fn take(&mut self, name: &'a Text) -> Result<(), AllocError>
        ensures { IfOk result (λ _. IsTaking name.now self.old self.new) }
    {
        self.scopes.takes.take(name)?;
        Ok(())
    }

    /// Opens a scope, and returns the names that the body around has taken so far. AllocError if
    /// memory runs out.
    pub fn open(&mut self, alloc: Global) -> Result<TakenNames<'a>, AllocError>
        ensures { IfOk result (λ before. IsScopeOpen self.old before self.new) }
    {
        let here = mem::replace(&mut self.scopes.here, Table::new(alloc));
        self.scopes.outside.push(here)?;
        Ok(mem::replace(&mut self.scopes.takes, TakenNames::new(alloc)))
    }

    /// Goes back to the scope around, with the names that its body has taken, and returns those
    /// that the closed body took.
    pub fn close(&mut self, before: TakenNames<'a>) -> TakenNames<'a>
        ensures { (outer : List Table) (around : Table)
            → self.old.scopes.outside.items ≡ outer ++ around ∷ []
            → IsClosed outer around before.entry result self.old self.new }
    {
        if let Some(around) = self.scopes.outside.pop() {
            drop(mem::replace(&mut self.scopes.here, around));
        }
        mem::replace(&mut self.scopes.takes, before)
    }
}

fn keep<'a>(
    trees: &mut Items<DefaultTree<'a>>,
    default: DefaultTree<'a>,
    kept: bool,
) -> Result<(), AllocError>
    ensures { IfOk result (λ _. trees.new
        ≡ trees.old ++ (if kept then default.entry ∷ [] else [])) }
{
    if kept {
        return trees.push(default);
    }
    drop(default);
    Ok(())
}

/// Returns the defaults whose fields some IS takes.
fn taken_defaults<'a>(
    alloc: Global,
    defaults: Items<DefaultTree<'a>>,
    taken: &TakenNames<'a>,
) -> Result<Items<DefaultTree<'a>>, AllocError>
    ensures { IfOk result (λ trees. trees ≡ defaults_taken (names_of taken.now) defaults.entry) }
{
    let mut trees = Items::new(alloc);
    for default in defaults.into_vec() {
        let kept = taken.has(&default.declaration.name);
        keep(&mut trees, default, kept)?;
    }
    Ok(trees)
}

/// Declares the prototype, with the next number, in the open scope; its ISs take `taken`. Defaults
/// that no IS takes are dropped. AllocError if memory runs out.
pub fn declare<'a>(
    alloc: Global,
    resolver: &mut Resolver<'a>,
    proto: &'a ProtoText,
    defaults: Items<DefaultTree<'a>>,
    body: Items<BodyTree<'a>>,
    taken: TakenNames<'a>,
) -> Result<(), AllocError>
    ensures { IfOk result (λ _.
        IsDeclared proto.entry defaults.entry body.entry (names_of taken.entry) resolver.old
        resolver.new) }
{
    let defaults = taken_defaults(alloc, defaults, &taken)?;
    let takes = Rc::new(alloc, taken)?;
    let number = resolver.protos.len();
    let text = proto;
    resolver.protos.push(ProtoTree {
        text,
        defaults,
        body,
    })?;
    resolver
        .scopes
        .here
        .declare(&proto.name, KnownProto { number, takes })?;
    Ok(())
}
