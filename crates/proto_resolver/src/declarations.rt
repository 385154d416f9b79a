//! The walk over declarations and statements: prototypes, their default values and their bodies.

ghost use Rattle.std.specs.Prelude.{◌≡◌, ◌∷◌, IfOk, List, option_map};
ghost use Rattle.classic_tree.specs.declared.tree.Statement.{Statement};
ghost use Rattle.proto_meaning.specs.Flat as flat;
ghost use Rattle.proto_meaning.specs.Sight.{Prototype, Sight};
ghost use Rattle.proto_meaning.specs.Texts.{checked};
ghost use Rattle.proto_meaning.specs.trees.Resolved.{AreStatements};
ghost use Rattle.proto_resolver.specs.Standing.{Resolves, Shows};
ghost use Rattle.proto_resolver.specs.Parts.{AreAllDefaults, AreDefaultsAside, Before};
ghost use Rattle.proto_resolver.specs.Parts.{IsInterior};
ghost use Rattle.proto_resolver.specs.Parts.{one_or_none};

use crate::resolver::{Resolver, check_declaration, declare};
use crate::walk::{Resolved, append, resolve_given, resolve_node};
use classic_tree::{Declaration, NodeText, ProtoText, Statement};
use proto_flat::ExpandFault;
use proto_meaning::{BodyTree, DefaultTree};
use std::alloc::{AllocError, Global};
use x3d_lists::Items;

/// The resolved interface and body of a prototype.
#[derive(Drop)]
pub struct Interior<'a> {
    pub defaults: Items<DefaultTree<'a>>,
    pub body: Items<BodyTree<'a>>,
}

/// Returns a statement for a wrong declaration; a right declaration leaves none.
fn wrong_statement<'a>(wrong: Option<ExpandFault>) -> Option<BodyTree<'a>>
    ensures { result ≡ option_map (λ e. BodyTree.Wrong e) wrong }
{
    match wrong {
        None => None,
        Some(fault) => Some(BodyTree::Wrong(fault)),
    }
}

/// Resolves a PROTO, which is in sight after its closing brace. Returns the first wrong
/// declaration, in it or itself, or None. AllocError if memory runs out.
#[cycle(resolve)]
pub fn resolve_proto<'a>(
    alloc: Global,
    resolver: &mut Resolver<'a>,
    proto: &'a ProtoText,
) -> Result<Option<ExpandFault>, AllocError>
    ensures { IfOk result (λ wrong. Resolves resolver.old resolver.new wrong (λ ps s r.
        (flat.proto proto.now).sees s ≡ r)) }
{
    if let Err(fault) = check_declaration(&resolver.scopes, proto) {
        return Ok(Some(fault));
    }
    enter(alloc, resolver, proto)
}

/// Resolves a declaration that isn't wrong itself. It is in sight after its closing brace.
#[cycle(resolve)]
fn enter<'a>(
    alloc: Global,
    resolver: &mut Resolver<'a>,
    proto: &'a ProtoText,
) -> Result<Option<ExpandFault>, AllocError>
    ensures { ((ps : List Prototype) (s : Sight) → Shows ps resolver.old.scopes s
        → checked proto.now s ≡ Ok tt) → IfOk result (λ wrong.
        Resolves resolver.old resolver.new wrong (λ ps s r. (flat.proto proto.now).sees s ≡ r)) }
{
    let before = resolver.open(alloc)?;
    let Resolved { tree, wrong } = resolve_inside(alloc, resolver, proto)?;
    if wrong.is_some() {
        return Ok(wrong);
    }
    let Interior { defaults, body } = tree;
    let taken = resolver.close(before);
    declare(alloc, resolver, proto, defaults, body, taken)?;
    Ok(None)
}

#[cycle(resolve)]
fn resolve_inside<'a>(
    alloc: Global,
    resolver: &mut Resolver<'a>,
    proto: &'a ProtoText,
) -> Result<Resolved<Interior<'a>>, AllocError>
    ensures { IfOk result (λ part. Resolves resolver.old resolver.new part.wrong (λ ps s r.
        IsInterior ps proto.now part.tree.defaults part.tree.body s r)) }
{
    let defaults = resolve_interface(alloc, resolver, proto.interface.as_slice())?;
    let Resolved { tree, wrong } = defaults;
    let defaults = tree;
    if wrong.is_some() {
        let body = Items::new(alloc);
        let tree = Interior { defaults, body };
        return Ok(Resolved { tree, wrong });
    }
    let body = resolve_body(alloc, resolver, proto.body.as_slice())?;
    let Resolved { tree, wrong } = body;
    let body = tree;
    let tree = Interior { defaults, body };
    Ok(Resolved { tree, wrong })
}

/// Resolves the default values of an interface. An IS in one of them takes nothing.
#[cycle(resolve)]
fn resolve_interface<'a>(
    alloc: Global,
    resolver: &mut Resolver<'a>,
    interface: &'a [Declaration<NodeText>],
) -> Result<Resolved<Items<DefaultTree<'a>>>, AllocError>
    ensures { IfOk result (λ part. Resolves resolver.old resolver.new part.wrong (λ ps s r.
        AreDefaultsAside ps interface.now part.tree s r)) }
{
    let before = resolver.set_aside(alloc);
    let part = resolve_defaults(alloc, resolver, interface)?;
    resolver.put_back(before);
    Ok(part)
}

#[cycle(resolve)]
fn resolve_defaults<'a>(
    alloc: Global,
    resolver: &mut Resolver<'a>,
    interface: &'a [Declaration<NodeText>],
) -> Result<Resolved<Items<DefaultTree<'a>>>, AllocError>
    ensures { IfOk result (λ part. Resolves resolver.old resolver.new part.wrong (λ ps s r.
        AreAllDefaults ps interface.now part.tree s r)) }
{
    let mut trees = Items::new(alloc);
    for declaration in interface {
        let Resolved { tree, wrong } = resolve_given(alloc, resolver, &declaration.given)?;
        let value = tree;
        let default = DefaultTree { declaration, value };
        trees.push(default)?;
        if wrong.is_some() {
            let tree = trees;
            return Ok(Resolved { tree, wrong });
        }
    }
    let tree = trees;
    Ok(Resolved { tree, wrong: None })
}

/// Resolves the statements of a text or of a body, up to the first wrong declaration. AllocError if
/// memory runs out.
#[cycle(resolve)]
pub fn resolve_body<'a>(
    alloc: Global,
    resolver: &mut Resolver<'a>,
    body: &'a [Statement],
) -> Result<Resolved<Items<BodyTree<'a>>>, AllocError>
    ensures { IfOk result (λ part. Resolves resolver.old resolver.new part.wrong (λ ps s r.
        AreStatements ps body.now part.tree s r)) }
{
    let mut trees = Items::new(alloc);
    for statement in body {
        let Resolved { tree, wrong } = resolve_statement(alloc, resolver, statement)?;
        append(&mut trees, tree)?;
        if wrong.is_some() {
            let tree = trees;
            return Ok(Resolved { tree, wrong });
        }
    }
    let tree = trees;
    Ok(Resolved { tree, wrong: None })
}

#[cycle(resolve)]
fn resolve_statement<'a>(
    alloc: Global,
    resolver: &mut Resolver<'a>,
    statement: &'a Statement,
) -> Result<Resolved<Option<BodyTree<'a>>>, AllocError>
    ensures { IfOk result (λ part. (rest : List Statement)
        → Resolves resolver.old resolver.new part.wrong (λ ps s r.
        Before (AreStatements ps) (statement.now ∷ rest) rest (one_or_none part.tree) s r)) }
{
    match statement {
        Statement::Node(node) => {
            let Resolved { tree, wrong } = resolve_node(alloc, resolver, node)?;
            let tree = Some(BodyTree::Node(tree));
            Ok(Resolved { tree, wrong })
        }
        Statement::Route(route) => {
            let tree = Some(BodyTree::Route(route));
            Ok(Resolved { tree, wrong: None })
        }
        Statement::Proto(proto) => {
            let wrong = resolve_proto(alloc, resolver, proto)?;
            let tree = wrong_statement(wrong);
            Ok(Resolved { tree, wrong })
        }
    }
}
