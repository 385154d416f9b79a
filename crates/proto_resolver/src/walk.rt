//! The walk over nodes and their values that resolves the words of a text.

ghost use Rattle.std.specs.Prelude.{◌≡◌, ◌∷◌, ◌++◌, IfOk, List, false, option_map, true};
ghost use Rattle.classic_tree.specs.declared.tree.BodyItem.{BodyItem};
ghost use Rattle.proto_meaning.specs.trees.Resolved.{AreItems, AreNodes, IsGiven, IsNode};
ghost use Rattle.proto_resolver.specs.Held.{taken_names};
ghost use Rattle.proto_resolver.specs.Standing.{Resolves};
ghost use Rattle.proto_resolver.specs.Parts.{Before, one_or_none};

use crate::declarations::resolve_proto;
use crate::resolver::{Meaning, Resolver, meaning_of};
use crate::scopes::Taker;
use classic_tree::{BodyItem, Given, NodeText, RawValue};
use proto_flat::ExpandFault;
use proto_meaning::{FieldTree, GivenTree, ItemTree, NodeTree};
use std::alloc::{AllocError, Global};
use x3d_lists::{Items, Text};

/// What was resolved, and the first wrong declaration in it, after which nothing follows.
#[derive(Drop)]
pub struct Resolved<T> {
    pub tree: T,
    pub wrong: Option<ExpandFault>,
}

/// Returns an item for a wrong declaration; a right declaration leaves none.
fn wrong_item<'a>(wrong: Option<ExpandFault>) -> Option<ItemTree<'a>>
    ensures { result ≡ option_map (λ e. ItemTree.Wrong e) wrong }
{
    match wrong {
        None => None,
        Some(fault) => Some(ItemTree::Wrong(fault)),
    }
}

/// Appends the tree, if there is one. AllocError if memory runs out.
pub fn append<T: Drop>(trees: &mut Items<T>, tree: Option<T>) -> Result<(), AllocError>
    ensures { IfOk result (λ _. trees.new ≡ trees.old ++ one_or_none tree) }
{
    match tree {
        None => Ok(()),
        Some(tree) => trees.push(tree),
    }
}

/// Resolves a node and all that is inside, up to the first wrong declaration. AllocError if memory
/// runs out.
#[cycle(resolve)]
pub fn resolve_node<'a>(
    alloc: Global,
    resolver: &mut Resolver<'a>,
    node: &'a NodeText,
) -> Result<Resolved<NodeTree<'a>>, AllocError>
    ensures { IfOk result (λ part. Resolves resolver.old resolver.new part.wrong (λ ps s r.
        IsNode ps node.now part.tree s r)) }
{
    match node {
        NodeText::Use(line, name) => {
            let tree = NodeTree::Use(*line, name);
            Ok(Resolved { tree, wrong: None })
        }
        NodeText::Full(line, name, word, items) => {
            resolve_full(alloc, resolver, *line, name, word, items.as_slice())
        }
    }
}

#[cycle(resolve)]
fn resolve_full<'a>(
    alloc: Global,
    resolver: &mut Resolver<'a>,
    line: u32,
    name: &'a Option<Text>,
    word: &Text,
    items: &'a [BodyItem],
) -> Result<Resolved<NodeTree<'a>>, AllocError>
    ensures { IfOk result (λ part. Resolves resolver.old resolver.new part.wrong (λ ps s r.
        IsNode ps (NodeText.Full line name.now word.now items.now) part.tree s r)) }
{
    let meaning = meaning_of(&resolver.scopes, word)?;
    let word = meaning.word;
    let Resolved { tree, wrong } = resolve_between(alloc, resolver, meaning, items)?;
    let tree = NodeTree::Full(line, name, word, tree);
    Ok(Resolved { tree, wrong })
}

/// Resolves the items between braces.
#[cycle(resolve)]
fn resolve_between<'a>(
    alloc: Global,
    resolver: &mut Resolver<'a>,
    meaning: Meaning<'a>,
    items: &'a [BodyItem],
) -> Result<Resolved<Items<ItemTree<'a>>>, AllocError>
    ensures { IfOk result (λ part. Resolves resolver.old resolver.new part.wrong (λ ps s r.
        AreItems ps (taken_names meaning.entry.taker) items.now part.tree s r)) }
{
    let part = resolve_items(alloc, resolver, &meaning.taker, items);
    drop(meaning);
    part
}

#[cycle(resolve)]
fn resolve_items<'a>(
    alloc: Global,
    resolver: &mut Resolver<'a>,
    taker: &Taker<'a>,
    items: &'a [BodyItem],
) -> Result<Resolved<Items<ItemTree<'a>>>, AllocError>
    ensures { IfOk result (λ part. Resolves resolver.old resolver.new part.wrong (λ ps s r.
        AreItems ps (taken_names taker.now) items.now part.tree s r)) }
{
    let mut trees = Items::new(alloc);
    for item in items {
        let Resolved { tree, wrong } = resolve_item(alloc, resolver, taker, item)?;
        append(&mut trees, tree)?;
        if wrong.is_some() {
            let tree = trees;
            return Ok(Resolved { tree, wrong });
        }
    }
    let tree = trees;
    Ok(Resolved { tree, wrong: None })
}

#[cycle(resolve)]
fn resolve_item<'a>(
    alloc: Global,
    resolver: &mut Resolver<'a>,
    taker: &Taker<'a>,
    item: &'a BodyItem,
) -> Result<Resolved<Option<ItemTree<'a>>>, AllocError>
    ensures { IfOk result (λ part. (rest : List BodyItem)
        → Resolves resolver.old resolver.new part.wrong (λ ps s r.
        Before (AreItems ps (taken_names taker.now)) (item.now ∷ rest) rest
        (one_or_none part.tree) s r)) }
{
    match item {
        BodyItem::Field(line, name, given) => {
            let Resolved { tree, wrong } = resolve_field(
                alloc,
                resolver,
                taker.keeps(name),
                given,
            )?;
            let tree = ItemTree::Field(*line, name, tree);
            let tree = Some(tree);
            Ok(Resolved { tree, wrong })
        }
        BodyItem::Declaration(declaration) => {
            let Resolved { tree, wrong } = resolve_given(alloc, resolver, &declaration.given)?;
            let tree = ItemTree::Declaration(declaration, tree);
            let tree = Some(tree);
            Ok(Resolved { tree, wrong })
        }
        BodyItem::Route(route) => {
            let tree = Some(ItemTree::Route(route));
            Ok(Resolved { tree, wrong: None })
        }
        BodyItem::Proto(proto) => {
            let wrong = resolve_proto(alloc, resolver, proto)?;
            let tree = wrong_item(wrong);
            Ok(Resolved { tree, wrong })
        }
    }
}

/// Resolves what a field is given. If it is kept, its ISs take names; if not, only its PROTOs are
/// declared.
#[cycle(resolve)]
fn resolve_field<'a>(
    alloc: Global,
    resolver: &mut Resolver<'a>,
    kept: bool,
    given: &'a Given<NodeText>,
) -> Result<Resolved<FieldTree<'a>>, AllocError>
    ensures { IfOk result (λ part. Resolves resolver.old resolver.new part.wrong (λ ps s r.
        IsGiven ps kept given.now part.tree s r)) }
{
    if kept {
        return resolve_given(alloc, resolver, given);
    }
    match given {
        Given::Nothing => {
            let tree = GivenTree::Nothing;
            Ok(Resolved { tree, wrong: None })
        }
        Given::Value(value) => leave_out(alloc, resolver, value),
        Given::Is(name) => {
            let tree = GivenTree::Is(name);
            Ok(Resolved { tree, wrong: None })
        }
    }
}

/// Leaves out a value that no IS takes; its PROTOs are declared.
#[cycle(resolve)]
fn leave_out<'a>(
    alloc: Global,
    resolver: &mut Resolver<'a>,
    value: &'a RawValue<NodeText>,
) -> Result<Resolved<FieldTree<'a>>, AllocError>
    ensures { IfOk result (λ part. Resolves resolver.old resolver.new part.wrong (λ ps s r.
        IsGiven ps false (Given.Value value.now) part.tree s r)) }
{
    let before = resolver.set_aside(alloc);
    let Resolved { tree, wrong } = resolve_value(alloc, resolver, value)?;
    drop(tree);
    resolver.put_back(before);
    let tree = GivenTree::LeftOut(wrong);
    Ok(Resolved { tree, wrong })
}

/// Resolves what is given to a field that keeps it. AllocError if memory runs out.
#[cycle(resolve)]
pub fn resolve_given<'a>(
    alloc: Global,
    resolver: &mut Resolver<'a>,
    given: &'a Given<NodeText>,
) -> Result<Resolved<FieldTree<'a>>, AllocError>
    ensures { IfOk result (λ part. Resolves resolver.old resolver.new part.wrong (λ ps s r.
        IsGiven ps true given.now part.tree s r)) }
{
    match given {
        Given::Nothing => {
            let tree = GivenTree::Nothing;
            Ok(Resolved { tree, wrong: None })
        }
        Given::Value(value) => resolve_value(alloc, resolver, value),
        Given::Is(name) => {
            resolver.take(name)?;
            let tree = GivenTree::Is(name);
            Ok(Resolved { tree, wrong: None })
        }
    }
}

#[cycle(resolve)]
fn resolve_value<'a>(
    alloc: Global,
    resolver: &mut Resolver<'a>,
    value: &'a RawValue<NodeText>,
) -> Result<Resolved<FieldTree<'a>>, AllocError>
    ensures { IfOk result (λ part. Resolves resolver.old resolver.new part.wrong (λ ps s r.
        IsGiven ps true (Given.Value value.now) part.tree s r)) }
{
    match value {
        RawValue::Node(node) => {
            let Resolved { tree, wrong } = resolve_node(alloc, resolver, node)?;
            let tree = GivenTree::One(tree);
            Ok(Resolved { tree, wrong })
        }
        RawValue::NodeList(nodes) => {
            let Resolved { tree, wrong } = resolve_nodes(alloc, resolver, nodes.as_slice())?;
            let tree = GivenTree::Many(nodes.len(), tree);
            Ok(Resolved { tree, wrong })
        }
        _ => {
            let tree = GivenTree::Plain(value);
            Ok(Resolved { tree, wrong: None })
        }
    }
}

#[cycle(resolve)]
fn resolve_nodes<'a>(
    alloc: Global,
    resolver: &mut Resolver<'a>,
    nodes: &'a [NodeText],
) -> Result<Resolved<Items<NodeTree<'a>>>, AllocError>
    ensures { IfOk result (λ part. Resolves resolver.old resolver.new part.wrong (λ ps s r.
        AreNodes ps nodes.now part.tree s r)) }
{
    let mut trees = Items::new(alloc);
    for node in nodes {
        let Resolved { tree, wrong } = resolve_node(alloc, resolver, node)?;
        trees.push(tree)?;
        if wrong.is_some() {
            let tree = trees;
            return Ok(Resolved { tree, wrong });
        }
    }
    let tree = trees;
    Ok(Resolved { tree, wrong: None })
}
