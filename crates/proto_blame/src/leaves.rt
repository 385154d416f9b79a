//! The steps of the walk that don't go deeper.

ghost use Rattle.std.specs.Prelude.{◌≡◌, ◌++◌, Some, IfOk, OnOk};
ghost use Rattle.std.specs.Option.{option_to_list};
ghost use Rattle.classic_tree.specs.declared.tree.BodyItem.TheVariants as item;
ghost use Rattle.classic_tree.specs.declared.tree.NodeText.TheVariants as node;
ghost use Rattle.proto_blame.specs.Blamed as spec;
ghost use Rattle.proto_blame.specs.Blames as blames;

use crate::blames::blame;
use classic_tree::{BodyItem, Declaration, Given, NodeText, ProtoText, RawValue, Statement};
use std::alloc::{AllocError, Global};
use x3d_lists::{Duplicate, Items, Text};
use x3d_values::NodeType;

/// Appends a value, if there is one.
pub(crate) fn push_some<T: Drop>(list: &mut Items<T>, item: Option<T>) -> Result<(), AllocError>
    ensures { OnOk result (list.new ≡ list.old ++ option_to_list item) }
{
    match item {
        Some(item) => list.push(item),
        None => Ok(()),
    }
}

/// Returns the line of what holds the items of braces: of an instance, or 0 for a node.
pub(crate) fn holder(line: u32, word: &str) -> u32
    ensures { result ≡ spec.holder line word.now }
{
    if NodeType::named(word).is_some() {
        0
    } else {
        line
    }
}

/// Returns the blame of a line as a value.
pub(crate) fn blaming(alloc: Global, line: u32) -> Result<RawValue<NodeText>, AllocError>
    ensures { IfOk result (λ v. v ≡ spec.blaming (blames.blame line)) }
{
    match blame(alloc, line)? {
        None => Ok(RawValue::Null),
        Some(text) => Ok(RawValue::String(text)),
    }
}

/// Returns a node as a value, or the blame of the line.
pub(crate) fn one_or_blame(
    alloc: Global,
    line: u32,
    node: Option<NodeText>,
) -> Result<RawValue<NodeText>, AllocError>
    ensures { IfOk result (λ v. v ≡ spec.one_or_blame line node) }
{
    match node {
        None => blaming(alloc, line),
        Some(node) => Ok(RawValue::Node(node)),
    }
}

/// Returns nodes as a value, or the blame of the line.
pub(crate) fn list_or_blame(
    alloc: Global,
    line: u32,
    nodes: Items<NodeText>,
) -> Result<RawValue<NodeText>, AllocError>
    ensures { IfOk result (λ v. v ≡ spec.list_or_blame line nodes) }
{
    if nodes.is_empty() {
        return blaming(alloc, line);
    }
    Ok(RawValue::NodeList(nodes))
}

/// Returns a node with these items, whose name is the blame of a line.
pub(crate) fn full_node(
    alloc: Global,
    at: u32,
    line: u32,
    word: &Text,
    items: Items<BodyItem>,
) -> Result<Option<NodeText>, AllocError>
    ensures { IfOk result (λ r. r ≡ Some (node.Full at (blames.blame line) word.now items)) }
{
    let Ok(word) = word.duplicate(alloc) else {
        drop(items);
        return Err(AllocError);
    };
    let Ok(name) = blame(alloc, line) else {
        drop(items);
        return Err(AllocError);
    };
    Ok(Some(NodeText::Full(at, name, word, items)))
}

/// Returns a field with what it is given.
pub(crate) fn field_item(
    alloc: Global,
    at: u32,
    name: &Text,
    given: Given<NodeText>,
) -> Result<Option<BodyItem>, AllocError>
    ensures { IfOk result (λ r. r ≡ Some (item.Field at name.now given)) }
{
    let Ok(name) = name.duplicate(alloc) else {
        drop(given);
        return Err(AllocError);
    };
    Ok(Some(BodyItem::Field(at, name, given)))
}

/// Returns a declaration with another value.
pub(crate) fn declared(
    alloc: Global,
    declaration: &Declaration<NodeText>,
    given: Given<NodeText>,
) -> Result<Declaration<NodeText>, AllocError>
    ensures { IfOk result (λ d. d ≡ record declaration.now { given = given }) }
{
    let Ok(name) = declaration.name.duplicate(alloc) else {
        drop(given);
        return Err(AllocError);
    };
    Ok(Declaration {
        line: declaration.line,
        access: declaration.access,
        field_type: declaration.field_type,
        name,
        given,
    })
}

/// Returns a prototype with this interface and body.
pub(crate) fn proto_of(
    alloc: Global,
    line: u32,
    name: &Text,
    interface: Items<Declaration<NodeText>>,
    body: Items<Statement>,
) -> Result<ProtoText, AllocError>
    ensures { IfOk result (λ p. p ≡ spec.proto_of line name.now interface body) }
{
    let Ok(name) = name.duplicate(alloc) else {
        drop(interface);
        drop(body);
        return Err(AllocError);
    };
    Ok(ProtoText {
        line,
        name,
        interface,
        body,
    })
}
