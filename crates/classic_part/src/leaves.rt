//! The steps of the walk that don't go deeper.

ghost use Rattle.std.specs.Prelude.{◌≡◌, ◌++◌, [], ◌∷◌, Some, IfOk, OnOk};
ghost use Rattle.std.specs.Option.{option_to_list};
ghost use Rattle.std.specs.List.{list_any};
ghost use Rattle.classic_tree.specs.declared.tree.BodyItem.TheVariants as item;
ghost use Rattle.classic_part.specs.Part as spec;
ghost use Rattle.classic_part.specs.Rules.{word_of};

use crate::copies::copied_route;
use crate::index::Index;
use crate::notes::{Note, NoteKind, push_note};
use crate::rules::Meant;
use classic_tree::{
    BodyItem, Declaration, Given, NodeText, ProtoText, RawValue, RouteText, Statement,
};
use std::alloc::{AllocError, Global};
use x3d_values::{Duplicate, Items, Text};

/// Appends a value, if there is one.
pub(crate) fn push_some<T: Drop>(list: &mut Items<T>, item: Option<T>) -> Result<(), AllocError>
    ensures { OnOk result (list.new ≡ list.old ++ option_to_list item) }
{
    match item {
        Some(item) => list.push(item),
        None => Ok(()),
    }
}

/// Returns what stays of a USE in a field of that name.
pub(crate) fn use_part(
    alloc: Global,
    line: u32,
    name: &Text,
    field: &str,
    known: &Index<'_>,
    notes: &mut Items<Note>,
) -> Result<Option<NodeText>, AllocError>
    ensures made { IfOk result
        (λ r. r ≡ (spec.use_part known.now line name.now field.now).kept) }
    ensures told { OnOk result
        (notes.new ≡ notes.old ++ (spec.use_part known.now line name.now field.now).notes) }
{
    if known.refuses(line) {
        push_note(alloc, NoteKind::Refused, line, name.as_str(), field, notes)?;
        return Ok(None);
    }
    if !known.knows_name(name.as_str()) {
        push_note(alloc, NoteKind::Use, line, name.as_str(), field, notes)?;
        return Ok(None);
    }
    Ok(Some(NodeText::Use(line, name.duplicate(alloc)?)))
}

/// Returns what stays of a route whose line is not refused.
fn joined_part(
    alloc: Global,
    route: &RouteText,
    known: &Index<'_>,
    notes: &mut Items<Note>,
) -> Result<Option<RouteText>, AllocError>
    ensures made { IfOk result (λ r. r ≡ (spec.joined_part known.now route.now).kept) }
    ensures told { OnOk result
        (notes.new ≡ notes.old ++ (spec.joined_part known.now route.now).notes) }
{
    let source = route.source.node.as_str();
    if !known.knows_name(source) {
        push_note(alloc, NoteKind::Route, route.line, source, "", notes)?;
        return Ok(None);
    }
    let target = route.target.node.as_str();
    if !known.knows_name(target) {
        push_note(alloc, NoteKind::Route, route.line, target, "", notes)?;
        return Ok(None);
    }
    Ok(Some(copied_route(alloc, route)?))
}

/// Returns what stays of a route.
pub(crate) fn route_part(
    alloc: Global,
    route: &RouteText,
    known: &Index<'_>,
    notes: &mut Items<Note>,
) -> Result<Option<RouteText>, AllocError>
    ensures made { IfOk result (λ r. r ≡ (spec.route_part known.now route.now).kept) }
    ensures told { OnOk result
        (notes.new ≡ notes.old ++ (spec.route_part known.now route.now).notes) }
{
    if known.refuses(route.line) {
        push_note(alloc, NoteKind::Refused, route.line, "ROUTE", "", notes)?;
        return Ok(None);
    }
    joined_part(alloc, route, known, notes)
}

/// Reports whether a word means nothing.
pub(crate) fn is_nothing(meant: Meant) -> bool
    ensures { result ≡ spec.is_nothing meant }
{
    matches!(meant, Meant::Nothing)
}

/// Notes a grouping node outside the table.
pub(crate) fn push_grouped(
    alloc: Global,
    meant: Meant,
    line: u32,
    word: &str,
    field: &str,
    notes: &mut Items<Note>,
) -> Result<(), AllocError>
    ensures { OnOk result
        (notes.new ≡ notes.old ++ spec.grouped_notes meant line word.now field.now) }
{
    match meant {
        Meant::Grouped(_, _) => push_note(alloc, NoteKind::Grouped, line, word, field, notes),
        _ => Ok(()),
    }
}

fn push_named(
    alloc: Global,
    line: u32,
    name: &Option<Text>,
    notes: &mut Items<Note>,
) -> Result<(), AllocError>
    ensures { OnOk result (notes.new ≡ notes.old ++ spec.named_notes line name.now) }
{
    match name {
        None => Ok(()),
        Some(name) => push_note(alloc, NoteKind::Named, line, name.as_str(), "", notes),
    }
}

/// Returns a node with these items.
fn node_of(
    alloc: Global,
    line: u32,
    name: &Option<Text>,
    word: &str,
    items: Items<BodyItem>,
) -> Result<NodeText, AllocError>
    ensures { IfOk result (λ r. r ≡ spec.full line name.now word.now items) }
{
    let Ok(word) = Text::from_str(alloc, word) else {
        drop(items);
        return Err(AllocError);
    };
    let Ok(name) = name.duplicate(alloc) else {
        drop(items);
        return Err(AllocError);
    };
    Ok(NodeText::Full(line, name, word, items))
}

/// Returns a node with these items, and notes its name.
pub(crate) fn full_node(
    alloc: Global,
    line: u32,
    name: &Option<Text>,
    word: &Text,
    meant: Meant,
    items: Items<BodyItem>,
    notes: &mut Items<Note>,
) -> Result<Option<NodeText>, AllocError>
    ensures made { IfOk result
        (λ r. r ≡ Some (spec.full line name.now (word_of meant word.now) items)) }
    ensures told { OnOk result (notes.new ≡ notes.old ++ spec.named_notes line name.now) }
{
    let node = node_of(alloc, line, name, meant.word_of(word.as_str()), items)?;
    let Ok(()) = push_named(alloc, line, name, notes) else {
        drop(node);
        return Err(AllocError);
    };
    Ok(Some(node))
}

/// Returns a field with its value.
pub(crate) fn field_item(
    alloc: Global,
    line: u32,
    name: &str,
    given: Given<NodeText>,
) -> Result<Option<BodyItem>, AllocError>
    ensures { IfOk result (λ r. r ≡ Some (item.Field line name.now given)) }
{
    let Ok(name) = Text::from_str(alloc, name) else {
        drop(given);
        return Err(AllocError);
    };
    Ok(Some(BodyItem::Field(line, name, given)))
}

fn given_or(given: Option<Given<NodeText>>) -> Given<NodeText>
    ensures { result ≡ spec.given_or given }
{
    match given {
        Some(given) => given,
        None => Given::Value(RawValue::Null),
    }
}

/// Returns a declaration with what stays of its value.
pub(crate) fn declared_part(
    alloc: Global,
    declaration: &Declaration<NodeText>,
    given: Option<Given<NodeText>>,
) -> Result<Option<Declaration<NodeText>>, AllocError>
    ensures { IfOk result
        (λ r. r ≡ Some (spec.declared_as declaration.now (spec.given_or given))) }
{
    let given = given_or(given);
    let Ok(name) = declaration.name.duplicate(alloc) else {
        drop(given);
        return Err(AllocError);
    };
    Ok(Some(Declaration {
        line: declaration.line,
        access: declaration.access,
        field_type: declaration.field_type,
        name,
        given,
    }))
}

#[tactic(auto, using(crate::proofs::Equations::is_node_lemmas))]
fn is_node(statement: &Statement) -> bool
    ensures { result ≡ spec.is_node statement.now }
{
    match statement {
        Statement::Node(_node) => true,
        Statement::Route(_route) => false,
        Statement::Proto(_proto) => false,
    }
}

fn has_node(body: &[Statement]) -> bool
    ensures { result ≡ list_any spec.is_node body.now }
{
    body.iter().any(|statement| is_node(statement))
}

/// Returns a prototype with this interface and body, if the body has a node.
fn proto_of(
    alloc: Global,
    line: u32,
    name: &Text,
    interface: Items<Declaration<NodeText>>,
    body: Items<Statement>,
) -> Result<Option<ProtoText>, AllocError>
    ensures { IfOk result
        (λ r. r ≡ spec.proto_of line name.now interface body) }
{
    if !has_node(body.as_slice()) {
        return Ok(None);
    }
    let Ok(name) = name.duplicate(alloc) else {
        drop(interface);
        drop(body);
        return Err(AllocError);
    };
    Ok(Some(ProtoText {
        line,
        name,
        interface,
        body,
    }))
}

/// Returns a prototype with this interface and body, if the body has a node, and notes which.
pub(crate) fn body_part(
    alloc: Global,
    line: u32,
    name: &Text,
    interface: Items<Declaration<NodeText>>,
    body: Items<Statement>,
    notes: &mut Items<Note>,
) -> Result<Option<ProtoText>, AllocError>
    ensures made { IfOk result
        (λ r. r ≡ spec.proto_of line name.now interface body) }
    ensures told { OnOk result
        (notes.new ≡ notes.old ++ spec.proto_note line name.now body ∷ []) }
{
    let kind = if has_node(body.as_slice()) {
        NoteKind::Declared
    } else {
        NoteKind::Proto
    };
    let Ok(()) = push_note(alloc, kind, line, name.as_str(), "", notes) else {
        drop(interface);
        drop(body);
        return Err(AllocError);
    };
    proto_of(alloc, line, name, interface, body)
}
