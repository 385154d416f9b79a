//! The tree that stays in one round. Each function returns what stays of one part, if it does, and
//! appends the notes on it.

ghost use Rattle.std.specs.Prelude.{◌≡◌, ◌++◌, IfOk, OnOk};
ghost use Rattle.classic_part.specs.Part as spec;
ghost use Rattle.classic_part.specs.Rules.{turns};

use crate::copies::{list_of, plain};
use crate::index::Index;
use crate::leaves::{
    body_part, declared_part, field_item, full_node, is_nothing, push_grouped, route_part, use_part,
};
use crate::lists::{declarations_part, items_part, nodes_part, statements_part};
use crate::notes::{Note, NoteKind, push_note};
use crate::rules::{FieldRule, Meant, field_rule, meaning_of, turns};
use classic_tree::{BodyItem, Declaration, Given, NodeText, ProtoText, RawValue, Statement};
use std::alloc::{AllocError, Global};
use x3d_values::{Duplicate, Items, Text};

/// Returns what stays of a node in a field of that name, which is empty for a statement.
#[cycle(part)]
#[tactic(auto, using(crate::proofs::Equations::node_lemmas))]
pub(crate) fn node_part(
    alloc: Global,
    node: &NodeText,
    field: &str,
    known: &Index<'_>,
    notes: &mut Items<Note>,
) -> Result<Option<NodeText>, AllocError>
    ensures made { IfOk result
        (λ r. r ≡ (spec.node_part known.now node.now field.now).kept) }
    ensures told { OnOk result
        (notes.new ≡ notes.old ++ (spec.node_part known.now node.now field.now).notes) }
{
    match node {
        NodeText::Use(line, name) => use_part(alloc, *line, name, field, known, notes),
        NodeText::Full(line, name, word, items) => {
            if known.refuses(*line) {
                push_note(alloc, NoteKind::Refused, *line, word.as_str(), field, notes)?;
                return Ok(None);
            }
            let meant = meaning_of(known, word.as_str());
            if is_nothing(meant) {
                push_note(alloc, NoteKind::Node, *line, word.as_str(), field, notes)?;
                return Ok(None);
            }
            push_grouped(alloc, meant, *line, word.as_str(), field, notes)?;
            let items = items_part(alloc, items.as_slice(), meant, known, notes)?;
            full_node(alloc, *line, name, word, meant, items, notes)
        }
    }
}

/// Returns what stays of an item between the braces of a node, by what the word before them means.
#[cycle(part)]
#[tactic(auto, using(crate::proofs::Equations::item_lemmas))]
pub(crate) fn item_part(
    alloc: Global,
    item: &BodyItem,
    meant: Meant,
    known: &Index<'_>,
    notes: &mut Items<Note>,
) -> Result<Option<BodyItem>, AllocError>
    ensures made { IfOk result (λ r. r ≡ (spec.item_part known.now item.now meant).kept) }
    ensures told { OnOk result
        (notes.new ≡ notes.old ++ (spec.item_part known.now item.now meant).notes) }
{
    match item {
        BodyItem::Field(line, name, given) => {
            field_part(alloc, *line, name, given, meant, known, notes)
        }
        BodyItem::Declaration(declaration) => {
            match declaration_part(alloc, declaration, known, notes)? {
                Some(declaration) => Ok(Some(BodyItem::Declaration(declaration))),
                None => Ok(None),
            }
        }
        BodyItem::Route(route) => match route_part(alloc, route, known, notes)? {
            Some(route) => Ok(Some(BodyItem::Route(route))),
            None => Ok(None),
        },
        BodyItem::Proto(proto) => match proto_part(alloc, proto, known, notes)? {
            Some(proto) => Ok(Some(BodyItem::Proto(proto))),
            None => Ok(None),
        },
    }
}

#[cycle(part)]
fn field_part(
    alloc: Global,
    line: u32,
    name: &Text,
    given: &Given<NodeText>,
    meant: Meant,
    known: &Index<'_>,
    notes: &mut Items<Note>,
) -> Result<Option<BodyItem>, AllocError>
    ensures made { IfOk result
        (λ r. r ≡ (spec.field_part (λ field n. spec.node_part known.now n field) known.now line
        name.now given.now meant).kept) }
    ensures told { OnOk result
        (notes.new ≡ notes.old
        ++ (spec.field_part (λ field n. spec.node_part known.now n field) known.now line name.now
        given.now meant).notes) }
{
    let name = name.as_str();
    if known.refuses(line) {
        push_note(alloc, NoteKind::Refused, line, name, "", notes)?;
        return Ok(None);
    }
    ruled_part(
        alloc,
        line,
        name,
        given,
        field_rule(meant, name, turns(given)),
        known,
        notes,
    )
}

/// Returns what stays of a field by its rule.
#[cycle(part)]
fn ruled_part(
    alloc: Global,
    line: u32,
    name: &str,
    given: &Given<NodeText>,
    rule: FieldRule,
    known: &Index<'_>,
    notes: &mut Items<Note>,
) -> Result<Option<BodyItem>, AllocError>
    ensures made { IfOk result
        (λ r. r ≡ (spec.ruled_part (λ field n. spec.node_part known.now n field) line name.now
        given.now rule).kept) }
    ensures told { OnOk result
        (notes.new ≡ notes.old
        ++ (spec.ruled_part (λ field n. spec.node_part known.now n field) line name.now given.now
        rule).notes) }
{
    match rule {
        FieldRule::Stays => named_part(alloc, line, name, given, known, notes),
        FieldRule::Children => named_part(alloc, line, "children", given, known, notes),
        FieldRule::Unknown => {
            push_note(alloc, NoteKind::Field, line, name, "", notes)?;
            Ok(None)
        }
        FieldRule::Turned => {
            push_note(alloc, NoteKind::Turned, line, name, "", notes)?;
            Ok(None)
        }
    }
}

/// Returns a field of that name with what stays of its value.
#[cycle(part)]
fn named_part(
    alloc: Global,
    line: u32,
    name: &str,
    given: &Given<NodeText>,
    known: &Index<'_>,
    notes: &mut Items<Note>,
) -> Result<Option<BodyItem>, AllocError>
    ensures made { IfOk result
        (λ r. r ≡ (spec.named_part line name.now
        (spec.given_part (λ field n. spec.node_part known.now n field) name.now given.now)).kept) }
    ensures told { OnOk result
        (notes.new ≡ notes.old
        ++ (spec.given_part (λ field n. spec.node_part known.now n field) name.now
        given.now).notes) }
{
    match given_part(alloc, name, given, known, notes)? {
        Some(given) => field_item(alloc, line, name, given),
        None => Ok(None),
    }
}

/// Returns what stays of what follows a field's name.
#[cycle(part)]
fn given_part(
    alloc: Global,
    name: &str,
    given: &Given<NodeText>,
    known: &Index<'_>,
    notes: &mut Items<Note>,
) -> Result<Option<Given<NodeText>>, AllocError>
    ensures made { IfOk result
        (λ r. r ≡ (spec.given_part (λ field n. spec.node_part known.now n field) name.now
        given.now).kept) }
    ensures told { OnOk result
        (notes.new ≡ notes.old
        ++ (spec.given_part (λ field n. spec.node_part known.now n field) name.now
        given.now).notes) }
{
    match given {
        Given::Nothing => Ok(Some(Given::Nothing)),
        Given::Value(value) => match value_part(alloc, name, value, known, notes)? {
            Some(value) => Ok(Some(Given::Value(value))),
            None => Ok(None),
        },
        Given::Is(outer) => Ok(Some(Given::Is(outer.duplicate(alloc)?))),
    }
}

#[cycle(part)]
fn value_part(
    alloc: Global,
    name: &str,
    value: &RawValue<NodeText>,
    known: &Index<'_>,
    notes: &mut Items<Note>,
) -> Result<Option<RawValue<NodeText>>, AllocError>
    ensures made { IfOk result
        (λ r. r ≡ (spec.value_part (λ field n. spec.node_part known.now n field) name.now
        value.now).kept) }
    ensures told { OnOk result
        (notes.new ≡ notes.old
        ++ (spec.value_part (λ field n. spec.node_part known.now n field) name.now
        value.now).notes) }
{
    match value {
        RawValue::Node(node) => match node_part(alloc, node, name, known, notes)? {
            Some(node) => Ok(Some(RawValue::Node(node))),
            None => Ok(None),
        },
        RawValue::NodeList(nodes) => {
            let nodes = nodes_part(alloc, nodes.as_slice(), name, known, notes)?;
            Ok(Some(list_of(nodes)))
        }
        _ => Ok(Some(plain(alloc, value)?)),
    }
}

#[cycle(part)]
pub(crate) fn declaration_part(
    alloc: Global,
    declaration: &Declaration<NodeText>,
    known: &Index<'_>,
    notes: &mut Items<Note>,
) -> Result<Option<Declaration<NodeText>>, AllocError>
    ensures made { IfOk result
        (λ r. r ≡ (spec.declaration_part (λ field n. spec.node_part known.now n field) known.now
        declaration.now).kept) }
    ensures told { OnOk result
        (notes.new ≡ notes.old
        ++ (spec.declaration_part (λ field n. spec.node_part known.now n field) known.now
        declaration.now).notes) }
{
    let name = declaration.name.as_str();
    if known.refuses(declaration.line) {
        push_note(alloc, NoteKind::Refused, declaration.line, name, "", notes)?;
        return Ok(None);
    }
    let given = given_part(alloc, name, &declaration.given, known, notes)?;
    declared_part(alloc, declaration, given)
}

#[cycle(part)]
#[tactic(auto, using(crate::proofs::Equations::proto_lemmas))]
fn proto_part(
    alloc: Global,
    proto: &ProtoText,
    known: &Index<'_>,
    notes: &mut Items<Note>,
) -> Result<Option<ProtoText>, AllocError>
    ensures made { IfOk result (λ r. r ≡ (spec.proto_part known.now proto.now).kept) }
    ensures told { OnOk result
        (notes.new ≡ notes.old ++ (spec.proto_part known.now proto.now).notes) }
{
    if known.refuses(proto.line) {
        push_note(
            alloc,
            NoteKind::Refused,
            proto.line,
            proto.name.as_str(),
            "",
            notes,
        )?;
        return Ok(None);
    }
    let interface = declarations_part(alloc, proto.interface.as_slice(), known, notes)?;
    let Ok(body) = statements_part(alloc, proto.body.as_slice(), known, notes) else {
        drop(interface);
        return Err(AllocError);
    };
    body_part(alloc, proto.line, &proto.name, interface, body, notes)
}

#[cycle(part)]
#[tactic(auto, using(crate::proofs::Equations::statement_lemmas))]
pub(crate) fn statement_part(
    alloc: Global,
    statement: &Statement,
    known: &Index<'_>,
    notes: &mut Items<Note>,
) -> Result<Option<Statement>, AllocError>
    ensures made { IfOk result (λ r. r ≡ (spec.statement_part known.now statement.now).kept) }
    ensures told { OnOk result
        (notes.new ≡ notes.old ++ (spec.statement_part known.now statement.now).notes) }
{
    match statement {
        Statement::Node(node) => match node_part(alloc, node, "", known, notes)? {
            Some(node) => Ok(Some(Statement::Node(node))),
            None => Ok(None),
        },
        Statement::Route(route) => match route_part(alloc, route, known, notes)? {
            Some(route) => Ok(Some(Statement::Route(route))),
            None => Ok(None),
        },
        Statement::Proto(proto) => match proto_part(alloc, proto, known, notes)? {
            Some(proto) => Ok(Some(Statement::Proto(proto))),
            None => Ok(None),
        },
    }
}
