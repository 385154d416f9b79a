//! The blamed tree. Each function returns what stays of one part, with blames for its values.

ghost use Rattle.std.specs.Prelude.{◌≡◌, IfOk, map};
ghost use Rattle.proto_blame.specs.Blamed as spec;

use crate::leaves::{
    blaming, declared, field_item, full_node, holder, list_or_blame, one_or_blame, proto_of,
    push_some,
};
use classic_tree::{BodyItem, Declaration, Given, NodeText, ProtoText, RawValue, Statement};
use std::alloc::{AllocError, Global};
use x3d_lists::{Duplicate, Items};

/// Returns a node blamed with the line of the instance whose braces hold it in a value, or with 0.
#[cycle(blame)]
#[tactic(auto, using(crate::proofs::Equations::node_lemmas))]
fn node_blamed(alloc: Global, node: &NodeText, line: u32) -> Result<Option<NodeText>, AllocError>
    ensures { IfOk result (λ r. r ≡ spec.node_blamed node.now line) }
{
    match node {
        NodeText::Use(_at, _name) => Ok(None),
        NodeText::Full(at, _name, word, items) => {
            let held = holder(*at, word.as_str());
            let items = items_blamed(alloc, items.as_slice(), held)?;
            full_node(alloc, *at, line, word, items)
        }
    }
}

/// Returns an item between the braces of the instance on a line, or of a node if the line is 0.
#[cycle(blame)]
#[tactic(auto, using(crate::proofs::Equations::item_lemmas))]
fn item_blamed(alloc: Global, item: &BodyItem, line: u32) -> Result<Option<BodyItem>, AllocError>
    ensures { IfOk result (λ r. r ≡ spec.item_blamed item.now line) }
{
    match item {
        BodyItem::Field(at, name, given) => {
            let given = given_blamed(alloc, given, line)?;
            field_item(alloc, *at, name, given)
        }
        BodyItem::Declaration(declaration) => {
            let declaration = declaration_blamed(alloc, declaration)?;
            Ok(Some(BodyItem::Declaration(declaration)))
        }
        BodyItem::Route(_route) => Ok(None),
        BodyItem::Proto(proto) => {
            let proto = proto_blamed(alloc, proto)?;
            Ok(Some(BodyItem::Proto(proto)))
        }
    }
}

/// Returns what follows a field's name.
#[cycle(blame)]
fn given_blamed(
    alloc: Global,
    given: &Given<NodeText>,
    line: u32,
) -> Result<Given<NodeText>, AllocError>
    ensures { IfOk result
        (λ r. r ≡ spec.given_blamed (λ l n. spec.node_blamed n l) line given.now) }
{
    match given {
        Given::Nothing => Ok(Given::Nothing),
        Given::Value(value) => {
            let value = value_blamed(alloc, value, line)?;
            Ok(Given::Value(value))
        }
        Given::Is(outer) => {
            let outer = outer.duplicate(alloc)?;
            Ok(Given::Is(outer))
        }
    }
}

#[cycle(blame)]
fn value_blamed(
    alloc: Global,
    value: &RawValue<NodeText>,
    line: u32,
) -> Result<RawValue<NodeText>, AllocError>
    ensures { IfOk result
        (λ r. r ≡ spec.value_blamed (λ l n. spec.node_blamed n l) line value.now) }
{
    match value {
        RawValue::Node(node) => {
            let node = node_blamed(alloc, node, line)?;
            one_or_blame(alloc, line, node)
        }
        RawValue::NodeList(nodes) => {
            let nodes = nodes_blamed(alloc, nodes.as_slice(), line)?;
            list_or_blame(alloc, line, nodes)
        }
        _ => blaming(alloc, line),
    }
}

#[cycle(blame)]
fn declaration_blamed(
    alloc: Global,
    declaration: &Declaration<NodeText>,
) -> Result<Declaration<NodeText>, AllocError>
    ensures { IfOk result
        (λ r. r ≡ spec.declaration_blamed (λ l n. spec.node_blamed n l) declaration.now) }
{
    let given = given_blamed(alloc, &declaration.given, 0)?;
    declared(alloc, declaration, given)
}

#[cycle(blame)]
#[tactic(auto, using(crate::proofs::Equations::proto_lemmas))]
fn proto_blamed(alloc: Global, proto: &ProtoText) -> Result<ProtoText, AllocError>
    ensures { IfOk result (λ r. r ≡ spec.proto_blamed proto.now) }
{
    let interface = declarations_blamed(alloc, proto.interface.as_slice())?;
    let Ok(body) = statements_blamed(alloc, proto.body.as_slice()) else {
        drop(interface);
        return Err(AllocError);
    };
    proto_of(alloc, proto.line, &proto.name, interface, body)
}

#[cycle(blame)]
#[tactic(auto, using(crate::proofs::Equations::statement_lemmas))]
fn statement_blamed(alloc: Global, statement: &Statement) -> Result<Option<Statement>, AllocError>
    ensures { IfOk result (λ r. r ≡ spec.statement_blamed statement.now) }
{
    match statement {
        Statement::Node(node) => match node_blamed(alloc, node, 0)? {
            Some(node) => Ok(Some(Statement::Node(node))),
            None => Ok(None),
        },
        Statement::Route(_route) => Ok(None),
        Statement::Proto(proto) => {
            let proto = proto_blamed(alloc, proto)?;
            Ok(Some(Statement::Proto(proto)))
        }
    }
}

/// Returns the items between the braces of the instance on a line, or of a node if the line is 0.
#[cycle(blame)]
fn items_blamed(alloc: Global, items: &[BodyItem], line: u32) -> Result<Items<BodyItem>, AllocError>
    ensures { IfOk result (λ r. r ≡ spec.kept_in (λ i. spec.item_blamed i line) items.now) }
{
    let mut kept = Items::new(alloc);
    for item in items {
        push_some(&mut kept, item_blamed(alloc, item, line)?)?;
    }
    Ok(kept)
}

/// Returns the nodes of a value in the braces of the instance on a line, or of a node if the line
/// is 0.
#[cycle(blame)]
fn nodes_blamed(alloc: Global, nodes: &[NodeText], line: u32) -> Result<Items<NodeText>, AllocError>
    ensures { IfOk result (λ r. r ≡ spec.kept_in (λ n. spec.node_blamed n line) nodes.now) }
{
    let mut kept = Items::new(alloc);
    for node in nodes {
        push_some(&mut kept, node_blamed(alloc, node, line)?)?;
    }
    Ok(kept)
}

/// Returns the interface of a prototype.
#[cycle(blame)]
fn declarations_blamed(
    alloc: Global,
    declarations: &[Declaration<NodeText>],
) -> Result<Items<Declaration<NodeText>>, AllocError>
    ensures { IfOk result
        (λ r. r ≡ map (spec.declaration_blamed (λ l n. spec.node_blamed n l)) declarations.now) }
{
    let mut kept = Items::new(alloc);
    for declaration in declarations {
        kept.push(declaration_blamed(alloc, declaration)?)?;
    }
    Ok(kept)
}

/// Returns the statements of a text, or of the body of a prototype.
#[cycle(blame)]
pub(crate) fn statements_blamed(
    alloc: Global,
    statements: &[Statement],
) -> Result<Items<Statement>, AllocError>
    ensures { IfOk result (λ r. r ≡ spec.kept_in spec.statement_blamed statements.now) }
{
    let mut kept = Items::new(alloc);
    for statement in statements {
        push_some(&mut kept, statement_blamed(alloc, statement)?)?;
    }
    Ok(kept)
}
