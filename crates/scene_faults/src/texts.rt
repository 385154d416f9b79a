//! Faults of a text before its prototypes are expanded.

ghost use Rattle.std.specs.Prelude.{◌≡◌, ◌++◌, [], map, IfOk, OnOk};
ghost use Rattle.std.specs.List.{flat_map};
ghost use Rattle.std.specs.Option.{option_to_list};
ghost use Rattle.proto_flat.specs.declared.fault.ExpandFaultKind.TheVariants.{FieldTwice};
ghost use Rattle.scene_faults.specs.Texts as spec;

use crate::blame::Blame;
use crate::lists::{push_declared_twice, push_fields_twice, push_protos_twice};
use crate::named::push_if;
use classic_tree::{
    BodyItem, Declaration, Document, Given, NodeText, ProtoText, RawValue, Statement,
};
use proto_flat::ExpandFaultKind;
use std::alloc::{AllocError, Global};
use x3d_lists::{Items, Text};
use x3d_values::NodeType;

// ---- blames that don't go deeper

/// Appends the blame for a prototype with the name of a node type.
fn push_type(line: u32, name: &Text, out: &mut Items<Blame>) -> Result<(), AllocError>
    ensures { OnOk result (out.new ≡ out.old ++ spec.type_blames line name.now) }
{
    let is_type = NodeType::named(name.as_str()).is_some();
    push_if(is_type, ExpandFaultKind::ProtoTwice, line, out)
}

/// Reports whether an interface has a field of that name.
fn is_one(name: &Text, interface: &[Declaration<NodeText>]) -> bool
    ensures { result ≡ spec.is_one name.now (spec.names_of interface.now) }
{
    for declaration in interface {
        if name.as_str() == declaration.name.as_str() {
            return true;
        }
    }
    false
}

/// Appends the blame for an IS of a name that the interface lacks.
fn push_is(
    line: u32,
    name: &Text,
    outer: &[Declaration<NodeText>],
    out: &mut Items<Blame>,
) -> Result<(), AllocError>
    ensures { OnOk result (out.new ≡ out.old ++ spec.is_blames (spec.names_of outer.now) line
        name.now) }
{
    push_if(!is_one(name, outer), ExpandFaultKind::BadIs, line, out)
}

// ---- the walk, with the interface around

#[cycle(text)]
fn push_given(
    alloc: Global,
    line: u32,
    given: &Given<NodeText>,
    outer: &[Declaration<NodeText>],
    out: &mut Items<Blame>,
) -> Result<(), AllocError>
    ensures { OnOk result (out.new ≡ out.old
        ++ spec.given_blames (λ names n. spec.node n names) (spec.names_of outer.now) line
        given.now) }
{
    match given {
        Given::Nothing => Ok(()),
        Given::Value(value) => push_value(alloc, value, outer, out),
        Given::Is(name) => push_is(line, name, outer, out),
    }
}

#[cycle(text)]
fn push_value(
    alloc: Global,
    value: &RawValue<NodeText>,
    outer: &[Declaration<NodeText>],
    out: &mut Items<Blame>,
) -> Result<(), AllocError>
    ensures { OnOk result (out.new ≡ out.old
        ++ spec.value_blames (λ names n. spec.node n names) (spec.names_of outer.now) value.now) }
{
    match value {
        RawValue::Node(node) => push_node(alloc, node, outer, out),
        RawValue::NodeList(nodes) => push_nodes(alloc, nodes.as_slice(), outer, out),
        _ => Ok(()),
    }
}

#[cycle(text)]
fn push_nodes(
    alloc: Global,
    nodes: &[NodeText],
    outer: &[Declaration<NodeText>],
    out: &mut Items<Blame>,
) -> Result<(), AllocError>
    ensures { OnOk result (out.new ≡ out.old
        ++ flat_map (λ n. spec.node n (spec.names_of outer.now)) nodes.now) }
{
    for node in nodes {
        push_node(alloc, node, outer, out)?;
    }
    Ok(())
}

#[cycle(text)]
#[tactic(auto, using(crate::proofs::Walks::node_lemmas))]
fn push_node(
    alloc: Global,
    node: &NodeText,
    outer: &[Declaration<NodeText>],
    out: &mut Items<Blame>,
) -> Result<(), AllocError>
    ensures { OnOk result (out.new ≡ out.old ++ spec.node node.now (spec.names_of outer.now)) }
{
    match node {
        NodeText::Use(_line, _name) => Ok(()),
        NodeText::Full(_line, _name, _word, items) => {
            push_items(alloc, items.as_slice(), outer, out)
        }
    }
}

/// Appends the blames for what the braces of a node hold.
#[cycle(text)]
fn push_items(
    alloc: Global,
    items: &[BodyItem],
    outer: &[Declaration<NodeText>],
    out: &mut Items<Blame>,
) -> Result<(), AllocError>
    ensures { OnOk result (out.new ≡ out.old ++ (spec.twice FieldTwice []
        (flat_map (λ i. option_to_list (spec.item i).named) items.now)
        ++ flat_map (λ i. (spec.item i).blames (spec.names_of outer.now)) items.now)) }
{
    push_fields_twice(alloc, items, out)?;
    push_each_item(alloc, items, outer, out)
}

#[cycle(text)]
fn push_each_item(
    alloc: Global,
    items: &[BodyItem],
    outer: &[Declaration<NodeText>],
    out: &mut Items<Blame>,
) -> Result<(), AllocError>
    ensures { OnOk result (out.new ≡ out.old
        ++ flat_map (λ i. (spec.item i).blames (spec.names_of outer.now)) items.now) }
{
    for item in items {
        push_item(alloc, item, outer, out)?;
    }
    Ok(())
}

#[cycle(text)]
#[tactic(auto, using(crate::proofs::Walks::item_lemmas))]
fn push_item(
    alloc: Global,
    item: &BodyItem,
    outer: &[Declaration<NodeText>],
    out: &mut Items<Blame>,
) -> Result<(), AllocError>
    ensures { OnOk result
        (out.new ≡ out.old ++ (spec.item item.now).blames (spec.names_of outer.now)) }
{
    match item {
        BodyItem::Field(line, _name, given) => push_given(alloc, *line, given, outer, out),
        BodyItem::Declaration(declaration) => {
            push_given(alloc, declaration.line, &declaration.given, outer, out)
        }
        BodyItem::Route(_route) => Ok(()),
        BodyItem::Proto(proto) => push_proto(alloc, proto, out),
    }
}

/// Appends the blames for the default of an interface field, in which an IS finds nothing.
#[cycle(text)]
fn push_default(
    alloc: Global,
    declaration: &Declaration<NodeText>,
    out: &mut Items<Blame>,
) -> Result<(), AllocError>
    ensures { OnOk result
        (out.new ≡ out.old ++ spec.default_blames (λ names n. spec.node n names) declaration.now) }
{
    push_given(alloc, declaration.line, &declaration.given, &[], out)
}

#[cycle(text)]
fn push_defaults(
    alloc: Global,
    interface: &[Declaration<NodeText>],
    out: &mut Items<Blame>,
) -> Result<(), AllocError>
    ensures { OnOk result (out.new ≡ out.old
        ++ flat_map (spec.default_blames (λ names n. spec.node n names)) interface.now) }
{
    for declaration in interface {
        push_default(alloc, declaration, out)?;
    }
    Ok(())
}

/// Appends the blames for an interface.
#[cycle(text)]
fn push_interface(
    alloc: Global,
    interface: &[Declaration<NodeText>],
    out: &mut Items<Blame>,
) -> Result<(), AllocError>
    ensures { OnOk result (out.new ≡ out.old
        ++ (spec.twice FieldTwice [] (map spec.declared_name interface.now)
        ++ flat_map (spec.default_blames (λ names n. spec.node n names)) interface.now)) }
{
    push_declared_twice(alloc, interface, out)?;
    push_defaults(alloc, interface, out)
}

#[cycle(text)]
#[tactic(auto, using(crate::proofs::Walks::proto_lemmas))]
fn push_proto(alloc: Global, proto: &ProtoText, out: &mut Items<Blame>) -> Result<(), AllocError>
    ensures { OnOk result (out.new ≡ out.old ++ (spec.proto proto.now).blames) }
{
    push_type(proto.line, &proto.name, out)?;
    push_interface(alloc, proto.interface.as_slice(), out)?;
    push_statements(
        alloc,
        proto.body.as_slice(),
        proto.interface.as_slice(),
        out,
    )
}

/// Appends the blames for a list of statements.
#[cycle(text)]
fn push_statements(
    alloc: Global,
    statements: &[Statement],
    outer: &[Declaration<NodeText>],
    out: &mut Items<Blame>,
) -> Result<(), AllocError>
    ensures { OnOk result (out.new ≡ out.old
        ++ spec.statements_blames (spec.names_of outer.now) statements.now) }
{
    push_protos_twice(alloc, statements, out)?;
    push_each_statement(alloc, statements, outer, out)
}

#[cycle(text)]
fn push_each_statement(
    alloc: Global,
    statements: &[Statement],
    outer: &[Declaration<NodeText>],
    out: &mut Items<Blame>,
) -> Result<(), AllocError>
    ensures { OnOk result (out.new ≡ out.old
        ++ flat_map (λ s. (spec.statement s).blames (spec.names_of outer.now)) statements.now) }
{
    for statement in statements {
        push_statement(alloc, statement, outer, out)?;
    }
    Ok(())
}

#[cycle(text)]
#[tactic(auto, using(crate::proofs::Walks::statement_lemmas))]
fn push_statement(
    alloc: Global,
    statement: &Statement,
    outer: &[Declaration<NodeText>],
    out: &mut Items<Blame>,
) -> Result<(), AllocError>
    ensures { OnOk result (out.new ≡ out.old
        ++ (spec.statement statement.now).blames (spec.names_of outer.now)) }
{
    match statement {
        Statement::Node(node) => push_node(alloc, node, outer, out),
        Statement::Route(_route) => Ok(()),
        Statement::Proto(proto) => push_proto(alloc, proto, out),
    }
}

/// Returns the blames for all faults of a document that the braces, the interface or the list of
/// statements around them tell: fields that are given twice, each IS of a name that the interface
/// lacks, and prototypes with a name that is taken. Fails if memory runs out.
pub fn text_blames_of(alloc: Global, document: &Document) -> Result<Items<Blame>, AllocError>
    ensures { IfOk result (λ blames. blames ≡ spec.text_blames document.now) }
{
    let mut blames = Items::new(alloc);
    push_statements(alloc, document.statements.as_slice(), &[], &mut blames)?;
    Ok(blames)
}
