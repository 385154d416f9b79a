//! Writes a tree: each statement and each item of a body on a line of its own, two spaces deeper
//! than the braces or brackets around it.

ghost use Rattle.std.specs.Prelude.{◌≡◌, ◌++◌, ◌∷◌, ◌+◌, [], codes, OnOk, OnErr, IfOk};
ghost use Rattle.x3d_lists.specs.Extends.{Extends};
ghost use Rattle.classic_tree.specs.Writing.{lines_text, deeper_text, block_text, value_text, given_text, declaration_text, item_text, node_text, statement_text, proto_text, document_text};

use crate::header::push_top;
use crate::parts::{push_declared, push_head, push_proto_head, push_route};
use crate::spaces::push_spaces;
use crate::tree::{
    BodyItem, Declaration, Document, Given, NodeText, ProtoText, RawValue, Statement,
};
use std::alloc::AllocError;
use x3d_values::{Show, push_joined, push_list, push_pieces};

/// Returns two more spaces of indentation. Fails past the range of `usize`, where the line would
/// not fit in memory.
fn deeper(indent: usize) -> Result<usize, AllocError>
    ensures { IfOk result (λ n. n ≡ indent + 2) }
{
    indent.checked_add(2).ok_or(AllocError)
}

#[cycle(push)]
#[tactic(auto, using(crate::proofs::Equations::node_lemmas))]
fn push_node(node: &NodeText, indent: usize, out: &mut Vec<u8>) -> Result<(), AllocError>
    ensures ok { OnOk result (out.new.items ≡ out.old.items ++ node_text node.now indent) }
    ensures kept { Extends out.old.items out.new.items }
{
    match node {
        NodeText::Use(_line, name) => push_pieces(&[b"USE ", name.as_bytes()], out),
        NodeText::Full(_line, name, node_type, items) => {
            push_head(name, node_type, out)?;
            push_items(items.as_slice(), indent, out)?;
            out.push(b'}')?;
            Ok(())
        }
    }
}

#[cycle(push)]
#[tactic(auto, using(crate::proofs::Equations::item_lemmas))]
fn push_item(item: &BodyItem, indent: usize, out: &mut Vec<u8>) -> Result<(), AllocError>
    ensures ok { OnOk result (out.new.items ≡ out.old.items ++ item_text item.now indent) }
    ensures kept { Extends out.old.items out.new.items }
{
    match item {
        BodyItem::Field(_line, name, given) => {
            out.extend_from_slice(name.as_bytes())?;
            push_given(given, indent, out)
        }
        BodyItem::Declaration(declaration) => push_declaration(declaration, indent, out),
        BodyItem::Route(route) => push_route(route, out),
        BodyItem::Proto(proto) => push_proto(proto, indent, out),
    }
}

#[cycle(push)]
fn push_given(given: &Given<NodeText>, indent: usize, out: &mut Vec<u8>) -> Result<(), AllocError>
    ensures ok { OnOk result
        (out.new.items ≡ out.old.items ++ given_text node_text given.now indent) }
    ensures kept { Extends out.old.items out.new.items }
{
    match given {
        Given::Nothing => Ok(()),
        Given::Value(value) => {
            out.push(b' ')?;
            push_value(value, indent, out)
        }
        Given::Is(name) => push_pieces(&[b" IS ", name.as_bytes()], out),
    }
}

#[cycle(push)]
fn push_value(
    value: &RawValue<NodeText>,
    indent: usize,
    out: &mut Vec<u8>,
) -> Result<(), AllocError>
    ensures ok { OnOk result
        (out.new.items ≡ out.old.items ++ value_text node_text value.now indent) }
    ensures kept { Extends out.old.items out.new.items }
{
    match value {
        RawValue::Null => out.extend_from_slice(b"NULL"),
        RawValue::Truth(truth) => truth.show(out),
        RawValue::String(text) => text.show(out),
        RawValue::Numbers(numbers) => push_joined(numbers.as_slice(), out),
        RawValue::Node(node) => push_node(node, indent, out),
        RawValue::EmptyList => out.extend_from_slice(b"[]"),
        RawValue::TruthList(truths) => push_list(truths.as_slice(), out),
        RawValue::StringList(texts) => push_list(texts.as_slice(), out),
        RawValue::NumberList(numbers) => push_list(numbers.as_slice(), out),
        RawValue::NodeList(nodes) => {
            out.push(b'[')?;
            push_nodes(nodes.as_slice(), indent, out)?;
            out.push(b']')?;
            Ok(())
        }
    }
}

#[cycle(push)]
fn push_declaration(
    declaration: &Declaration<NodeText>,
    indent: usize,
    out: &mut Vec<u8>,
) -> Result<(), AllocError>
    ensures ok { OnOk result
        (out.new.items ≡ out.old.items ++ declaration_text node_text declaration.now indent) }
    ensures kept { Extends out.old.items out.new.items }
{
    push_declared(declaration, out)?;
    push_given(&declaration.given, indent, out)
}

#[cycle(push)]
#[tactic(auto, using(crate::proofs::Equations::proto_lemmas))]
fn push_proto(proto: &ProtoText, indent: usize, out: &mut Vec<u8>) -> Result<(), AllocError>
    ensures ok { OnOk result (out.new.items ≡ out.old.items ++ proto_text proto.now indent) }
    ensures kept { Extends out.old.items out.new.items }
{
    push_proto_head(&proto.name, out)?;
    push_interface(proto.interface.as_slice(), indent, out)?;
    push_body(proto.body.as_slice(), indent, out)
}

#[cycle(push)]
#[tactic(auto, using(crate::proofs::Equations::statement_lemmas))]
fn push_statement(statement: &Statement, indent: usize, out: &mut Vec<u8>) -> Result<(), AllocError>
    ensures ok { OnOk result
        (out.new.items ≡ out.old.items ++ statement_text statement.now indent) }
    ensures kept { Extends out.old.items out.new.items }
{
    match statement {
        Statement::Node(node) => push_node(node, indent, out),
        Statement::Route(route) => push_route(route, out),
        Statement::Proto(proto) => push_proto(proto, indent, out),
    }
}

/// Appends the items of a node, up to its closing brace.
#[cycle(push)]
fn push_items(items: &[BodyItem], indent: usize, out: &mut Vec<u8>) -> Result<(), AllocError>
    ensures ok { OnOk result
        (out.new.items ≡ out.old.items ++ block_text item_text indent items.now) }
    ensures kept { Extends out.old.items out.new.items }
{
    if items.is_empty() {
        return Ok(());
    }
    out.push(b'\n')?;
    push_item_lines(items, deeper(indent)?, out)?;
    push_spaces(indent, out)
}

/// Appends each item on its own line.
#[cycle(push)]
fn push_item_lines(items: &[BodyItem], indent: usize, out: &mut Vec<u8>) -> Result<(), AllocError>
    ensures ok { OnOk result
        (out.new.items ≡ out.old.items ++ lines_text item_text indent items.now) }
    ensures kept { Extends out.old.items out.new.items }
{
    for item in items {
        push_spaces(indent, out)?;
        push_item(item, indent, out)?;
        out.push(b'\n')?;
    }
    Ok(())
}

/// Appends the nodes of a list, up to its closing bracket.
#[cycle(push)]
fn push_nodes(nodes: &[NodeText], indent: usize, out: &mut Vec<u8>) -> Result<(), AllocError>
    ensures ok { OnOk result
        (out.new.items ≡ out.old.items ++ block_text node_text indent nodes.now) }
    ensures kept { Extends out.old.items out.new.items }
{
    if nodes.is_empty() {
        return Ok(());
    }
    out.push(b'\n')?;
    push_node_lines(nodes, deeper(indent)?, out)?;
    push_spaces(indent, out)
}

/// Appends each node on its own line.
#[cycle(push)]
fn push_node_lines(nodes: &[NodeText], indent: usize, out: &mut Vec<u8>) -> Result<(), AllocError>
    ensures ok { OnOk result
        (out.new.items ≡ out.old.items ++ lines_text node_text indent nodes.now) }
    ensures kept { Extends out.old.items out.new.items }
{
    for node in nodes {
        push_spaces(indent, out)?;
        push_node(node, indent, out)?;
        out.push(b'\n')?;
    }
    Ok(())
}

/// Appends the declarations of a prototype, up to the closing bracket.
#[cycle(push)]
fn push_interface(
    declarations: &[Declaration<NodeText>],
    indent: usize,
    out: &mut Vec<u8>,
) -> Result<(), AllocError>
    ensures ok { OnOk result
        (out.new.items ≡ out.old.items
        ++ block_text (declaration_text node_text) indent declarations.now) }
    ensures kept { Extends out.old.items out.new.items }
{
    if declarations.is_empty() {
        return Ok(());
    }
    out.push(b'\n')?;
    push_declaration_lines(declarations, deeper(indent)?, out)?;
    push_spaces(indent, out)
}

/// Appends each declaration on its own line.
#[cycle(push)]
fn push_declaration_lines(
    declarations: &[Declaration<NodeText>],
    indent: usize,
    out: &mut Vec<u8>,
) -> Result<(), AllocError>
    ensures ok { OnOk result
        (out.new.items ≡ out.old.items
        ++ lines_text (declaration_text node_text) indent declarations.now) }
    ensures kept { Extends out.old.items out.new.items }
{
    for declaration in declarations {
        push_spaces(indent, out)?;
        push_declaration(declaration, indent, out)?;
        out.push(b'\n')?;
    }
    Ok(())
}

/// Appends the body of a prototype, from the bracket before it to its closing brace.
#[cycle(push)]
fn push_body(body: &[Statement], indent: usize, out: &mut Vec<u8>) -> Result<(), AllocError>
    ensures ok { OnOk result
        (out.new.items ≡ out.old.items
        ++ (codes "] {" ++ deeper_text statement_text indent body.now ++ 125 ∷ [])) }
    ensures kept { Extends out.old.items out.new.items }
{
    out.extend_from_slice(b"] {\n")?;
    push_statement_lines(body, deeper(indent)?, out)?;
    push_spaces(indent, out)?;
    out.push(b'}')?;
    Ok(())
}

/// Appends each statement on its own line.
#[cycle(push)]
fn push_statement_lines(
    statements: &[Statement],
    indent: usize,
    out: &mut Vec<u8>,
) -> Result<(), AllocError>
    ensures ok { OnOk result
        (out.new.items ≡ out.old.items ++ lines_text statement_text indent statements.now) }
    ensures kept { Extends out.old.items out.new.items }
{
    for statement in statements {
        push_spaces(indent, out)?;
        push_statement(statement, indent, out)?;
        out.push(b'\n')?;
    }
    Ok(())
}

#[tactic(auto, unfolding(crate::specs::Writing::document_text))]
fn push_document(document: &Document, out: &mut Vec<u8>) -> Result<(), AllocError>
    ensures ok { OnOk result (out.new.items ≡ out.old.items ++ document_text document.now) }
    ensures kept { Extends out.old.items out.new.items }
{
    push_top(document, out)?;
    push_statement_lines(document.statements.as_slice(), 0, out)
}

/// Appends the text of the tree. Fails, with the buffer unchanged, if memory runs out.
pub fn write(document: &Document, out: &mut Vec<u8>) -> Result<(), AllocError>
    ensures ok { OnOk result (out.new.items ≡ out.old.items ++ document_text document.now) }
    ensures err { OnErr result (out.new.items ≡ out.old.items) }
{
    let len = out.len();
    let written = push_document(document, out);
    if written.is_err() {
        out.truncate(len);
    }
    written
}
