//! The search for a node of one type inside a declaration.

ghost use Rattle.std.specs.Prelude.{◌≡◌, ◌&&◌, not, Ok, Err};
ghost use Rattle.std.specs.Str.{bytes_eq};
ghost use Rattle.classic_tree.specs.declared.tree.ProtoText.{out-ProtoText};
ghost use Rattle.proto_meaning.specs.Flat as flat;
ghost use Rattle.proto_meaning.specs.Sight.{and_see, each};
ghost use Rattle.proto_meaning.specs.Texts as spec;

use classic_tree::{BodyItem, Declaration, Given, NodeText, ProtoText, RawValue, Statement};
use x3d_lists::Text;

/// Reports whether the texts are equal.
pub fn same(a: &Text, b: &Text) -> bool
    ensures { result ≡ bytes_eq a.now b.now }
{
    a.as_bytes() == b.as_bytes()
}

/// Searches the interface and the body of a prototype for a node with the word `own`. `hidden` says
/// whether a PROTO of that name was declared before, in a scope inside the one that is searched.
/// Returns Err with the line of the first node that isn't hidden, or Ok with whether the name is
/// hidden after the part.
#[cycle(find)]
pub fn find_inside(own: &Text, proto: &ProtoText, hidden: bool) -> Result<bool, u32>
    ensures { result
        ≡ spec.finds_inside (out-ProtoText proto.now).interface (out-ProtoText proto.now).body
        own.now hidden }
{
    let hides = find_in_interface(own, proto.interface.as_slice(), hidden)?;
    find_in_body(own, proto.body.as_slice(), hides)
}

#[cycle(find)]
fn find_in_interface(
    own: &Text,
    interface: &[Declaration<NodeText>],
    hidden: bool,
) -> Result<bool, u32>
    ensures { result
        ≡ each (λ d. spec.finds_given own.now d.given) interface.now hidden }
{
    let mut hides = hidden;
    for declaration in interface {
        hides = find_in_given(own, &declaration.given, hides)?;
    }
    Ok(hides)
}

#[cycle(find)]
fn find_in_body(own: &Text, body: &[Statement], hidden: bool) -> Result<bool, u32>
    ensures { result ≡ each (λ s. (flat.statement s).1.finds own.now) body.now hidden }
{
    let mut hides = hidden;
    for statement in body {
        hides = find_in_statement(own, statement, hides)?;
    }
    Ok(hides)
}

#[cycle(find)]
#[tactic(auto, using(crate::proofs::Equations::finds))]
fn find_in_statement(own: &Text, statement: &Statement, hidden: bool) -> Result<bool, u32>
    ensures { result ≡ (flat.statement statement.now).1.finds own.now hidden }
{
    match statement {
        Statement::Node(node) => find_in_node(own, node, hidden),
        Statement::Route(_route) => Ok(hidden),
        Statement::Proto(proto) => find_in_proto(own, proto, hidden),
    }
}

#[cycle(find)]
#[tactic(auto, using(crate::proofs::Equations::finds))]
fn find_in_proto(own: &Text, proto: &ProtoText, hidden: bool) -> Result<bool, u32>
    ensures { result ≡ (flat.proto proto.now).finds own.now hidden }
{
    find_inside(own, proto, hidden)?;
    Ok(same(&proto.name, own) || hidden)
}

#[cycle(find)]
#[tactic(auto, using(crate::proofs::Equations::finds))]
fn find_in_node(own: &Text, node: &NodeText, hidden: bool) -> Result<bool, u32>
    ensures { result ≡ (flat.node node.now).finds own.now hidden }
{
    match node {
        NodeText::Use(_line, _name) => Ok(hidden),
        NodeText::Full(line, _name, word, items) => {
            find_in_full(own, *line, word, items.as_slice(), hidden)
        }
    }
}

#[cycle(find)]
fn find_in_full(
    own: &Text,
    line: u32,
    word: &Text,
    items: &[BodyItem],
    hidden: bool,
) -> Result<bool, u32>
    ensures { result ≡ spec.finds_full line word.now items.now own.now hidden }
{
    if !hidden && same(word, own) {
        return Err(line);
    }
    let mut hides = hidden;
    for item in items {
        hides = find_in_item(own, item, hides)?;
    }
    Ok(hides)
}

#[cycle(find)]
#[tactic(auto, using(crate::proofs::Equations::finds))]
fn find_in_item(own: &Text, item: &BodyItem, hidden: bool) -> Result<bool, u32>
    ensures { result ≡ (flat.item item.now).finds own.now hidden }
{
    match item {
        BodyItem::Field(_line, _name, given) => find_in_given(own, given, hidden),
        BodyItem::Declaration(declaration) => find_in_given(own, &declaration.given, hidden),
        BodyItem::Route(_route) => Ok(hidden),
        BodyItem::Proto(proto) => find_in_proto(own, proto, hidden),
    }
}

#[cycle(find)]
fn find_in_given(own: &Text, given: &Given<NodeText>, hidden: bool) -> Result<bool, u32>
    ensures { result ≡ spec.finds_given own.now given.now hidden }
{
    match given {
        Given::Nothing => Ok(hidden),
        Given::Value(value) => find_in_value(own, value, hidden),
        Given::Is(_name) => Ok(hidden),
    }
}

#[cycle(find)]
fn find_in_value(own: &Text, value: &RawValue<NodeText>, hidden: bool) -> Result<bool, u32>
    ensures { result ≡ spec.finds_value own.now value.now hidden }
{
    match value {
        RawValue::Node(node) => find_in_node(own, node, hidden),
        RawValue::NodeList(nodes) => find_in_nodes(own, nodes.as_slice(), hidden),
        _ => Ok(hidden),
    }
}

#[cycle(find)]
fn find_in_nodes(own: &Text, nodes: &[NodeText], hidden: bool) -> Result<bool, u32>
    ensures { result ≡ each (λ n. (flat.node n).finds own.now) nodes.now hidden }
{
    let mut hides = hidden;
    for node in nodes {
        hides = find_in_node(own, node, hides)?;
    }
    Ok(hides)
}
