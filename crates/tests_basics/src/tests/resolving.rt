//! How the words of a text are resolved.

use classic_text::read;
use classic_tree::Document;
use proto_meaning::{BodyTree, FieldTree, GivenTree, ItemTree, NodeTree, TextTree, Word};
use proto_resolver::resolve;
use std::alloc::{AllocError, Global};

/// A text, and the marks of its tree: for each prototype its default values and its body in
/// brackets, then the statements. `N` is a node, `I` an instance with its prototype's number, `?`
/// an unknown word, `U` a USE. A field has `-` before a value that goes nowhere and `:` before an
/// IS. `!` is a wrong declaration.
struct Marked(&'static str, &'static str);

fn mark_word(marks: &mut String, word: Word) -> Result<(), AllocError> {
    match word {
        Word::Unknown => marks.push_str("?"),
        Word::Node(_node_type) => marks.push_str("N"),
        Word::Instance(0) => marks.push_str("I0"),
        Word::Instance(1) => marks.push_str("I1"),
        Word::Instance(_number) => marks.push_str("I"),
    }
}

#[cycle(mark)]
fn mark_node(marks: &mut String, node: &NodeTree<'_>) -> Result<(), AllocError> {
    match node {
        NodeTree::Use(_line, _name) => marks.push_str("U"),
        NodeTree::Full(_line, _name, word, items) => mark_full(marks, *word, items.as_slice()),
    }
}

#[cycle(mark)]
fn mark_full(marks: &mut String, word: Word, items: &[ItemTree<'_>]) -> Result<(), AllocError> {
    mark_word(marks, word)?;
    marks.push_str("{")?;
    for item in items {
        mark_item(marks, item)?;
    }
    marks.push_str("}")
}

#[cycle(mark)]
fn mark_item(marks: &mut String, item: &ItemTree<'_>) -> Result<(), AllocError> {
    match item {
        ItemTree::Field(_line, name, given) => {
            marks.push_str(name.as_str())?;
            mark_given(marks, given)
        }
        ItemTree::Declaration(declaration, given) => {
            marks.push_str(declaration.name.as_str())?;
            mark_given(marks, given)
        }
        ItemTree::Route(_route) => marks.push_str("R"),
        ItemTree::Wrong(_fault) => marks.push_str("!"),
    }
}

#[cycle(mark)]
fn mark_given(marks: &mut String, given: &FieldTree<'_>) -> Result<(), AllocError> {
    match given {
        GivenTree::Nothing => Ok(()),
        GivenTree::Is(_name) => marks.push_str(":"),
        GivenTree::Plain(_value) => marks.push_str("="),
        GivenTree::One(node) => mark_node(marks, node),
        GivenTree::Many(_count, nodes) => mark_nodes(marks, nodes.as_slice()),
        GivenTree::LeftOut(None) => marks.push_str("-"),
        GivenTree::LeftOut(Some(_fault)) => marks.push_str("-!"),
    }
}

#[cycle(mark)]
fn mark_nodes(marks: &mut String, nodes: &[NodeTree<'_>]) -> Result<(), AllocError> {
    for node in nodes {
        mark_node(marks, node)?;
    }
    Ok(())
}

fn mark_statement(marks: &mut String, statement: &BodyTree<'_>) -> Result<(), AllocError> {
    match statement {
        BodyTree::Node(node) => mark_node(marks, node),
        BodyTree::Route(_route) => marks.push_str("R"),
        BodyTree::Wrong(_fault) => marks.push_str("!"),
    }
}

fn mark_body(marks: &mut String, body: &[BodyTree<'_>]) -> Result<(), AllocError> {
    for statement in body {
        mark_statement(marks, statement)?;
    }
    Ok(())
}

fn mark_text(marks: &mut String, text: &TextTree<'_>) -> Result<(), AllocError> {
    for proto in text.protos.as_slice() {
        marks.push_str("[")?;
        for default in proto.defaults.as_slice() {
            marks.push_str(default.declaration.name.as_str())?;
            mark_given(marks, &default.value)?;
        }
        marks.push_str("]")?;
        mark_body(marks, proto.body.as_slice())?;
        marks.push_str(" ")?;
    }
    mark_body(marks, text.statements.as_slice())
}

fn marks_of(alloc: Global, document: &Document) -> Result<String, AllocError> {
    let text = resolve(alloc, document)?;
    let mut marks = String::new(alloc);
    let marked = mark_text(&mut marks, &text);
    drop(text);
    match marked {
        Ok(()) => Ok(marks),
        Err(error) => Err(error),
    }
}

fn holds(alloc: Global, row: &Marked) -> bool {
    let Ok(document) = read(alloc, row.0.as_bytes()) else {
        return false;
    };
    let marks = marks_of(alloc, &document);
    drop(document);
    let Ok(marks) = marks else {
        return false;
    };
    let same = marks.as_str() == row.1;
    drop(marks);
    same
}

static ROWS: [Marked; 6] = [
    Marked(
        "#X3D V3.0 utf8\nGroup { children [ Box {} Lamp {} ] }",
        "N{childrenN{}?{}}",
    ),
    Marked(
        "#X3D V3.0 utf8\nPROTO Lamp [ initializeOnly SFVec3f size 1 1 1 \
            initializeOnly SFBool on TRUE ] { Box { size IS size } }\nLamp { size 2 2 2 on FALSE }",
        "[size=]N{size:} I0{size=on-}",
    ),
    Marked(
        "#X3D V3.0 utf8\nPROTO Lamp [] { PROTO Bulb [] { Box {} } Bulb {} }\nLamp {}\nBulb {}",
        "[]N{} []I0{} I1{}?{}",
    ),
    Marked(
        "#X3D V3.0 utf8\nPROTO Lamp [ initializeOnly SFNode shade NULL ] { Group {} }\n\
            Lamp { shade Group { PROTO Bulb [] { Box {} } } }\nBulb {}",
        "[]N{} []N{} I0{shade-}I1{}",
    ),
    Marked(
        "#X3D V3.0 utf8\n\
            Group { children [ Box {} Group { PROTO Box [] { Group {} } } Box {} ] }\nGroup {}",
        "N{childrenN{}N{!}}",
    ),
    Marked(
        "#X3D V3.0 utf8\nPROTO Lamp [] { Box {} }\nPROTO Lamp [] { Group {} }\nLamp {}",
        "[]N{} !",
    ),
];

#[test]
fn words_are_resolved(rt: HostRuntime) {
    for (number, row) in ROWS.iter().enumerate() {
        assert!(rt; holds(rt.alloc(), row), "row {number}");
    }
}
