//! A Classic text as a tree, before any type is known (ISO/IEC 19776-2, grammar). Each node, field,
//! declaration and ROUTE has the line of its first word.

use classic_lex::Version;
use std::alloc::{AllocError, Global};
use x3d_values::{Access, Duplicate, FieldType, Items, Text};

/// One end of a ROUTE, `node.field`.
#[derive(Drop)]
pub struct RouteEnd {
    pub node: Text,
    pub field: Text,
}

/// `ROUTE source TO target`.
#[derive(Drop)]
pub struct RouteText {
    pub line: u32,
    pub source: RouteEnd,
    pub target: RouteEnd,
}

/// The value of a field as it is written; `N` is the type of a node in it. Numerals are whole
/// millionths, strings are without escapes. `Numbers` is a run of one or more numerals without
/// brackets. Lists other than `EmptyList` have at least one item.
#[derive(Drop)]
pub enum RawValue<N> {
    Null,
    Truth(bool),
    String(Text),
    Numbers(Items<i64>),
    Node(N),
    EmptyList,
    TruthList(Items<bool>),
    StringList(Items<Text>),
    NumberList(Items<i64>),
    NodeList(Items<N>),
}

/// What follows the name of a field or of a declaration.
#[derive(Drop)]
pub enum Given<N> {
    /// A declaration without a value.
    Nothing,
    Value(RawValue<N>),
    /// `IS name`.
    Is(Text),
}

/// A field of the interface of a PROTO or a Script.
#[derive(Drop)]
pub struct Declaration<N> {
    pub line: u32,
    pub access: Access,
    pub field_type: FieldType,
    pub name: Text,
    pub given: Given<N>,
}

/// An item between the braces of a node.
#[cycle(tree)]
#[derive(Drop)]
pub enum BodyItem {
    /// The line and the name of a field, and its value or `IS name`.
    Field(u32, Text, Given<NodeText>),
    Declaration(Declaration<NodeText>),
    Route(RouteText),
    Proto(ProtoText),
}

/// A statement of a text or of the body of a PROTO.
#[cycle(tree)]
#[derive(Drop)]
pub enum Statement {
    Node(NodeText),
    Route(RouteText),
    Proto(ProtoText),
}

/// A node in a text.
#[cycle(tree)]
#[derive(Drop)]
pub enum NodeText {
    /// `USE name`, with its line.
    Use(u32, Text),
    /// The line, the name given by DEF, the type and the body.
    Full(u32, Option<Text>, Text, Items<BodyItem>),
}

/// The declaration of a prototype.
#[cycle(tree)]
#[derive(Drop)]
pub struct ProtoText {
    pub line: u32,
    pub name: Text,
    pub interface: Items<Declaration<NodeText>>,
    pub body: Items<Statement>,
}

/// `META "key" "content"`.
#[derive(Drop)]
pub struct Meta {
    pub key: Text,
    pub content: Text,
}

impl Duplicate for Meta {
    fn duplicate(&self, alloc: Global) -> Result<Meta, AllocError> {
        let key = self.key.duplicate(alloc)?;
        let content = self.content.duplicate(alloc)?;
        Ok(Meta { key, content })
    }
}

/// A whole text: its version, its header statements and its statements.
#[derive(Drop)]
pub struct Document {
    pub version: Version,
    pub profile: Option<Text>,
    /// Each is a name, a colon and a level, such as `Navigation:2`.
    pub components: Items<Text>,
    pub metas: Items<Meta>,
    pub statements: Items<Statement>,
}
