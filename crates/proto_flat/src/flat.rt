//! A flat document: its nodes by number, without names and prototypes.

use classic_lex::Version;
use classic_tree::{Declaration, Meta, RawValue};
use x3d_lists::{Items, Text};
use x3d_values::NodeType;

/// The version and the header statements of a text, kept for writing the scene as text.
#[derive(Drop)]
pub struct Header {
    pub version: Version,
    pub profile: Option<Text>,
    /// A name, a colon and a level each, such as `Navigation:2`.
    pub components: Items<Text>,
    pub metas: Items<Meta>,
}

/// A field to which a node gives a value. Nodes in the value are node numbers of the same `Flat`.
#[derive(Drop)]
pub struct FlatField {
    /// The line of the field's name.
    pub line: u32,
    /// The field's number among the fields of its node's type. The fields of a Script's interface
    /// follow, numbered from the count of the type's fields on.
    pub number: u16,
    pub value: RawValue<u32>,
}

/// A node of the flat document.
#[derive(Drop)]
pub struct FlatNode {
    /// The line of the node's first word.
    pub line: u32,
    /// The name from DEF.
    pub name: Option<Text>,
    pub node_type: NodeType,
    /// The fields in the order of the text. No field appears twice.
    pub fields: Items<FlatField>,
    /// The declarations of a Script, in the order of the text.
    pub interface: Items<Declaration<u32>>,
}

/// An end of a route.
#[derive(Drop)]
pub enum FlatEnd {
    /// A node, and the name of a field that the node may have.
    At(u32, Text),
    /// No DEF of that name appears before the ROUTE.
    NoNode,
    /// The interface of the instance has no field of that name.
    NoField,
    /// The interface field isn't an output (for a source), or isn't an input (for a destination).
    WrongWay,
}

/// A route from an output to an input.
#[derive(Drop)]
pub struct FlatRoute {
    /// The line of the word ROUTE.
    pub line: u32,
    pub source: FlatEnd,
    pub target: FlatEnd,
}

/// A whole expanded document. Nodes are numbered in the order in which they close.
#[derive(Drop)]
pub struct Flat {
    pub header: Header,
    pub nodes: Items<FlatNode>,
    pub roots: Items<u32>,
    /// The nodes of prototype bodies after the first of each body, in the order of their instances.
    pub helpers: Items<u32>,
    pub routes: Items<FlatRoute>,
}
