//! A text whose words are resolved.

use classic_tree::{Declaration, NodeText, ProtoText, RawValue, RouteText};
use proto_flat::ExpandFault;
use x3d_lists::{Items, Text};
use x3d_values::NodeType;

/// What the word before braces means.
#[derive(Clone, Copy)]
pub enum Word {
    Unknown,
    /// The braces of a node of that type.
    Node(NodeType),
    /// The braces of an instance of the prototype of that number.
    Instance(usize),
}

/// What a field is given; `I` is the name after IS, `V` a value without nodes, `N` a node.
#[derive(Drop)]
pub enum GivenTree<I, V, N> {
    Nothing,
    Is(I),
    Plain(V),
    One(N),
    /// The number of nodes in the text, and the nodes up to the first with a wrong declaration.
    Many(usize, Items<N>),
    /// A value that no IS takes, and the first wrong declaration in it.
    LeftOut(Option<ExpandFault>),
}

/// What a field is given, with names and values borrowed from the text.
pub type FieldTree<'a> = GivenTree<&'a Text, &'a RawValue<NodeText>, NodeTree<'a>>;

/// A node of the text.
#[cycle(resolved)]
#[derive(Drop)]
pub enum NodeTree<'a> {
    Use(u32, &'a Text),
    /// The line, the name given by DEF, what the word before the braces means, and the items
    /// between the braces, up to the first wrong declaration.
    Full(u32, &'a Option<Text>, Word, Items<ItemTree<'a>>),
}

/// An item between braces. A PROTO is left out, unless it is wrong.
#[cycle(resolved)]
#[derive(Drop)]
pub enum ItemTree<'a> {
    Field(u32, &'a Text, FieldTree<'a>),
    Declaration(&'a Declaration<NodeText>, FieldTree<'a>),
    Route(&'a RouteText),
    Wrong(ExpandFault),
}

/// A statement of a text or of a body. A PROTO is left out, unless it is wrong.
#[derive(Drop)]
pub enum BodyTree<'a> {
    Node(NodeTree<'a>),
    Route(&'a RouteText),
    Wrong(ExpandFault),
}

/// A default value that some IS takes.
#[derive(Drop)]
pub struct DefaultTree<'a> {
    pub declaration: &'a Declaration<NodeText>,
    pub value: FieldTree<'a>,
}

/// A prototype. Words in it can only mean prototypes before it.
#[derive(Drop)]
pub struct ProtoTree<'a> {
    pub text: &'a ProtoText,
    pub defaults: Items<DefaultTree<'a>>,
    pub body: Items<BodyTree<'a>>,
}

/// A whole text: its prototypes in the order of their closing braces, and its statements up to the
/// first wrong declaration.
#[derive(Drop)]
pub struct TextTree<'a> {
    pub protos: Items<ProtoTree<'a>>,
    pub statements: Items<BodyTree<'a>>,
}
