//! The work that is left, on the heap.

use crate::walker::Walker;
use proto_meaning::{BodyTree, DefaultTree, ItemTree, NodeTree, ProtoTree, Word};
use proto_parts::{Given, Inside, Interface, KnownField, Scope};
use x3d_lists::{Items, Text};

/// A prototype, and its interface.
#[derive(Drop)]
pub struct Proto<'t, 'a> {
    pub tree: &'t ProtoTree<'a>,
    pub interface: Interface<'a>,
}

/// Braces that are open: what is between them so far, and the items that are left.
#[derive(Drop)]
pub struct Open<'t, 'a> {
    pub line: u32,
    pub name: &'a Option<Text>,
    /// The number of braces of the scope that opened before them.
    pub at: usize,
    /// What the word before them means.
    pub word: Word,
    pub rest: &'t [ItemTree<'a>],
    pub inside: Inside<'t, 'a>,
}

/// What is around the body of an instance: its prototype, its name, its braces, and the scope that
/// goes on after it.
#[derive(Drop)]
pub struct Around<'t, 'a> {
    pub proto: &'t Proto<'t, 'a>,
    pub name: &'a Option<Text>,
    pub at: usize,
    pub scope: Scope<'t, 'a>,
}

/// What an instance is given, and its default values, which are added before its body.
#[derive(Drop)]
pub struct Filling<'t, 'a> {
    pub rest: &'t [DefaultTree<'a>],
    pub given: Given<'a>,
    pub defaults: Given<'a>,
    pub around: Box<Around<'t, 'a>>,
}

/// The body of an instance: its first node so far, and the statements that are left.
#[derive(Drop)]
pub struct ProtoBody<'t, 'a> {
    pub rest: &'t [BodyTree<'a>],
    pub first: Option<u32>,
    pub around: Box<Around<'t, 'a>>,
}

/// The field that waits for a value.
#[derive(Clone, Copy)]
pub struct FieldAt<'a> {
    pub line: u32,
    pub name: &'a Text,
    pub field: KnownField,
}

/// What holds the fields that are given values.
#[derive(Drop)]
pub enum Holder<'t, 'a> {
    Braces(Open<'t, 'a>),
    Defaults(Filling<'t, 'a>),
}

/// A list of nodes in a field: the nodes that are left, and the numbers of those before.
#[derive(Drop)]
pub struct Listing<'t, 'a> {
    pub place: FieldAt<'a>,
    pub rest: &'t [NodeTree<'a>],
    pub numbers: Items<u32>,
}

/// What comes next in a holder.
#[derive(Clone, Copy)]
pub enum Next<'t, 'a> {
    /// The next step of the holder.
    On,
    /// A field's value is this node.
    One(FieldAt<'a>, &'t NodeTree<'a>),
    /// A field's value is a list of these nodes.
    List(FieldAt<'a>, &'t [NodeTree<'a>]),
    /// Nothing is left.
    Closed,
}

/// What waits for the number of a node.
#[derive(Drop)]
pub enum Frame<'t, 'a> {
    /// The field whose value is this node.
    One(Holder<'t, 'a>, FieldAt<'a>),
    /// The list in which this node is next.
    List(Holder<'t, 'a>, Listing<'t, 'a>),
    /// The body whose statement is this node.
    Body(ProtoBody<'t, 'a>),
}

/// What is to be done next.
#[derive(Drop)]
pub enum NodeTask<'t, 'a> {
    On(Holder<'t, 'a>),
    List(Holder<'t, 'a>, Listing<'t, 'a>),
    Body(ProtoBody<'t, 'a>),
    /// A node whose number this frame waits for.
    NodeFor(Frame<'t, 'a>, &'t NodeTree<'a>),
    /// The last frame gets the number that it waits for.
    Number(u32),
}

/// The whole state of the walk.
#[derive(Drop)]
pub struct WalkState<'t, 'a> {
    pub protos: &'t [Proto<'t, 'a>],
    pub walker: Walker<'t, 'a>,
    pub frames: Vec<Frame<'t, 'a>>,
}
