//! The start of a node or an instance, and the end of its braces.

ghost use Rattle.std.specs.Prelude.{◌≡◌, [], List, Some, map, option_map, slice_get, IfOk, IfSome};
ghost use Rattle.proto_meaning.specs.Flat as flat;
ghost use Rattle.proto_meaning.specs.Sight.{Prototype, OfType, OfProto};
ghost use Rattle.proto_parts.specs.Inside as braces;
ghost use Rattle.proto_parts.specs.Settled.{doing};
ghost use Rattle.proto_parts.specs.Put.{flat_of};
ghost use Rattle.proto_meaning.specs.trees.Meaning as meaning;
ghost use Rattle.proto_nodes.specs.Shown as shown;
ghost use Rattle.proto_nodes.specs.Steps.{using};
ghost use Rattle.proto_nodes.specs.Protos.{IsKnown, Knows, proto_by};
ghost use Rattle.proto_nodes.specs.Does.{braces_do, closes, instance_do, inside_now, open_does};
ghost use Rattle.proto_nodes.specs.Frames.{Goes, TaskSound};

use crate::frames::{Around, Filling, Holder, NodeTask, Open, Proto};
use crate::walker::Walker;
use proto_flat::{ExpandFault, ExpandFaultKind};
use proto_meaning::{ItemTree, NodeTree, Word};
use proto_parts::{Given, Inside, Interface, Owner, PlacedNode, declarations, flat_fields};
use std::alloc::{AllocError, Global};
use x3d_lists::Text;
use x3d_values::NodeType;

/// Braces of the text: the line of the first word, the name that DEF gives, what the word before
/// the braces means, and the items between them.
#[derive(Clone, Copy)]
pub struct BracedNode<'t, 'a> {
    pub line: u32,
    pub name: &'a Option<Text>,
    pub word: Word,
    pub items: &'t [ItemTree<'a>],
}

/// Opens braces.
fn open_braces<'t, 'a>(
    alloc: Global,
    walker: &mut Walker<'t, 'a>,
    text: BracedNode<'t, 'a>,
    owner: Owner<'t, 'a>,
) -> Result<NodeTask<'t, 'a>, ExpandFault>
    requires { shown.Sound walker.old }
    ensures goes { (ps : List Prototype) → Goes ps (doing (braces_do ps text.entry.line
        text.entry.name.now text.entry.word owner.entry text.entry.items.now)
        (shown.shown walker.old)) result (shown.shown walker.new) }
    ensures sound { IfOk result (λ t. TaskSound t) }
    ensures walker { IfOk result (λ _. shown.Sound walker.new) }
{
    let at = walker.open_braces(text.name)?;
    let inside = Inside::new(alloc, owner);
    Ok(NodeTask::On(Holder::Braces(Open {
        line: text.line,
        name: text.name,
        at,
        word: text.word,
        rest: text.items,
        inside,
    })))
}

fn begin_node<'t, 'a>(
    alloc: Global,
    walker: &mut Walker<'t, 'a>,
    text: BracedNode<'t, 'a>,
    node_type: NodeType,
) -> Result<NodeTask<'t, 'a>, ExpandFault>
    requires { shown.Sound walker.old }
    ensures goes { (ps : List Prototype) → Goes ps (doing (flat.full_node text.entry.line
        text.entry.name.now (map (meaning.item ps) text.entry.items.now) (Some (OfType node_type)))
        (shown.shown walker.old)) result (shown.shown walker.new) }
    ensures sound { IfOk result (λ t. TaskSound t) }
    ensures walker { IfOk result (λ _. shown.Sound walker.new) }
{
    walker.meet_node()?;
    open_braces(alloc, walker, text, Owner::Node(node_type))
}

/// Opens the braces of an instance.
fn open_instance<'t, 'a>(
    alloc: Global,
    walker: &mut Walker<'t, 'a>,
    text: BracedNode<'t, 'a>,
    interface: &'t Interface<'a>,
) -> Result<NodeTask<'t, 'a>, ExpandFault>
    requires { shown.Sound walker.old }
    ensures goes { (ps : List Prototype) → Goes ps (doing (instance_do ps text.entry.name.now
        (proto_by ps text.entry.word) interface.now text.entry.items.now) (shown.shown walker.old))
        result (shown.shown walker.new) }
    ensures sound { IfOk result (λ t. TaskSound t) }
    ensures walker { IfOk result (λ _. shown.Sound walker.new) }
{
    open_braces(alloc, walker, text, Owner::Instance(interface))
}

fn begin_instance<'t, 'a>(
    alloc: Global,
    walker: &mut Walker<'t, 'a>,
    text: BracedNode<'t, 'a>,
    proto: &'t Proto<'t, 'a>,
) -> Result<NodeTask<'t, 'a>, ExpandFault>
    requires { shown.Sound walker.old }
    ensures goes { (ps : List Prototype) (p : Prototype) → IsKnown ps p proto.now
        → proto_by ps text.entry.word ≡ p → Goes ps (doing (flat.full_node text.entry.line
        text.entry.name.now (map (meaning.item ps) text.entry.items.now) (Some (OfProto p)))
        (shown.shown walker.old)) result (shown.shown walker.new) }
    ensures sound { IfOk result (λ t. TaskSound t) }
    ensures walker { IfOk result (λ _. shown.Sound walker.new) }
{
    walker.meet_instance()?;
    walker.check_interface(&proto.interface)?;
    open_instance(alloc, walker, text, &proto.interface)
}

fn proto_at<'t, 'a>(protos: &'t [Proto<'t, 'a>], number: usize) -> Option<&'t Proto<'t, 'a>>
    ensures { option_map (λ p. p.now) result ≡ slice_get protos.now number }
{
    protos.get(number)
}

fn begin_full<'t, 'a>(
    alloc: Global,
    walker: &mut Walker<'t, 'a>,
    protos: &'t [Proto<'t, 'a>],
    text: BracedNode<'t, 'a>,
) -> Result<NodeTask<'t, 'a>, ExpandFault>
    requires { shown.Sound walker.old }
    ensures goes { (ps : List Prototype) → Knows ps protos.now → Goes ps (doing (flat.full_node
        text.entry.line text.entry.name.now (map (meaning.item ps) text.entry.items.now)
        (meaning.owner ps text.entry.word)) (shown.shown walker.old)) result
        (shown.shown walker.new) }
    ensures sound { IfOk result (λ t. TaskSound t) }
    ensures walker { IfOk result (λ _. shown.Sound walker.new) }
{
    match text.word {
        Word::Unknown => Err(ExpandFaultKind::UnknownNode.on_line(text.line)),
        Word::Node(node_type) => begin_node(alloc, walker, text, node_type),
        Word::Instance(number) => {
            let Some(proto) = proto_at(protos, number) else {
                return Err(ExpandFaultKind::UnknownNode.on_line(text.line));
            };
            begin_instance(alloc, walker, text, proto)
        }
    }
}

fn begin_use<'t, 'a>(
    walker: &mut Walker<'t, 'a>,
    line: u32,
    name: &Text,
) -> Result<NodeTask<'t, 'a>, ExpandFault>
    requires { shown.Sound walker.old }
    ensures goes { (ps : List Prototype) → Goes ps (doing (using line name.now)
        (shown.shown walker.old)) result (shown.shown walker.new) }
    ensures sound { IfOk result (λ t. TaskSound t) }
    ensures walker { IfOk result (λ _. shown.Sound walker.new) }
{
    let number = walker.put_use(line, name)?;
    Ok(NodeTask::Number(number))
}

/// Begins a node of the text: opens its braces, or takes the node that USE names. Returns what is
/// to be done next; Err is UnknownNode, UseWithoutDef, FieldTwice (in an interface), TooLarge or
/// Memory.
pub fn begin<'t, 'a>(
    alloc: Global,
    walker: &mut Walker<'t, 'a>,
    protos: &'t [Proto<'t, 'a>],
    node: &'t NodeTree<'a>,
) -> Result<NodeTask<'t, 'a>, ExpandFault>
    requires { shown.Sound walker.old }
    ensures goes { (ps : List Prototype) → Knows ps protos.now → Goes ps
        (doing (meaning.node ps node.now).does (shown.shown walker.old)) result
        (shown.shown walker.new) }
    ensures sound { IfOk result (λ t. TaskSound t) }
    ensures walker { IfOk result (λ _. shown.Sound walker.new) }
{
    match node {
        NodeTree::Use(line, name) => begin_use(walker, *line, name),
        NodeTree::Full(line, name, word, items) => {
            let text = BracedNode {
                line: *line,
                name,
                word: *word,
                items: items.as_slice(),
            };
            begin_full(alloc, walker, protos, text)
        }
    }
}

/// Returns the node that the braces hold when they close.
fn placed<'t, 'a>(
    alloc: Global,
    line: u32,
    name: &'a Option<Text>,
    node_type: NodeType,
    inside: Inside<'t, 'a>,
) -> Result<PlacedNode<'a>, AllocError>
    requires { inside.owner ≡ Owner.Node node_type }
    ensures { (i : flat.Inside) → i.fields ≡ braces.fields_in inside.entry
        → i.filled ≡ braces.filled_in inside.entry → IfOk result (λ n. flat_of n
        ≡ flat.flat_node line name.now node_type i) }
{
    let Inside {
        declared,
        given,
        ..
    } = inside;
    let fields = flat_fields(alloc, given)?;
    let interface = declarations(alloc, declared.as_slice())?;
    Ok(PlacedNode {
        line,
        name,
        node_type,
        fields,
        interface,
    })
}

/// Closes the braces of a node.
fn close_node<'t, 'a>(
    alloc: Global,
    walker: &mut Walker<'t, 'a>,
    opened: Open<'t, 'a>,
    node_type: NodeType,
) -> Result<NodeTask<'t, 'a>, ExpandFault>
    requires walker { shown.Sound walker.old }
    requires owner { opened.inside.owner ≡ Owner.Node node_type }
    ensures goes { (ps : List Prototype) → Goes ps (doing (closes ps opened.entry.line
        opened.entry.name.now opened.entry.word opened.entry.inside.owner
        (inside_now ps opened.entry)) (shown.shown walker.old)) result (shown.shown walker.new) }
    ensures sound { IfOk result (λ t. TaskSound t) }
    ensures walker { IfOk result (λ _. shown.Sound walker.new) }
{
    let Open {
        line,
        name,
        at,
        inside,
        ..
    } = opened;
    let node = placed(alloc, line, name, node_type, inside)?;
    let number = walker.close_node(name, at, node)?;
    Ok(NodeTask::Number(number))
}

/// Closes the braces of an instance: begins a scope, to which the default values are added first.
fn begin_defaults<'t, 'a>(
    alloc: Global,
    walker: &mut Walker<'t, 'a>,
    opened: Open<'t, 'a>,
    proto: &'t Proto<'t, 'a>,
) -> Result<NodeTask<'t, 'a>, ExpandFault>
    requires walker { shown.Sound walker.old }
    requires inside { braces.Sound opened.inside }
    ensures goes { (ps : List Prototype) (p : Prototype) → IsKnown ps p proto.now → Goes ps (doing
        (flat.close_instance opened.entry.name.now p (inside_now ps opened.entry))
        (shown.shown walker.old)) result (shown.shown walker.new) }
    ensures sound { IfOk result (λ t. TaskSound t) }
    ensures walker { IfOk result (λ _. shown.Sound walker.new) }
{
    let Open {
        name,
        at,
        inside,
        ..
    } = opened;
    let Inside { given, .. } = inside;
    let scope = walker.enter(alloc);
    let around = Box::new(
        alloc,
        Around {
            proto,
            name,
            at,
            scope,
        },
    )?;
    let defaults = Given::new(alloc);
    Ok(NodeTask::On(Holder::Defaults(Filling {
        rest: proto.tree.defaults.as_slice(),
        given,
        defaults,
        around,
    })))
}

/// Returns the prototype that the word before braces means.
fn proto_of<'t, 'a>(protos: &'t [Proto<'t, 'a>], word: Word) -> Option<&'t Proto<'t, 'a>>
    ensures { (ps : List Prototype) → Knows ps protos.now
        → IfSome result (λ known. IsKnown ps (proto_by ps word) known.now) }
{
    match word {
        Word::Unknown => None,
        Word::Node(_node_type) => None,
        Word::Instance(number) => proto_at(protos, number),
    }
}

/// Closes the braces of an instance. Memory if there is no such prototype.
fn close_instance<'t, 'a>(
    alloc: Global,
    walker: &mut Walker<'t, 'a>,
    protos: &'t [Proto<'t, 'a>],
    opened: Open<'t, 'a>,
) -> Result<NodeTask<'t, 'a>, ExpandFault>
    requires walker { shown.Sound walker.old }
    requires inside { braces.Sound opened.inside }
    ensures goes { (ps : List Prototype) → Knows ps protos.now → Goes ps (doing
        (flat.close_instance opened.entry.name.now (proto_by ps opened.entry.word)
        (inside_now ps opened.entry)) (shown.shown walker.old)) result (shown.shown walker.new) }
    ensures sound { IfOk result (λ t. TaskSound t) }
    ensures walker { IfOk result (λ _. shown.Sound walker.new) }
{
    let Some(proto) = proto_of(protos, opened.word) else {
        drop(opened);
        return Err(ExpandFaultKind::Memory.on_line(0));
    };
    begin_defaults(alloc, walker, opened, proto)
}

/// Closes braces, and returns what is to be done next. Memory if memory runs out.
pub fn close_braces<'t, 'a>(
    alloc: Global,
    walker: &mut Walker<'t, 'a>,
    protos: &'t [Proto<'t, 'a>],
    opened: Open<'t, 'a>,
) -> Result<NodeTask<'t, 'a>, ExpandFault>
    requires walker { shown.Sound walker.old }
    requires inside { braces.Sound opened.inside }
    requires done { opened.rest.now ≡ [] }
    ensures goes { (ps : List Prototype) → Knows ps protos.now → Goes ps (doing
        (open_does ps opened.entry (inside_now ps opened.entry)) (shown.shown walker.old)) result
        (shown.shown walker.new) }
    ensures sound { IfOk result (λ t. TaskSound t) }
    ensures walker { IfOk result (λ _. shown.Sound walker.new) }
{
    match opened.inside.owner {
        Owner::Node(node_type) => close_node(alloc, walker, opened, node_type),
        Owner::Instance(_interface) => close_instance(alloc, walker, protos, opened),
    }
}
