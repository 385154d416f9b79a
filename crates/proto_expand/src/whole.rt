//! A whole text.

ghost use Rattle.std.specs.Prelude.{◌≡◌, [], List, map, IfOk};
ghost use Rattle.x3d_lists.specs.Answers.{Gives};
ghost use Rattle.proto_flat.specs.Fault.{memory};
ghost use Rattle.proto_flat.specs.declared.flat.Header.{Header};
ghost use Rattle.proto_meaning.specs.Limits.{limited};
ghost use Rattle.proto_meaning.specs.Sight.{Prototype};
ghost use Rattle.proto_parts.specs.Settled.{doing};
ghost use Rattle.proto_parts.specs.Put as put;
ghost use Rattle.proto_parts.specs.Ends.{few};
ghost use Rattle.proto_parts.specs.Scope as scope;
ghost use Rattle.proto_meaning.specs.trees.Meaning.{stand_together};
ghost use Rattle.proto_nodes.specs.Shown as shown;
ghost use Rattle.proto_nodes.specs.Protos.{Knows};
ghost use Rattle.proto_nodes.specs.Frames.{Ends, MachineSound};
ghost use Rattle.proto_expand.specs.Tied.{Tied, known_of, read_of};
ghost use Rattle.proto_expand.specs.Rows.{RootsSized};
ghost use Rattle.proto_expand.specs.Whole.{RootsGo, all_of, content_by, content_of, content_or, root_does, roots_do, with_content};

use crate::rows::look_along;
use classic_tree::RouteText;
use proto_flat::{ExpandFault, FlatNode, FlatRoute};
use proto_meaning::{BodyTree, NodeTree, ProtoTree};
use proto_nodes::{Proto, WalkState, Walker, put_node};
use proto_parts::{Interface, PutIn, flat_nodes, routes_of};
use std::alloc::{AllocError, Global};
use x3d_lists::Items;

/// The flat form of a text, without its header.
#[derive(Drop)]
pub struct Content {
    pub nodes: Items<FlatNode>,
    pub roots: Items<u32>,
    pub helpers: Items<u32>,
    pub routes: Items<FlatRoute>,
}

/// The numbers of the nodes that are statements, and the routes.
#[derive(Drop)]
pub struct Made {
    pub roots: Items<u32>,
    pub routes: Items<FlatRoute>,
}

fn known<'t, 'a>(alloc: Global, tree: &'t ProtoTree<'a>) -> Result<Proto<'t, 'a>, AllocError>
    ensures { IfOk result (λ p. known_of p ≡ read_of tree.now) }
{
    let interface = Interface::read(alloc, tree.text.interface.as_slice())?;
    Ok(Proto { tree, interface })
}

/// Returns the prototypes, each with its interface.
fn known_protos<'t, 'a>(
    alloc: Global,
    trees: &'t [ProtoTree<'a>],
) -> Result<Vec<Proto<'t, 'a>>, AllocError>
    ensures { IfOk result (λ ps. map known_of ps.items ≡ map read_of trees.now) }
{
    let mut protos = Vec::new(alloc);
    for tree in trees {
        protos.push(known(alloc, tree)?)?;
    }
    Ok(protos)
}

/// Returns the prototypes of a text, each with its interface. AllocError if memory runs out.
pub fn protos_of<'t, 'a>(
    alloc: Global,
    trees: &'t [ProtoTree<'a>],
) -> Result<Vec<Proto<'t, 'a>>, AllocError>
    ensures { IfOk result (λ protos. (ps : List Prototype) → Tied ps trees.now
        → Knows ps protos.items) }
{
    let protos = known_protos(alloc, trees)?;
    Ok(protos)
}

/// Adds a node that is a statement; it is a root.
fn put_root<'t, 'a>(
    alloc: Global,
    machine: &mut WalkState<'t, 'a>,
    node: &'t NodeTree<'a>,
    roots: &mut Items<u32>,
) -> Result<(), ExpandFault>
    requires machine { MachineSound machine.old }
    requires idle { machine.old.frames.items ≡ [] }
    ensures goes { (ps : List Prototype) → Knows ps machine.old.protos.now → Ends (λ _. roots.new)
        (doing (root_does ps (BodyTree.Node node.now) roots.old)
        (shown.shown machine.old.walker)) result (shown.shown machine.new.walker) }
    ensures machine { IfOk result (λ _. MachineSound machine.new) }
    ensures frames { IfOk result (λ _. machine.new.frames.items ≡ []) }
    ensures protos { machine.new.protos ≡ machine.old.protos }
{
    let number = put_node(alloc, machine, node)?;
    roots.push(number)?;
    Ok(())
}

/// Adds a ROUTE that is a statement; it has no root.
fn put_route<'t, 'a>(
    machine: &mut WalkState<'t, 'a>,
    route: &'a RouteText,
    roots: &Items<u32>,
) -> Result<(), ExpandFault>
    requires machine { MachineSound machine.old }
    requires idle { machine.old.frames.items ≡ [] }
    ensures goes { (ps : List Prototype) → Ends (λ _. roots.now) (doing (root_does ps
        (BodyTree.Route route.entry) roots.now) (shown.shown machine.old.walker)) result
        (shown.shown machine.new.walker) }
    ensures machine { IfOk result (λ _. MachineSound machine.new) }
    ensures frames { IfOk result (λ _. machine.new.frames.items ≡ []) }
    ensures protos { machine.new.protos ≡ machine.old.protos }
{
    let _ = roots.len();
    machine.walker.put_route(route)
}

/// Adds a statement.
fn put_statement<'t, 'a>(
    alloc: Global,
    machine: &mut WalkState<'t, 'a>,
    statement: &'t BodyTree<'a>,
    roots: &mut Items<u32>,
) -> Result<(), ExpandFault>
    requires machine { MachineSound machine.old }
    requires idle { machine.old.frames.items ≡ [] }
    ensures goes { (ps : List Prototype) → Knows ps machine.old.protos.now → Ends (λ _. roots.new)
        (doing (root_does ps statement.now roots.old) (shown.shown machine.old.walker)) result
        (shown.shown machine.new.walker) }
    ensures machine { IfOk result (λ _. MachineSound machine.new) }
    ensures frames { IfOk result (λ _. machine.new.frames.items ≡ []) }
    ensures protos { machine.new.protos ≡ machine.old.protos }
{
    match statement {
        BodyTree::Node(node) => put_root(alloc, machine, node, roots),
        BodyTree::Route(route) => put_route(machine, route, roots),
        BodyTree::Wrong(fault) => Err(*fault),
    }
}

/// Adds the first statement. `looked` statements, this one included, are known to be in a row; if
/// it is 0, looks along the row that begins here. Returns how many of the others are known to be in
/// the row.
fn put_next<'t, 'a>(
    alloc: Global,
    machine: &mut WalkState<'t, 'a>,
    statements: &'t [BodyTree<'a>],
    looked: usize,
    roots: &mut Items<u32>,
) -> Result<usize, ExpandFault>
    requires machine { MachineSound machine.old }
    requires idle { machine.old.frames.items ≡ [] }
    ensures goes { (ps : List Prototype) → Knows ps machine.old.protos.now
        → RootsSized ps statements.now → RootsGo ps statements.now roots.old
        (shown.shown machine.old.walker) result roots.new (shown.shown machine.new.walker) }
    ensures machine { IfOk result (λ _. MachineSound machine.new) }
    ensures frames { IfOk result (λ _. machine.new.frames.items ≡ []) }
    ensures protos { machine.new.protos ≡ machine.old.protos }
{
    let [first, ..] = statements else {
        return Ok(0);
    };
    let before = machine.walker.room.all;
    put_statement(alloc, machine, first, roots)?;
    if looked > 0 {
        return Ok(looked - 1);
    }
    let count = look_along(statements, before, machine.walker.room.all)?;
    Ok(count.saturating_sub(1))
}

/// Adds all statements, and returns the numbers of the nodes that are statements.
fn put_roots<'t, 'a>(
    alloc: Global,
    machine: &mut WalkState<'t, 'a>,
    statements: &'t [BodyTree<'a>],
) -> Result<Items<u32>, ExpandFault>
    requires machine { MachineSound machine.old }
    requires idle { machine.old.frames.items ≡ [] }
    ensures { (ps : List Prototype) → Knows ps machine.old.protos.now
        → RootsSized ps statements.now → Ends (λ rs. rs)
        (doing (roots_do ps statements.now []) (shown.shown machine.old.walker)) result
        (shown.shown machine.new.walker) }
{
    let mut roots = Items::new(alloc);
    let mut looked = 0;
    for index in 0..statements.len() {
        looked = put_next(alloc, machine, &statements[index..], looked, &mut roots)?;
    }
    Ok(roots)
}

/// Returns the routes; all braces are closed.
fn routes(alloc: Global, walker: &mut Walker<'_, '_>) -> Result<Items<FlatRoute>, ExpandFault>
    ensures routes { Gives memory (λ rs. rs) result (few ((scope.shown walker.old.scope).routes
        (scope.shown walker.old.scope).braces)) }
    ensures put { walker.new.put ≡ walker.old.put }
{
    let Some(wires) = walker.scope.wires(alloc, &mut walker.kept)? else {
        return Ok(Items::new(alloc));
    };
    routes_of(alloc, &wires)
}

fn put_all<'t, 'a>(
    alloc: Global,
    machine: &mut WalkState<'t, 'a>,
    statements: &'t [BodyTree<'a>],
) -> Result<Made, ExpandFault>
    requires machine { MachineSound machine.old }
    requires idle { machine.old.frames.items ≡ [] }
    ensures { (ps : List Prototype) → Knows ps machine.old.protos.now
        → RootsSized ps statements.now
        → Gives memory (λ m. (m.roots, m.routes, put.shown machine.new.walker.put)) result
        (all_of (doing (roots_do ps statements.now []) (shown.shown machine.old.walker))) }
{
    let roots = put_roots(alloc, machine, statements)?;
    let routes = routes(alloc, &mut machine.walker)?;
    Ok(Made { roots, routes })
}

/// Returns what was added, and then drops the branches that were made, the last first.
fn put_in<'t, 'a>(machine: WalkState<'t, 'a>) -> PutIn<'a>
    ensures { result ≡ machine.entry.walker.put }
{
    let WalkState { walker, frames, .. } = machine;
    drop(frames);
    let Walker {
        put,
        scope,
        kept,
        ..
    } = walker;
    drop(scope);
    kept.let_go();
    put
}

/// Returns what was added, with these roots and routes.
fn gather(alloc: Global, put_in: PutIn<'_>, made: Made) -> Result<Content, AllocError>
    ensures { IfOk result (λ c. c ≡ content_of made.roots made.routes (put.shown put_in.entry)) }
{
    let Made { roots, routes } = made;
    let PutIn { nodes, helpers } = put_in;
    let nodes = flat_nodes(alloc, nodes)?;
    Ok(Content {
        nodes,
        roots,
        helpers,
        routes,
    })
}

/// Returns the content; Memory for an AllocError.
fn or_memory(content: Result<Content, AllocError>) -> Result<Content, ExpandFault>
    ensures { result ≡ content_or content }
{
    match content {
        Ok(content) => Ok(content),
        Err(error) => Err(ExpandFault::from(error)),
    }
}

fn put_text<'t, 'a>(
    alloc: Global,
    protos: &'t [Proto<'t, 'a>],
    statements: &'t [BodyTree<'a>],
) -> Result<Content, ExpandFault>
    ensures { (ps : List Prototype) → Knows ps protos.now → RootsSized ps statements.now
        → Gives memory (λ c. c) result
        (content_by (all_of (doing (roots_do ps statements.now []) shown.before))) }
{
    let walker = Walker::new(alloc);
    let frames = Vec::new(alloc);
    let mut machine = WalkState {
        protos,
        walker,
        frames,
    };
    let made = put_all(alloc, &mut machine, statements);
    let put = put_in(machine);
    match made {
        Ok(made) => or_memory(gather(alloc, put, made)),
        Err(fault) => {
            drop(put);
            Err(fault)
        }
    }
}

/// Returns the flat form of these statements, whatever the header. The faults are those of
/// `expand`.
pub fn walk<'t, 'a>(
    alloc: Global,
    protos: &'t [Proto<'t, 'a>],
    statements: &'t [BodyTree<'a>],
) -> Result<Content, ExpandFault>
    ensures { (ps : List Prototype) (header : Header) → Knows ps protos.now
        → RootsSized ps statements.now → Gives memory (with_content header) result
        (limited (stand_together ps header statements.now)) }
{
    put_text(alloc, protos, statements)
}
