//! The body of an instance, statement by statement.

ghost use Rattle.std.specs.Prelude.{◌≡◌, [], List, Some, option_map, IfOk};
ghost use Rattle.proto_meaning.specs.Flat as flat;
ghost use Rattle.proto_meaning.specs.Sight.{Prototype};
ghost use Rattle.proto_parts.specs.Joined.{ends_in};
ghost use Rattle.proto_parts.specs.Sides.{made_routes};
ghost use Rattle.proto_parts.specs.Settled.{doing};
ghost use Rattle.proto_parts.specs.Scope as scope;
ghost use Rattle.proto_nodes.specs.Shown as shown;
ghost use Rattle.proto_nodes.specs.Steps.{standing_in};
ghost use Rattle.proto_nodes.specs.Does.{body_comes, filled_now, filling_comes, first_of, leaves, outside, after};
ghost use Rattle.proto_nodes.specs.Frames.{BodySound, FillingSound, Goes, IsSplit, TaskSound, body_or, frame_comes, held};

use crate::frames::{Around, Filling, Frame, NodeTask, ProtoBody};
use crate::walker::Walker;
use classic_tree::RouteText;
use proto_flat::{ExpandFault, ExpandFaultKind};
use proto_meaning::BodyTree;
use proto_parts::{InstanceEnds, JoinedEnds, Wires};
use std::alloc::{AllocError, Global};
use std::rc::Rc;

/// What the ISs of a body join, and its ROUTEs.
#[derive(Drop)]
struct Joined<'a> {
    ends: JoinedEnds<'a>,
    routes: Option<Rc<Wires<'a>>>,
}

/// Begins the body, after all default values are added.
pub fn begin_body<'t, 'a>(
    walker: &mut Walker<'t, 'a>,
    filling: Filling<'t, 'a>,
) -> ProtoBody<'t, 'a>
    requires walker { shown.Sound walker.old }
    requires filling { FillingSound filling }
    requires done { filling.rest.now ≡ [] }
    ensures goes { (ps : List Prototype) → filling_comes ps filling.entry.around.value
        filling.entry.rest.now (filled_now filling.entry) (shown.shown walker.old)
        ≡ body_comes ps result.around.value result.rest.now (first_of result.first)
        (shown.shown walker.new) }
    ensures sound { BodySound result }
    ensures walker { shown.Sound walker.new }
{
    let Filling {
        given,
        defaults,
        around,
        ..
    } = filling;
    let proto = around.proto;
    walker.scope.begin_body(&proto.interface, given, defaults);
    ProtoBody {
        rest: proto.tree.body.as_slice(),
        first: None,
        around,
    }
}

/// Goes on with the rest of a body, if the step before succeeded.
fn go_on<'t, 'a>(
    body: ProtoBody<'t, 'a>,
    done: Result<(), ExpandFault>,
) -> Result<NodeTask<'t, 'a>, ExpandFault>
    ensures { result ≡ body_or body.entry done }
{
    match done {
        Ok(()) => Ok(NodeTask::Body(body)),
        Err(fault) => {
            drop(body);
            Err(fault)
        }
    }
}

fn put_route<'t, 'a>(
    walker: &mut Walker<'t, 'a>,
    body: ProtoBody<'t, 'a>,
    route: &'a RouteText,
) -> Result<NodeTask<'t, 'a>, ExpandFault>
    requires walker { shown.Sound walker.old }
    requires body { BodySound body }
    ensures goes { (ps : List Prototype) → Goes ps (after (doing (flat.note_route route.now)
        (shown.shown walker.old)) (λ _. body_comes ps body.entry.around.value body.entry.rest.now
        (first_of body.entry.first))) result (shown.shown walker.new) }
    ensures sound { IfOk result (λ t. TaskSound t) }
    ensures walker { IfOk result (λ _. shown.Sound walker.new) }
{
    let met = walker.put_route(route);
    go_on(body, met)
}

fn join<'t, 'a>(alloc: Global, walker: &mut Walker<'t, 'a>) -> Result<Joined<'a>, AllocError>
    requires { shown.Sound walker.old }
    ensures ends { IfOk result (λ j. ends_in j.ends
        ≡ (scope.shown walker.old.scope).ends (scope.shown walker.old.scope).braces) }
    ensures routes { IfOk result (λ j. made_routes j.routes
        ≡ (scope.shown walker.old.scope).routes (scope.shown walker.old.scope).braces) }
    ensures shown { shown.shown walker.new ≡ shown.shown walker.old }
    ensures walker { shown.Sound walker.new }
{
    let ends = walker.scope.ends(alloc, &mut walker.kept)?;
    let routes = walker.scope.wires(alloc, &mut walker.kept)?;
    Ok(Joined { ends, routes })
}

/// Goes back to the scope around; the braces of the instance stand for the node.
fn stand_in<'t, 'a>(
    alloc: Global,
    walker: &mut Walker<'t, 'a>,
    around: Around<'t, 'a>,
    node: u32,
    joined: Joined<'a>,
) -> Result<NodeTask<'t, 'a>, ExpandFault>
    requires walker { shown.Sound walker.old }
    requires around { scope.Sound around.scope }
    ensures goes { (ps : List Prototype) → Goes ps (doing (standing_in around.entry.name.now
        around.entry.at (record {
          node = node;
          interface = Some around.entry.proto.now.interface;
          ends = ends_in joined.entry.ends;
        }) (made_routes joined.entry.routes))
        (outside (scope.shown around.entry.scope) (shown.shown walker.old))) result
        (shown.shown walker.new) }
    ensures sound { IfOk result (λ t. TaskSound t) }
    ensures walker { IfOk result (λ _. shown.Sound walker.new) }
{
    let Around {
        proto,
        name,
        at,
        scope,
    } = around;
    walker.leave(scope);
    let Joined { ends, routes } = joined;
    let ends = InstanceEnds {
        interface: &proto.interface,
        joined: ends,
    };
    let number = walker.stand_in(alloc, name, at, node, ends, routes)?;
    Ok(NodeTask::Number(number))
}

/// Ends a body. EmptyBody if it has no node.
fn leave<'t, 'a>(
    alloc: Global,
    walker: &mut Walker<'t, 'a>,
    around: Around<'t, 'a>,
    first: Option<u32>,
) -> Result<NodeTask<'t, 'a>, ExpandFault>
    requires walker { shown.Sound walker.old }
    requires around { scope.Sound around.scope }
    ensures goes { (ps : List Prototype) → Goes ps (leaves around.entry (first_of first)
        (shown.shown walker.old)) result (shown.shown walker.new) }
    ensures sound { IfOk result (λ t. TaskSound t) }
    ensures walker { IfOk result (λ _. shown.Sound walker.new) }
{
    let Some(node) = first else {
        let line = around.proto.tree.text.line;
        drop(around);
        return Err(ExpandFaultKind::EmptyBody.on_line(line));
    };
    match join(alloc, walker) {
        Ok(joined) => stand_in(alloc, walker, around, node, joined),
        Err(error) => {
            drop(around);
            Err(ExpandFault::from(error))
        }
    }
}

/// Returns the first statement, and the rest.
fn first_statement<'t, 'a>(
    statements: &'t [BodyTree<'a>],
) -> Option<(&'t BodyTree<'a>, &'t [BodyTree<'a>])>
    ensures { IsSplit statements.now (option_map (λ p. (p.0.now, p.1.now)) result) }
{
    statements.split_first()
}

/// Stores the statements that are left.
fn set_rest<'t, 'a>(body: &mut ProtoBody<'t, 'a>, rest: &'t [BodyTree<'a>])
    ensures { body.new ≡ record body.old { rest = rest.entry } }
{
    body.rest = rest;
}

/// Does the next statement of a body, or ends the body. Returns what is to be done next, or the
/// first fault: of the statement, TooLarge, or Memory.
pub fn next_statement<'t, 'a>(
    alloc: Global,
    walker: &mut Walker<'t, 'a>,
    body: ProtoBody<'t, 'a>,
) -> Result<NodeTask<'t, 'a>, ExpandFault>
    requires walker { shown.Sound walker.old }
    requires body { BodySound body }
    ensures goes { (ps : List Prototype) → Goes ps (body_comes ps body.entry.around.value
        body.entry.rest.now (first_of body.entry.first) (shown.shown walker.old)) result
        (shown.shown walker.new) }
    ensures sound { IfOk result (λ t. TaskSound t) }
    ensures walker { IfOk result (λ _. shown.Sound walker.new) }
{
    let Some((statement, rest)) = first_statement(body.rest) else {
        let ProtoBody { first, around, .. } = body;
        return leave(alloc, walker, Box::into_inner(around), first);
    };
    let mut body = body;
    set_rest(&mut body, rest);
    match statement {
        BodyTree::Node(node) => Ok(NodeTask::NodeFor(Frame::Body(body), node)),
        BodyTree::Route(route) => put_route(walker, body, route),
        BodyTree::Wrong(fault) => {
            drop(body);
            Err(*fault)
        }
    }
}

fn help<'t, 'a>(
    walker: &mut Walker<'t, 'a>,
    body: ProtoBody<'t, 'a>,
    first: u32,
    number: u32,
) -> Result<NodeTask<'t, 'a>, ExpandFault>
    requires walker { shown.Sound walker.old }
    requires body { BodySound body }
    requires first { body.first ≡ Some first }
    ensures goes { (ps : List Prototype) → Goes ps (after (doing (held (Some first) number)
        (shown.shown walker.old)) (body_comes ps body.entry.around.value body.entry.rest.now))
        result (shown.shown walker.new) }
    ensures sound { IfOk result (λ t. TaskSound t) }
    ensures walker { IfOk result (λ _. shown.Sound walker.new) }
{
    match walker.put.help(number) {
        Ok(()) => Ok(NodeTask::Body(body)),
        Err(error) => {
            drop(body);
            Err(ExpandFault::from(error))
        }
    }
}

/// Takes the number of a statement's node: the first node stands for the instance, the others are
/// helpers. Memory if memory runs out.
pub fn hold<'t, 'a>(
    walker: &mut Walker<'t, 'a>,
    body: ProtoBody<'t, 'a>,
    number: u32,
) -> Result<NodeTask<'t, 'a>, ExpandFault>
    requires walker { shown.Sound walker.old }
    requires body { BodySound body }
    ensures goes { (ps : List Prototype) → Goes ps
        (frame_comes ps (Frame.Body body.entry) number (shown.shown walker.old)) result
        (shown.shown walker.new) }
    ensures sound { IfOk result (λ t. TaskSound t) }
    ensures walker { IfOk result (λ _. shown.Sound walker.new) }
{
    match body.first {
        None => {
            let mut body = body;
            body.first = Some(number);
            Ok(NodeTask::Body(body))
        }
        Some(first) => help(walker, body, first, number),
    }
}
