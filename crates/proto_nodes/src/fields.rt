//! The items between braces.

ghost use Rattle.std.specs.Prelude.{◌≡◌, List, map, option_map, false, IfOk};
ghost use Rattle.proto_meaning.specs.Sight.{Prototype};
ghost use Rattle.proto_parts.specs.Given as table;
ghost use Rattle.proto_parts.specs.Inside as braces;
ghost use Rattle.proto_parts.specs.Settled.{State, doing};
ghost use Rattle.proto_meaning.specs.trees.Meaning as meaning;
ghost use Rattle.proto_meaning.specs.declared.tree.GivenTree.TheVariants as tree;
ghost use Rattle.proto_nodes.specs.Shown as shown;
ghost use Rattle.proto_nodes.specs.Does.{field_does, given_by, inside_now, open_does, route_does, with_value};
ghost use Rattle.proto_nodes.specs.Frames.{IsSplit, OpenGoes, OpenSound, given_at, item_comes, on_or};

use crate::declared::{Declared, declare};
use crate::frames::{FieldAt, Next, Open};
use crate::giving::{put_is, put_nothing};
use crate::values::{keep_value, meet_value, put_aside};
use crate::walker::Walker;
use classic_tree::{Declaration, NodeText, RawValue, RouteText};
use proto_flat::{ExpandFault, ExpandFaultKind};
use proto_meaning::{FieldTree, GivenTree, ItemTree, NodeTree};
use proto_parts::{item_count, plain};
use std::alloc::{AllocError, Global};
use x3d_lists::Text;

/// Returns `Next::On` if the step succeeded.
fn on<'t, 'a>(done: Result<(), ExpandFault>) -> Result<Next<'t, 'a>, ExpandFault>
    ensures { result ≡ on_or done }
{
    match done {
        Ok(()) => Ok(Next::On),
        Err(fault) => Err(fault),
    }
}

/// Does a value that is one node.
fn put_one<'t, 'a>(
    walker: &mut Walker<'t, 'a>,
    opened: &Open<'t, 'a>,
    place: FieldAt<'a>,
    twice: bool,
    node: &'t NodeTree<'a>,
) -> Result<Next<'t, 'a>, ExpandFault>
    requires walker { shown.Sound walker.old }
    requires inside { braces.Sound opened.now.inside }
    requires free { twice ≡ false
        → table.has_name place.name.now (braces.filled_in opened.now.inside) ≡ false }
    ensures goes { (ps : List Prototype) → OpenGoes ps (item_comes ps
        (given_at place.entry twice (tree.One (meaning.node ps node.now))) opened.now
        (shown.shown walker.old)) result walker.new opened.now }
    ensures sound { OpenSound result walker.new opened.now }
{
    meet_value(walker, &opened.inside, place, twice, 1)?;
    Ok(Next::One(place, node))
}

/// Does a value that is a list of nodes.
fn put_many<'t, 'a>(
    walker: &mut Walker<'t, 'a>,
    opened: &Open<'t, 'a>,
    place: FieldAt<'a>,
    twice: bool,
    count: usize,
    nodes: &'t [NodeTree<'a>],
) -> Result<Next<'t, 'a>, ExpandFault>
    requires walker { shown.Sound walker.old }
    requires inside { braces.Sound opened.now.inside }
    requires free { twice ≡ false
        → table.has_name place.name.now (braces.filled_in opened.now.inside) ≡ false }
    ensures goes { (ps : List Prototype) → OpenGoes ps (item_comes ps
        (given_at place.entry twice (tree.Many count (map (meaning.node ps) nodes.now))) opened.now
        (shown.shown walker.old)) result walker.new opened.now }
    ensures sound { OpenSound result walker.new opened.now }
{
    meet_value(walker, &opened.inside, place, twice, count)?;
    Ok(Next::List(place, nodes))
}

/// Does a value without nodes.
fn put_plain<'t, 'a>(
    alloc: Global,
    walker: &mut Walker<'t, 'a>,
    opened: &mut Open<'t, 'a>,
    place: FieldAt<'a>,
    twice: bool,
    value: &'a RawValue<NodeText>,
) -> Result<Next<'t, 'a>, ExpandFault>
    requires walker { shown.Sound walker.old }
    requires inside { braces.Sound opened.old.inside }
    requires free { twice ≡ false
        → table.has_name place.name.now (braces.filled_in opened.old.inside) ≡ false }
    ensures goes { (ps : List Prototype) → OpenGoes ps (item_comes ps
        (given_at place.entry twice (tree.Plain value.entry)) opened.old
        (shown.shown walker.old)) result walker.new opened.new }
    ensures sound { OpenSound result walker.new opened.new }
{
    meet_value(walker, &opened.inside, place, twice, item_count(value))?;
    let copy = plain(alloc, value)?;
    keep_value(alloc, &mut opened.inside, place, copy)?;
    Ok(Next::On)
}

/// Does what a field is given.
fn put_given<'t, 'a>(
    alloc: Global,
    walker: &mut Walker<'t, 'a>,
    opened: &mut Open<'t, 'a>,
    place: FieldAt<'a>,
    twice: bool,
    given: &'t FieldTree<'a>,
) -> Result<Next<'t, 'a>, ExpandFault>
    requires walker { shown.Sound walker.old }
    requires inside { braces.Sound opened.old.inside }
    requires free { twice ≡ false
        → table.has_name place.name.now (braces.filled_in opened.old.inside) ≡ false }
    ensures goes { (ps : List Prototype) → OpenGoes ps (item_comes ps
        (given_at place.entry twice (given_by ps given.now)) opened.old (shown.shown walker.old))
        result
        walker.new opened.new }
    ensures sound { OpenSound result walker.new opened.new }
{
    let at = opened.at;
    let inside = &mut opened.inside;
    match given {
        GivenTree::Nothing => return on(put_nothing(walker, inside, place, twice)),
        GivenTree::Is(outer) => return on(put_is(walker, inside, at, place, twice, outer)),
        GivenTree::LeftOut(wrong) => return on(put_aside(walker, inside, place, twice, *wrong)),
        GivenTree::Plain(value) => put_plain(alloc, walker, opened, place, twice, value),
        GivenTree::One(node) => put_one(walker, opened, place, twice, node),
        GivenTree::Many(count, nodes) => {
            put_many(walker, opened, place, twice, *count, nodes.as_slice())
        }
    }
}

/// Does a field of the text.
fn put_field<'t, 'a>(
    alloc: Global,
    walker: &mut Walker<'t, 'a>,
    opened: &mut Open<'t, 'a>,
    line: u32,
    name: &'a Text,
    given: &'t FieldTree<'a>,
) -> Result<Next<'t, 'a>, ExpandFault>
    requires walker { shown.Sound walker.old }
    requires inside { braces.Sound opened.old.inside }
    ensures goes { (ps : List Prototype) → OpenGoes ps (item_comes ps
        (field_does line name.now (given_by ps given.now)) opened.old (shown.shown walker.old))
        result
        walker.new opened.new }
    ensures sound { OpenSound result walker.new opened.new }
{
    let Some(field) = opened.inside.field(name) else {
        return Err(ExpandFaultKind::UnknownField.on_line(line));
    };
    let twice = opened.inside.has(name);
    put_given(
        alloc,
        walker,
        opened,
        FieldAt { line, name, field },
        twice,
        given,
    )
}

/// Does a field that a Script declares.
fn put_declaration<'t, 'a>(
    alloc: Global,
    walker: &mut Walker<'t, 'a>,
    opened: &mut Open<'t, 'a>,
    declaration: &'a Declaration<NodeText>,
    given: &'t FieldTree<'a>,
) -> Result<Next<'t, 'a>, ExpandFault>
    requires walker { shown.Sound walker.old }
    requires inside { braces.Sound opened.old.inside }
    ensures goes { (ps : List Prototype) → OpenGoes ps (item_comes ps
        (meaning.declares declaration.now (given_by ps given.now)) opened.old
        (shown.shown walker.old)) result
        walker.new opened.new }
    ensures sound { OpenSound result walker.new opened.new }
{
    let Declared { field, twice } = declare(&mut opened.inside, declaration)?;
    let place = FieldAt {
        line: declaration.line,
        name: &declaration.name,
        field,
    };
    put_given(alloc, walker, opened, place, twice, given)
}

/// Does a ROUTE between braces.
fn put_route<'t, 'a>(
    walker: &mut Walker<'t, 'a>,
    opened: &Open<'t, 'a>,
    route: &'a RouteText,
) -> Result<Next<'t, 'a>, ExpandFault>
    requires walker { shown.Sound walker.old }
    requires inside { braces.Sound opened.now.inside }
    ensures goes { (ps : List Prototype) → OpenGoes ps (item_comes ps
        (route_does route.now) opened.now (shown.shown walker.old)) result walker.new opened.now }
    ensures sound { OpenSound result walker.new opened.now }
{
    let _ = &opened.inside;
    on(walker.put_route(route))
}

fn put_item<'t, 'a>(
    alloc: Global,
    walker: &mut Walker<'t, 'a>,
    opened: &mut Open<'t, 'a>,
    item: &'t ItemTree<'a>,
) -> Result<Next<'t, 'a>, ExpandFault>
    requires walker { shown.Sound walker.old }
    requires inside { braces.Sound opened.old.inside }
    ensures goes { (ps : List Prototype) → OpenGoes ps (item_comes ps
        (meaning.item ps item.now).does
        opened.old (shown.shown walker.old)) result walker.new opened.new }
    ensures sound { OpenSound result walker.new opened.new }
{
    match item {
        ItemTree::Field(line, name, given) => put_field(alloc, walker, opened, *line, name, given),
        ItemTree::Declaration(declaration, given) => {
            put_declaration(alloc, walker, opened, declaration, given)
        }
        ItemTree::Route(route) => put_route(walker, opened, route),
        ItemTree::Wrong(fault) => Err(*fault),
    }
}

/// Returns the first item, and the rest.
fn first_item<'t, 'a>(items: &'t [ItemTree<'a>]) -> Option<(&'t ItemTree<'a>, &'t [ItemTree<'a>])>
    ensures { IsSplit items.now (option_map (λ p. (p.0.now, p.1.now)) result) }
{
    items.split_first()
}

/// Stores the items that are left.
fn set_rest<'t, 'a>(opened: &mut Open<'t, 'a>, rest: &'t [ItemTree<'a>])
    ensures { opened.new ≡ record opened.old { rest = rest.entry } }
{
    opened.rest = rest;
}

/// Does the next item between braces. Returns what comes next, or the fault of the item, TooLarge
/// or Memory.
pub fn next_item<'t, 'a>(
    alloc: Global,
    walker: &mut Walker<'t, 'a>,
    opened: &mut Open<'t, 'a>,
) -> Result<Next<'t, 'a>, ExpandFault>
    requires walker { shown.Sound walker.old }
    requires inside { braces.Sound opened.old.inside }
    ensures goes { (ps : List Prototype) → OpenGoes ps (doing
        (open_does ps opened.old (inside_now ps opened.old)) (shown.shown walker.old)) result
        walker.new
        opened.new }
    ensures sound { OpenSound result walker.new opened.new }
{
    let Some((item, rest)) = first_item(opened.rest) else {
        return Ok(Next::Closed);
    };
    set_rest(opened, rest);
    put_item(alloc, walker, opened, item)
}

/// Gives the field the value. AllocError if memory runs out.
pub fn set_value<'t, 'a>(
    alloc: Global,
    opened: &mut Open<'t, 'a>,
    place: FieldAt<'a>,
    value: RawValue<u32>,
) -> Result<(), AllocError>
    requires inside { braces.Sound opened.old.inside }
    requires free { table.has_name place.name.now (braces.filled_in opened.old.inside) ≡ false }
    ensures kept { IfOk result (λ _. (ps : List Prototype) (s : State) → doing (open_does ps
        opened.old (with_value ps opened.old place.entry value)) s
        ≡ doing (open_does ps opened.new (inside_now ps opened.new)) s) }
    ensures sound { IfOk result (λ _. braces.Sound opened.new.inside) }
{
    keep_value(alloc, &mut opened.inside, place, value)
}
