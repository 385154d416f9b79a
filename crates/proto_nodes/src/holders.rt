//! The holders of fields that are given values: braces, and the default values of an instance.

ghost use Rattle.std.specs.Prelude.{◌≡◌, ℕ, ◌++◌, ◌∷◌, [], List, option_map, IfOk};
ghost use Rattle.proto_meaning.specs.Sight.{Prototype};
ghost use Rattle.proto_parts.specs.Settled.{State};
ghost use Rattle.proto_nodes.specs.Shown as shown;
ghost use Rattle.proto_nodes.specs.Does.{Comes};
ghost use Rattle.proto_nodes.specs.Protos.{Knows};
ghost use Rattle.proto_nodes.specs.Frames.{Goes, HolderFits, HolderGoes, HolderGoesSound, HolderSound, IsFree, IsSplit, TaskSound, holder_comes, holder_next, list_comes, next_or, value_comes};

use crate::bodies::begin_body;
use crate::braces::close_braces;
use crate::defaults::{fill, next_default};
use crate::fields::{next_item, set_value};
use crate::frames::{FieldAt, Filling, Frame, Holder, Listing, Next, NodeTask, Open, Proto};
use crate::walker::Walker;
use classic_tree::RawValue;
use proto_flat::ExpandFault;
use proto_meaning::NodeTree;
use std::alloc::{AllocError, Global};
use x3d_lists::Items;

/// Returns what comes next; Memory for an AllocError.
fn or_memory<'t, 'a>(next: Result<Next<'t, 'a>, AllocError>) -> Result<Next<'t, 'a>, ExpandFault>
    ensures { result ≡ next_or next.entry }
{
    match next {
        Ok(next) => Ok(next),
        Err(error) => Err(ExpandFault::from(error)),
    }
}

/// Ends a holder in which nothing is left.
fn close<'t, 'a>(
    alloc: Global,
    walker: &mut Walker<'t, 'a>,
    protos: &'t [Proto<'t, 'a>],
    holder: Holder<'t, 'a>,
) -> Result<NodeTask<'t, 'a>, ExpandFault>
    requires walker { shown.Sound walker.old }
    requires holder { HolderSound holder }
    requires done { HolderFits holder Next.Closed }
    ensures goes { (ps : List Prototype) → Knows ps protos.now → Goes ps
        (holder_comes ps holder.entry (shown.shown walker.old)) result (shown.shown walker.new) }
    ensures sound { IfOk result (λ t. TaskSound t) }
    ensures walker { IfOk result (λ _. shown.Sound walker.new) }
{
    match holder {
        Holder::Braces(opened) => close_braces(alloc, walker, protos, opened),
        Holder::Defaults(filling) => Ok(NodeTask::Body(begin_body(walker, filling))),
    }
}

/// Begins a list of these nodes.
fn listing<'t, 'a>(alloc: Global, place: FieldAt<'a>, nodes: &'t [NodeTree<'a>]) -> Listing<'t, 'a>
    ensures place { result.place ≡ place.entry }
    ensures rest { result.rest ≡ nodes.entry }
    ensures numbers { result.numbers ≡ [] }
{
    Listing {
        place,
        rest: nodes,
        numbers: Items::new(alloc),
    }
}

/// Returns what is to be done next, by what comes next in the holder.
fn begin_next<'t, 'a>(
    alloc: Global,
    walker: &mut Walker<'t, 'a>,
    protos: &'t [Proto<'t, 'a>],
    holder: Holder<'t, 'a>,
    next: Next<'t, 'a>,
) -> Result<NodeTask<'t, 'a>, ExpandFault>
    requires walker { shown.Sound walker.old }
    requires holder { HolderSound holder }
    requires fits { HolderFits holder next }
    ensures goes { (ps : List Prototype) (outcome : Comes ℕ) → Knows ps protos.now
        → outcome ≡ holder_next ps holder.entry next.entry (shown.shown walker.old)
        → Goes ps outcome result (shown.shown walker.new) }
    ensures sound { IfOk result (λ t. TaskSound t) }
    ensures walker { IfOk result (λ _. shown.Sound walker.new) }
{
    match next {
        Next::On => Ok(NodeTask::On(holder)),
        Next::One(place, node) => Ok(NodeTask::NodeFor(Frame::One(holder, place), node)),
        Next::List(place, nodes) => Ok(NodeTask::List(holder, listing(alloc, place, nodes))),
        Next::Closed => close(alloc, walker, protos, holder),
    }
}

/// Like `begin_next`, if the step before succeeded.
fn proceed<'t, 'a>(
    alloc: Global,
    walker: &mut Walker<'t, 'a>,
    protos: &'t [Proto<'t, 'a>],
    holder: Holder<'t, 'a>,
    next: Result<Next<'t, 'a>, ExpandFault>,
) -> Result<NodeTask<'t, 'a>, ExpandFault>
    requires { HolderGoesSound next walker.old holder }
    ensures goes { (ps : List Prototype) (outcome : Comes ℕ) → Knows ps protos.now
        → HolderGoes ps outcome next.entry walker.old holder.entry
        → Goes ps outcome result (shown.shown walker.new) }
    ensures sound { IfOk result (λ t. TaskSound t) }
    ensures walker { IfOk result (λ _. shown.Sound walker.new) }
{
    match next {
        Ok(next) => begin_next(alloc, walker, protos, holder, next),
        Err(fault) => {
            drop(holder);
            Err(fault)
        }
    }
}

/// Does the next step between braces.
fn go_on_braces<'t, 'a>(
    alloc: Global,
    walker: &mut Walker<'t, 'a>,
    protos: &'t [Proto<'t, 'a>],
    opened: Open<'t, 'a>,
) -> Result<NodeTask<'t, 'a>, ExpandFault>
    requires walker { shown.Sound walker.old }
    requires holder { HolderSound (Holder.Braces opened) }
    ensures goes { (ps : List Prototype) → Knows ps protos.now → Goes ps
        (holder_comes ps (Holder.Braces opened.entry) (shown.shown walker.old)) result
        (shown.shown walker.new) }
    ensures sound { IfOk result (λ t. TaskSound t) }
    ensures walker { IfOk result (λ _. shown.Sound walker.new) }
{
    let mut opened = opened;
    let next = next_item(alloc, walker, &mut opened);
    proceed(alloc, walker, protos, Holder::Braces(opened), next)
}

/// Does the next step on default values.
fn go_on_defaults<'t, 'a>(
    alloc: Global,
    walker: &mut Walker<'t, 'a>,
    protos: &'t [Proto<'t, 'a>],
    filling: Filling<'t, 'a>,
) -> Result<NodeTask<'t, 'a>, ExpandFault>
    requires walker { shown.Sound walker.old }
    requires holder { HolderSound (Holder.Defaults filling) }
    ensures goes { (ps : List Prototype) → Knows ps protos.now → Goes ps
        (holder_comes ps (Holder.Defaults filling.entry) (shown.shown walker.old)) result
        (shown.shown walker.new) }
    ensures sound { IfOk result (λ t. TaskSound t) }
    ensures walker { IfOk result (λ _. shown.Sound walker.new) }
{
    let mut filling = filling;
    let next = next_default(alloc, &mut filling);
    proceed(
        alloc,
        walker,
        protos,
        Holder::Defaults(filling),
        or_memory(next),
    )
}

/// Does the next step, and returns what is to be done next. Err is the fault of the step, TooLarge
/// or Memory.
pub fn go_on<'t, 'a>(
    alloc: Global,
    walker: &mut Walker<'t, 'a>,
    protos: &'t [Proto<'t, 'a>],
    holder: Holder<'t, 'a>,
) -> Result<NodeTask<'t, 'a>, ExpandFault>
    requires walker { shown.Sound walker.old }
    requires holder { HolderSound holder }
    ensures goes { (ps : List Prototype) → Knows ps protos.now → Goes ps
        (holder_comes ps holder.entry (shown.shown walker.old)) result (shown.shown walker.new) }
    ensures sound { IfOk result (λ t. TaskSound t) }
    ensures walker { IfOk result (λ _. shown.Sound walker.new) }
{
    match holder {
        Holder::Braces(opened) => go_on_braces(alloc, walker, protos, opened),
        Holder::Defaults(filling) => go_on_defaults(alloc, walker, protos, filling),
    }
}

/// Gives a field between braces its value.
fn keep_braces<'t, 'a>(
    alloc: Global,
    opened: Open<'t, 'a>,
    place: FieldAt<'a>,
    value: RawValue<u32>,
) -> Result<NodeTask<'t, 'a>, ExpandFault>
    requires holder { HolderSound (Holder.Braces opened) }
    requires free { IsFree (Holder.Braces opened) place.name.now }
    ensures goes { (ps : List Prototype) (s : State) → Goes ps
        (value_comes ps (Holder.Braces opened.entry) place.entry value s) result s }
    ensures sound { IfOk result (λ t. TaskSound t) }
{
    let mut opened = opened;
    match set_value(alloc, &mut opened, place, value) {
        Ok(()) => Ok(NodeTask::On(Holder::Braces(opened))),
        Err(error) => {
            drop(opened);
            Err(ExpandFault::from(error))
        }
    }
}

/// Gives a default its value.
fn keep_defaults<'t, 'a>(
    alloc: Global,
    filling: Filling<'t, 'a>,
    place: FieldAt<'a>,
    value: RawValue<u32>,
) -> Result<NodeTask<'t, 'a>, ExpandFault>
    requires holder { HolderSound (Holder.Defaults filling) }
    requires free { IsFree (Holder.Defaults filling) place.name.now }
    ensures goes { (ps : List Prototype) (s : State) → Goes ps
        (value_comes ps (Holder.Defaults filling.entry) place.entry value s) result s }
    ensures sound { IfOk result (λ t. TaskSound t) }
{
    let mut filling = filling;
    match fill(alloc, &mut filling, place, value) {
        Ok(()) => Ok(NodeTask::On(Holder::Defaults(filling))),
        Err(error) => {
            drop(filling);
            Err(ExpandFault::from(error))
        }
    }
}

/// Gives the field its value, and returns what is to be done next. Memory if memory runs out.
pub fn keep<'t, 'a>(
    alloc: Global,
    holder: Holder<'t, 'a>,
    place: FieldAt<'a>,
    value: RawValue<u32>,
) -> Result<NodeTask<'t, 'a>, ExpandFault>
    requires holder { HolderSound holder }
    requires free { IsFree holder place.name.now }
    ensures goes { (ps : List Prototype) (s : State) → Goes ps
        (value_comes ps holder.entry place.entry value s) result s }
    ensures sound { IfOk result (λ t. TaskSound t) }
{
    match holder {
        Holder::Braces(opened) => keep_braces(alloc, opened, place, value),
        Holder::Defaults(filling) => keep_defaults(alloc, filling, place, value),
    }
}

/// Returns the first node, and the rest.
fn first_node<'t, 'a>(nodes: &'t [NodeTree<'a>]) -> Option<(&'t NodeTree<'a>, &'t [NodeTree<'a>])>
    ensures { IsSplit nodes.now (option_map (λ p. (p.0.now, p.1.now)) result) }
{
    nodes.split_first()
}

/// Stores the nodes that are left.
fn set_rest<'t, 'a>(listing: &mut Listing<'t, 'a>, rest: &'t [NodeTree<'a>])
    ensures { listing.new ≡ record listing.old { rest = rest.entry } }
{
    listing.rest = rest;
}

/// Does the next node of a list, or ends the list. Returns what is to be done next; Memory if
/// memory runs out.
pub fn next_in_list<'t, 'a>(
    alloc: Global,
    holder: Holder<'t, 'a>,
    listing: Listing<'t, 'a>,
) -> Result<NodeTask<'t, 'a>, ExpandFault>
    requires holder { HolderSound holder }
    requires free { IsFree holder listing.place.name.now }
    ensures goes { (ps : List Prototype) (s : State) → Goes ps (list_comes ps holder.entry
        listing.entry.place listing.entry.rest.now listing.entry.numbers s) result s }
    ensures sound { IfOk result (λ t. TaskSound t) }
{
    let Some((node, rest)) = first_node(listing.rest) else {
        let Listing { place, numbers, .. } = listing;
        return keep(alloc, holder, place, RawValue::NodeList(numbers));
    };
    let mut listing = listing;
    set_rest(&mut listing, rest);
    Ok(NodeTask::NodeFor(Frame::List(holder, listing), node))
}

/// Returns the list with one number more.
fn longer<'t, 'a>(listing: Listing<'t, 'a>, number: u32) -> Result<Listing<'t, 'a>, AllocError>
    ensures { IfOk result (λ l. l
        ≡ record listing.entry { numbers = listing.entry.numbers ++ number ∷ [] }) }
{
    let mut listing = listing;
    listing.numbers.push(number)?;
    Ok(listing)
}

/// Adds the number of a node to the list, and returns what is to be done next. Memory if memory
/// runs out.
pub fn add_number<'t, 'a>(
    holder: Holder<'t, 'a>,
    listing: Listing<'t, 'a>,
    number: u32,
) -> Result<NodeTask<'t, 'a>, ExpandFault>
    requires holder { HolderSound holder }
    requires free { IsFree holder listing.place.name.now }
    ensures goes { (ps : List Prototype) (s : State) → Goes ps (list_comes ps holder.entry
        listing.entry.place listing.entry.rest.now (listing.entry.numbers ++ number ∷ []) s) result
        s }
    ensures sound { IfOk result (λ t. TaskSound t) }
{
    match longer(listing, number) {
        Ok(listing) => Ok(NodeTask::List(holder, listing)),
        Err(error) => {
            drop(holder);
            Err(ExpandFault::from(error))
        }
    }
}
