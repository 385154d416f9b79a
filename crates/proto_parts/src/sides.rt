//! ROUTEs of a scope, which are read once all its braces are closed.

ghost use Rattle.std.specs.Prelude.{◌≡◌, ℕ, ◌++◌, ◌∷◌, [], Some, map, option_map, IfOk};
ghost use Rattle.x3d_values.specs.Access.{receives, sends};
ghost use Rattle.proto_meaning.specs.Names.{ends_by, source_ends, source_in, stands_at};
ghost use Rattle.proto_meaning.specs.Names.{target_ends, target_in};
ghost use Rattle.proto_parts.specs.Ends.{end};
ghost use Rattle.proto_parts.specs.Routes.{routes_of_wire};
ghost use Rattle.proto_parts.specs.Wires.{means, wires};
ghost use Rattle.proto_parts.specs.Joined.{ends_in, owned};
ghost use Rattle.proto_parts.specs.Joins.{braces_of, instance_by, stands_of};
ghost use Rattle.proto_parts.specs.Sides.{made_routes, part_routes, parts_routes, pending_routes};

use crate::ends::{End, Ends, one};
use crate::joins::{Braces, InstanceEnds, Stands, field_ends};
use crate::kept::Branches;
use crate::named::{source_field, target_field};
use crate::routes::Wire;
use crate::wires::{Wires, one_wire};
use std::alloc::{AllocError, Global};
use std::rc::Rc;
use x3d_lists::Text;

/// An end of a ROUTE as written: the braces that it names, by the number of braces of the scope
/// opened before them, and the name of the field.
#[derive(Clone, Copy)]
pub struct Side<'a> {
    pub at: Option<usize>,
    pub field: &'a Text,
}

/// A ROUTE whose braces may still be open.
#[derive(Clone, Copy)]
pub struct Pending<'a> {
    pub line: u32,
    pub source: Side<'a>,
    pub target: Side<'a>,
}

/// A ROUTE of the scope, or those of the body of an instance in it.
#[derive(Drop)]
pub enum RoutePart<'a> {
    Pending(Pending<'a>),
    Made(Rc<Wires<'a>>),
}

fn alone<'a>(alloc: Global, only: End<'a>) -> Result<Option<Rc<Ends<'a>>>, AllocError>
    ensures { IfOk result (λ ends. owned ends ≡ end only.entry ∷ []) }
{
    let made = one(alloc, only)?;
    Ok(Some(made))
}

/// Returns the ends that are joined to the interface field of that name.
fn inner_ends<'t, 'a>(
    instance: &InstanceEnds<'t, 'a>,
    name: &str,
) -> Result<Option<Rc<Ends<'a>>>, AllocError>
    ensures { IfOk result (λ ends. owned ends ≡ ends_in instance.now.joined name.now) }
{
    let Some(ends) = instance.joined.get(name) else {
        return Ok(None);
    };
    Ok(Some(ends.clone()?))
}

/// Returns the ends that a source names in an instance.
fn sources_in<'t, 'a>(
    alloc: Global,
    instance: &InstanceEnds<'t, 'a>,
    name: &Text,
) -> Result<Option<Rc<Ends<'a>>>, AllocError>
    ensures { (node : ℕ) → IfOk result (λ ends. owned ends
        ≡ ends_by sends (instance_by node instance.now)
        (source_in instance.now.interface.now name.now)) }
{
    let Some(found) = source_field(instance.interface, name) else {
        return alone(alloc, End::NoField);
    };
    if found.field.access.sends() {
        return inner_ends(instance, found.name);
    }
    alone(alloc, End::WrongWay)
}

/// Returns the ends that a target names in an instance.
fn targets_in<'t, 'a>(
    alloc: Global,
    instance: &InstanceEnds<'t, 'a>,
    name: &Text,
) -> Result<Option<Rc<Ends<'a>>>, AllocError>
    ensures { (node : ℕ) → IfOk result (λ ends. owned ends
        ≡ ends_by receives (instance_by node instance.now)
        (target_in instance.now.interface.now name.now)) }
{
    let Some(found) = target_field(instance.interface, name) else {
        return alone(alloc, End::NoField);
    };
    if found.field.access.receives() {
        return inner_ends(instance, found.name);
    }
    alone(alloc, End::WrongWay)
}

/// Returns what the braces stand for, or None if they are open or absent.
fn standing<'b, 't, 'a>(
    braces: &'b [Braces<'t, 'a>],
    at: Option<usize>,
) -> Option<&'b Stands<'t, 'a>>
    ensures { option_map (λ s. stands_of s.now) result ≡ stands_at (map braces_of braces.now) at }
{
    let Some(at) = at else {
        return None;
    };
    let Some(opened) = braces.get(at) else {
        return None;
    };
    let Some(stands) = &opened.stands else {
        return None;
    };
    Some(stands)
}

/// Returns the ends that a source names.
fn sources<'t, 'a>(
    alloc: Global,
    stands: Option<&Stands<'t, 'a>>,
    name: &'a Text,
) -> Result<Option<Rc<Ends<'a>>>, AllocError>
    ensures { IfOk result (λ ends. owned ends
        ≡ source_ends name.now (option_map (λ s. stands_of s.now) stands.entry)) }
{
    let Some(stands) = stands else {
        return alone(alloc, End::NoNode);
    };
    let Some(instance) = &stands.instance else {
        return field_ends(alloc, stands, name);
    };
    sources_in(alloc, instance, name)
}

/// Returns the ends that a target names.
fn targets<'t, 'a>(
    alloc: Global,
    stands: Option<&Stands<'t, 'a>>,
    name: &'a Text,
) -> Result<Option<Rc<Ends<'a>>>, AllocError>
    ensures { IfOk result (λ ends. owned ends
        ≡ target_ends name.now (option_map (λ s. stands_of s.now) stands.entry)) }
{
    let Some(stands) = stands else {
        return alone(alloc, End::NoNode);
    };
    let Some(instance) = &stands.instance else {
        return field_ends(alloc, stands, name);
    };
    targets_in(alloc, instance, name)
}

/// Returns a ROUTE with its ends; all braces of the scope are closed.
fn wire<'t, 'a>(
    alloc: Global,
    braces: &[Braces<'t, 'a>],
    pending: Pending<'a>,
) -> Result<Wire<'a>, AllocError>
    ensures { IfOk result (λ wire. routes_of_wire wire
        ≡ pending_routes pending.entry (map braces_of braces.now)) }
{
    let source = sources(
        alloc,
        standing(braces, pending.source.at),
        pending.source.field,
    )?;
    let target = targets(
        alloc,
        standing(braces, pending.target.at),
        pending.target.field,
    )?;
    Ok(Wire {
        line: pending.line,
        source,
        target,
    })
}

fn wires_of<'t, 'a>(
    alloc: Global,
    braces: &[Braces<'t, 'a>],
    part: &RoutePart<'a>,
) -> Result<Rc<Wires<'a>>, AllocError>
    ensures { IfOk result (λ made. means (wires made.value)
        ≡ part_routes part.now (map braces_of braces.now)) }
{
    match part {
        RoutePart::Pending(pending) => {
            let wire = wire(alloc, braces, *pending)?;
            one_wire(alloc, wire)
        }
        RoutePart::Made(made) => Ok(made.clone()?),
    }
}

/// Returns the ROUTEs `before` and then `next`.
fn behind<'a>(
    alloc: Global,
    kept: &mut Branches<'a>,
    before: Option<Rc<Wires<'a>>>,
    next: Rc<Wires<'a>>,
) -> Result<Rc<Wires<'a>>, AllocError>
    ensures { IfOk result (λ made. means (wires made.value)
        ≡ made_routes before.entry ++ means (wires next.entry.value)) }
{
    let Some(before) = before else {
        return Ok(next);
    };
    kept.both_wires(alloc, before, next)
}

/// Returns the ROUTEs of a scope and of the instances in it, in the order of the text, or None if
/// there are none. All braces of the scope are closed. AllocError if memory runs out.
pub fn routes_made<'t, 'a>(
    alloc: Global,
    kept: &mut Branches<'a>,
    braces: &[Braces<'t, 'a>],
    parts: &[RoutePart<'a>],
) -> Result<Option<Rc<Wires<'a>>>, AllocError>
    ensures { IfOk result (λ made. made_routes made
        ≡ parts_routes parts.now (map braces_of braces.now)) }
{
    let mut made = None;
    for part in parts {
        let next = wires_of(alloc, braces, part)?;
        made = Some(behind(alloc, kept, made, next)?);
    }
    Ok(made)
}
