//! Fields whose value adds no nodes.

ghost use Rattle.std.specs.Prelude.{◌≡◌, ℕ, false, List, IfOk, option_map};
ghost use Rattle.std.specs.Option.{option_map_or};
ghost use Rattle.classic_tree.specs.declared.tree.Given.TheVariants as text;
ghost use Rattle.proto_meaning.specs.Flat as flat;
ghost use Rattle.proto_meaning.specs.Limits.{item_count};
ghost use Rattle.proto_meaning.specs.Names.{value_of};
ghost use Rattle.proto_meaning.specs.Sight as sight;
ghost use Rattle.proto_parts.specs.Given as table;
ghost use Rattle.proto_parts.specs.Fields.{field_named};
ghost use Rattle.proto_parts.specs.Inside as braces;
ghost use Rattle.proto_parts.specs.Settled.{doing};
ghost use Rattle.proto_parts.specs.Scope as scope;
ghost use Rattle.proto_nodes.specs.Shown as shown;
ghost use Rattle.proto_nodes.specs.Shown.{Steps};
ghost use Rattle.proto_nodes.specs.Giving.{Gives, MayJoin, inside_of, is_type, placed};

use crate::frames::FieldAt;
use crate::walker::Walker;
use classic_tree::RawValue;
use proto_flat::{ExpandFault, ExpandFaultKind};
use proto_parts::{GivenField, Inside, KnownField, Owner, item_count};
use std::alloc::AllocError;
use std::rc::Rc;
use x3d_lists::Text;
use x3d_values::Access;

/// Counts a field: of a node with its number and items, of an instance as one item.
pub fn meet_field(
    walker: &mut Walker<'_, '_>,
    owner: Owner<'_, '_>,
    number: usize,
    items: usize,
) -> Result<(), ExpandFault>
    requires { shown.Sound walker.old }
    ensures { (o : sight.Owner) → flat.is_node o ≡ is_type owner.entry
        → Steps (λ a. a) (doing (flat.met_field o number items) (shown.shown walker.old)) result
        walker.new }
{
    match owner {
        Owner::Node(_node_type) => walker.meet_field(number, items),
        Owner::Instance(_interface) => walker.meet_item(),
    }
}

/// Counts the field, and records that it was given nothing.
fn keep_nothing<'t, 'a>(
    walker: &mut Walker<'t, 'a>,
    inside: &mut Inside<'t, 'a>,
    place: FieldAt<'a>,
) -> Result<(), ExpandFault>
    requires walker { shown.Sound walker.old }
    requires inside { braces.Sound inside.old }
    requires free { table.has_name place.name.now (braces.filled_in inside.old) ≡ false }
    ensures { (at : ℕ) (o : sight.Owner) → flat.is_node o ≡ is_type inside.old.owner
        → Gives at o (doing (flat.give place.entry.line (placed place.entry) false text.Nothing
        (inside_of at o inside.old)) (shown.shown walker.old)) result walker.new inside.old
        inside.new }
{
    meet_field(walker, inside.owner, place.field.number, 0)?;
    inside.fill(
        place.name,
        GivenField {
            line: place.line,
            number: place.field.number,
            value: None,
        },
    )?;
    Ok(())
}

/// Declares the field without a value. FieldTwice if `twice`: it was given something before.
/// TooLarge if that passes a limit; Memory if memory runs out.
pub fn put_nothing<'t, 'a>(
    walker: &mut Walker<'t, 'a>,
    inside: &mut Inside<'t, 'a>,
    place: FieldAt<'a>,
    twice: bool,
) -> Result<(), ExpandFault>
    requires walker { shown.Sound walker.old }
    requires inside { braces.Sound inside.old }
    requires free { twice ≡ false
        → table.has_name place.name.now (braces.filled_in inside.old) ≡ false }
    ensures { (at : ℕ) (o : sight.Owner) → flat.is_node o ≡ is_type inside.old.owner
        → Gives at o (doing (flat.give place.entry.line (placed place.entry) twice text.Nothing
        (inside_of at o inside.old)) (shown.shown walker.old)) result walker.new inside.old
        inside.new }
{
    if twice {
        return Err(ExpandFaultKind::FieldTwice.on_line(place.line));
    }
    keep_nothing(walker, inside, place)
}

/// Reports whether an interface field of the first access may be joined to a field of the second.
fn joins(outer: Access, inner: Access) -> bool
    ensures { result ≡ flat.joins outer inner }
{
    match outer {
        Access::InputOnly => inner.receives(),
        Access::OutputOnly => inner.sends(),
        Access::InitializeOnly => inner.is_initial(),
        Access::InputOutput => inner.is_exposed(),
    }
}

fn fits(outer: KnownField, inner: KnownField) -> bool
    ensures { (a b : List ℕ) → result ≡ flat.fits (field_named a outer) (field_named b inner) }
{
    outer.field_type == inner.field_type && joins(outer.access, inner.access)
}

/// Returns another reference to the value.
fn shared(value: Option<&Rc<RawValue<u32>>>) -> Result<Option<Rc<RawValue<u32>>>, AllocError>
    ensures { IfOk result (λ v. option_map (λ r. r.value) v
        ≡ option_map (λ r. r.now.value) value.entry) }
{
    let Some(value) = value else {
        return Ok(None);
    };
    Ok(Some(value.clone()?))
}

fn items_of(value: &Option<Rc<RawValue<u32>>>) -> usize
    ensures { result ≡ option_map_or item_count (option_map (λ r. r.value) value.now) 0 }
{
    match value {
        None => 0,
        Some(value) => item_count(value),
    }
}

/// Joins the field to that of the interface, and records the value that it hands on.
fn join<'t, 'a>(
    walker: &mut Walker<'t, 'a>,
    inside: &mut Inside<'t, 'a>,
    at: usize,
    place: FieldAt<'a>,
    outer: &'a Text,
) -> Result<(), ExpandFault>
    requires walker { shown.Sound walker.old }
    requires inside { braces.Sound inside.old }
    requires free { table.has_name place.name.now (braces.filled_in inside.old) ≡ false }
    ensures { (o : sight.Owner) → flat.is_node o ≡ is_type inside.old.owner
        → Gives at o (doing (flat.join place.entry.line (placed place.entry)
        (inside_of at o inside.old) outer.now
        (value_of outer.now (scope.shown walker.old.scope).given)) (shown.shown walker.old)) result
        walker.new inside.old inside.new }
{
    let value = shared(walker.scope.value(outer))?;
    meet_field(walker, inside.owner, place.field.number, items_of(&value))?;
    walker.join_field(outer, at, place.name)?;
    inside.fill(
        place.name,
        GivenField {
            line: place.line,
            number: place.field.number,
            value,
        },
    )?;
    Ok(())
}

/// Checks that the field may be joined to the interface field of that name: BadIs if there is none
/// or if they don't fit; else FieldTwice if `twice`.
fn check_is(
    walker: &Walker<'_, '_>,
    inside: &Inside<'_, '_>,
    place: FieldAt<'_>,
    twice: bool,
    outer: &Text,
) -> Result<(), ExpandFault>
    ensures { MayJoin place.entry.line place.entry.name.now place.entry.field twice outer.now
        inside.now (shown.shown walker.now) result }
{
    let Some(known) = walker.scope.outer(outer) else {
        return Err(ExpandFaultKind::BadIs.on_line(place.line));
    };
    if !fits(known, place.field) {
        return Err(ExpandFaultKind::BadIs.on_line(place.line));
    }
    if twice {
        return Err(ExpandFaultKind::FieldTwice.on_line(place.line));
    }
    Ok(())
}

/// IS: joins the field to the interface field `outer`, and gives it the value of that field. BadIs
/// if there is no such field or if the two don't fit; FieldTwice if `twice`; TooLarge if that
/// passes a limit; Memory if memory runs out.
pub fn put_is<'t, 'a>(
    walker: &mut Walker<'t, 'a>,
    inside: &mut Inside<'t, 'a>,
    at: usize,
    place: FieldAt<'a>,
    twice: bool,
    outer: &'a Text,
) -> Result<(), ExpandFault>
    requires walker { shown.Sound walker.old }
    requires inside { braces.Sound inside.old }
    requires free { twice ≡ false
        → table.has_name place.name.now (braces.filled_in inside.old) ≡ false }
    ensures { (o : sight.Owner) → flat.is_node o ≡ is_type inside.old.owner
        → Gives at o (doing (flat.give place.entry.line (placed place.entry) twice
        (text.Is outer.now) (inside_of at o inside.old)) (shown.shown walker.old)) result
        walker.new inside.old inside.new }
{
    check_is(walker, inside, place, twice, outer)?;
    join(walker, inside, at, place, outer)
}
