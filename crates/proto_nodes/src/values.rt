//! Values between braces.

ghost use Rattle.std.specs.Prelude.{◌≡◌, ℕ, ◌||◌, false, None, Some, IfOk};
ghost use Rattle.x3d_values.specs.Access.{is_initial};
ghost use Rattle.proto_meaning.specs.Flat as flat;
ghost use Rattle.proto_meaning.specs.Sight as sight;
ghost use Rattle.proto_parts.specs.Given as table;
ghost use Rattle.proto_parts.specs.Inside as braces;
ghost use Rattle.proto_parts.specs.Settled.{doing};
ghost use Rattle.proto_nodes.specs.Shown as shown;
ghost use Rattle.proto_meaning.specs.trees.Values.{value_at};
ghost use Rattle.proto_nodes.specs.Giving.{Gives, MayHold, MayStand, aside, inside_of, is_type, placed};

use crate::frames::FieldAt;
use crate::giving::meet_field;
use crate::walker::Walker;
use classic_tree::RawValue;
use proto_flat::{ExpandFault, ExpandFaultKind};
use proto_parts::{GivenField, Inside, KnownField, Owner};
use std::alloc::{AllocError, Global};
use std::rc::Rc;

/// Reports whether the field may be given a value: any field of a node, and a field of an instance
/// that holds one.
fn admits(owner: Owner<'_, '_>, field: KnownField) -> bool
    ensures { result ≡ (is_type owner.entry || is_initial field.access) }
{
    match owner {
        Owner::Node(_node_type) => true,
        Owner::Instance(_interface) => field.access.is_initial(),
    }
}

/// Checks that the field may have a value: UnknownField if it can hold none, FieldTwice if `twice`.
fn check_value(inside: &Inside<'_, '_>, place: FieldAt<'_>, twice: bool) -> Result<(), ExpandFault>
    ensures { MayStand place.entry.line place.entry.name.now place.entry.field twice inside.now
        result }
{
    if !admits(inside.owner, place.field) {
        return Err(ExpandFaultKind::UnknownField.on_line(place.line));
    }
    if twice {
        return Err(ExpandFaultKind::FieldTwice.on_line(place.line));
    }
    Ok(())
}

/// Counts a value of that many items, if the field may have one. UnknownField or FieldTwice if it
/// may not, TooLarge if that passes a limit.
pub fn meet_value(
    walker: &mut Walker<'_, '_>,
    inside: &Inside<'_, '_>,
    place: FieldAt<'_>,
    twice: bool,
    items: usize,
) -> Result<(), ExpandFault>
    requires { shown.Sound walker.old }
    ensures { MayHold place.entry.line place.entry.name.now place.entry.field twice items
        inside.now (shown.shown walker.old) result walker.new }
{
    check_value(inside, place, twice)?;
    meet_field(walker, inside.owner, place.field.number, items)
}

/// Gives the field the value. AllocError if memory runs out.
pub fn keep_value<'t, 'a>(
    alloc: Global,
    inside: &mut Inside<'t, 'a>,
    place: FieldAt<'a>,
    value: RawValue<u32>,
) -> Result<(), AllocError>
    requires inside { braces.Sound inside.old }
    requires free { table.has_name place.name.now (braces.filled_in inside.old) ≡ false }
    ensures filled { IfOk result (λ _. (at : ℕ) (o : sight.Owner)
        → flat.fill place.entry.line (placed place.entry) (inside_of at o inside.old) (Some value)
        ≡ inside_of at o inside.new) }
    ensures sound { IfOk result (λ _. braces.Sound inside.new) }
    ensures owner { inside.new.owner ≡ inside.old.owner }
{
    let value = Rc::new(alloc, value)?;
    inside.fill(
        place.name,
        GivenField {
            line: place.line,
            number: place.field.number,
            value: Some(value),
        },
    )?;
    Ok(())
}

/// Records that the field was given a value that no IS takes. AllocError if memory runs out.
pub fn keep_none<'t, 'a>(inside: &mut Inside<'t, 'a>, place: FieldAt<'a>) -> Result<(), AllocError>
    requires inside { braces.Sound inside.old }
    requires free { table.has_name place.name.now (braces.filled_in inside.old) ≡ false }
    ensures filled { IfOk result (λ _. (at : ℕ) (o : sight.Owner)
        → flat.fill place.entry.line (placed place.entry) (inside_of at o inside.old) None
        ≡ inside_of at o inside.new) }
    ensures sound { IfOk result (λ _. braces.Sound inside.new) }
    ensures owner { inside.new.owner ≡ inside.old.owner }
{
    inside.fill(
        place.name,
        GivenField {
            line: place.line,
            number: place.field.number,
            value: None,
        },
    )?;
    Ok(())
}

/// Counts a value that no IS takes, and records it. UnknownField or FieldTwice if the field may not
/// have one; else `wrong`, the first wrong declaration in it; TooLarge if that passes a limit;
/// Memory if memory runs out.
pub fn put_aside<'t, 'a>(
    walker: &mut Walker<'t, 'a>,
    inside: &mut Inside<'t, 'a>,
    place: FieldAt<'a>,
    twice: bool,
    wrong: Option<ExpandFault>,
) -> Result<(), ExpandFault>
    requires walker { shown.Sound walker.old }
    requires inside { braces.Sound inside.old }
    requires free { twice ≡ false
        → table.has_name place.name.now (braces.filled_in inside.old) ≡ false }
    ensures { (at : ℕ) (o : sight.Owner) → flat.is_node o ≡ is_type inside.old.owner
        → Gives at o (doing (value_at place.entry.line (placed place.entry) twice 0
        (inside_of at o inside.old) (aside place.entry.line (placed place.entry)
        (inside_of at o inside.old) wrong)) (shown.shown walker.old)) result walker.new inside.old
        inside.new }
{
    meet_value(walker, inside, place, twice, 0)?;
    if let Some(fault) = wrong {
        return Err(fault);
    }
    keep_none(inside, place)?;
    Ok(())
}
