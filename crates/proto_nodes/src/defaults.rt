//! The default values of an instance.

ghost use Rattle.std.specs.Prelude.{◌≡◌, ◌++◌, List, false, is_none, option_map, IfOk};
ghost use Rattle.proto_meaning.specs.Names.{value_of};
ghost use Rattle.proto_meaning.specs.Sight.{Prototype};
ghost use Rattle.proto_parts.specs.Given as table;
ghost use Rattle.proto_meaning.specs.trees.Values as values;
ghost use Rattle.proto_parts.specs.Settled.{State};
ghost use Rattle.proto_nodes.specs.Does.{default_comes, default_value, filled_now, filling_comes};
ghost use Rattle.proto_nodes.specs.Frames.{DefaultGoes, DefaultSound, FillingSound, HasFilled, IsSplit};

use crate::frames::{FieldAt, Filling, Next};
use classic_tree::{Declaration, NodeText, RawValue};
use proto_meaning::{DefaultTree, GivenTree};
use proto_parts::{Given, GivenField, KnownField, plain};
use std::alloc::{AllocError, Global};
use std::rc::Rc;
use x3d_lists::Text;

/// Reports whether neither of the two has a value of that name.
fn is_free(given: &Given<'_>, defaults: &Given<'_>, name: &Text) -> bool
    requires given { table.IsHeld given.now }
    requires defaults { table.IsHeld defaults.now }
    ensures { result ≡ is_none (value_of name.now (table.shown given.now
        ++ table.shown defaults.now)) }
{
    if given.value(name).is_some() {
        return false;
    }
    defaults.value(name).is_none()
}

fn place_of<'a>(declaration: &'a Declaration<NodeText>) -> FieldAt<'a>
    ensures line { result.line ≡ declaration.now.line }
    ensures name { result.name.now ≡ declaration.now.name }
    ensures number { result.field.number ≡ 0 }
{
    FieldAt {
        line: declaration.line,
        name: &declaration.name,
        field: KnownField {
            line: declaration.line,
            number: 0,
            access: declaration.access,
            field_type: declaration.field_type,
        },
    }
}

/// Gives the field the value. AllocError if memory runs out.
pub fn fill<'t, 'a>(
    alloc: Global,
    filling: &mut Filling<'t, 'a>,
    place: FieldAt<'a>,
    value: RawValue<u32>,
) -> Result<(), AllocError>
    requires sound { FillingSound filling.old }
    requires free { table.has_name place.name.now (table.shown filling.old.defaults) ≡ false }
    ensures { IfOk result (λ _.
        HasFilled filling.old (default_value place.entry value) filling.new) }
{
    let value = Rc::new(alloc, value)?;
    let FieldAt { line, name, field } = place;
    filling.defaults.fill(
        name,
        GivenField {
            line,
            number: field.number,
            value: Some(value),
        },
    )
}

fn put_plain<'t, 'a>(
    alloc: Global,
    filling: &mut Filling<'t, 'a>,
    place: FieldAt<'a>,
    value: &RawValue<NodeText>,
) -> Result<Next<'t, 'a>, AllocError>
    requires sound { FillingSound filling.old }
    requires free { table.has_name place.name.now (table.shown filling.old.defaults) ≡ false }
    ensures { IfOk result (λ next. (next ≡ Next.On)
        × HasFilled filling.old (default_value place.entry (values.plain value.now)) filling.new) }
{
    let copy = plain(alloc, value)?;
    fill(alloc, filling, place, copy)?;
    Ok(Next::On)
}

fn put_default<'t, 'a>(
    alloc: Global,
    filling: &mut Filling<'t, 'a>,
    default: &'t DefaultTree<'a>,
) -> Result<Next<'t, 'a>, AllocError>
    requires sound { FillingSound filling.old }
    requires free { table.has_name default.now.declaration.now.name
        (table.shown filling.old.defaults) ≡ false }
    ensures goes { (ps : List Prototype) (s : State) → DefaultGoes ps
        (default_comes ps default.now filling.old s) result filling.new s }
    ensures sound { DefaultSound result filling.new }
{
    let place = place_of(default.declaration);
    match &default.value {
        GivenTree::Plain(value) => put_plain(alloc, filling, place, value),
        GivenTree::One(node) => Ok(Next::One(place, node)),
        GivenTree::Many(_count, nodes) => Ok(Next::List(place, nodes.as_slice())),
        GivenTree::Nothing => Ok(Next::On),
        GivenTree::Is(_name) => Ok(Next::On),
        GivenTree::LeftOut(_wrong) => Ok(Next::On),
    }
}

/// Returns the first default, and the rest.
fn first_default<'t, 'a>(
    defaults: &'t [DefaultTree<'a>],
) -> Option<(&'t DefaultTree<'a>, &'t [DefaultTree<'a>])>
    ensures { IsSplit defaults.now (option_map (λ p. (p.0.now, p.1.now)) result) }
{
    defaults.split_first()
}

/// Stores the defaults that are left.
fn set_rest<'t, 'a>(filling: &mut Filling<'t, 'a>, rest: &'t [DefaultTree<'a>])
    ensures { filling.new ≡ record filling.old { rest = rest.entry } }
{
    filling.rest = rest;
}

/// Does the next default value, if the instance gives none. AllocError if memory runs out.
pub fn next_default<'t, 'a>(
    alloc: Global,
    filling: &mut Filling<'t, 'a>,
) -> Result<Next<'t, 'a>, AllocError>
    requires { FillingSound filling.old }
    ensures goes { (ps : List Prototype) (s : State) → DefaultGoes ps
        (filling_comes ps filling.old.around.value filling.old.rest.now (filled_now filling.old) s)
        result filling.new s }
    ensures sound { DefaultSound result filling.new }
{
    let Some((default, rest)) = first_default(filling.rest) else {
        return Ok(Next::Closed);
    };
    set_rest(filling, rest);
    if !is_free(&filling.given, &filling.defaults, &default.declaration.name) {
        return Ok(Next::On);
    }
    put_default(alloc, filling, default)
}
