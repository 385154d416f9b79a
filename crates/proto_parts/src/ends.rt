//! Ends of ROUTEs. The ends of an instance's field are put together from others without copying
//! them.

ghost use Rattle.std.specs.Prelude.{◌≡◌, ◌++◌, ◌∷◌, [], IfOk};
ghost use Rattle.x3d_lists.specs.Answers.{Gives};
ghost use Rattle.proto_flat.specs.Fault.{memory};
ghost use Rattle.proto_parts.specs.Ends as spec;
ghost use Rattle.proto_parts.specs.Ends.{list, waiting, few};

use proto_flat::{ExpandFault, ExpandFaultKind, FlatEnd};
use std::alloc::{AllocError, Global};
use std::rc::Rc;
use x3d_lists::{Duplicate, Items, Text};
use x3d_values::MAX_ROUTES;

/// An end of a ROUTE: a node's field, or why there is none.
#[derive(Clone, Copy)]
pub enum End<'a> {
    At(u32, &'a Text),
    NoNode,
    NoField,
    WrongWay,
}

/// One end or more. A part of several lists is stored once. Dropping an `Ends` recurses once for
/// each level; so whoever builds deep ones must keep each part, and drop the last first.
#[derive(Drop)]
pub enum Ends<'a> {
    One(End<'a>),
    Both(Rc<Ends<'a>>, Rc<Ends<'a>>),
}

/// Returns an end alone. AllocError if memory runs out.
pub fn one(alloc: Global, end: End<'_>) -> Result<Rc<Ends<'_>>, AllocError>
    ensures { IfOk result (λ made. list made.value ≡ end.entry ∷ []) }
{
    Ok(Rc::new(alloc, Ends::One(end))?)
}

/// Returns the first ends and then the second. AllocError if memory runs out.
pub fn both<'a>(
    alloc: Global,
    first: Rc<Ends<'a>>,
    second: Rc<Ends<'a>>,
) -> Result<Rc<Ends<'a>>, AllocError>
    ensures { IfOk result (λ made.
        list made.value ≡ list first.entry.value ++ list second.entry.value) }
{
    Ok(Rc::new(alloc, Ends::Both(first, second))?)
}

/// Returns the end with a copy of the field's name. AllocError if memory runs out.
pub fn to_flat(alloc: Global, end: End<'_>) -> Result<FlatEnd, AllocError>
    ensures { IfOk result (λ e. e ≡ spec.end end.entry) }
{
    match end {
        End::At(node, field) => Ok(FlatEnd::At(node, field.duplicate(alloc)?)),
        End::NoNode => Ok(FlatEnd::NoNode),
        End::NoField => Ok(FlatEnd::NoField),
        End::WrongWay => Ok(FlatEnd::WrongWay),
    }
}

/// Adds an end to those found; or pushes both parts onto the stack, the first on top.
fn open<'a, 'b>(
    next: &'b Ends<'a>,
    found: &mut Items<End<'a>>,
    left: &mut Vec<&'b Ends<'a>>,
) -> Result<(), AllocError>
    ensures { IfOk result (λ _. found.new ++ waiting left.new.items
        ≡ found.old ++ (list next.now ++ waiting left.old.items)) }
{
    match next {
        Ends::One(end) => found.push(*end),
        Ends::Both(first, second) => {
            left.push(second)?;
            left.push(first)?;
            Ok(())
        }
    }
}

/// Returns the ends in their order, in time proportional to their number. TooLarge if there are
/// more than 65,536; Memory if memory runs out.
pub fn listed<'a>(alloc: Global, ends: &Ends<'a>) -> Result<Items<End<'a>>, ExpandFault>
    ensures { Gives memory (λ es. es) result (few (list ends.now)) }
{
    let mut found = Items::new(alloc);
    let mut left = Vec::new(alloc);
    left.push(ends)?;
    for _ in 0..u64::MAX {
        let Some(next) = left.pop() else {
            return Ok(found);
        };
        open(next, &mut found, &mut left)?;
        if found.len() > MAX_ROUTES {
            return Err(ExpandFaultKind::TooLarge.on_line(0));
        }
    }
    Err(ExpandFaultKind::Memory.on_line(0))
}
