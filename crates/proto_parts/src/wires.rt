//! ROUTEs in a row, put together from others without copying them.

ghost use Rattle.std.specs.Prelude.{◌≡◌, ◌≤◌, ◌++◌, ◌∷◌, [], length, IfOk};
ghost use Rattle.x3d_values.specs.Ranges.{max_routes};
ghost use Rattle.x3d_lists.specs.Answers.{Gives};
ghost use Rattle.proto_flat.specs.Fault.{memory};
ghost use Rattle.proto_parts.specs.Ends.{few};
ghost use Rattle.proto_parts.specs.Wires.{StepsOn, means, wires, wires_waiting};

use crate::routes::{Wire, push_wire};
use proto_flat::{ExpandFault, ExpandFaultKind, FlatRoute};
use std::alloc::{AllocError, Global};
use std::rc::Rc;
use x3d_lists::Items;

/// One ROUTE or more. A drop recurses, as for `Ends`.
#[derive(Drop)]
pub enum Wires<'a> {
    One(Wire<'a>),
    Both(Rc<Wires<'a>>, Rc<Wires<'a>>),
}

/// Returns a ROUTE alone. AllocError if memory runs out.
pub fn one_wire<'a>(alloc: Global, wire: Wire<'a>) -> Result<Rc<Wires<'a>>, AllocError>
    ensures { IfOk result (λ made. wires made.value ≡ wire.entry ∷ []) }
{
    Ok(Rc::new(alloc, Wires::One(wire))?)
}

/// Returns the first ROUTEs and then the second. AllocError if memory runs out.
pub fn both_wires<'a>(
    alloc: Global,
    first: Rc<Wires<'a>>,
    second: Rc<Wires<'a>>,
) -> Result<Rc<Wires<'a>>, AllocError>
    ensures { IfOk result (λ made. wires made.value
        ≡ wires first.entry.value ++ wires second.entry.value) }
{
    Ok(Rc::new(alloc, Wires::Both(first, second))?)
}

/// Makes the routes of the next that waits; or pushes its two parts onto the stack, the first on
/// top.
fn step<'a, 'b>(
    alloc: Global,
    next: &'b Wires<'a>,
    routes: Items<FlatRoute>,
    left: &mut Vec<&'b Wires<'a>>,
) -> Result<Items<FlatRoute>, ExpandFault>
    requires { length routes ≤ max_routes }
    ensures { StepsOn routes (wires next.now ++ wires_waiting left.old.items) result
        (wires_waiting left.new.items) }
{
    match next {
        Wires::One(wire) => push_wire(alloc, wire, routes),
        Wires::Both(first, second) => {
            left.push(second)?;
            left.push(first)?;
            Ok(routes)
        }
    }
}

/// Returns the routes of the ROUTEs, in their order; for each ROUTE all pairs of its ends, source
/// by source. Takes time proportional to the number of ROUTEs and routes. TooLarge if there are
/// more than 65,536 routes; Memory if memory runs out.
pub fn routes_of(alloc: Global, whole: &Wires<'_>) -> Result<Items<FlatRoute>, ExpandFault>
    ensures { Gives memory (λ rs. rs) result (few (means (wires whole.now))) }
{
    let mut routes = Items::new(alloc);
    let mut left = Vec::new(alloc);
    left.push(whole)?;
    for _ in 0..u64::MAX {
        let Some(next) = left.pop() else {
            return Ok(routes);
        };
        routes = step(alloc, next, routes, &mut left)?;
    }
    Err(ExpandFaultKind::Memory.on_line(0))
}
