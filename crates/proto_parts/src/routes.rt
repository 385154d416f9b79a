//! The routes of a flat document, once all nodes have their numbers.

ghost use Rattle.std.specs.Prelude.{◌≡◌, ◌++◌, ◌≤◌, ◌*◌, ◌-◌, length, not, nat_lt, IfOk};
ghost use Rattle.x3d_values.specs.Ranges.{max_routes};
ghost use Rattle.x3d_lists.specs.Answers.{Gives};
ghost use Rattle.proto_flat.specs.Fault.{memory};
ghost use Rattle.proto_parts.specs.Ends.{few, list};
ghost use Rattle.proto_parts.specs.Routes as spec;

use crate::ends::{End, Ends, listed, to_flat};
use proto_flat::{ExpandFault, ExpandFaultKind, FlatRoute};
use std::alloc::{AllocError, Global};
use std::rc::Rc;
use x3d_lists::Items;
use x3d_values::MAX_ROUTES;

/// A ROUTE: the ends at each side. None is a side without ends.
#[derive(Drop)]
pub struct Wire<'a> {
    pub line: u32,
    pub source: Option<Rc<Ends<'a>>>,
    pub target: Option<Rc<Ends<'a>>>,
}

/// Adds the routes from one source.
fn push_from(
    alloc: Global,
    line: u32,
    source: End<'_>,
    targets: &[End<'_>],
    routes: Items<FlatRoute>,
) -> Result<Items<FlatRoute>, AllocError>
    ensures { IfOk result (λ rs. rs ≡ routes ++ spec.routes_from line targets.now source.entry) }
{
    let mut routes = routes;
    for target in targets {
        let source = to_flat(alloc, source)?;
        let target = to_flat(alloc, *target)?;
        routes.push(FlatRoute {
            line,
            source,
            target,
        })?;
    }
    Ok(routes)
}

/// Adds the routes from each source in turn to each target.
fn push_pairs(
    alloc: Global,
    line: u32,
    sources: &[End<'_>],
    targets: &[End<'_>],
    routes: Items<FlatRoute>,
) -> Result<Items<FlatRoute>, AllocError>
    ensures { IfOk result (λ rs. rs ≡ routes ++ spec.routes_between line sources.now targets.now) }
{
    let mut routes = routes;
    for source in sources {
        routes = push_from(alloc, line, *source, targets, routes)?;
    }
    Ok(routes)
}

/// Reports whether there is room for all pairs after that many routes.
fn has_room(routes: usize, sources: usize, targets: usize) -> bool
    ensures { result ≡ not (nat_lt (max_routes - routes) (sources * targets)) }
{
    MAX_ROUTES.saturating_sub(routes) >= sources.saturating_mul(targets)
}

/// Adds the routes between these ends. TooLarge if there is no room for them.
fn push_between(
    alloc: Global,
    line: u32,
    sources: &[End<'_>],
    targets: &[End<'_>],
    routes: Items<FlatRoute>,
) -> Result<Items<FlatRoute>, ExpandFault>
    requires { length routes ≤ max_routes }
    ensures { Gives memory (λ rs. rs) result
        (few (routes ++ spec.routes_between line sources.now targets.now)) }
{
    if !has_room(routes.len(), sources.len(), targets.len()) {
        return Err(ExpandFaultKind::TooLarge.on_line(0));
    }
    Ok(push_pairs(alloc, line, sources, targets, routes)?)
}

fn push_ends(
    alloc: Global,
    line: u32,
    source: &Ends<'_>,
    target: &Ends<'_>,
    routes: Items<FlatRoute>,
) -> Result<Items<FlatRoute>, ExpandFault>
    requires { length routes ≤ max_routes }
    ensures { Gives memory (λ rs. rs) result
        (few (routes ++ spec.routes_between line (list source.now) (list target.now))) }
{
    let sources = listed(alloc, source)?;
    let targets = listed(alloc, target)?;
    push_between(alloc, line, sources.as_slice(), targets.as_slice(), routes)
}

/// Adds the routes of a ROUTE to those before. TooLarge if there are then more than 65,536; Memory
/// if memory runs out.
pub fn push_wire(
    alloc: Global,
    wire: &Wire<'_>,
    routes: Items<FlatRoute>,
) -> Result<Items<FlatRoute>, ExpandFault>
    requires { length routes ≤ max_routes }
    ensures { Gives memory (λ rs. rs) result (few (routes ++ spec.routes_of_wire wire.now)) }
{
    let Some(source) = &wire.source else {
        return Ok(routes);
    };
    let Some(target) = &wire.target else {
        return Ok(routes);
    };
    push_ends(alloc, wire.line, source, target, routes)
}
