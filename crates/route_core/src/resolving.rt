//! Resolves the routes of a document in its scene.

ghost use Rattle.std.specs.Prelude.{◌≡◌, ◌^◌, ◌≤◌, IfOk, All, length, take};
ghost use Rattle.x3d_values.specs.Ranges.{max_fields, max_routes};
ghost use Rattle.x3d_lists.specs.Answers.{Gives};
ghost use Rattle.route_core.specs.Ends as ends;
ghost use Rattle.route_core.specs.Ends.{IsKnown, field_counts};
ghost use Rattle.route_core.specs.Named.{AreTables};
ghost use Rattle.route_core.specs.Resolved.{at_line, each_of, firsts, limited, memory};

use crate::ends::route_of;
use crate::fault::{RouteFault, RouteFaultKind};
use crate::firsts::without_repeats;
use crate::named::{RowTables, tables_of};
use proto_flat::FlatRoute;
use scene_core::{Route, Scene};
use std::alloc::{AllocError, Global};
use x3d_lists::Items;
use x3d_values::MAX_ROUTES;

/// The largest number of nodes: node numbers have 32 bits.
pub(crate) const MOST_NODES: usize = 1 << 32;

/// Returns all routes in the order of the text, or the first fault.
pub(crate) fn each_of(
    alloc: Global,
    scene: &Scene,
    routes: &[FlatRoute],
) -> Result<Items<Route>, RouteFault>
    ensures exact { Gives memory (λ all. all) result (each_of scene.now routes.now) }
    ensures known { IfOk result (λ all. All (λ r. IsKnown scene.now r.source) all) }
{
    let tables = tables_of(alloc, scene)?;
    let all = each_by(alloc, scene, &tables, routes);
    drop(tables);
    all
}

/// Like `each_of`, with the tables of the scene.
fn each_by(
    alloc: Global,
    scene: &Scene,
    tables: &RowTables<'_>,
    routes: &[FlatRoute],
) -> Result<Items<Route>, RouteFault>
    requires { AreTables scene.now tables.now }
    ensures exact { Gives memory (λ all. all) result (each_of scene.now routes.now) }
    ensures known { IfOk result (λ all. All (λ r. IsKnown scene.now r.source) all) }
{
    let mut all = Items::new(alloc);
    for route in routes {
        all.push(one_of(scene, tables, route)?)?;
    }
    Ok(all)
}

/// Returns the routes without repeats, unless there are too many.
pub(crate) fn distinct_routes(alloc: Global, each: &[Route]) -> Result<Items<Route>, RouteFault>
    ensures exact { Gives memory (λ all. all) result (limited (firsts each.now)) }
    ensures are { IfOk result (λ all. all ≡ firsts each.now) }
    ensures few { IfOk result (λ all. length all ≤ max_routes) }
{
    let routes = without_repeats(alloc, each)?;
    if MAX_ROUTES < routes.len() {
        drop(routes);
        return Err(RouteFault {
            kind: RouteFaultKind::TooMany,
            line: 0,
        });
    }
    Ok(routes)
}

/// Returns the number of fields of each node, for the first 2^32 nodes. A scene that was built has
/// no more nodes. Fails if memory is refused.
pub fn field_counts(alloc: Global, scene: &Scene) -> Result<Vec<u32>, AllocError>
    ensures are { IfOk result (λ counts. counts.items ≡ take (2 ^ 32) (field_counts scene.now)) }
    ensures few { IfOk result (λ counts. All (λ count. count ≤ max_fields) counts.items) }
{
    let mut counts = Vec::new(alloc);
    for node in 0..scene.node_count().min(MOST_NODES) {
        counts.push(scene.field_count(node as u32))?;
    }
    Ok(counts)
}

fn one_of(scene: &Scene, tables: &RowTables<'_>, route: &FlatRoute) -> Result<Route, RouteFault>
    requires { AreTables scene.now tables.now }
    ensures exact { result ≡ at_line route.now.line (ends.route_of scene.now route.now) }
    ensures known { IfOk result (λ r. IsKnown scene.now r.source) }
{
    match route_of(scene, tables, route) {
        Ok(route) => Ok(route),
        Err(kind) => Err(RouteFault {
            kind,
            line: route.line,
        }),
    }
}
