//! Faults of routes.

ghost use Rattle.std.specs.Prelude.{◌≡◌, ◌++◌, OnOk};
ghost use Rattle.std.specs.List.{flat_map};
ghost use Rattle.scene_faults.specs.Ends as spec;

use crate::blame::{Blame, of_route};
use crate::ends::{EndFault, source_of, target_of};
use proto_flat::{Flat, FlatNode, FlatRoute};
use route_core::RouteFaultKind;
use std::alloc::AllocError;
use x3d_lists::Items;
use x3d_values::FieldType;

fn plain(kind: RouteFaultKind) -> Result<(), EndFault>
    ensures { result ≡ spec.plain kind }
{
    Err(EndFault { kind, turns: false })
}

fn joined(source: FieldType, target: FieldType) -> Result<(), EndFault>
    ensures { result ≡ spec.joined source target }
{
    if source != target {
        return plain(RouteFaultKind::TypesDiffer);
    }
    if source.holds_nodes() {
        return plain(RouteFaultKind::NodeEvent);
    }
    Ok(())
}

fn joined_ends(
    source: Result<FieldType, EndFault>,
    target: Result<FieldType, EndFault>,
) -> Result<(), EndFault>
    ensures { result ≡ spec.joined_ends source target }
{
    joined(source?, target?)
}

fn push_at(line: u32, ends: Result<(), EndFault>, out: &mut Items<Blame>) -> Result<(), AllocError>
    ensures { OnOk result (out.new ≡ out.old ++ spec.blames_at line ends) }
{
    match ends {
        Ok(()) => Ok(()),
        Err(fault) => out.push(of_route(fault.kind, fault.turns, line)),
    }
}

/// Appends the blame for a route, if it is at fault.
fn push_route(
    nodes: &[FlatNode],
    route: &FlatRoute,
    out: &mut Items<Blame>,
) -> Result<(), AllocError>
    ensures { OnOk result (out.new ≡ out.old ++ spec.route_blames nodes.now route.now) }
{
    let source = source_of(nodes, &route.source);
    let target = target_of(nodes, &route.target);
    push_at(route.line, joined_ends(source, target), out)
}

fn push_each(
    nodes: &[FlatNode],
    routes: &[FlatRoute],
    out: &mut Items<Blame>,
) -> Result<(), AllocError>
    ensures { OnOk result
        (out.new ≡ out.old ++ flat_map (spec.route_blames nodes.now) routes.now) }
{
    for route in routes {
        push_route(nodes, route, out)?;
    }
    Ok(())
}

/// Appends the blames for all routes that are at fault. Fails if memory runs out.
pub(crate) fn push_routes(flat: &Flat, out: &mut Items<Blame>) -> Result<(), AllocError>
    ensures { OnOk result (out.new ≡ out.old ++ spec.all_routes flat.now) }
{
    push_each(flat.nodes.as_slice(), flat.routes.as_slice(), out)
}
