//! Routes without repeats.

ghost use Rattle.std.specs.Prelude.{◌≡◌, IfOk, OnOk};
ghost use Rattle.route_core.specs.Firsts.{added, firsts};
ghost use Rattle.route_core.specs.Seen.{Holds, key_of};

use scene_core::Route;
use std::alloc::{AllocError, Global};
use std::collections::BTreeSet;
use x3d_lists::Items;

/// A route as ordered numbers. A tree finds them at a cost that no choice of routes can raise.
type RouteKey = (u32, u16, u32, u16);

fn key_of(route: Route) -> RouteKey
    ensures { result ≡ key_of route }
{
    (
        route.source.node,
        route.source.field,
        route.target.node,
        route.target.field,
    )
}

/// Appends a route, unless it is among the earlier ones.
fn add(
    route: Route,
    seen: &mut BTreeSet<RouteKey>,
    kept: &mut Items<Route>,
) -> Result<(), AllocError>
    requires { Holds seen.old kept.old }
    ensures added { OnOk result (kept.new ≡ added kept.old route) }
    ensures holds { OnOk result (Holds seen.new kept.new) }
{
    if seen.insert(key_of(route))? {
        kept.push(route)?;
    }
    Ok(())
}

/// Returns the routes without repeats, each at its first place. Fails if memory is refused.
pub fn without_repeats(alloc: Global, routes: &[Route]) -> Result<Items<Route>, AllocError>
    ensures { IfOk result (λ all. all ≡ firsts routes.now) }
{
    let mut seen = BTreeSet::new(alloc);
    let mut kept = Items::new(alloc);
    for route in routes {
        add(*route, &mut seen, &mut kept)?;
    }
    Ok(kept)
}
