//! The routes of a scene, as numbers.

ghost use Rattle.std.specs.Prelude.{◌≡◌, ◌++◌, [], OnErr, OnOk};
ghost use Rattle.std.specs.List.{flat_map};
ghost use Rattle.x3d_lists.specs.Answers.{Gives};
ghost use Rattle.embed_world.specs.Looks as spec;
ghost use Rattle.embed_world.specs.declared.fault.LookFault.TheVariants.{Memory};

use crate::fault::LookFault;
use crate::viewer::EmbeddedViewer;
use crate::world::EmbeddedWorld;
use scene_core::Route;
use std::alloc::AllocError;

fn push_route(route: &Route, out: &mut Vec<i64>) -> Result<(), AllocError>
    ensures { OnOk result (out.new.items ≡ out.old.items ++ spec.route_numbers route.now) }
{
    out.extend_from_slice(&[
        i64::from(route.source.node),
        i64::from(route.source.field),
        i64::from(route.target.node),
        i64::from(route.target.field),
    ])
}

fn push_routes(routes: &[Route], out: &mut Vec<i64>) -> Result<(), AllocError>
    ensures { OnOk result
        (out.new.items ≡ out.old.items ++ flat_map spec.route_numbers routes.now) }
{
    for route in routes {
        push_route(route, out)?;
    }
    Ok(())
}

/// Writes the source and the target of each route to an empty list.
pub fn write_routes(routes: &[Route], out: &mut Vec<i64>) -> Result<(), LookFault>
    requires empty { out.old.items ≡ [] }
    ensures is { Gives Memory (λ _. out.new.items) result (spec.routes_listed routes.now) }
    ensures err { OnErr result (out.new.items ≡ []) }
{
    let Ok(()) = push_routes(routes, out) else {
        out.clear();
        return Err(LookFault::Memory);
    };
    Ok(())
}

impl EmbeddedWorld {
    ghost use Rattle.embed_world.specs.Calls.{Lists};
    ghost use Rattle.embed_world.specs.Looks as spec;

    /// Lists four numbers for each route, in the order of the text: the node and the field of its
    /// source, and those of its target. A repeated route is listed once. Fails with `Memory`.
    pub fn list_routes(&mut self) -> Result<(), LookFault>
        ensures { Lists (spec.routes_listed self.old.stage.routes) self.old result self.new }
    {
        self.numbers.clear();
        write_routes(self.stage.routes(), &mut self.numbers)
    }
}

impl EmbeddedViewer {
    ghost use Rattle.embed_world.specs.Viewers.{Lists};
    ghost use Rattle.embed_world.specs.Looks as spec;

    /// Lists four numbers for each route, like those of a world. Fails with `Memory`.
    pub fn list_routes(&mut self) -> Result<(), LookFault>
        ensures { Lists (spec.routes_listed self.old.viewer.routes) self.old result self.new }
    {
        self.numbers.clear();
        write_routes(self.viewer.stage().routes(), &mut self.numbers)
    }
}
