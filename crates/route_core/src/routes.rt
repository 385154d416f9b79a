//! The routes of a scene, in the order of the text and by their outputs.

ghost use Rattle.std.specs.Prelude.{◌≡◌, ◌+◌, ◌<◌, ◌≤◌, length, slice_index};
ghost use Rattle.x3d_values.specs.Ranges.{max_fields, max_routes};
ghost use Rattle.route_core.specs.Outputs.{part_at};

use crate::fault::RouteFault;
use crate::grouped::{Groups, group};
use crate::outputs::{firsts_of, number_of, sources_of};
use crate::resolving::{distinct_routes, each_of, field_counts};
use proto_flat::Flat;
use scene_core::{End, Route, Scene};
use std::alloc::{AllocError, Global};
use std::marker::Model;
use x3d_lists::Items;

/// The routes of a scene.
#[derive(Drop)]
pub struct Routes {
    routes: Items<Route>,
    /// The number of each node's first field among the fields of all nodes.
    firsts: Vec<usize>,
    /// Where each field's part of `numbers` begins.
    starts: Vec<u32>,
    /// The numbers of the routes, grouped by their sources.
    numbers: Vec<u32>,
}

impl Model for Routes {
    ghost use Rattle.std.specs.Prelude.{List};
    ghost use Rattle.scene_core.specs.declared.scene.Route.{Route};
    ghost use Rattle.route_core.specs.Outputs.{AreGrouped};

    ghost Value = { List Route };

    ghost view = { λ r. r.routes };

    ghost invariant = { λ r. AreGrouped r.routes r.firsts.items r.starts.items r.numbers.items };
}

impl Routes {
    ghost use Rattle.std.specs.Prelude.{◌≡◌, ◌<◌, ◌≤◌, ◌^◌, Some, IfOk, All, length, slice_get};
    ghost use Rattle.x3d_lists.specs.Answers.{Gives};
    ghost use Rattle.route_core.specs.Outputs.{places_of, IsField};
    ghost use Rattle.route_core.specs.Resolved.{memory, resolved};

    /// Resolves the routes of an expanded document in its scene: in the order of the text, without
    /// repeats.
    ///
    /// Fails with the fault of the first faulty route, with `TooMany` if there are more than 65,536
    /// routes, and with `Memory` if memory is refused.
    pub fn resolve(alloc: Global, flat: &Flat, scene: &Scene) -> Result<Routes, RouteFault>
        ensures { Gives memory (λ routes. routes) result (resolved flat.now scene.now) }
    {
        let each = each_of(alloc, scene, flat.routes.as_slice())?;
        let routes = distinct_routes(alloc, each.as_slice())?;
        let counts = field_counts(alloc, scene)?;
        Ok(Routes::new(alloc, routes, counts.as_slice())?)
    }

    /// Makes the routes of a scene whose nodes have `field_counts` fields each.
    pub(crate) fn new(
        alloc: Global,
        routes: Items<Route>,
        field_counts: &[u32],
    ) -> Result<Routes, AllocError>
        requires nodes { length field_counts.now ≤ 2 ^ 32 }
        requires counts { All (λ count. count ≤ max_fields) field_counts.now }
        requires few { length routes ≤ max_routes }
        requires fields { All (λ r. IsField field_counts.now r.source) routes }
        ensures { IfOk result (λ r. r ≡ routes) }
    {
        let firsts = firsts_of(alloc, field_counts)?;
        let count = firsts[field_counts.len()];
        let sources = sources_of(alloc, field_counts, firsts.as_slice(), routes.as_slice())?;
        let Groups { starts, places } = group(alloc, sources.as_slice(), count)?;
        Ok(Routes {
            routes,
            firsts,
            starts,
            numbers: places,
        })
    }

    /// Returns all routes, in the order of the text.
    pub fn as_slice(&self) -> &[Route]
        ensures { result.now ≡ self.now }
    {
        self.routes.as_slice()
    }

    /// Returns the number of routes: at most 65,536.
    pub fn len(&self) -> usize
        ensures count { result ≡ length self.now }
        ensures few { result ≤ max_routes }
    {
        self.routes.len()
    }

    /// Returns a route by its number in the order of the text. The number must be below `len`.
    pub fn route(&self, number: u32) -> Route
        requires { number < length self.now }
        ensures { slice_get self.now number ≡ Some result }
    {
        self.routes.as_slice()[number as usize]
    }

    /// Returns the numbers of the routes from output `source`, rising.
    pub fn from_output(&self, source: End) -> &[u32]
        ensures { result.now ≡ places_of source self.now }
    {
        let Some(output) = number_of(self.firsts.as_slice(), source) else {
            return &[];
        };
        part(self.starts.as_slice(), self.numbers.as_slice(), output)
    }
}

/// Returns the part of the table for an output.
fn part<'a>(starts: &[u32], numbers: &'a [u32], output: usize) -> &'a [u32]
    requires started { output + 1 < length starts.now }
    requires rising { slice_index starts.now output ≤ slice_index starts.now (output + 1) }
    requires within { slice_index starts.now (output + 1) ≤ length numbers.now }
    ensures { result.now ≡ part_at starts.now numbers.now output }
{
    let start = starts[output] as usize;
    let end = starts[output + 1] as usize;
    &numbers[start..end]
}
