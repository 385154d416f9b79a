//! The fields of all nodes by number: first those of the first node, then those of the next.

ghost use Rattle.std.specs.Prelude.{◌≡◌, ◌^◌, ◌≤◌, ◌<◌, IfOk, All, length, map, sum};
ghost use Rattle.x3d_values.specs.Ranges.{max_fields};
ghost use Rattle.route_core.specs.Outputs.{AreFirsts, IsField, number_of, place_in};

use scene_core::{End, Route};
use std::alloc::{AllocError, Global};

/// Returns the number of each node's first field, followed by the number of all fields. Fails if
/// memory is refused.
pub fn firsts_of(alloc: Global, field_counts: &[u32]) -> Result<Vec<usize>, AllocError>
    requires few { All (λ count. count ≤ max_fields) field_counts.now }
    requires nodes { length field_counts.now ≤ 2 ^ 32 }
    ensures { IfOk result (λ firsts. AreFirsts field_counts.now firsts.items) }
{
    let mut firsts = Vec::new(alloc);
    let mut first = 0;
    for count in field_counts {
        firsts.push(first)?;
        first += *count as usize;
    }
    firsts.push(first)?;
    Ok(firsts)
}

/// Returns the number of a field among the fields of all nodes, if the node has that field.
pub fn number_of(firsts: &[usize], end: End) -> Option<usize>
    ensures { result ≡ number_of firsts.now end }
{
    let node = end.node as usize;
    let next = *firsts.get(node + 1)?;
    let first = firsts[node];
    if (end.field as usize) < next.saturating_sub(first) {
        return Some(first + end.field as usize);
    }
    None
}

/// Returns the numbers of the routes' sources.
pub(crate) fn sources_of(
    alloc: Global,
    field_counts: &[u32],
    firsts: &[usize],
    routes: &[Route],
) -> Result<Vec<usize>, AllocError>
    requires nodes { length field_counts.now ≤ 2 ^ 32 }
    requires counts { All (λ count. count ≤ max_fields) field_counts.now }
    requires firsts { AreFirsts field_counts.now firsts.now }
    requires fields { All (λ r. IsField field_counts.now r.source) routes.now }
    ensures { IfOk result (λ all. all.items ≡ map (λ r. place_in firsts.now r.source) routes.now) }
{
    let mut sources = Vec::new(alloc);
    for route in routes {
        let source = route.source;
        sources.push(firsts[source.node as usize] + source.field as usize)?;
    }
    Ok(sources)
}
