//! The nearest hit so far.

ghost use Rattle.std.specs.Prelude.{◌≡◌, ◌≤◌, length};
ghost use Rattle.x3d_values.specs.Ranges.{max_depth};
ghost use Rattle.pick_core.specs.Picked as spec;
ghost use Rattle.pick_core.specs.Trail.{positions};

use crate::cover::is_before;
use crate::hit::{Hit, Path};
use crate::trail::Place;
use pick_rules::{Bounds, Fraction, entry};
use x3d_values::Ray;

/// Keeps the hit of a box at the end of a trail if it is nearer than the best.
#[tactic(auto, unfolding(crate::specs::Picked::nearer))]
pub(crate) fn keep_nearer(trail: &[Place], bounds: Bounds, ray: Ray, best: &mut Option<Hit>)
    requires { length trail.now ≤ max_depth }
    ensures { best.new
        ≡ spec.nearer ray best.old (record { path = positions trail.now; bounds = bounds }) }
{
    let Some(at) = entry(bounds, ray) else {
        return;
    };
    if is_nearer(at, best) {
        *best = Some(Hit {
            path: Path::along(trail),
            n: at.n,
            m: at.m,
        });
    }
}

/// Reports whether a fraction is less than that of the best hit. If there is no hit, every fraction
/// is.
fn is_nearer(at: Fraction, best: &Option<Hit>) -> bool
    ensures { result ≡ spec.is_nearer at best.now }
{
    is_before(at, fraction_of(best))
}

/// Returns the fraction of the best hit.
pub(crate) fn fraction_of(best: &Option<Hit>) -> Option<Fraction>
    ensures { result ≡ spec.fraction_of best.now }
{
    match best {
        Some(hit) => Some(Fraction { n: hit.n, m: hit.m }),
        None => None,
    }
}
