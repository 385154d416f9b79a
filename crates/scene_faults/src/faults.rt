//! All faults that a node or a route alone tells.

ghost use Rattle.std.specs.Prelude.{◌≡◌, IfOk};
ghost use Rattle.scene_faults.specs.Faults as spec;

use crate::blame::Blame;
use crate::nodes::push_scene;
use crate::routes::push_routes;
use proto_flat::Flat;
use std::alloc::{AllocError, Global};
use x3d_lists::Items;

/// Returns the blames for all faults of an expanded document that a node or a route alone tells:
/// those of fields, declarations, roots and helpers, and then those of routes. Fails if memory runs
/// out.
pub fn blames_of(alloc: Global, flat: &Flat) -> Result<Items<Blame>, AllocError>
    ensures { IfOk result (λ blames. blames ≡ spec.flat_blames flat.now) }
{
    let mut blames = Items::new(alloc);
    push_scene(alloc, flat, &mut blames)?;
    push_routes(flat, &mut blames)?;
    Ok(blames)
}
