//! What holds for the routes of documents, for their opening worlds and those after them, and for
//! hits in their scenes.

ghost use Rattle.laws_worlds.specs.Hits.{DocumentHitsAreOnRays, DocumentsAreSized};
ghost use Rattle.laws_worlds.specs.Openings.{UntoldWorldsFit, StartsAreStates};
ghost use Rattle.laws_worlds.specs.Routes.{RoutesJoin};
ghost use Rattle.laws_worlds.specs.Worlds.{WorldsFit, WorldsHaveSnapshots};

use pick_core::hits_are_on_rays_law;

/// The routes of a document connect outputs and inputs of the same type.
pub fn routes_join()
    ensures { RoutesJoin }
{}

/// The world of a document before anything has happened fits, and so do the states in which its
/// scripts start.
pub fn document_openings_fit()
    ensures world { UntoldWorldsFit }
    ensures starts { StartsAreStates }
{}

/// Each world that inputs in turn lead to in a document fits, and has a snapshot.
pub fn worlds_fit()
    ensures fit { WorldsFit }
    ensures snapshots { WorldsHaveSnapshots }
{}

/// In the scene of a document the size of each Box is in range, and the point of a hit lies on its
/// ray.
pub fn document_hits_are_on_rays()
    ensures sized { DocumentsAreSized }
    ensures on_rays { DocumentHitsAreOnRays }
{
    hits_are_on_rays_law();
}
