//! Laws of the routes of a written scene. Each is the contract of a function that does nothing.

ghost use Rattle.laws_written.specs.Resolved.{WrittenRoutesResolve};
ghost use Rattle.laws_written.specs.Routes.{WrittenRoutesStay};

use crate::nodes::written_nodes_close;
use crate::text_laws::labels_are_distinct;
use laws_documents::routes_are_read;

/// The flat form of a written scene, if there is one, has the scene's routes in their order, by the
/// numbers of the scene's nodes and the names of their fields. They resolve to the scene's routes
/// in each scene that has this scene's nodes under the same numbers with the same fields.
pub fn written_routes_stay()
    ensures shown { WrittenRoutesStay }
    ensures resolved { WrittenRoutesResolve }
{
    labels_are_distinct();
    written_nodes_close();
    routes_are_read();
}
