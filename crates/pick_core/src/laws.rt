//! Laws about hits, and about the numbers of fields.

ghost use Rattle.pick_core.specs.Local.{OneLocal};
ghost use Rattle.pick_core.specs.Nearest.{OneNearest};
ghost use Rattle.pick_core.specs.Numbers.{Numbers};
ghost use Rattle.pick_core.specs.Picked.{PicksNearest};
ghost use Rattle.pick_core.specs.Sites.{AlikeRows};
ghost use Rattle.pick_core.specs.Within.{HitsAreOnRays};

/// Proves that the nearest hit is found by keeping the earlier box unless a later one is strictly
/// nearer.
pub fn picks_nearest_law()
    ensures { PicksNearest }
{}

/// Proves that there is only one nearest hit: two nearest hits have the same path and equal
/// fractions.
pub fn one_nearest_law()
    ensures { OneNearest }
{}

/// Proves that the point of a hit in a sensor's coordinates depends only on the hit's path and the
/// value of its fraction.
pub fn one_local_law()
    ensures { OneLocal }
{}

/// Proves that the coordinate limit doesn't change where a box of a scene is hit: the point of a
/// hit is the point on the ray at the hit's fraction.
pub fn hits_are_on_rays_law()
    ensures { HitsAreOnRays }
{}

/// Proves that a cache depends only on the motions of Transforms and the choices of Switches. After
/// any other change it is valid for the new state.
pub fn alike_rows_law()
    ensures { AlikeRows }
{}

/// Proves that the numbers of fields that picking uses are those of the fields' names in the table
/// of fields.
pub fn numbers_law()
    ensures { Numbers }
{}
