//! Laws about boxes inside others.

ghost use Rattle.pick_core.specs.Tree.{PassedInside};

/// Proves that if a ray doesn't enter a box before the best so far, it doesn't enter a box inside
/// that box before the best either.
pub fn passed_inside_law()
    ensures { PassedInside }
{}
