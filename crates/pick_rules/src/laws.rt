//! Laws about places along a ray.

ghost use Rattle.pick_rules.specs.Entry.{Entries};

/// Proves that `entry` returns the first fraction at which the ray is in the box, or `None` if the
/// ray never is.
pub fn entries_law()
    ensures { Entries }
{}
