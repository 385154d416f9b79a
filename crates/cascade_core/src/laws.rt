//! Laws of worlds with scripts.

ghost use Rattle.cascade_core.specs.ScriptLaws.{KindsStand, PlacesOne, SettlesAll, StatesStand};

/// No input changes the kind of a script or the number of scripts.
pub fn kinds_law()
    ensures { KindsStand }
{}

/// A world has a state for each script of its scene.
pub fn states_law()
    ensures { StatesStand }
{}

/// Settling leaves no script due, and settles each script at most once.
pub fn settling_law()
    ensures { SettlesAll }
{}

/// There is at most one reason why a stage refuses a box that is to replace a script, unless memory
/// runs out.
pub fn places_law()
    ensures { PlacesOne }
{}
