//! Laws of the sensors and of their field numbers.

ghost use Rattle.sensor_core.specs.Examples.{TwoPointers};
ghost use Rattle.sensor_core.specs.Numbers.{Numbers, TouchNumbers};
ghost use Rattle.sensor_core.specs.Ticks.{EndWinsOverStop};
ghost use Rattle.sensor_core.specs.Touches.{OneReleases};

/// The numbers that a TimeSensor's rules use belong to the fields' names in the table of fields.
pub fn numbers_law()
    ensures { Numbers }
{}

/// Like `numbers_law`, for a TouchSensor.
pub fn touch_numbers_law()
    ensures { TouchNumbers }
{}

/// Two viewers at one TouchSensor, with all it sends: both pointers come over it, viewer 0 presses,
/// viewer 1 presses, viewer 0 releases outside, viewer 1 releases outside.
#[tactic(auto, unfolding(crate::specs::Touches::point, crate::specs::Examples::replies_at_each))]
pub fn two_pointers_law()
    ensures { TwoPointers }
{}

/// If the end of a TimeSensor's only cycle and its stop fall into one tick, the end counts.
pub fn end_wins_law()
    ensures { EndWinsOverStop }
{}

/// Only the pointer of the viewer that presses a TouchSensor can release it.
pub fn one_releases_law()
    ensures { OneReleases }
{}
