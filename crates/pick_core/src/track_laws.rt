//! Laws about points along a path, and about the plane of a drag.

ghost use Rattle.pick_core.specs.TrackExamples.{Tracking};
ghost use Rattle.pick_core.specs.TrackAgain.{OutwardsAgain, ScalesDivide, TurnedScalesReturn};
ghost use Rattle.pick_core.specs.SensorPaths.{SensorsPathsLead, SensorsPointsAreInward};

/// Proves that a point taken inwards along a path and outwards again is unchanged, if each scale on
/// the way divides.
pub fn outwards_again_law()
    ensures { OutwardsAgain }
{}

/// Proves that a coordinate taken through a scale above 0 and back is unchanged only if the scale
/// divides.
pub fn scales_divide_law()
    ensures { ScalesDivide }
{}

/// Proves that a coordinate taken through a scale from -1 up to, but not including, 0 and back is
/// always unchanged.
pub fn turned_scales_return_law()
    ensures { TurnedScalesReturn }
{}

/// Proves that the point of a hit in a sensor's coordinates is the hit's point taken inwards along
/// the part of the hit's path that leads to the sensor.
pub fn sensors_points_are_inward_law()
    ensures { SensorsPointsAreInward }
{}

/// Proves that this part of the path leads to a list that holds the sensor.
pub fn sensors_paths_lead_law()
    ensures { SensorsPathsLead }
{}

/// Proves examples: rays that meet a plane, run along it, run away from it and begin on it; scales
/// of 2, 0 and below 0.
pub fn tracking_law()
    ensures { Tracking }
{}
