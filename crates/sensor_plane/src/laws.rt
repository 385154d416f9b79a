//! Laws of a PlaneSensor.

ghost use Rattle.sensor_plane.specs.Examples.{Dragging, KeptDrags};
ghost use Rattle.sensor_plane.specs.Planes.{DragsGoByTheirPresser, TranslationsAreWithin, Unmoved};
ghost use Rattle.sensor_plane.specs.Numbers.{PlaneNumbers};
ghost use Rattle.sensor_plane.specs.PlaneParts.{DraggedPlanesFit, PartsArePlanes, PlanesHaveOneParts, SentValuesFit};

/// The numbers of a PlaneSensor's fields belong to the fields' names in the table of fields.
pub fn numbers_law()
    ensures { PlaneNumbers }
{}

/// A sensor in a grouping node is pressed, dragged off its geometry and past its limit, and
/// released.
pub fn dragging_law()
    ensures { Dragging }
{}

/// Drags with a minimum above the maximum, without `autoOffset`, with a ray that misses the plane,
/// while another viewer presses and releases, and of a sensor that is disabled.
pub fn kept_drags_law()
    ensures { KeptDrags }
{}

/// Only the pointer of the viewer that presses can move or end a drag.
pub fn drags_go_by_their_presser_law()
    ensures { DragsGoByTheirPresser }
{}

/// If a minimum isn't above the maximum, the translation lies between them.
pub fn translations_are_within_law()
    ensures { TranslationsAreWithin }
{}

/// A drag at the point where it began translates by the offset, if the offset is within the limits.
pub fn unmoved_law()
    ensures { Unmoved }
{}

/// The parts of a state in its ranges give that state.
pub fn parts_are_planes_law()
    ensures { PartsArePlanes }
{}

/// If parts give a state, that state has the same parts.
pub fn planes_have_one_parts_law()
    ensures { PlanesHaveOneParts }
{}

/// A state in its ranges stays in them after each pointer of a viewer.
pub fn dragged_planes_fit_law()
    ensures { DraggedPlanesFit }
{}

/// The values that a sensor then sends have the types of its fields, and are in their ranges.
pub fn sent_values_fit_law()
    ensures { SentValuesFit }
{}
