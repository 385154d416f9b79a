//! What a node does keeps the ranges of its fields, and of the events that it sends.

ghost use Rattle.laws_worlds.specs.Answers.{DisablesFit, PointsFit, ReactionsFit};
ghost use Rattle.laws_worlds.specs.Answers.{PlaneDisablesFit, PlanePointsFit};
ghost use Rattle.laws_worlds.specs.Answers.{SetsFit, TicksFit};

/// A node whose fields fit keeps fields that fit, and sends events that fit, at an event that fits.
pub fn reactions_fit()
    ensures { ReactionsFit }
{}

/// Like `reactions_fit`, for a TimeSensor at an event and when the clock ticks.
pub fn time_sensors_fit()
    ensures sets { SetsFit }
    ensures ticks { TicksFit }
{}

/// Like `reactions_fit`, for a TouchSensor when a viewer points and when the sensor is disabled.
pub fn touch_sensors_fit()
    ensures points { PointsFit }
    ensures disables { DisablesFit }
{}

/// Like `reactions_fit`, for a PlaneSensor, whose `offset` stays in its range when a drag ends.
pub fn plane_sensors_fit()
    ensures points { PlanePointsFit }
    ensures disables { PlaneDisablesFit }
{}
