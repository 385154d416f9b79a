//! The state of a scene after some inputs, and in the course of an input.

ghost use Rattle.std.specs.Prelude.{◌≡◌, ◌+◌, OnOk, is_none};
ghost use Rattle.sensor_plane.specs.Pointing.{is_resting};
ghost use Rattle.cascade_world.specs.World.{begin as begin_of, record_event};

use crate::state::State;
use crate::watched::{Rests, Watched};
use cascade_trace::{SentBits, Trace};
use scene_core::End;
use sensor_core::TimeState;
use sensor_plane::PointingSlot;
use std::alloc::{AllocError, Global};
use x3d_values::{MAX_VIEWERS, Stamped, Value};

/// The number of viewers that have buttons.
pub const VIEWERS: usize = MAX_VIEWERS as usize;

/// The state of a scene after some inputs.
#[derive(Drop)]
pub struct WorldData {
    /// The number of inputs applied.
    pub applied: u64,
    /// The time of the last input in microseconds, or 0.
    pub last_time: i64,
    pub fields: State,
    /// The cycle that each node runs, by its number. Only TimeSensors run cycles.
    pub sensors: Watched<TimeState>,
    /// The viewers whose pointers are over each node, and the viewer that presses it, by the node's
    /// number. Nothing is kept for a node that isn't a pointing sensor.
    pub pointing: Watched<PointingSlot>,
    /// Whether each viewer's button is down, by its number.
    pub buttons: [bool; VIEWERS],
    /// All events that were sent, in order.
    pub trace: Trace,
}

/// A TimeSensor is at rest while it is inactive.
impl Rests for TimeState {
    ghost rests = { λ cycle. is_none cycle };

    fn is_at_rest(&self) -> bool {
        !self.is_active()
    }
}

/// A pointing sensor is at rest while no pointer is over it and no viewer presses it.
impl Rests for PointingSlot {
    ghost rests = { is_resting };

    fn is_at_rest(&self) -> bool {
        self.is_resting()
    }
}

/// The world in the course of one input.
#[derive(Drop)]
pub struct Live {
    pub world: WorldData,
    pub sent: SentBits,
}

impl Live {
    /// Begins an input: no output has sent yet.
    pub fn begin(&mut self, input: &Stamped)
        requires next { input.now.number ≡ self.old.world.applied + 1 }
        ensures { self.new ≡ begin_of self.old.world input.now }
    {
        self.world.applied = input.number();
        self.world.last_time = input.time();
        self.sent.clear();
    }

    /// Records an event: appends it to the trace, and marks its output as having sent. Fails with
    /// `AllocError` if memory runs out.
    pub fn record_event(
        &mut self,
        alloc: Global,
        source: End,
        value: &Value,
    ) -> Result<(), AllocError>
        ensures { OnOk result (self.new ≡ record_event self.old source value.now) }
    {
        let (input, time) = (self.world.applied, self.world.last_time);
        self.world.trace.push(alloc, input, time, source, value)?;
        self.sent.push(source)
    }
}
