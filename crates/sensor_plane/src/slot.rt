//! Storage for the pointing state of a node.

ghost use Rattle.std.specs.Prelude.{◌≡◌, IfOk, IsTrue};
ghost use Rattle.sensor_plane.specs.Pointing.{drag_by, is_no_sensor, is_pressed_by, is_resting, is_state_of, pointing_fits, start_of};
ghost use Rattle.sensor_plane.specs.declared.pointing.PointingState.TheVariants.{NoSensor as Nothing};

use crate::drag::Drag;
use crate::pointing::PointingState;
use std::alloc::{AllocError, Global};
use std::marker::Model;
use x3d_values::NodeType;

/// Storage for the pointing state of a node. The state of a sensor is on the heap, so that a node
/// that isn't a sensor only takes the room of a pointer. Contracts see the state.
#[derive(Drop)]
pub struct PointingSlot {
    sensor: Option<Box<PointingState>>,
}

impl Model for PointingSlot {
    ghost use Rattle.std.specs.Option.{option_map_or};
    ghost use Rattle.sensor_plane.specs.declared.pointing.PointingState.{PointingState as State};
    ghost use Rattle.sensor_plane.specs.declared.pointing.PointingState.TheVariants.{NoSensor};

    ghost Value = { State };

    ghost view = { λ s. option_map_or (λ state. state.value) s.sensor NoSensor };
}

impl PointingSlot {
    /// Returns the slot of a node that isn't a sensor. Takes no memory.
    pub fn empty() -> PointingSlot
        ensures { result ≡ Nothing }
    {
        PointingSlot { sensor: None }
    }

    /// Returns a slot with that state. Takes memory if it is the state of a sensor; fails if that
    /// memory is refused.
    pub fn new(alloc: Global, state: PointingState) -> Result<PointingSlot, AllocError>
        ensures { IfOk result (λ slot. slot ≡ state) }
    {
        if state.is_no_sensor() {
            return Ok(PointingSlot::empty());
        }
        let sensor = Some(Box::new(alloc, state)?);
        Ok(PointingSlot { sensor })
    }

    /// Returns the slot of a node of type `node_type` when a world begins. Fails if memory is
    /// refused.
    pub fn of(alloc: Global, node_type: NodeType) -> Result<PointingSlot, AllocError>
        ensures { IfOk result (λ slot. slot ≡ start_of node_type) }
    {
        PointingSlot::new(alloc, PointingState::of(node_type))
    }

    /// Returns the state.
    pub fn state(&self) -> PointingState
        ensures { result ≡ self.now }
    {
        match &self.sensor {
            Some(state) => **state,
            None => PointingState::NoSensor,
        }
    }

    /// Reports whether the slot has a state of a node of type `node_type`.
    pub fn is_of(&self, node_type: NodeType) -> bool
        ensures { result ≡ is_state_of node_type self.now }
    {
        match &self.sensor {
            Some(state) => state.is_of(node_type),
            None => PointingState::NoSensor.is_of(node_type),
        }
    }

    /// Reports whether no pointer is over the sensor, and no viewer presses it.
    pub fn is_resting(&self) -> bool
        ensures { result ≡ is_resting self.now }
    {
        match &self.sensor {
            Some(state) => state.is_resting(),
            None => true,
        }
    }

    /// Reports whether viewer `who` presses the sensor.
    pub fn is_pressed_by(&self, who: u8) -> bool
        ensures { result ≡ is_pressed_by self.now who }
    {
        match &self.sensor {
            Some(state) => state.is_pressed_by(who),
            None => false,
        }
    }

    /// Returns the drag of a PlaneSensor, if viewer `who` presses it.
    pub fn drag_by(&self, who: u8) -> Option<Drag>
        ensures { result ≡ drag_by self.now who }
    {
        match &self.sensor {
            Some(state) => state.drag_by(who),
            None => None,
        }
    }

    /// Reports whether the slot has a state of a node of type `node_type`, in its ranges.
    pub fn fits(&self, node_type: NodeType) -> bool
        ensures { result ≡ pointing_fits node_type self.now }
    {
        match &self.sensor {
            Some(state) => state.fits(node_type),
            None => PointingState::NoSensor.fits(node_type),
        }
    }

    /// Replaces the state. A slot without a sensor can't take the state of a sensor. Takes no
    /// memory.
    pub fn keep(&mut self, state: PointingState)
        requires { IsTrue (is_no_sensor self.old) → IsTrue (is_no_sensor state) }
        ensures { self.new ≡ state }
    {
        let Some(sensor) = &mut self.sensor else {
            return;
        };
        **sensor = state;
    }
}
