//! What a sensor keeps in addition to its fields, in plain numbers, as a snapshot has it.

ghost use Rattle.std.specs.Prelude.{◌≡◌};
ghost use Rattle.sensor_core.specs.Parts.{number_of, over_of};

use x3d_values::MAX_VIEWERS;

/// The number of viewers that can have pointers.
pub const VIEWERS: usize = MAX_VIEWERS as usize;

/// The state of a TimeSensor: whether it is active, and its cycle, or 0 if it isn't active.
#[derive(Clone, Copy, PartialEq, Eq)]
pub struct TimeParts {
    pub active: bool,
    /// From 0.
    pub cycle: i64,
}

/// The state of a TouchSensor: which viewers' pointers are over it, and which viewer presses it.
#[derive(Clone, Copy, PartialEq, Eq)]
pub struct TouchParts {
    /// Bit v is 1 if viewer v's pointer is over the sensor.
    pub over: u64,
    /// Below `MAX_VIEWERS`.
    pub presser: Option<u8>,
}

/// Returns the number whose bit v is 1 exactly if viewer v is in the set.
pub fn number_of(set: &[bool; VIEWERS]) -> u64
    ensures { result ≡ number_of set.now }
{
    let mut number = 0_u64;
    let mut left = VIEWERS;
    while left > 0 {
        left -= 1;
        number = 2 * number + u64::from(set[left]);
    }
    number
}

/// Returns the set of viewers of a number: viewer v is in the set if bit v is 1.
#[tactic(auto, unfolding(crate::specs::Parts::over_of))]
pub fn over_of(number: u64) -> [bool; VIEWERS]
    ensures { result ≡ over_of number }
{
    let mut set = [false; VIEWERS];
    for viewer in 0..VIEWERS {
        set[viewer] = (number >> viewer) & 1 == 1;
    }
    set
}
