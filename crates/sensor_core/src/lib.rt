//! The sensors of shared worlds: how a TimeSensor starts, runs and ends with the clock, and how a
//! TouchSensor responds to the pointers of several viewers.
//!
//! | Module | Has |
//! |---|---|
//! | `tick`, `set` | what a TimeSensor does when the clock ticks, and when an event arrives |
//! | `timing`, `state`, `cycles` | what a TimeSensor keeps, whether it runs, and its cycles |
//! | `touch` | what a TouchSensor does with a pointer, and when it is disabled |
//! | `parts` | the states of both sensors in plain numbers, and sets of viewers |
//! | `numbers`, `touch_numbers`, `laws` | the numbers of the fields, and their names |
#![tactic(auto)]

mod cycles;
mod laws;
mod numbers;
mod parts;
mod set;
mod state;
mod tick;
mod timing;
mod touch;
mod touch_numbers;

pub use laws::{end_wins_law, numbers_law, one_releases_law, touch_numbers_law, two_pointers_law};
pub use parts::{TimeParts, TouchParts, VIEWERS, number_of, over_of};
pub use state::TimeState;
pub use timing::{TimeFields, is_interval, is_time, truth_at};
pub use touch::{Pointed, TouchState, is_any};
pub use touch_numbers::TOUCH_ENABLED;
