//! For tests: uses up memory, so that the next growth is refused.
#![tactic(auto)]

mod sparing;
mod used_up;

pub use sparing::{Outcome, Spared, is_refused_until_enough};
pub use used_up::UsedUp;
