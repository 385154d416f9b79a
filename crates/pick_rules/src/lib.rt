//! Where a ray enters a box, and which of two places along the ray is nearer.
//!
//! `bounds` has boxes and places along a ray, `crossing` finds the first place at which a box is
//! hit, and `laws` proves that this place is the first.
#![tactic(auto)]

mod bounds;
mod crossing;
mod laws;

pub use bounds::{Bounds, Fraction};
pub use crossing::{entry, is_less};
pub use laws::entries_law;
