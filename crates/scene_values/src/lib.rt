//! Converts raw values, as they are written in a text, to typed field values.
//!
//! A text reader knows no types: a raw value is a run of numerals, a list, a string and so on. This
//! crate converts a raw value to a value of the field's type, or reports why that isn't possible.
#![tactic(auto)]

mod fault;
mod grouping;
mod numerals;
mod plain;
mod quantity;
mod rotation;
mod scalars;
mod typing;

pub use fault::ValueFault;
pub use rotation::checked_rotation;
pub use typing::typed;
