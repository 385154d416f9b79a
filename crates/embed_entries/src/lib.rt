//! Entries as the bytes that a program stores: each after its number, and the mark of the scene
//! before the first.
#![tactic(auto)]

mod reading;
mod writing;

pub use reading::{EntriesFault, after_front, entries_from};
pub use writing::append_bytes;
