//! The log of a world in one file.
//!
//! `create` makes a log in a file that has none, and `create_with_base` one that goes on from a base,
//! which stands for all entries below it. `open` finds the entries of a file that is a log,
//! or the first fault, and cuts what a crash left after them. A `FileLog` appends to it, as `Log`.
#![tactic(auto)]

mod append;
#[cfg(test)]
mod base_tests;
mod basing;
mod contents;
mod fault;
mod frames;
mod known;
mod making;
mod opening;
mod restart;
mod starting;
mod tail;
#[cfg(test)]
mod tests;

pub use append::FileLog;
pub use basing::create_with_base;
pub use contents::Expected;
pub use fault::OpenFault;
pub use making::create;
pub use opening::{Opened, open};
pub use restart::{Restarted, append_and_restart};
