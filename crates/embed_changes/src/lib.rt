//! The fields of a world that were set after an input, with their current values as numbers.
//!
//! | Modules | Content |
//! |---|---|
//! | `value`, `numbers` | the current value of a field, and its numbers |
//! | `output_bytes`, `outputs` | the outputs that sent after an input, each once |
//! | `changes` | the fields that they are, with their values |
//! | `laws` | which fields are listed |
#![tactic(auto)]

mod changes;
mod laws;
mod numbers;
mod output_bytes;
mod outputs;
mod value;

pub use changes::{Change, ChangeList};
pub use laws::outputs_are_listed;
pub use numbers::{push_nodes, push_numbers};
pub use value::value_now;
