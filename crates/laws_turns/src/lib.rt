//! What turns over a port do: calls on the host or the viewer, one after another, and nothing else.
#![tactic(auto)]

mod law;

pub use law::{doings_law, rounds_law, turns_law};
