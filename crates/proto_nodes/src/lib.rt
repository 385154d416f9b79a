//! Adds the nodes of a resolved text, by number (ISO/IEC 19775-1, 4.4.4, prototypes). `nodes` has
//! the walk, whose frames are on the heap. `walker` has its state; `steps` and `giving` have the
//! steps that add no nodes.
#![tactic(auto)]

mod bodies;
mod braces;
mod declared;
mod defaults;
mod fields;
mod frames;
mod giving;
mod holders;
mod nodes;
mod steps;
mod values;
mod walker;

pub use declared::{Declared, declare};
pub use frames::{FieldAt, Frame, NodeTask, Proto, WalkState};
pub use giving::{put_is, put_nothing};
pub use nodes::put_node;
pub use values::{keep_none, keep_value, meet_value, put_aside};
pub use walker::Walker;
