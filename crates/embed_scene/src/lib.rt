//! What a program reads of a scene by numbers: the type and access of a field, a node by its name,
//! and the scripts.
#![tactic(auto)]

mod fields;
mod named;
mod scripts;

pub use fields::{FieldAs, field_at, type_number};
pub use named::node_named;
pub use scripts::push_scripts;
