//! The text of a scene (ISO/IEC 19776-2), from which the scene can be read again.
//!
//! `write` writes the document of a scene. The `statements` of the document contain the `tree` of
//! each node. `plan` decides what of a node appears in the text, `places` which nodes need a name,
//! `defaults` which values are omitted, and `raw` how the other values are written.
#![tactic(auto)]

mod defaults;
mod places;
mod plan;
mod raw;
mod statements;
mod tree;
mod write;

pub use write::write_scene;
