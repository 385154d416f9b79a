//! The bounds of the Classic grammar (ISO/IEC 19776-2): how deep nodes may nest, and where
//! declarations, their values and `IS` may appear.
#![tactic(auto)]

mod declared;
mod depth;

pub use declared::{DeclaredIn, holds_value, is_script, takes_is};
pub use depth::top_depth;
