//! Resolves the words of a text (ISO/IEC 19775-1, 4.4.4, prototype scoping rules).
#![tactic(auto)]

mod declarations;
mod laws;
mod resolver;
mod scopes;
mod walk;
mod whole;

pub use laws::{numbers_mean_their_trees, resolved_texts_stand_for_the_same};
pub use whole::resolve;
