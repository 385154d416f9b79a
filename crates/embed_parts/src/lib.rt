//! The part of a text that the core can run, and the instance that a text is refused for, for
//! programs that embed the core.
//!
//! | Modules | Content |
//! |---|---|
//! | `part` | the text of the part, and what was left out, as lines and as numbers |
//! | `kinds`, `notes` | the numbers of what was left out |
//! | `instance` | the line of the instance that a text is refused for |
#![tactic(auto)]

mod instance;
mod kinds;
mod notes;
mod part;

pub use instance::text_instance;
pub use part::EmbeddedPart;
