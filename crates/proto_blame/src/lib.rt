//! Which instance holds the value of a field (ISO/IEC 19775-1, 4.4.4, prototypes).
//!
//! A field that is joined by `IS` has the line of its text in the prototype's body, for every
//! instance. For the line of the instance, the document is blamed: each value becomes a blame of
//! the instance whose braces hold it. The blamed document is expanded as the document was, and the
//! lines of the flat document are replaced by what the blames say.
//!
//! | Modules | Content |
//! |---|---|
//! | `blames`, `laws` | lines as texts, and that they are read again |
//! | `leaves`, `walk`, `document` | the blamed document |
//! | `relining` | a flat document with the lines of instances |
//! | `instance`, `words` | the line of the instance that a text is refused for, and its words |
#![tactic(auto)]

mod blames;
mod document;
mod instance;
mod laws;
mod leaves;
mod relining;
mod walk;
mod words;

pub use instance::instance_line;
pub use laws::blames_are_read;
pub use words::instance_words;
