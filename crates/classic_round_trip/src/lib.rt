//! Writing a tree gives a text that spells it, if any text does.
#![tactic(auto)]

mod laws;
mod writing;

pub use laws::{
    spellable_documents_are_written, spelled_documents_are_spellable, written_texts_stay,
};
pub use writing::write;
