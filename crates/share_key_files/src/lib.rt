//! Key files: a host's, with a line for each viewer, and a viewer's, with one line.
//!
//! `keys_of_file` and `key_of_file` read them, and `write_key` writes a line.
#![tactic(auto)]

mod fault;
mod file;
mod line;
mod writing;

pub use fault::{KeyFault, KeyFileFault};
pub use file::{key_of_file, keys_of_file};
pub use writing::{write_key, written_keys_are_read};
