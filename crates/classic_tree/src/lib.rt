//! The tree of a Classic text, and the text written for a tree.
//!
//! The tree follows the grammar (ISO/IEC 19776-2), before any type is known. `write` gives one of
//! the many texts of a tree.
//!
//! `tree` has the tree, `writer` writes it, with `header` for the head, `parts` for the parts
//! without nodes, and `spaces` for the indentation.
#![tactic(auto)]

mod header;
mod parts;
mod spaces;
mod tree;
mod writer;

pub use tree::{
    BodyItem, Declaration, Document, Given, Meta, NodeText, ProtoText, RawValue, RouteEnd,
    RouteText, Statement,
};
pub use writer::write;
