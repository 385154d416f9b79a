//! Reads a text of the Classic VRML encoding (ISO/IEC 19776-2) as a tree.
#![tactic(auto)]

mod ahead;
mod fault;
mod gathered;
mod grammar;
mod head;
mod laws;
mod level;
mod parts;
mod reading;
mod refusal;
mod strings;
mod terminal;
mod tokens;

pub use classic_tree::{
    BodyItem, Declaration, Document, Given, Meta, NodeText, ProtoText, RawValue, RouteEnd,
    RouteText, Statement,
};
pub use fault::{ReadFault, ReadFaultKind};
pub use laws::texts_spell_one_document;
pub use reading::read;
