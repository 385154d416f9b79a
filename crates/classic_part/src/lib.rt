//! The part of a document that the table of node types and fields covers, and what was left out.
//!
//! A node type or a field outside the table goes, and then each USE and ROUTE that named what went,
//! round after round, until nothing more goes.
//!
//! | Modules | Content |
//! |---|---|
//! | `notes`, `knowing`, `index` | what one round says of the tree, and what the next one knows |
//! | `grouping_nodes`, `rules` | grouping nodes outside the table; what stays of nodes and fields |
//! | `copies`, `leaves`, `lists`, `walk` | the tree that stays in one round |
//! | `part` | a round over a document, and rounds until nothing more goes |
#![tactic(auto)]

mod copies;
mod grouping_nodes;
mod index;
mod knowing;
mod leaves;
mod lines;
mod lists;
mod notes;
mod part;
mod rules;
mod walk;

pub use grouping_nodes::{ChildrenField, Grouping, groupings};
pub use knowing::Known;
pub use notes::{Note, NoteKind};
pub use part::{Round, any_goes, first_round, next_round, one_round, part_of};
