//! What a Classic document with prototypes stands for (ISO/IEC 19775-1, 4.4.4): definitions, and
//! laws about them. `specs/Flat.antt` is the definition.
//!
//! | Modules | Content |
//! |---|---|
//! | `laws` | laws of what documents stand for |
//! | `size_laws` | the sizes of instances: alike instances of one prototype take the same room |
//! | `nodes`, `search` | whether a body has a node, and the search in a declaration |
//! | `tree`, `tree_laws` | a text whose words are resolved, and what it stands for |
#![tactic(auto)]

mod laws;
mod nodes;
mod search;
mod size_laws;
mod tree;
mod tree_laws;

pub use laws::{limits_stay_passed, sight_is_of_the_text};
pub use nodes::has_node;
pub use search::find_inside;
pub use size_laws::{
    bare_instances_come_alike, bare_instances_stand_in_rows, declared_prototypes_are_sized,
    floods_are_too_large, prototypes_are_sized, repeats_pass_limits, rows_are_sums,
    statements_come_alike,
};
pub use tree::{
    BodyTree, DefaultTree, FieldTree, GivenTree, ItemTree, NodeTree, ProtoTree, TextTree, Word,
};
pub use tree_laws::{prototypes_are_the_same, texts_stand_for_the_same};
