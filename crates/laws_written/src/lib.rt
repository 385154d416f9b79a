//! Laws about scenes that were written and read again: a written scene is a document whose nodes,
//! fields and routes are those of the scene, and read again it is the same scene.
//!
//! | Modules | Law about |
//! |---|---|
//! | `text_laws`, `numbering` | the text of a scene: labels, values, numbers of nodes |
//! | `nodes`, `fields`, `distinct`, `routes`, `order`, `limits` | the parts of the document |
//! | `again`, `existing`, `typed`, `worlds`, `staying` | the scene and world that are read again |
#![tactic(auto)]

mod again;
mod distinct;
mod existing;
mod fields;
mod limits;
mod nodes;
mod numbering;
mod order;
mod routes;
mod staying;
mod text_laws;
mod typed;
mod worlds;

pub use again::{
    document_scenes_are_sound, openings_are_of_type, scenes_again_have_room, values_are_kept_again,
    written_scenes_are_again,
};
pub use distinct::{document_fields_stay, fields_are_distinct, interfaces_are_distinct};
pub use existing::{openings_are_in_range, written_scenes_exist};
pub use fields::{written_fields_stay, written_shapes};
pub use limits::written_scenes_are_flat;
pub use nodes::{written_nodes_are_read, written_nodes_close, written_nodes_stay};
pub use numbering::{children_are_lower, scenes_are_numbered_again};
pub use order::scenes_are_written_in_order;
pub use routes::written_routes_stay;
pub use staying::{fitting_worlds_are_in_range, written_scenes_stay, written_worlds_stay};
pub use text_laws::{
    fields_are_left_out, headers_are_kept, labels_are_distinct, scenes_are_writable,
    values_are_typed, written_scenes_spell,
};
pub use typed::{
    fitting_worlds_are_typed, worlds_are_kept_again, worlds_are_typed, written_worlds_are_again,
};
pub use worlds::{fitting_worlds_are_kept, written_worlds_spell};
