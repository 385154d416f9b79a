//! Laws about worlds: nodes, scripts and inputs preserve the ranges of fields and states, so every
//! world that a document's scene leads to fits its snapshot.
//!
//! | Modules | Law about |
//! |---|---|
//! | `answers`, `scripts`, `worlds` | what a node, a script or an input keeps in its range |
//! | `documents` | the worlds of documents, their routes, and hits in their scenes |
//! | `sensors` | which sensors a hit concerns |
//! | `networks`, `rewinding`, `texts` | the snapshots that viewers of a network took |
//! | `sizes`, `traces` | how long scenes and traces are |
#![tactic(auto)]

mod answers;
mod documents;
mod networks;
mod rewinding;
mod scripts;
mod sensors;
mod sizes;
mod texts;
mod traces;
mod worlds;

pub use answers::{plane_sensors_fit, reactions_fit, time_sensors_fit, touch_sensors_fit};
pub use documents::{document_hits_are_on_rays, document_openings_fit, routes_join, worlds_fit};
pub use networks::saved_worlds_load_again;
pub use rewinding::taken_snapshots_rewind;
pub use scripts::{attached_run, calls_fit, outputs_typed};
pub use sensors::sensors_are_all;
pub use sizes::scenes_are_short;
pub use texts::{
    saved_worlds_of_texts_load_again, taken_snapshots_of_texts_join,
    taken_snapshots_of_texts_rewind, texts_have_documents, worlds_of_texts_fit,
};
pub use traces::traces_are_limited;
pub use worlds::{fitting_worlds_have_snapshots, openings_fit, steps_fit};
