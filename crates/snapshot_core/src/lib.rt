//! Snapshots: a world as one byte list, and back, exactly.
//!
//! `save` writes the snapshot of a stage's world, and `load_into` puts the world of a snapshot into
//! a stage. What a snapshot is, and which worlds have one, is described once, by a codec
//! (`specs/WorldCodec.antt`, `specs/Shot.antt`). The law `snapshots_are_exact` says that saving and
//! loading are exact.
//!
//! | Module | Content |
//! |---|---|
//! | `saving`, `loading` | the two calls |
//! | `head` | the content of a snapshot's head |
//! | `fault` | the faults |
//! | `world` | a whole world, with its boot |
//! | `nodes`, `kept` | nodes in turn: their fields, and the part after them |
//! | `buttons`, `lines` | the buttons and the trace of a world |
//! | `states`, `beside`, `dragging`, `pointing` | the states of scripts, the parts after fields |
//! | `opening`, `version` | the checks before a world is read, and the versions |
//! | `exactness` | the law |
#![tactic(auto)]

mod beside;
mod buttons;
mod dragging;
mod exactness;
mod fault;
mod head;
mod kept;
mod lines;
mod loading;
mod nodes;
mod opening;
mod pointing;
mod saving;
mod states;
mod version;
mod world;

pub use beside::{Beside, beside_of, push_beside};
pub use exactness::snapshots_are_exact;
pub use fault::{SaveFault, SnapFault};
pub use head::{ShotHead, shot_head};
pub use loading::{Saved, load_into};
pub use opening::{body_in, is_older, none_left};
pub use saving::save;
pub use snapshot_codec::scene_mark;
pub use states::{push_states, states_of};
pub use version::{Version, newest, version_in};
