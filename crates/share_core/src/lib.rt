//! The host and the viewers of a shared world, without a network: `host` numbers `inputs`; a
//! `viewer` applies them `ahead` in order, has offers `waiting`, makes the `pieces` of its
//! snapshot, is `gathering` those of another, and is `joining` by them.
#![tactic(auto)]

mod ahead;
mod forgetting;
mod gathering;
mod host;
mod inputs;
mod joining;
mod pieces;
mod viewer;
mod waiting;

pub use gathering::{Pieces, gather};
pub use host::Host;
pub use pieces::{piece_count, piece_packet};
pub use viewer::Viewer;
