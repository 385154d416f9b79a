//! The part of a text that the core can run: a text that `check` calls good, and what was left out.
//!
//! | Modules | Content |
//! |---|---|
//! | `apart`, `places` | the tree of a text in which each part has a place of its own |
//! | `judging` | whether a document is a scene, and what is at fault |
//! | `mends` | which part is left out for a fault |
//! | `tries`, `part` | parts without those, again and again until one is a scene |
//! | `bare` | all statements, which go at last |
//! | `checks` | whether the text of a part is a scene |
//! | `laws` | laws of parts |
//! | `order`, `words`, `told`, `list` | the lines on what was left out |
//! | `kept` | names of nodes that have to stay |
//! | `streams` | from a reader to both texts |
#![tactic(auto)]

mod apart;
mod bare;
mod checks;
mod judging;
mod kept;
mod laws;
mod list;
mod mends;
mod order;
mod part;
mod places;
mod streams;
mod told;
mod tries;
mod words;

pub use apart::line_at;
pub use kept::first_lost;
pub use laws::{parts_are_their_parts, refusals_are_limits, scenes_are_their_parts};
pub use list::told_text;
pub use order::ordered;
pub use part::{ScenePart, part_of_text};
pub use streams::{KeptTexts, PartTexts, read_part, read_part_keeping};
