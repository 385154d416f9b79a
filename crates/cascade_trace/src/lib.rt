//! The events sent in a world: the `trace` of all events, its `lines`, the lines `since` an input,
//! their `texts`, `forgetting` lines, and whether all lines are `passing` a test. For the course of
//! an input: the outputs that have `sent`, each with its bit at one of the `places`, and the number
//! of routes `followed` from them.
#![tactic(auto)]

mod followed;
mod forgetting;
mod labels;
mod lines;
mod passing;
mod places;
mod sent;
mod since;
mod texts;
mod trace;

pub use followed::deliveries;
pub use labels::push_source;
pub use lines::{LineHead, WritesLines};
pub use passing::TestsLines;
pub use sent::SentBits;
pub use texts::push_trace;
pub use trace::{Trace, TraceLine};
