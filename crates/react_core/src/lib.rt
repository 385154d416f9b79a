//! What nodes do when events arrive. Fields are set and sent on, interpolators and sequencers
//! respond from their keys, and the event utilities pass on truth values and times.
//!
//! | Module | Has |
//! |---|---|
//! | `reaction` | `react`: what any node does at an event |
//! | `interpolation`, `interpolator` | values between those of keys, and the nodes that send them |
//! | `sequence` | the positions of sequencers |
//! | `utilities` | the event utilities |
//! | `keys`, `place`, `part` | where a fraction lies among keys, and part of the way there |
//! | `access`, `stored`, `copies` | which fields are set, what they hold, and copies of values |
//! | `outbox` | what a node sends at one event |
//! | `numbers`, `laws` | the numbers of fields, and their names |
#![tactic(auto)]

mod access;
mod copies;
mod interpolation;
mod interpolator;
mod keys;
mod laws;
mod numbers;
mod outbox;
mod part;
mod place;
mod reaction;
mod sequence;
mod stored;
mod utilities;

pub use access::is_kept;
pub use copies::copy_of;
pub use interpolation::interpolate;
pub use keys::step_index;
pub use laws::numbers_law;
pub use outbox::{MAX_REPLIES, Outbox, SentEvent};
pub use reaction::{ArrivedEvent, react};
