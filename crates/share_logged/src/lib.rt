//! A host of a shared world over a log: what it numbers is stored before anyone hears of it, so a
//! host that begins again from its log is the host that it was.
//!
//! | Modules | Content |
//! |---|---|
//! | `beginning` | a host that begins with the entries of a log |
//! | `following` | a host that takes entries that other hosts have stored |
//! | `basing` | a host that goes on from a base, and the base of its log |
//! | `entries`, `pending`, `gather` | what a turn takes, and the entries that it numbers |
//! | `turn` | a turn: it stores what was numbered, and then answers |
//! | `learning` | a port that learns the stored entries |
//! | `hosting`, `fault` | a host over a log, and why it ends |
#![tactic(auto)]

mod basing;
mod beginning;
mod entries;
mod fault;
mod following;
mod gather;
mod hosting;
mod learning;
mod pending;
mod turn;

pub use basing::{bases_stand_for_entries, resume_from};
pub use beginning::resume;
pub use fault::{LoggedFault, ResumeFault};
pub use following::follow;
pub use gather::{clock_entry, read_entry};
pub use hosting::LoggedHost;
pub use learning::Learns;
pub use turn::logged_turn;

#[cfg(test)]
mod tests;
