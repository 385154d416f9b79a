//! The ports of many worlds over one socket: which world a datagram is for, the datagrams that wait
//! for a world or leave it, and when a world is due.
//!
//! | Modules | Content |
//! |---|---|
//! | `wanted` | which world a datagram is for |
//! | `directory` | the places of worlds, by session and by name |
//! | `queue` | datagrams in order, with the addresses that they came from or go to |
//! | `port` | the port of a world |
//! | `due` | when a world is due, and how long none is |
//! | `laws` | what holds of datagrams with seals |
#![tactic(auto)]

mod directory;
mod due;
mod laws;
mod port;
mod queue;
mod wanted;

pub use directory::Directory;
pub use due::{Wants, is_due, moment_of, wait_for};
pub use laws::worlds_are_told;
pub use port::{WorldPort, peers_of};
pub use queue::{Parcel, Queue};
pub use wanted::{For, world_of};

#[cfg(test)]
mod tests;
