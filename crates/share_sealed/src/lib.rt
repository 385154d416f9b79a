//! Ports whose datagrams have seals, over ports of any datagrams.
//!
//! | Modules | Content |
//! |---|---|
//! | `keyed` | the port of a host, with the keys of its viewers |
//! | `own` | the port of a viewer, with its key |
//! | `coming`, `speakers` | what came of a receive, and the viewer that each peer was heard to be |
//! | `laws` | what holds of datagrams of version 2 |
#![tactic(auto)]

mod coming;
mod keyed;
mod laws;
mod own;
mod speakers;

pub use keyed::KeyedPort;
pub use laws::senders_are_claimed;
pub use own::SealedPort;

#[cfg(test)]
mod tests;
