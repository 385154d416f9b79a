//! A host's port that answers strangers with no more bytes than they sent.
//!
//! | Modules | Content |
//! |---|---|
//! | `port`, `coming`, `welcoming` | the port, over one that knows the addresses of its peers |
//! | `placed` | what such a port is |
//! | `guard`, `known` | which addresses are answered, and which datagrams are taken |
//! | `seats` | how much is taken of each seat |
//! | `kind` | what a datagram is to a guard |
//! | `laws` | what holds of guards |
#![tactic(auto)]

mod coming;
mod guard;
mod kind;
mod known;
mod laws;
mod placed;
mod port;
mod seats;
mod welcoming;

pub use guard::Guard;
pub use kind::{Kind, kind_of};
pub use laws::{known_brought_a_cookie, strangers_get_no_more};
pub use placed::Placed;
pub use port::GuardedPort;
pub use seats::{MOST_DATAGRAMS, MOST_OFFERS, Seats};

#[cfg(test)]
mod tests;
