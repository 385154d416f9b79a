//! The port of a host that keeps its world: it gives a snapshot of the world to viewers that join.
//!
//! | Modules | Content |
//! |---|---|
//! | `said` | what a datagram says of joining |
//! | `joiners` | the viewers that join |
//! | `applying` | a log's entries, applied to a stage |
//! | `forgetting` | the lines of the trace that are forgotten |
//! | `shot` | the snapshot that is given |
//! | `giving` | the pieces that are sent |
//! | `port` | the port |
//! | `learning` | what it learns |
#![tactic(auto)]

mod applying;
mod forgetting;
mod giving;
mod joiners;
mod learning;
mod port;
mod said;
mod shot;

pub use forgetting::Forgetting;
pub use joiners::{Joiner, Joiners};
pub use port::KeepingPort;
pub use shot::Shot;
