//! The port of a host in its run: it answers each datagram in the version in which it came.
//!
//! | Modules | Content |
//! |---|---|
//! | `host_run` | the run of a host, and what it makes of a datagram |
//! | `learned` | the entries that a port has learned and may still send, with their chains |
//! | `laws` | what is known is that of the log, and so is what is sent |
//! | `versions` | the version of each peer |
//! | `answering` | what is sent for a datagram of version 1 |
//! | `port`, `front`, `learning` | the port, the datagram that it hands on, and what it learns |
#![tactic(auto)]

mod answering;
mod front;
mod host_run;
mod laws;
mod learned;
mod learning;
mod port;
mod versions;

pub use host_run::{Coming, HostRun};
pub use laws::{
    a_base_is_of_the_log, dropping_keeps_the_log, learning_keeps_the_log, nothing_is_of_the_log,
    what_is_sent_is_of_the_log,
};
pub use learned::Learned;
pub use port::HostPort;
pub use versions::Versions;

#[cfg(test)]
mod tests;
