//! The engine of share_engine over HTTP: etcd's JSON gateway, at one of several addresses.
//!
//! | Modules | Content |
//! |---|---|
//! | `engine` | the addresses, and which of them is asked |
//! | `link`, `answer` | a connection: a request, and its answer |
//! | `login` | the user and the password |
//! | `waiting` | how long a socket is waited for |
#![tactic(auto)]

mod answer;
mod engine;
mod fault;
mod link;
mod login;
mod waiting;

pub use engine::EtcdEngine;
pub use login::{Login, login_of};

#[cfg(test)]
mod tests;
