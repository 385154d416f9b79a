//! Cookies, which show that a peer receives what is sent to its address.
//!
//! `Secrets` makes the cookie of an address, a port and a viewer, and knows it for two minutes at
//! least and four at most.
#![tactic(auto)]

mod cookie;
mod laws;
mod secrets;

pub use cookie::{Cookie, Secret};
pub use laws::{secrets_change, texts_tell_places_apart};
pub use secrets::{PERIOD_MILLIS, Secrets};
