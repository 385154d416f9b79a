//! Seals of datagrams, by keys that viewers share with the host.
//!
//! `seal` returns the seal of a datagram, and `unsealed` the datagram of sealed bytes. `key_of`
//! reads a line of a key file. `hmac` is HMAC-SHA256 (RFC 2104).
#![tactic(auto)]

mod claims;
mod keys;
mod mac;
mod sealing;
mod table;

pub use claims::{claimed, opened};
pub use keys::{ViewerKey, key_of};
pub use mac::hmac;
pub use sealing::{Direction, Key, Seal, seal, sealed, unsealed};
pub use table::Keys;
