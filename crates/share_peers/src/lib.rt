//! The addresses of a socket's peers, by numbers, and which addresses are of this machine.
#![tactic(auto)]

mod addresses;
mod finding;
mod reach;

pub use addresses::Addresses;
pub use reach::{local_address, may_be_used, own_address};
