//! A world's log kept in etcd, as `Log`. What asks etcd is an `Engine`.
//!
//! `open_world` finds the log of a world, or makes it. An `EtcdLog` appends to it, and reads what
//! other hosts have appended. `put_base` puts a base and a snapshot instead of its first
//! entries.
#![tactic(auto)]

mod asking;
mod basing;
mod engine;
mod fake;
mod fault;
mod finding;
mod known;
mod log;
mod opening;
mod reading;
#[cfg(test)]
mod tests;

pub use basing::Place;
pub use engine::{Engine, EngineFault};
pub use fake::FakeEngine;
pub use fault::{BasingFault, WorldFault};
pub use log::EtcdLog;
pub use opening::{OpenedWorld, WorldBase, open_world};
