//! The log of a world: its entries in order, of which none is lost or changed.
#![tactic(auto)]

mod fault;
mod handle;
mod log;
mod memory;
#[cfg(test)]
mod tests;

pub use fault::{AppendFault, ReadFault};
pub use handle::MemoryHandle;
pub use log::{Log, Remembers};
pub use memory::{MemoryLog, Outcome, Standing};
pub use share_entries::MAX_ENTRIES;
