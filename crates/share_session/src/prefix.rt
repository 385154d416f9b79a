//! What a viewer has applied.

use share_entries::Chain;

/// The first inputs of a list: how many, and the chain after them. Before the first input the chain
/// is the run.
#[derive(Clone, Copy, PartialEq, Eq)]
pub struct Prefix {
    pub applied: u64,
    pub chain: Chain,
}
