//! Flat documents: nodes by number, with names and prototypes resolved (ISO/IEC 19775-1, prototypes
//! and run-time name scope), and the faults for documents that can't be expanded.
#![tactic(auto)]

mod fault;
mod flat;

pub use fault::{ExpandFault, ExpandFaultKind};
pub use flat::{Flat, FlatEnd, FlatField, FlatNode, FlatRoute, Header};
