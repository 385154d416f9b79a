//! Why the words of the command line ask for nothing.
#![tactic(auto)]

mod fault;

pub use fault::OrderFault;
