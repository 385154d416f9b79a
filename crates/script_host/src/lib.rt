//! Scripts with one contract. A script is its kind and its state, a list of whole numbers. What
//! each call does is defined once for each kind. The host keeps the scripts of one world in order
//! and is generic in the box that holds a script.
#![tactic(auto)]

mod attach;
mod event;
mod fault;
mod kinds;
mod laws;
mod restore;
mod scripts;

pub use event::takes_event;
pub use fault::{AttachFault, ReplaceFault};
pub use kinds::{inputs, interface, kind_named, outputs};
pub use laws::outputs_law;
pub use script_slots::{Behaviour, MAX_REPLIES, Replies, Reply, StateFault};
pub use scripts::Scripts;
