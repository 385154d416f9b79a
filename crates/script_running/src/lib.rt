//! The scripts that a scene runs, from its Scripts to what they send (ISO/IEC 19775-1, Script).
//!
//! - The scripts that the scene asks for, by the urls of its Scripts: `list` has them in the order
//!   of their nodes, `start` has the states in which they start, `held` has what the fields of a
//!   node hold before any event, and `run` has the scripts as a world runs them.
//! - An event at a field is a call of a script, and what the script sends is sent by fields of its
//!   node. `values` converts values to the numbers of scripts and back, `ports` says which fields
//!   are the inputs and outputs of a script, and `acting` calls the scripts of a world.
//! - `runs` has the scripts by their numbers and their nodes. `begun` has the scripts with their
//!   boxes, all of which were initialized.
#![tactic(auto)]

mod acting;
mod begun;
mod held;
mod laws;
mod list;
mod ports;
mod run;
mod runs;
mod start;
mod values;

pub use acting::initialize;
pub use begun::BegunScripts;
pub use laws::{kinds_law, outputs_law, values_law};
pub use list::script_list;
pub use ports::Ports;
pub use run::{Run, runs_of};
pub use runs::Runs;
