//! Rehearsals: a host and its viewers run the steps of a schedule over a network in memory, and
//! each step's answer is logged.
#![tactic(auto)]

mod answer;
mod ending;
mod fault;
mod law;
mod log;
mod made;
mod names;
mod nodes;
mod play;
mod rehearsal;

pub use answer::Answer;
pub use fault::RehearseFault;
pub use law::rehearsal_law;
pub use nodes::Shot;
pub use rehearsal::{Rehearsal, rehearse, viewers_of};
