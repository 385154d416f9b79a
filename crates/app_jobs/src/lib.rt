//! The lines of a job and of a schedule: steps, a line `scene`, then the scene.
#![tactic(auto)]

mod fault;
mod inputs;
mod job;
mod laws;
mod point;
mod schedule;
mod step;
mod word;

pub use fault::JobFault;
pub use inputs::JobInputs;
pub use job::{Steps, job_of};
pub use laws::lines_are_one_step;
pub use schedule::{Schedule, schedule_of};
