//! Turns of a host over a log that other hosts append to as well. It stands by while another host
//! makes the clocks, and makes them itself once it hears of none.
//!
//! | Modules | Content |
//! |---|---|
//! | `origin` | what it begins with: its scene, its viewers, and the log's base |
//! | `plan`, `fault` | what such a host does, and why it ends |
//! | `pace` | when it reads on, and which clocks it makes |
//! | `state` | the host, or that it was dropped |
//! | `reading` | it reads on, and takes what other hosts have stored |
//! | `turning` | a turn |
//! | `running` | turns one after another |
#![tactic(auto)]

mod fault;
mod origin;
mod pace;
mod plan;
mod reading;
mod running;
mod state;
mod turning;

pub use fault::SharedFault;
pub use origin::Origin;
pub use pace::{BUSY, Pace, READ_EVERY, must_read, stands_in};
pub use plan::SharedPlan;
pub use reading::read;
pub use running::shared_run;
pub use state::Now;
pub use turning::act;

#[cfg(test)]
mod tests;
