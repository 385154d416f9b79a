//! The commands in which several nodes do a job: which steps a job may have, the work of a viewer,
//! and that of a host and viewers together, in memory or each at a port.
#![tactic(auto)]

mod addressed;
mod asking;
mod boots;
mod brief;
mod exact;
mod fits;
mod hosting;
mod hosts_port;
mod job;
mod joining;
mod knocking;
mod note;
mod pace;
mod patient;
mod rehearsing;
mod rests;
mod sockets;
mod stages;
mod telling;
mod timed;
mod viewer_port;
mod viewing;
mod watch;
mod welcomed;

pub use addressed::{ADDRESSES, AddressedPort};
pub use asking::AskingPort;
pub use boots::{boot_at, boot_beyond, boot_now};
pub use exact::ExactPort;
pub use fits::job_fits;
pub use hosts_port::HostsPort;
pub use job::{SharedJob, shared_job};
pub use joining::{JointJob, agree_job, joint_job};
pub use knocking::KnockingPort;
pub use note::{Note, PeerName, Refusal};
pub use pace::Pace;
pub use patient::PatientPort;
pub use rehearsing::rehearse_job;
pub use sockets::{bound, bound_free, number_of};
pub use telling::TellingPort;
pub use timed::TimedPort;
pub use viewer_port::ViewerPort;
pub use viewing::{Seat, first_boot, give_job, seated_job, view_job};
pub use watch::{Counts, Peer, Watch};
pub use welcomed::{Meeting, Met, meet};
