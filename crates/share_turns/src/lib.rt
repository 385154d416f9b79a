//! Turns of the host and the viewers of a shared world over a port.
//!
//! | Modules | Content |
//! |---|---|
//! | `port`, `traffic`, `fake`, `udp` | a port, what passed through it, one in memory, one of UDP |
//! | `host`, `viewer`, `most` | one turn |
//! | `runs`, `view`, `rounds` | turns one after another: a host, a viewer, all of them together |
//! | `gather`, `give` | a viewer that joins by pieces of a snapshot, and one that gives them |
//! | `forgetting` | a viewer that forgets old lines of its trace |
//! | `heard`, `attendance` | what each viewer has asked for, and which of them a host counts |
//! | `ends` | when a host drops inputs or is done |
//! | `fault` | why a turn ends early |
#![tactic(auto)]

mod attendance;
mod ends;
mod fake;
mod fault;
mod forgetting;
mod gather;
mod give;
mod heard;
mod host;
mod most;
mod port;
mod rounds;
mod runs;
mod traffic;
mod udp;
mod view;
mod viewer;

pub use attendance::{Attendance, GRACE_MILLIS, SILENT_MILLIS};
pub use ends::{floor_for, is_done};
pub use fake::FakePort;
pub use fault::{SeriesFault, TurnFault};
pub use gather::join_run;
pub use give::give_run;
pub use heard::Heard;
pub use host::{after_clock, after_refusal, hear, host_turn, send_for, sender_of, take};
pub use most::MOST;
pub use port::{Port, PortFault, RECEIVED};
pub use rounds::{agree, agree_until};
pub use runs::{HostPlan, drop_counted, drop_passed, host_run, is_over};
pub use traffic::{Bytes, Datagram, Traffic};
pub use udp::UdpPort;
pub use view::{ViewPlan, view_run, view_until};
pub use viewer::viewer_turn;
