//! Each call on a real host or viewer, and on the bytes of a snapshot, is its step of the network
//! of share_law. A function here makes one call and answers what it answers. Its contract is the
//! law: whatever network has the peer before the call, the step leads to one that has it after.
#![tactic(auto)]

mod host;
mod law;
mod pieces;
mod viewer;

pub use host::{
    host_ack, host_clock, host_drop_below, host_floor_packet, host_packet, host_take,
    host_take_message, new_host,
};
pub use law::peers_law;
pub use pieces::send_piece;
pub use viewer::{
    start_viewer, viewer_ask, viewer_forget, viewer_gather, viewer_join, viewer_offer,
    viewer_resend, viewer_rewind, viewer_snapshot, viewer_take,
};
