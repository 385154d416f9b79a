//! Worlds, hosts and viewers for a program that embeds them.
//!
//! | Modules | Content |
//! |---|---|
//! | `world`, `opening`, `input`, `scripts`, `shots` | a world: made, moved on, saved, loaded |
//! | `forgetting` | a world and a viewer without old lines of their traces |
//! | `host`, `viewer`, `pieces`, `datagram` | a host and a viewer, and what they send |
//! | `lasting`, `logs`, `log_fault`, `log_status` | a host whose program has its log |
//! | `law` | what such a host keeps |
//! | `texts`, `lists`, `viewer_texts`, `viewer_lists`, `routes`, `asks` | what is read of them |
//! | `changed` | the fields that were set after an input |
//! | `lines`, `meet`, `named` | what a read looks up |
//! | `status`, `peer_status`, `tell`, `found`, `buffers`, `aim` | how C sees an answer |
//! | `fault` | why a read fails |
#![tactic(auto)]

mod aim;
mod asks;
mod buffers;
mod changed;
mod datagram;
mod fault;
mod forgetting;
mod found;
mod host;
mod input;
mod lasting;
mod law;
mod lines;
mod lists;
mod log_fault;
mod log_status;
mod logs;
mod meet;
mod named;
mod opening;
mod peer_status;
mod pieces;
mod routes;
mod scripts;
mod shots;
mod status;
mod tell;
mod texts;
mod viewer;
mod viewer_lists;
mod viewer_texts;
mod world;

pub use aim::Aim;
pub use asks::{tell_field_type, tell_node, tell_time};
pub use buffers::{copy_changes, copy_numbers, copy_text, hand_out};
pub use changed::write_changed;
pub use datagram::{DatagramAs, read_datagram};
pub use embed_changes::Change;
pub use embed_scene::FieldAs;
pub use fault::LookFault;
pub use forgetting::status_of_forget;
pub use host::EmbeddedHost;
pub use input::{pointer_of, stamped};
pub use lasting::{Append, AppendFault};
pub use law::hosts_write_ahead;
pub use lines::{push_changes, push_lines};
pub use lists::{
    ListEntry, write_children, write_numbers, write_roots, write_scripts, write_sensors,
};
pub use log_fault::{LogFault, status_of_log, tell_entry};
pub use log_status::{answer_of, status_of_answer, status_of_append};
pub use meet::{Meeting, met_by};
pub use named::number_named;
pub use peer_status::{NO_PACKET, status_of_floor, status_of_size};
pub use routes::write_routes;
pub use share_pending::AppendAnswer;
pub use shots::write_snapshot;
pub use status::{
    CLOSED, DONE, MEMORY, RANGE, status_of_apply, status_of_look, status_of_place, status_of_save,
    status_of_snap,
};
pub use tell::{
    ReplyAs, TakenAs, tell_field, tell_gathered, tell_heard, tell_joined, tell_number, tell_offer,
    tell_reply, tell_rewound, tell_taken,
};
pub use texts::{
    write_changes, write_field, write_label, write_scene, write_trace, write_type, write_value,
};
pub use viewer::EmbeddedViewer;
pub use world::EmbeddedWorld;
pub use x3d_values::ray_of;
