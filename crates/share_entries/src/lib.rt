//! The entries of a world's log, and the bytes of each.
//!
//! An entry is an input and, for a pointer, which offer it was. `bytes_of` returns the bytes of an
//! entry, and `entry_of` reads the entry at the front of bytes. `chain_after` returns 16 bytes that
//! stand for a list of entries. A log's payloads are a head (`head_bytes`, `head_of`) and then
//! frames of entries (`frame_bytes`, `frame_of`), each with the chain after it. Right after the head
//! a base (`base_bytes`, `base_of`) may stand for all entries below it; `start_of` returns where the
//! entries begin.
#![tactic(auto)]

mod base;
#[cfg(test)]
mod base_by_hand;
mod base_text;
#[cfg(test)]
mod by_hand;
mod chain;
mod entry;
mod fields;
mod frame;
mod head;
mod reading;
mod start;
mod writing;

pub use base::{Base, base_of, is_base, is_base_number};
pub use base_text::base_bytes;
pub use chain::{Chain, chain_after, chains_tell_logs_apart, link};
pub use entry::{Entry, Source};
pub use fields::OfferFields;
pub use frame::{FrameFault, MAX_ENTRIES, frame_bytes, frame_of};
pub use head::{Head, HeadFault, head_bytes, head_of, is_viewer_count};
pub use reading::entry_of;
pub use start::{Start, start_at, start_of};
pub use writing::{EntryBytes, bytes_of};
