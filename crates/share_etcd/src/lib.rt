//! A world's log in etcd: the bodies of requests, and what answers say. No IO.
//!
//! A request is a transaction of etcd's JSON gateway (POST /v3/kv/txn). The keys of a world are
//! x3d/NAME/head, x3d/NAME/tail and x3d/NAME/log/ with the number of a frame's first entry. A world
//! whose first entries were dropped has x3d/NAME/base, which stands for them, and
//! x3d/NAME/snapshot.
//!
//! `making_bytes` makes a world, `opening_bytes` opens it, `append_bytes` appends a frame,
//! `reading_bytes` reads on, and `basing_bytes` puts a base instead of the first frames.
//! `outcome_of`, `opening_of` and `contents_of` read the answers.
#![tactic(auto)]

mod basing;
mod contents;
mod fault;
mod frames;
mod keys;
mod numerals;
mod opening;
mod outcome;
mod pairs;
mod requests;
#[cfg(test)]
mod tests;

pub use basing::{basing_bytes, opening_bytes};
pub use contents::{Contents, contents_of};
pub use fault::AnswerFault;
pub use frames::Frame;
pub use keys::{base_key, head_key, log_end, log_key, snapshot_key, tail_key};
pub use numerals::numerals_are_exact;
pub use opening::{Based, Opening, opening_of};
pub use outcome::{Outcome, outcome_of, stored_is_said};
pub use requests::{Revisions, append_bytes, making_bytes, reading_bytes};
