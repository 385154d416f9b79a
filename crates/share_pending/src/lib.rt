//! A host whose program stores its entries: what is numbered waits until the program has stored it,
//! and only then the host speaks of it. A host that begins again with the stored entries is the
//! host that it was.
//!
//! | Modules | Content |
//! |---|---|
//! | `waiting` | the entries that wait, and what numbers them |
//! | `showing` | what the host shows: stored entries alone |
//! | `storing`, `answer` | an append begins, and its entries are stored |
//! | `kept` | what is kept of each viewer |
//! | `reading`, `beginning` | entries as bytes, and a host that begins with entries |
#![tactic(auto)]

mod answer;
mod beginning;
mod kept;
mod reading;
mod showing;
mod storing;
mod waiting;

pub use answer::{AppendAnswer, goes_on};
pub use beginning::{Resumed, begin};
pub use reading::{bytes_of_all, entries_of};
pub use waiting::Waiting;
