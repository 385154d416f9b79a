//! What the cases of cases/ can't show of several nodes: a host and its viewers over a lossy cable
//! and over one that fails, with one of them run by its command; hosts, viewers and their snapshots
//! alone; damaged bytes; and memory that is refused.

use std::alloc::{AllocError, Global};
use std::process::Abort;

/// A row of a table.
trait Row {
    /// Reports whether the row is right.
    fn holds(&self, alloc: Global) -> Result<bool, AllocError>;
}

/// Asserts each row of a table.
fn all_hold<R: Row>(rt: &impl Abort, alloc: Global, rows: &[R]) {
    for (number, row) in rows.iter().enumerate() {
        assert!(rt; row.holds(alloc) == Ok(true), "row {number}");
    }
}

mod agreeing;
mod attending;
mod cable;
mod given;
mod loading;
mod meeting;
mod pacing;
mod runs;
mod starting;
mod stored;
mod storing;
mod turning;
mod viewers;
mod watching;
