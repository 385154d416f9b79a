//! What the cases of cases/ can't show: devices that fail, memory that is refused, faults in words,
//! what a ray hits, and scripts whose boxes log what is done with them.

mod by_hand;
mod commands;
mod counting;
mod devices;
mod faults;
mod growths;
mod inputs;
mod picking;
mod scripts;
mod texts;

use std::alloc::{AllocError, Global};
use std::process::Abort;

/// Asserts the answer, and that no memory was refused.
fn holds(rt: &impl Abort, answer: Result<bool, AllocError>) {
    assert!(rt; answer == Ok(true));
}

/// A row of a table.
trait Row {
    /// Reports whether the row is right.
    fn holds(&self, alloc: Global) -> Result<bool, AllocError>;
}

/// Asserts each row of a table.
fn all_hold<R: Row>(rt: &impl Abort, alloc: Global, rows: &[R]) {
    for (number, row) in rows.iter().enumerate() {
        assert!(rt; row.holds(alloc) == Ok(true), "row {number}");
    }
}
