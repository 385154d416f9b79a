//! Boxes that count and log what is done with them, the examples of scripts by their names, and
//! growths that are refused.

mod attaching;
mod examples;
mod fitting;
mod growths;
mod hosting;
mod meters;
mod probe;
mod running;
mod stages;
mod viewing;
mod work;
mod worlds;

use std::alloc::Global;
use std::process::Abort;
use x3d_values::Items;

/// Asserts the answer.
fn holds(rt: &impl Abort, answer: bool) {
    assert!(rt; answer);
}

/// A row of a table.
trait Row {
    /// Reports whether the row is right. It is wrong if memory is refused.
    fn holds(&self, alloc: Global) -> bool;
}

/// Asserts each row of a table.
fn all_hold<R: Row>(rt: &impl Abort, alloc: Global, rows: &[R]) {
    for (number, row) in rows.iter().enumerate() {
        assert!(rt; row.holds(alloc), "row {number}");
    }
}

/// Returns a list of the numbers, or an empty list if memory is refused.
fn list_of(alloc: Global, numbers: &[i64]) -> Items<i64> {
    match Items::from_slice(alloc, numbers) {
        Ok(list) => list,
        Err(_) => Items::new(alloc),
    }
}
