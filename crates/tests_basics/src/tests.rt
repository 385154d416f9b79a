//! Tables and examples by hand, one file per crate, and growths that are refused.

mod clocks;
mod cookies;
mod datagrams;
mod given_back;
mod key_files;
mod lists;
mod memory;
mod numerals;
mod parts;
mod passing;
mod reaction_growths;
mod reactions;
mod sealed_asks;
mod seals;
mod sending;
mod sessions;
mod snapshots;
mod table;
mod table_text;
mod token_limits;
mod tokens;
mod typing;
mod values;

use std::alloc::Global;
use std::fmt::Display;
use std::process::Abort;
use x3d_values::Items;

/// Asserts the answer.
fn holds(rt: &impl Abort, answer: bool) {
    assert!(rt; answer);
}

/// A row of a table.
trait Row {
    /// Reports whether the row is right. It is wrong if memory is refused.
    fn holds(&self, alloc: Global) -> bool;
}

/// Asserts each row of a table.
fn all_hold<R: Row>(rt: &impl Abort, alloc: Global, rows: &[R]) {
    for (number, row) in rows.iter().enumerate() {
        assert!(rt; row.holds(alloc), "row {number}");
    }
}

/// Returns a list of the items, or an empty list if memory is refused.
fn list_of<T: Copy>(alloc: Global, items: &[T]) -> Items<T> {
    match Items::from_slice(alloc, items) {
        Ok(list) => list,
        Err(_) => Items::new(alloc),
    }
}

/// A fault, and its message.
struct Said<T>(T, &'static str);

impl<T: Display> Row for Said<T> {
    fn holds(&self, alloc: Global) -> bool {
        let Said(fault, wanted) = self;
        let Ok(text) = format!(in alloc; "{fault}") else {
            return false;
        };
        let same = text.as_str() == *wanted;
        drop(text);
        same
    }
}

mod resolving;
