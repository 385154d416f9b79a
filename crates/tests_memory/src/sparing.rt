//! Runs work with more and more memory, until there is enough.

use crate::used_up::UsedUp;
use std::alloc::Global;

/// The result of work with little memory.
#[derive(Clone, Copy, PartialEq, Eq)]
pub enum Outcome {
    Done,
    /// Memory was refused, and the state afterwards was as expected.
    Refused,
    Wrong,
}

impl Outcome {
    /// Returns `Done` if the work was done, else `Refused` if it was refused for memory, else
    /// `Wrong`.
    pub fn of(is_done: bool, is_refused: bool) -> Outcome {
        if is_done {
            Outcome::Done
        } else if is_refused {
            Outcome::Refused
        } else {
            Outcome::Wrong
        }
    }

    /// Returns this outcome if the state is as expected, else `Wrong`.
    pub fn where_so(self, stands: bool) -> Outcome {
        if stands { self } else { Outcome::Wrong }
    }
}

/// Work on a subject that may be refused memory.
pub trait Spared<T> {
    /// Prepares while there is memory, works after `memory.run_short()`, and checks after
    /// `memory.come_back()` that the state is as expected.
    fn work(&self, alloc: Global, subject: &mut T, memory: &mut UsedUp) -> Outcome;
}

/// How many more bytes each turn has than the one before.
const STEP: usize = 16;

/// More turns than any work needs.
const MOST: usize = 1 << 15;

/// Runs the work with `bytes` bytes left. If there was no piece of that size, runs it once more.
fn turn<T, S: Spared<T>>(
    alloc: Global,
    work: &S,
    subject: &mut T,
    memory: &mut UsedUp,
    bytes: usize,
) -> Outcome {
    memory.is_to_leave(bytes);
    let outcome = work.work(alloc, subject, memory);
    if memory.is_exact() {
        return outcome;
    }
    memory.take_anew();
    memory.is_to_leave(bytes);
    let again = work.work(alloc, subject, memory);
    again.where_so(memory.is_exact())
}

/// Returns in how many turns memory is refused, each with more memory than the one before, or
/// `None` if a turn goes wrong.
fn refusals<T, S: Spared<T>>(
    alloc: Global,
    work: &S,
    subject: &mut T,
    memory: &mut UsedUp,
) -> Option<usize> {
    for refused in 0..MOST {
        match turn(alloc, work, subject, memory, refused.saturating_mul(STEP)) {
            Outcome::Done => return Some(refused),
            Outcome::Refused => {}
            Outcome::Wrong => return None,
        }
    }
    None
}

/// Reports whether work is refused memory in at least `least` turns, until there is enough. The
/// first turn has no memory, and each further one 16 bytes more than the one before. So each growth
/// that makes the work hold more than it held before is the first to be refused in some turn.
pub fn is_refused_until_enough<T, S: Spared<T>>(
    alloc: Global,
    work: &S,
    subject: &mut T,
    least: usize,
) -> bool {
    let Ok(mut memory) = UsedUp::new(alloc) else {
        return false;
    };
    let refused = refusals(alloc, work, subject, &mut memory);
    drop(memory);
    match refused {
        Some(count) => count >= least,
        None => false,
    }
}
