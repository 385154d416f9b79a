//! The jobs and the snapshots of cases/snapshots, a file for each. They and this file are written
//! by `scripts/snapshots --write`.

mod clocked;
mod dragging;
mod empty;
mod everything;
mod opening;

pub(crate) use clocked::CLOCKED;
pub(crate) use dragging::DRAGGING;
pub(crate) use empty::EMPTY;
pub(crate) use everything::EVERYTHING;
pub(crate) use opening::OPENING;

/// A job, the number of its inputs, and the snapshots of its last world, of boot 1: in versions 1
/// and 2, if there are such, and in version 3.
pub(crate) struct Stored {
    pub(crate) job: &'static str,
    pub(crate) applied: u64,
    pub(crate) one: Option<&'static [u8]>,
    pub(crate) two: Option<&'static [u8]>,
    pub(crate) shot: &'static [u8],
}
