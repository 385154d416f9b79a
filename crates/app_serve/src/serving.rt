//! What is served, and how.

use crate::places::Place;

/// How many viewers a host has by default.
pub const VIEWERS: u8 = 2;

/// How the worlds of a folder are served.
#[derive(Clone, Copy)]
pub struct Serving {
    pub place: Place,
    /// Worlds without keys are served on any machine.
    pub is_open: bool,
    /// How many viewers a world has, 1 to `MAX_VIEWERS` of x3d_values; `None` for `VIEWERS` where
    /// a log is made, and for those of the log where there is one.
    pub viewers: Option<u8>,
    /// How many of the last inputs are kept for viewers that have them; `None` keeps all.
    pub keep: Option<u64>,
    /// Of how many of the last inputs the world of a host with keys keeps the lines of its trace;
    /// `None` keeps all.
    pub forget: Option<u64>,
    /// How many of the last inputs, to twice as many, the log of a world with keys keeps; `None`
    /// keeps all.
    pub base: Option<u64>,
    /// How many milliseconds pass from one clock that a world makes to the next, once those of its
    /// job are over; `None` for no such clocks.
    pub every: Option<u32>,
    /// Reports on standard error which worlds are opened and closed.
    pub verbose: bool,
}
