//! The size of a turn.

/// The largest number of datagrams that a turn takes.
pub const MOST: u32 = 64;
