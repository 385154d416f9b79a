//! The work that an input caused.

/// The work that an input caused: the number of outputs that sent, of routes that were followed,
/// and of scripts that were settled.
#[derive(Clone, Copy, Debug, PartialEq, Eq)]
pub struct Work {
    pub sends: usize,
    pub deliveries: usize,
    pub settles: usize,
}
