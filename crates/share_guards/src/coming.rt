//! What came of a receive.

/// What came of a receive.
#[derive(Clone, Copy)]
pub enum Coming {
    /// Nothing arrived.
    Nothing,
    /// A datagram that was dropped.
    Dropped,
    /// From this peer, a datagram of this number of bytes.
    Handed(u16, usize),
}
