//! Why bytes are not a datagram of version 2.

ghost use Rattle.std.specs.Prelude.{◌≡◌};
ghost use Rattle.share_session.specs.Faults.{datagram_fault_name};

use thiserror::Error;

/// Why bytes are not a datagram of version 2. The checks run in this order, and the first that
/// fails is reported: fewer than 6 bytes, or another magic (`BadPacket`); another version; an
/// unknown tag; a rest that is too short, too long, or has a field out of its range (`BadBody`).
#[derive(Clone, Copy, Debug, PartialEq, Eq, Error)]
pub enum DatagramFault {
    #[error("the bytes are not those of a datagram")]
    BadPacket,
    #[error("the version of the datagram is not 2")]
    BadVersion,
    #[error("the tag of the datagram is unknown")]
    BadTag,
    #[error("the body of the datagram is not whole, or a field of it is out of range")]
    BadBody,
}

impl DatagramFault {
    /// Returns the name of the variant.
    pub fn name(self) -> &'static str
        ensures { result.now ≡ datagram_fault_name self }
    {
        match self {
            DatagramFault::BadPacket => "BadPacket",
            DatagramFault::BadVersion => "BadVersion",
            DatagramFault::BadTag => "BadTag",
            DatagramFault::BadBody => "BadBody",
        }
    }
}
