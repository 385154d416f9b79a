//! A port that learns the entries of a log.

ghost use Rattle.std.specs.Prelude.{◌≡◌};
ghost use Rattle.share_turns.specs.Told.{counted};

use share_entries::Entry;
use share_turns::{FakePort, Port, PortFault, UdpPort};

/// A port that may answer by the entries of a log, and learns them as they are stored.
pub trait Learns: Port {
    /// Learns entries that the log has stored, after those that the port has learned. Nothing is
    /// sent or received. A failure counts as one of the port. The default learns nothing.
    fn learn(&mut self, _entries: &[Entry]) -> Result<(), PortFault>
        ensures told { Self.told self.new ≡ Self.told self.old }
        ensures failures { Self.failure_count self.new
            ≡ counted result (Self.failure_count self.old) }
        ensures time { Self.rested self.new ≡ Self.rested self.old }
    {
        Ok(())
    }

    /// Drops what the port learned of entries below `floor`, the number of the first input that the
    /// host still has. Nothing is sent or received. The default drops nothing.
    fn drop_below(&mut self, _floor: u64)
        ensures told { Self.told self.new ≡ Self.told self.old }
        ensures failures { Self.failure_count self.new ≡ Self.failure_count self.old }
        ensures time { Self.rested self.new ≡ Self.rested self.old }
    {}
}

impl Learns for FakePort {}

impl Learns for UdpPort {}
