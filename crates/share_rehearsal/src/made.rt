//! A packet of a rehearsal.

ghost use Rattle.std.specs.Prelude.{◌≡◌};

use share_wire::Packet;
use std::marker::Model;

/// A packet of a rehearsal. Contracts see it as its bytes.
#[derive(Drop)]
pub(crate) struct Made {
    packet: Packet,
}

impl Model for Made {
    ghost use Rattle.std.specs.Prelude.{List, ℕ};

    ghost Value = { List ℕ };

    ghost view = { λ m. m.packet.items };
}

impl Made {
    pub(crate) fn new(packet: Packet) -> Made
        ensures { result ≡ packet.items }
    {
        Made { packet }
    }

    pub(crate) fn bytes(&self) -> &[u8]
        ensures { result.now ≡ self.now }
    {
        self.packet.as_slice()
    }
}
