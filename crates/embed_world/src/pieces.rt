//! The pieces of a snapshot for other viewers.

use crate::viewer::EmbeddedViewer;
use share_core::{piece_count, piece_packet};
use share_wire::Packet;

impl EmbeddedViewer {
    ghost use Rattle.std.specs.Prelude.{◌≡◌};
    ghost use Rattle.std.specs.Option.{option_map};
    ghost use Rattle.embed_world.specs.Viewers as spec;

    /// Returns the number of pieces that the bytes of a snapshot have, like `piece_count` of
    /// share_core. 0 if it gives `None`.
    pub fn piece_count(&self, bytes: &[u8]) -> u32
        ensures { result ≡ spec.pieces_in bytes.now }
    {
        match piece_count(bytes) {
            Some(count) => count,
            None => 0,
        }
    }

    /// Returns the datagram of the piece with this number, from 0, of a snapshot's bytes, for other
    /// viewers of the scene, as `piece_packet` of share_core does. `None` if there is no such
    /// piece.
    pub fn piece(&self, bytes: &[u8], index: u32) -> Option<Packet>
        ensures { option_map (λ p. p.items) result ≡ spec.piece_bytes self.now bytes.now index }
    {
        piece_packet(self.viewer.mark(), bytes, index)
    }
}
