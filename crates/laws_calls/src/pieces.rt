//! The call on the bytes of a snapshot.

ghost use Rattle.std.specs.Option.{option_map};
ghost use Rattle.share_law.specs.declared.step.Step.TheVariants.{PiecePacket};
ghost use Rattle.laws_calls.specs.Moves.{PieceSends};

use share_core::piece_packet;
use share_law::steps_law;
use share_wire::Packet;

/// Returns the packet of a piece of a snapshot, like `piece_packet`.
pub fn send_piece(mark: [u8; 32], bytes: &[u8], index: u32) -> Option<Packet>
    ensures { PieceSends mark bytes.now (λ s. PiecePacket s index)
        (option_map (λ p. p.items) result) }
{
    steps_law();
    let _last = mark[31];
    piece_packet(mark, bytes, index)
}
