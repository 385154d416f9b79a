//! What a datagram says.

ghost use Rattle.std.specs.Prelude.{◌≡◌};
ghost use Rattle.embed_world.specs.Datagrams.{read_by};
ghost use Rattle.embed_world.specs.PeerStatus.{status_by, status_of_wire};
ghost use Rattle.share_wire.specs.Decoding.{decoded};

use embed_world::{DatagramAs, read_datagram};

/// Writes what a datagram says to `told`.
#[unsafe(no_mangle)]
pub extern "C" fn x3d_datagram_read(bytes: &[u8], told: &mut DatagramAs) -> u8
    ensures status { result ≡ status_by status_of_wire (decoded bytes.now) }
    ensures told { told.new ≡ read_by told.old (decoded bytes.now) }
{
    read_datagram(bytes, told)
}
