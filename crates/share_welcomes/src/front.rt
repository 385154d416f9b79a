//! The datagram of a message at the front of what a port receives into.

ghost use Rattle.std.specs.Prelude.{◌≡◌, ◌≤◌, length, take};
ghost use Rattle.share_wire.specs.Datagram.{datagram};
ghost use Rattle.share_turns.specs.Told.{max_received};

use share_turns::RECEIVED;
use share_wire::{Message, encode};

/// Copies bytes to the front of `into`, and returns their number.
fn put_front(into: &mut [u8; RECEIVED], bytes: &[u8]) -> usize
    requires { length bytes.now ≤ max_received }
    ensures count { result ≡ length bytes.now }
    ensures front { take (length bytes.now) into.new ≡ bytes.now }
{
    into[..bytes.len()].copy_from_slice(bytes);
    bytes.len()
}

/// Puts the datagram of a message where the bytes that came were, and returns its number of bytes.
pub(crate) fn put_message(into: &mut [u8; RECEIVED], message: &Message) -> usize
    ensures most { result ≤ max_received }
    ensures front { take result into.new ≡ datagram message.now }
{
    put_front(into, encode(message).as_slice())
}
