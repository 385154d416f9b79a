//! Copies results out, if there is room for them.

ghost use Rattle.std.specs.Option.{option_map};
ghost use Rattle.embed_world.specs.Status.{IsCopied, IsHandedOut};

use crate::status::{DONE, ROOM};
use embed_changes::Change;
use share_wire::Packet;

/// Copies the bytes if `out` has room for all of them, and writes their number to `wanted`. Returns
/// `DONE` or `ROOM`.
pub fn copy_text(out: &mut [u8], text: &[u8], wanted: &mut usize) -> u8
    ensures { IsCopied text.now out.old result wanted.new out.new }
{
    *wanted = text.len();
    if text.len() > out.len() {
        return ROOM;
    }
    out[..text.len()].copy_from_slice(text);
    DONE
}

/// Copies the numbers if `out` has room for all of them, and writes how many there are to `wanted`.
/// Returns `DONE` or `ROOM`.
pub fn copy_numbers(out: &mut [i64], numbers: &[i64], wanted: &mut usize) -> u8
    ensures { IsCopied numbers.now out.old result wanted.new out.new }
{
    *wanted = numbers.len();
    if numbers.len() > out.len() {
        return ROOM;
    }
    out[..numbers.len()].copy_from_slice(numbers);
    DONE
}

/// Copies the changed fields if `out` has room for all of them, and writes how many there are to
/// `wanted`. Returns `DONE` or `ROOM`.
pub fn copy_changes(out: &mut [Change], changes: &[Change], wanted: &mut usize) -> u8
    ensures { IsCopied changes.now out.old result wanted.new out.new }
{
    *wanted = changes.len();
    if changes.len() > out.len() {
        return ROOM;
    }
    out[..changes.len()].copy_from_slice(changes);
    DONE
}

/// Copies a datagram if there is one and `out` has room for it, and writes its number of bytes to
/// `wanted`. Returns `DONE`, `ROOM`, or `none` if there is no datagram.
pub fn hand_out(packet: Option<Packet>, none: u8, out: &mut [u8], wanted: &mut usize) -> u8
    ensures { IsHandedOut none (option_map (λ p. p.items) packet) out.old result wanted.old
        wanted.new out.new }
{
    match packet {
        Some(packet) => copy_text(out, packet.as_slice(), wanted),
        None => none,
    }
}
