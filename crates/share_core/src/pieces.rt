//! The pieces of a snapshot's bytes.

ghost use Rattle.std.specs.Prelude.{◌≡◌, ◌^◌, if◌then◌else◌, nat_le, IsTrue, None, Some, Ok, length};
ghost use Rattle.std.specs.Option.{option_map};
ghost use Rattle.share_wire.specs.Datagram.{datagram};
ghost use Rattle.share_wire.specs.Decoding.{decoded};
ghost use Rattle.share_wire.specs.Messages.{is_piece};
ghost use Rattle.share_wire.specs.declared.message.Body.TheVariants as body;
ghost use Rattle.share_law.specs.Pieces.{fragment_of};
ghost use Rattle.share_core.specs.Pieces.{count_of, piece_of};

use share_wire::{
    Body, Message, Packet, Piece, encode, is_piece, piece_count as pieces_of, piece_size,
};
use snapshot_core::{ShotHead, shot_head};

/// The size in bytes of the longest snapshot that is sent in pieces.
const MAX_SIZE: usize = 1 << 26;

/// Returns the number of bytes, unless they are too many to be sent in pieces.
fn size_of(bytes: &[u8]) -> Option<u32>
    ensures { result
        ≡ if nat_le (length bytes.now) (2 ^ 26) then Some (length bytes.now) else None }
{
    if bytes.len() <= MAX_SIZE {
        Some(bytes.len() as u32)
    } else {
        None
    }
}

/// Returns the number of pieces of a snapshot's bytes. Returns `None` if they don't begin like a
/// snapshot or are more than 2^26. Takes no memory.
pub fn piece_count(bytes: &[u8]) -> Option<u32>
    ensures { result ≡ count_of bytes.now }
{
    let head = shot_head(bytes)?;
    let size = size_of(bytes)?;
    if is_piece(head.boot, head.applied, size, 0) {
        Some(pieces_of(size))
    } else {
        None
    }
}

/// Returns piece `index` of a snapshot with this head.
fn cut(head: ShotHead, size: u32, bytes: &[u8], index: u32) -> Piece
    requires range { IsTrue (is_piece head.boot head.applied size index) }
    requires whole { size ≡ length bytes.now }
    ensures { result ≡ fragment_of head.boot head.applied bytes.now index }
{
    let start = 192 * index as usize;
    let end = start + piece_size(size, index) as usize;
    Piece::new(head.boot, head.applied, size, index, &bytes[start..end])
}

/// Returns the piece with this number, counted from 0, if there is one.
fn piece_at(bytes: &[u8], index: u32) -> Option<Piece>
    ensures { option_map (λ p. body.Piece p) result ≡ piece_of bytes.now index }
{
    let head = shot_head(bytes)?;
    let size = size_of(bytes)?;
    if is_piece(head.boot, head.applied, size, index) {
        Some(cut(head, size, bytes, index))
    } else {
        None
    }
}

/// Returns the packet of a piece of a snapshot's bytes, by its number, counted from 0, for the
/// viewers of the scene with this mark. Returns `None` if there is no such piece. Takes no memory.
pub fn piece_packet(mark: [u8; 32], bytes: &[u8], index: u32) -> Option<Packet>
    ensures bytes { option_map (λ p. p.items) result
        ≡ option_map (λ body. datagram (record { mark = mark; body = body }))
        (piece_of bytes.now index) }
    // The packet decodes to that piece.
    ensures again { option_map (λ p. decoded p.items) result
        ≡ option_map (λ body. Ok (record { mark = mark; body = body }))
        (piece_of bytes.now index) }
{
    match piece_at(bytes, index) {
        Some(piece) => Some(encode(&Message {
            mark,
            body: Body::Piece(piece),
        })),
        None => None,
    }
}
