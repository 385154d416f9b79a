//! What a host sends for a datagram of version 1.

ghost use Rattle.std.specs.Prelude.{◌≡◌, ◌≤◌, ◌∷◌, [], IfSome, length};
ghost use Rattle.std.specs.Option.{option_map};
ghost use Rattle.share_session.specs.Datagram as two_bytes;
ghost use Rattle.share_session.specs.Decoding as two;
ghost use Rattle.share_session.specs.Heard.{heard};
ghost use Rattle.share_welcomes.specs.Passing.{heard_in, said_in};
ghost use Rattle.share_welcomes.specs.Answers as spec;

use crate::host_run::HostRun;
use crate::learned::Learned;
use share_entries::Chain;
use share_session::{
    Body2, Message2, Packet2, Piece2, PieceHead, decode as decode_two, encode as encode_two, heard,
    lifted,
};
use share_wire::{Body, Message, Piece, decode, encode};

/// Returns the piece of version 2 of a piece of version 1.
fn chained(piece: &Piece, chain: Chain) -> Piece2
    ensures { result ≡ spec.chained piece.now chain }
{
    let bytes = piece.bytes();
    let head = PieceHead {
        chain,
        boot: piece.boot(),
        applied: piece.applied(),
        size: piece.size(),
        index: piece.index(),
    };
    Piece2::new(head, bytes)
}

/// Returns the piece of version 2 of a piece of version 1. `None` if the chain after its snapshot's
/// inputs isn't known.
fn piece_in_two(learned: &Learned, piece: &Piece) -> Option<Piece2>
    ensures { result ≡ spec.piece_in_two learned.now piece.now }
{
    match learned.chain(piece.applied()) {
        Some(chain) => Some(chained(piece, chain)),
        None => None,
    }
}

/// Returns the body of version 2 of a body of version 1. `None` for an input whose entry isn't
/// known, and for a piece if the chain after its snapshot's inputs isn't.
fn body_in_two(learned: &Learned, body: &Body) -> Option<Body2>
    ensures { result ≡ spec.body_in_two learned.now body.now }
{
    match body {
        Body::Input(input) => match learned.input(input.number()) {
            Some(input) => Some(Body2::Input(input)),
            None => None,
        },
        Body::Piece(piece) => match piece_in_two(learned, piece) {
            Some(piece) => Some(Body2::Piece(piece)),
            None => None,
        },
        _ => lifted(body),
    }
}

fn is_same(bytes: &[u8], other: &[u8]) -> bool
    ensures { result ≡ spec.is_same bytes.now other.now }
{
    bytes == other
}

/// Reports whether a message of version 2 says to a peer of the run what these bytes say in version
/// 1.
fn says(run: &HostRun, message: &Message2, bytes: &[u8]) -> bool
    ensures { result ≡ spec.says run.now message.now bytes.now }
{
    match heard(&run.session, &run.mark, message) {
        Some(heard) => is_same(encode(&heard).as_slice(), bytes),
        None => false,
    }
}

/// Returns the message of version 2 that says what these bytes say in version 1, if there is one.
fn message_in_two(run: &HostRun, learned: &Learned, bytes: &[u8]) -> Option<Message2>
    ensures value { result ≡ spec.in_two run.now learned.now bytes.now }
    ensures says { IfSome result
        (λ m. heard_in (heard run.now.session run.now.mark m) ≡ bytes.now ∷ []) }
{
    let Ok(message) = decode(bytes) else {
        return None;
    };
    let Some(body) = body_in_two(learned, &message.body) else {
        return None;
    };
    let made = Message2::Said(run.session, body);
    if says(run, &made, bytes) {
        Some(made)
    } else {
        None
    }
}

/// Returns the datagram of version 2 that says what these bytes say in version 1, if there is one.
pub(crate) fn in_two(run: &HostRun, learned: &Learned, bytes: &[u8]) -> Option<Packet2>
    ensures value { option_map (λ p. p.items) result
        ≡ option_map two_bytes.datagram (spec.in_two run.now learned.now bytes.now) }
    // A peer of the run hears these bytes.
    ensures says { IfSome result
        (λ p. said_in run.now p.items (two.decoded p.items) ≡ bytes.now ∷ []) }
    ensures most { IfSome result (λ p. length p.items ≤ 250) }
{
    match message_in_two(run, learned, bytes) {
        Some(message) => Some(encode_two(&message)),
        None => None,
    }
}

/// Reports whether these bytes aren't a datagram of version 2.
pub(crate) fn is_plain(bytes: &[u8]) -> bool
    ensures { result ≡ spec.is_plain bytes.now }
{
    decode_two(bytes).is_err()
}
