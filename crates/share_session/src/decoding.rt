//! The message of a datagram, or the first fault.

ghost use Rattle.std.specs.Prelude.{◌≡◌, ◌&&◌, IfOk, IsTrue, Ok, nat_le};
ghost use Rattle.std.specs.Option.{ok_or, option_map};
ghost use Rattle.share_session.specs.declared.fault.DatagramFault.TheVariants.{BadBody};
ghost use Rattle.share_session.specs.declared.message.Body2.TheVariants as body;
ghost use Rattle.share_session.specs.declared.message.Message2.{Message2 as AMessage};
ghost use Rattle.share_session.specs.declared.message.Message2.TheVariants as kind;
ghost use Rattle.share_session.specs.Fields.{head_codec, number_codec, input_codec, offer_codec, ask_codec, ack_codec, piece_codec, hello_codec, welcome_codec};
ghost use Rattle.share_session.specs.Datagram.{datagram, message_fits};
ghost use Rattle.share_session.specs.Decoding.{all_in, body_in, said_in, rest_in, decoded};

use crate::fault::DatagramFault;
use crate::message::{Body2, Message2};
use crate::reading::{
    ack_of, ask_of, hello_of, input_of, number_of, offer_of, piece_of, sixteen, welcome_of,
};
use byte_codec::{byte_of, chunk_of};

fn input_in(bytes: &[u8]) -> Option<Body2>
    ensures { result ≡ all_in input_codec body.Input bytes.now }
{
    let Some((input, rest)) = input_of(bytes) else {
        return None;
    };
    match rest {
        [] => Some(Body2::Input(input)),
        _ => None,
    }
}

fn offer_in(bytes: &[u8]) -> Option<Body2>
    ensures { result ≡ all_in offer_codec body.Offer bytes.now }
{
    let Some((offer, rest)) = offer_of(bytes) else {
        return None;
    };
    match rest {
        [] => Some(Body2::Offer(offer)),
        _ => None,
    }
}

fn ask_in(bytes: &[u8]) -> Option<Body2>
    ensures { result ≡ all_in ask_codec body.Ask bytes.now }
{
    let Some((ask, rest)) = ask_of(bytes) else {
        return None;
    };
    match rest {
        [] => Some(Body2::Ask(ask)),
        _ => None,
    }
}

fn ack_in(bytes: &[u8]) -> Option<Body2>
    ensures { result ≡ all_in ack_codec body.Ack bytes.now }
{
    let Some((ack, rest)) = ack_of(bytes) else {
        return None;
    };
    match rest {
        [] => Some(Body2::Ack(ack)),
        _ => None,
    }
}

fn floor_in(bytes: &[u8]) -> Option<Body2>
    ensures { result ≡ all_in number_codec body.Floor bytes.now }
{
    let Some((number, rest)) = number_of(bytes) else {
        return None;
    };
    match rest {
        [] => Some(Body2::Floor(number)),
        _ => None,
    }
}

fn piece_in(bytes: &[u8]) -> Option<Body2>
    ensures { result ≡ all_in piece_codec body.Piece bytes.now }
{
    let Some((piece, rest)) = piece_of(bytes) else {
        return None;
    };
    match rest {
        [] => Some(Body2::Piece(piece)),
        _ => None,
    }
}

fn body_in(tag: u8, bytes: &[u8]) -> Option<Body2>
    ensures { result ≡ body_in tag bytes.now }
{
    match tag {
        1 => input_in(bytes),
        2 => offer_in(bytes),
        3 => ask_in(bytes),
        4 => ack_in(bytes),
        5 => floor_in(bytes),
        6 => piece_in(bytes),
        _ => None,
    }
}

fn said_in(tag: u8, bytes: &[u8]) -> Option<Message2>
    ensures { result ≡ said_in tag bytes.now }
{
    let Some((front, rest)) = chunk_of(bytes, 16) else {
        return None;
    };
    let Some(body) = body_in(tag, rest) else {
        return None;
    };
    let session = sixteen(front);
    Some(Message2::Said(session, body))
}

fn hello_in(bytes: &[u8]) -> Option<Message2>
    ensures { result ≡ all_in hello_codec kind.Hello bytes.now }
{
    let Some((hello, rest)) = hello_of(bytes) else {
        return None;
    };
    match rest {
        [] => Some(Message2::Hello(hello)),
        _ => None,
    }
}

fn welcome_in(bytes: &[u8]) -> Option<Message2>
    ensures { result ≡ all_in welcome_codec kind.Welcome bytes.now }
{
    let Some((welcome, rest)) = welcome_of(bytes) else {
        return None;
    };
    match rest {
        [] => Some(Message2::Welcome(welcome)),
        _ => None,
    }
}

fn or_bad(found: Option<Message2>) -> Result<Message2, DatagramFault>
    ensures { result ≡ ok_or found BadBody }
{
    let Some(message) = found else {
        return Err(DatagramFault::BadBody);
    };
    Ok(message)
}

fn is_body_tag(tag: u8) -> bool
    ensures { result ≡ (nat_le 1 tag && nat_le tag 6) }
{
    tag >= 1 && tag <= 6
}

fn rest_in(tag: u8, bytes: &[u8]) -> Result<Message2, DatagramFault>
    ensures { result ≡ rest_in tag bytes.now }
{
    if is_body_tag(tag) {
        return or_bad(said_in(tag, bytes));
    }
    match tag {
        7 => or_bad(hello_in(bytes)),
        8 => or_bad(welcome_in(bytes)),
        _ => Err(DatagramFault::BadTag),
    }
}

/// Reads the magic bytes, the version and the tag.
#[tactic(auto, unfolding(crate::specs::Fields::head_codec))]
fn head_of(bytes: &[u8]) -> Option<((&[u8], (u8, u8)), &[u8])>
    ensures { option_map (λ r. ((r.0.0.now, r.0.1), r.1.now)) result ≡ head_codec.read bytes.now }
{
    let Some((magic, rest)) = chunk_of(bytes, 4) else {
        return None;
    };
    let Some((version, rest)) = byte_of(rest) else {
        return None;
    };
    let Some((tag, rest)) = byte_of(rest) else {
        return None;
    };
    Some(((magic, (version, tag)), rest))
}

#[tactic(auto, unfolding(crate::specs::Decoding::decoded))]
fn message_in(bytes: &[u8]) -> Result<Message2, DatagramFault>
    ensures { result ≡ decoded bytes.now }
{
    let Some(((magic, (version, tag)), rest)) = head_of(bytes) else {
        return Err(DatagramFault::BadPacket);
    };
    if magic != b"X3DS".as_slice() {
        return Err(DatagramFault::BadPacket);
    }
    if version != 2 {
        return Err(DatagramFault::BadVersion);
    }
    rest_in(tag, rest)
}

/// Decodes a datagram. Returns the first fault, as `DatagramFault` lists them, if the bytes are not
/// the datagram of a message.
pub fn decode(bytes: &[u8]) -> Result<Message2, DatagramFault>
    // A decoded message is in its ranges, and the bytes are its datagram.
    ensures found { IfOk result (λ m. IsTrue (message_fits m) × (bytes.now ≡ datagram m)) }
    // Each message in its ranges is decoded from its datagram.
    ensures only { (m : AMessage) → IsTrue (message_fits m) → bytes.now ≡ datagram m
        → result ≡ Ok m }
    // The exact result, faults included.
    ensures exact { result ≡ decoded bytes.now }
{
    message_in(bytes)
}
