//! The datagram of a message.

ghost use Rattle.std.specs.Prelude.{◌≡◌, ◌≤◌, ◌++◌, length, IsTrue, Ok};
ghost use Rattle.share_session.specs.Datagram.{datagram, body_tag, tag_of, body_text, rest_text, body_fits, message_fits};
ghost use Rattle.share_session.specs.Decoding.{decoded};

use crate::message::{Body2, Message2};
use crate::packet::{Packet2, push_bytes};
use crate::writing::{
    push_ack, push_ask, push_hello, push_input, push_number, push_offer, push_piece, push_welcome,
};
use arrayvec::ArrayVec;

fn body_tag(body: &Body2) -> u8
    ensures { result ≡ body_tag body.now }
{
    match body {
        Body2::Input(_) => 1,
        Body2::Offer(_) => 2,
        Body2::Ask(_) => 3,
        Body2::Ack(_) => 4,
        Body2::Floor(_) => 5,
        Body2::Piece(_) => 6,
    }
}

fn tag_of(message: &Message2) -> u8
    ensures { result ≡ tag_of message.now }
{
    match message {
        Message2::Said(_, body) => body_tag(body),
        Message2::Hello(_) => 7,
        Message2::Welcome(_) => 8,
    }
}

fn push_body(out: &mut Packet2, body: &Body2)
    requires { length out.old.items ≤ 22 }
    ensures text { out.new.items ≡ out.old.items ++ body_text body.now }
    ensures len { length out.new.items ≤ 250 }
    ensures fits { IsTrue (body_fits body.now) }
{
    match body {
        Body2::Input(input) => push_input(out, input),
        Body2::Offer(offer) => push_offer(out, *offer),
        Body2::Ask(ask) => push_ask(out, *ask),
        Body2::Ack(ack) => push_ack(out, *ack),
        Body2::Floor(number) => push_number(out, *number),
        Body2::Piece(piece) => push_piece(out, piece),
    }
}

fn push_rest(out: &mut Packet2, message: &Message2)
    requires { length out.old.items ≤ 6 }
    ensures text { out.new.items ≡ out.old.items ++ rest_text message.now }
    ensures len { length out.new.items ≤ 250 }
    ensures fits { IsTrue (message_fits message.now) }
{
    match message {
        Message2::Said(session, body) => {
            push_bytes(out, session);
            push_body(out, body);
        }
        Message2::Hello(hello) => push_hello(out, hello),
        Message2::Welcome(welcome) => push_welcome(out, welcome),
    }
}

/// Returns the one datagram of a message.
#[tactic(auto, unfolding(crate::specs::Fields::head_codec))]
pub fn encode(message: &Message2) -> Packet2
    ensures text { result.items ≡ datagram message.now }
    // There is room for a seal.
    ensures most { length result.items ≤ 250 }
    // Each message is in its ranges.
    ensures fits { IsTrue (message_fits message.now) }
    // The datagram is decoded to the same message.
    ensures again { decoded result.items ≡ Ok message.now }
{
    let mut out = ArrayVec::new();
    push_bytes(&mut out, b"X3DS");
    push_bytes(&mut out, &[2, tag_of(message)]);
    push_rest(&mut out, message);
    out
}
