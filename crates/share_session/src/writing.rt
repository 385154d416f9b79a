//! The body of each message, appended to a packet.

ghost use Rattle.std.specs.Prelude.{◌≡◌, ◌+◌, ◌≤◌, ◌++◌, length, IsTrue};
ghost use Rattle.share_session.specs.Fields.{number_codec, seat_codec, input_codec, offer_parts, offer_codec, ask_codec, ack_codec, piece_parts, piece_codec, name_codec, hello_codec, welcome_codec};

use crate::message::{Ask2, Hello, Input2, Welcome};
use crate::name::WorldName;
use crate::numbers::{Number, SeatNumber};
use crate::packet::{Packet2, push_bytes, push_u32, push_u64, push_vector};
use crate::piece::{Piece2, PieceHead};
use share_entries::{OfferFields, bytes_of};
use share_wire::{Ack, Offer};

#[tactic(auto, unfolding(crate::specs::Fields::number_codec))]
pub(crate) fn push_number(out: &mut Packet2, number: Number)
    requires { length out.old.items + 8 ≤ 288 }
    ensures text { out.new.items ≡ out.old.items ++ number_codec.write number }
    ensures len { length out.new.items ≡ length out.old.items + 8 }
    ensures fits { IsTrue (number_codec.fits number) }
{
    push_u64(out, number.get());
}

#[tactic(auto, unfolding(crate::specs::Fields::input_codec))]
pub(crate) fn push_input(out: &mut Packet2, input: &Input2)
    requires { length out.old.items ≤ 22 }
    ensures text { out.new.items ≡ out.old.items ++ input_codec.write input.now }
    ensures len { length out.new.items ≤ 113 }
    ensures fits { IsTrue (input_codec.fits input.now) }
{
    push_bytes(out, &input.chain);
    push_number(out, input.number);
    push_bytes(out, bytes_of(&input.entry).as_slice());
}

#[tactic(auto, unfolding(crate::specs::Fields::offer_parts))]
fn push_parts(out: &mut Packet2, parts: OfferFields)
    requires { length out.old.items + 58 ≤ 288 }
    ensures text { out.new.items ≡ out.old.items ++ offer_parts.write parts }
    ensures len { length out.new.items ≡ length out.old.items + 58 }
{
    push_bytes(out, &[parts.who]);
    push_u32(out, parts.boot);
    push_u32(out, parts.number);
    push_bytes(out, &[parts.down as u8]);
    push_vector(out, parts.origin);
    push_vector(out, parts.dir);
}

#[tactic(auto, unfolding(crate::specs::Fields::offer_codec))]
pub(crate) fn push_offer(out: &mut Packet2, offer: Offer)
    requires { length out.old.items ≤ 22 }
    ensures text { out.new.items ≡ out.old.items ++ offer_codec.write offer }
    ensures len { length out.new.items ≤ 80 }
    ensures fits { IsTrue (offer_codec.fits offer) }
{
    push_parts(out, OfferFields::of(offer));
}

#[tactic(auto, unfolding(crate::specs::Fields::seat_codec))]
fn push_seat(out: &mut Packet2, who: SeatNumber)
    requires { length out.old.items + 1 ≤ 288 }
    ensures text { out.new.items ≡ out.old.items ++ seat_codec.write who }
    ensures len { length out.new.items ≡ length out.old.items + 1 }
    ensures fits { IsTrue (seat_codec.fits who) }
{
    push_bytes(out, &[who.get()]);
}

#[tactic(auto, unfolding(crate::specs::Fields::ask_codec))]
pub(crate) fn push_ask(out: &mut Packet2, ask: Ask2)
    requires { length out.old.items ≤ 22 }
    ensures text { out.new.items ≡ out.old.items ++ ask_codec.write ask }
    ensures len { length out.new.items ≤ 31 }
    ensures fits { IsTrue (ask_codec.fits ask) }
{
    push_seat(out, ask.who);
    push_number(out, ask.next);
}

#[tactic(auto, unfolding(crate::specs::Fields::ack_codec, crate::specs::Fields::seat_codec))]
pub(crate) fn push_ack(out: &mut Packet2, ack: Ack)
    requires { length out.old.items ≤ 22 }
    ensures text { out.new.items ≡ out.old.items ++ ack_codec.write ack }
    ensures len { length out.new.items ≤ 31 }
    ensures fits { IsTrue (ack_codec.fits ack) }
{
    push_bytes(out, &[ack.who()]);
    push_u32(out, ack.boot());
    push_u32(out, ack.count());
}

#[tactic(auto, unfolding(crate::specs::Fields::piece_parts))]
fn push_head(out: &mut Packet2, head: PieceHead)
    requires { length out.old.items + 36 ≤ 288 }
    ensures text { out.new.items ≡ out.old.items ++ piece_parts.write head }
    ensures len { length out.new.items ≡ length out.old.items + 36 }
    ensures fits { IsTrue (piece_parts.fits head) }
{
    push_bytes(out, &head.chain);
    push_u32(out, head.boot);
    push_u64(out, head.applied);
    push_u32(out, head.size);
    push_u32(out, head.index);
}

#[tactic(auto, unfolding(crate::specs::Fields::piece_codec, crate::specs::Fields::piece_heads))]
pub(crate) fn push_piece(out: &mut Packet2, piece: &Piece2)
    requires { length out.old.items ≤ 22 }
    ensures text { out.new.items ≡ out.old.items ++ piece_codec.write piece.now }
    ensures len { length out.new.items ≤ 250 }
    ensures fits { IsTrue (piece_codec.fits piece.now) }
{
    push_head(out, piece.head());
    push_bytes(out, piece.bytes());
}

#[tactic(auto, unfolding(crate::specs::Fields::name_codec))]
fn push_name(out: &mut Packet2, name: &WorldName)
    requires { length out.old.items + 65 ≤ 288 }
    ensures text { out.new.items ≡ out.old.items ++ name_codec.write name.now }
    ensures len { length out.new.items ≡ length out.old.items + 65 }
    ensures fits { IsTrue (name_codec.fits name.now) }
{
    push_bytes(out, &[name.len()]);
    push_bytes(out, name.bytes());
}

#[tactic(auto, unfolding(crate::specs::Fields::hello_codec))]
pub(crate) fn push_hello(out: &mut Packet2, hello: &Hello)
    requires { length out.old.items ≤ 6 }
    ensures text { out.new.items ≡ out.old.items ++ hello_codec.write hello.now }
    ensures len { length out.new.items ≤ 128 }
    ensures fits { IsTrue (hello_codec.fits hello.now) }
{
    push_bytes(out, &hello.mark);
    push_seat(out, hello.who);
    push_bytes(out, &hello.cookie);
    push_bytes(out, &hello.nonce);
    push_name(out, &hello.name);
}

#[tactic(auto, unfolding(crate::specs::Fields::welcome_codec, crate::specs::Fields::count_codec))]
pub(crate) fn push_welcome(out: &mut Packet2, welcome: &Welcome)
    requires { length out.old.items ≤ 6 }
    ensures text { out.new.items ≡ out.old.items ++ welcome_codec.write welcome.now }
    ensures len { length out.new.items ≤ 84 }
    ensures fits { IsTrue (welcome_codec.fits welcome.now) }
{
    push_bytes(out, &welcome.mark);
    push_seat(out, welcome.who);
    push_bytes(out, &welcome.cookie);
    push_bytes(out, &welcome.nonce);
    push_bytes(out, &welcome.run);
    push_bytes(out, &[welcome.viewers.get()]);
    push_u32(out, welcome.kept);
}
