//! The body of each message at the front of bytes.

ghost use Rattle.std.specs.Prelude.{◌≡◌, IfSome, IsTrue, length};
ghost use Rattle.std.specs.Option.{option_map};
ghost use Rattle.share_session.specs.Ranges.{is_head};
ghost use Rattle.share_session.specs.Fields.{number_codec, seat_codec, input_codec, offer_parts, offer_codec, ask_codec, ack_codec, piece_heads, piece_codec, name_codec, hello_codec, count_codec, welcome_codec};

use crate::message::{Ask2, Hello, Input2, Welcome};
use crate::name::{WorldName, is_name};
use crate::numbers::{Number, SeatNumber, ViewerCount, is_number};
use crate::piece::{Piece2, PieceHead};
use byte_codec::{byte_of, chunk_of, flag_of, u32_of, u64_of};
use share_entries::{OfferFields, entry_of, is_viewer_count};
use share_wire::{Ack, Offer, is_viewer, piece_size, vector_of};

#[tactic(auto, unfolding(crate::specs::Fields::number_codec))]
pub(crate) fn number_of(bytes: &[u8]) -> Option<(Number, &[u8])>
    ensures { option_map (λ r. (r.0, r.1.now)) result ≡ number_codec.read bytes.now }
{
    let Some((number, rest)) = u64_of(bytes) else {
        return None;
    };
    if !is_number(number) {
        return None;
    }
    Some((Number::new(number), rest))
}

#[tactic(auto, unfolding(crate::specs::Fields::seat_codec))]
fn seat_of(bytes: &[u8]) -> Option<(SeatNumber, &[u8])>
    ensures { option_map (λ r. (r.0, r.1.now)) result ≡ seat_codec.read bytes.now }
{
    let Some((who, rest)) = byte_of(bytes) else {
        return None;
    };
    if !is_viewer(who) {
        return None;
    }
    Some((SeatNumber::new(who), rest))
}

/// Copies 8 bytes: a cookie.
fn eight(bytes: &[u8]) -> [u8; 8]
    requires { length bytes.now ≡ 8 }
    ensures { result ≡ bytes.now }
{
    let mut made = [0; 8];
    made.copy_from_slice(bytes);
    made
}

/// Copies 16 bytes: a session, a run, a chain or a nonce.
pub(crate) fn sixteen(bytes: &[u8]) -> [u8; 16]
    requires { length bytes.now ≡ 16 }
    ensures { result ≡ bytes.now }
{
    let mut made = [0; 16];
    made.copy_from_slice(bytes);
    made
}

/// Copies 32 bytes: a mark.
fn mark_in(bytes: &[u8]) -> [u8; 32]
    requires { length bytes.now ≡ 32 }
    ensures { result ≡ bytes.now }
{
    let mut made = [0; 32];
    made.copy_from_slice(bytes);
    made
}

#[tactic(auto, unfolding(crate::specs::Fields::input_codec))]
pub(crate) fn input_of(bytes: &[u8]) -> Option<(Input2, &[u8])>
    ensures { option_map (λ r. (r.0, r.1.now)) result ≡ input_codec.read bytes.now }
{
    let Some((chain_bytes, rest)) = chunk_of(bytes, 16) else {
        return None;
    };
    let Some((number, rest)) = number_of(rest) else {
        return None;
    };
    let Some((entry, rest)) = entry_of(rest) else {
        return None;
    };
    let chain = sixteen(chain_bytes);
    let input = Input2 {
        chain,
        number,
        entry,
    };
    Some((input, rest))
}

#[tactic(auto, unfolding(crate::specs::Fields::offer_parts))]
fn parts_of(bytes: &[u8]) -> Option<(OfferFields, &[u8])>
    ensures { option_map (λ r. (r.0, r.1.now)) result ≡ offer_parts.read bytes.now }
{
    let Some((who, rest)) = byte_of(bytes) else {
        return None;
    };
    let Some((boot, rest)) = u32_of(rest) else {
        return None;
    };
    let Some((number, rest)) = u32_of(rest) else {
        return None;
    };
    let Some((down, rest)) = flag_of(rest) else {
        return None;
    };
    let Some((origin, rest)) = vector_of(rest) else {
        return None;
    };
    let Some((dir, rest)) = vector_of(rest) else {
        return None;
    };
    let parts = OfferFields {
        who,
        boot,
        number,
        down,
        origin,
        dir,
    };
    Some((parts, rest))
}

#[tactic(auto, unfolding(crate::specs::Fields::offer_codec))]
pub(crate) fn offer_of(bytes: &[u8]) -> Option<(Offer, &[u8])>
    ensures { option_map (λ r. (r.0, r.1.now)) result ≡ offer_codec.read bytes.now }
{
    let Some((parts, rest)) = parts_of(bytes) else {
        return None;
    };
    if !parts.fit() {
        return None;
    }
    Some((parts.offer(), rest))
}

#[tactic(auto, unfolding(crate::specs::Fields::ask_codec))]
pub(crate) fn ask_of(bytes: &[u8]) -> Option<(Ask2, &[u8])>
    ensures { option_map (λ r. (r.0, r.1.now)) result ≡ ask_codec.read bytes.now }
{
    let Some((who, rest)) = seat_of(bytes) else {
        return None;
    };
    let Some((next, rest)) = number_of(rest) else {
        return None;
    };
    Some((Ask2 { who, next }, rest))
}

#[tactic(auto, unfolding(crate::specs::Fields::ack_codec))]
pub(crate) fn ack_of(bytes: &[u8]) -> Option<(Ack, &[u8])>
    ensures { option_map (λ r. (r.0, r.1.now)) result ≡ ack_codec.read bytes.now }
{
    let Some((who, rest)) = seat_of(bytes) else {
        return None;
    };
    let Some((boot, rest)) = u32_of(rest) else {
        return None;
    };
    let Some((count, rest)) = u32_of(rest) else {
        return None;
    };
    Some((Ack::new(who.get(), boot, count), rest))
}

#[tactic(auto, unfolding(crate::specs::Fields::piece_heads, crate::specs::Fields::piece_parts))]
fn head_of(bytes: &[u8]) -> Option<(PieceHead, &[u8])>
    ensures value { option_map (λ r. (r.0, r.1.now)) result ≡ piece_heads.read bytes.now }
    ensures fits { IfSome result (λ r. IsTrue (is_head r.0)) }
{
    let Some((chain_bytes, rest)) = chunk_of(bytes, 16) else {
        return None;
    };
    let Some((boot, rest)) = u32_of(rest) else {
        return None;
    };
    let Some((applied, rest)) = u64_of(rest) else {
        return None;
    };
    let Some((size, rest)) = u32_of(rest) else {
        return None;
    };
    let Some((index, rest)) = u32_of(rest) else {
        return None;
    };
    let chain = sixteen(chain_bytes);
    let head = PieceHead {
        chain,
        boot,
        applied,
        size,
        index,
    };
    if head.fits() {
        Some((head, rest))
    } else {
        None
    }
}

#[tactic(auto, unfolding(crate::specs::Fields::piece_codec))]
pub(crate) fn piece_of(bytes: &[u8]) -> Option<(Piece2, &[u8])>
    ensures { option_map (λ r. (r.0, r.1.now)) result ≡ piece_codec.read bytes.now }
{
    let Some((head, rest)) = head_of(bytes) else {
        return None;
    };
    let len = piece_size(head.size, head.index) as usize;
    let Some((front, rest)) = chunk_of(rest, len) else {
        return None;
    };
    Some((Piece2::new(head, front), rest))
}

#[tactic(auto, unfolding(crate::specs::Fields::name_codec))]
fn name_of(bytes: &[u8]) -> Option<(WorldName, &[u8])>
    ensures { option_map (λ r. (r.0, r.1.now)) result ≡ name_codec.read bytes.now }
{
    let Some((len, rest)) = byte_of(bytes) else {
        return None;
    };
    let Some((front, rest)) = chunk_of(rest, 64) else {
        return None;
    };
    let mut made = [0; 64];
    made.copy_from_slice(front);
    if !is_name(len, &made) {
        return None;
    }
    Some((WorldName::of(len, made), rest))
}

#[tactic(auto, unfolding(crate::specs::Fields::hello_codec))]
pub(crate) fn hello_of(bytes: &[u8]) -> Option<(Hello, &[u8])>
    ensures { option_map (λ r. (r.0, r.1.now)) result ≡ hello_codec.read bytes.now }
{
    let Some((mark_bytes, rest)) = chunk_of(bytes, 32) else {
        return None;
    };
    let Some((who, rest)) = seat_of(rest) else {
        return None;
    };
    let Some((cookie_bytes, rest)) = chunk_of(rest, 8) else {
        return None;
    };
    let Some((nonce_bytes, rest)) = chunk_of(rest, 16) else {
        return None;
    };
    let Some((name, rest)) = name_of(rest) else {
        return None;
    };
    let mark = mark_in(mark_bytes);
    let cookie = eight(cookie_bytes);
    let nonce = sixteen(nonce_bytes);
    let hello = Hello {
        mark,
        who,
        cookie,
        nonce,
        name,
    };
    Some((hello, rest))
}

#[tactic(auto, unfolding(crate::specs::Fields::count_codec))]
fn count_of(bytes: &[u8]) -> Option<(ViewerCount, &[u8])>
    ensures { option_map (λ r. (r.0, r.1.now)) result ≡ count_codec.read bytes.now }
{
    let Some((count, rest)) = byte_of(bytes) else {
        return None;
    };
    if !is_viewer_count(count) {
        return None;
    }
    Some((ViewerCount::new(count), rest))
}

#[tactic(auto, unfolding(crate::specs::Fields::welcome_codec))]
pub(crate) fn welcome_of(bytes: &[u8]) -> Option<(Welcome, &[u8])>
    ensures { option_map (λ r. (r.0, r.1.now)) result ≡ welcome_codec.read bytes.now }
{
    let Some((mark_bytes, rest)) = chunk_of(bytes, 32) else {
        return None;
    };
    let Some((who, rest)) = seat_of(rest) else {
        return None;
    };
    let Some((cookie_bytes, rest)) = chunk_of(rest, 8) else {
        return None;
    };
    let Some((nonce_bytes, rest)) = chunk_of(rest, 16) else {
        return None;
    };
    let Some((run_bytes, rest)) = chunk_of(rest, 16) else {
        return None;
    };
    let Some((viewers, rest)) = count_of(rest) else {
        return None;
    };
    let Some((kept, rest)) = u32_of(rest) else {
        return None;
    };
    let mark = mark_in(mark_bytes);
    let cookie = eight(cookie_bytes);
    let nonce = sixteen(nonce_bytes);
    let run = sixteen(run_bytes);
    let welcome = Welcome {
        mark,
        who,
        cookie,
        nonce,
        run,
        viewers,
        kept,
    };
    Some((welcome, rest))
}
