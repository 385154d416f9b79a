//! Which world a datagram is for.

ghost use Rattle.std.specs.Prelude.{◌≡◌, ◌&&◌, length, nat_le};
ghost use Rattle.std.specs.Option.{option_map};
ghost use Rattle.share_session.specs.Decoding.{decoded};
ghost use Rattle.share_session.specs.Fields.{head_codec};
ghost use Rattle.byte_codec.specs.Codec.{fixed};
ghost use Rattle.share_worlds.specs.Wanted as spec;

use byte_codec::{byte_of, chunk_of};
use share_session::{DatagramFault, Message2, WorldName, decode};

/// How many bytes a Hello has without a seal.
const HELLO: usize = 128;

/// Which world a datagram is for.
#[derive(Clone, Copy)]
pub enum For {
    /// The world of this session.
    Session([u8; 16]),
    /// The world of this name.
    Name(WorldName),
    /// No world: it isn't of version 2, or it is from a host.
    Nothing,
}

/// Copies 16 bytes.
fn sixteen(bytes: &[u8]) -> [u8; 16]
    requires { length bytes.now ≡ 16 }
    ensures { result ≡ bytes.now }
{
    let mut made = [0; 16];
    made.copy_from_slice(bytes);
    made
}

/// Returns the world of the session at the front of what follows the tag.
fn by_session(rest: &[u8]) -> For
    ensures { result ≡ spec.session_in ((fixed 16).read rest.now) }
{
    let Some((front, _)) = chunk_of(rest, 16) else {
        return For::Nothing;
    };
    For::Session(sixteen(front))
}

fn named_by(message: &Message2) -> For
    ensures { result ≡ spec.named_by message.now }
{
    match message {
        Message2::Said(_, _) => For::Nothing,
        Message2::Hello(hello) => For::Name(hello.name),
        Message2::Welcome(_) => For::Nothing,
    }
}

fn named(read: &Result<Message2, DatagramFault>) -> For
    ensures { result ≡ spec.named read.now }
{
    match read {
        Ok(message) => named_by(message),
        Err(_) => For::Nothing,
    }
}

/// Returns the world that a Hello names, which a seal may follow.
fn by_name(bytes: &[u8]) -> For
    ensures { result ≡ spec.name_in ((fixed spec.hello_size).read bytes.now) }
{
    let Some((front, _)) = chunk_of(bytes, HELLO) else {
        return For::Nothing;
    };
    named(&decode(front))
}

fn is_of_session(tag: u8) -> bool
    ensures { result ≡ (nat_le 1 tag && nat_le tag 6) }
{
    tag >= 1 && tag <= 6
}

fn by_tag(tag: u8, rest: &[u8], bytes: &[u8]) -> For
    ensures { result ≡ spec.by_tag tag rest.now bytes.now }
{
    if is_of_session(tag) {
        return by_session(rest);
    }
    match tag {
        7 => by_name(bytes),
        _ => For::Nothing,
    }
}

/// Reads the magic bytes, the version and the tag.
#[tactic(auto, unfolding(share_session::specs::Fields::head_codec))]
fn head_of(bytes: &[u8]) -> Option<((&[u8], (u8, u8)), &[u8])>
    ensures { option_map (λ r. ((r.0.0.now, r.0.1), r.1.now)) result ≡ head_codec.read bytes.now }
{
    let Some((magic, rest)) = chunk_of(bytes, 4) else {
        return None;
    };
    let Some((version, rest)) = byte_of(rest) else {
        return None;
    };
    let Some((tag, rest)) = byte_of(rest) else {
        return None;
    };
    Some(((magic, (version, tag)), rest))
}

/// Returns which world the bytes of a datagram are for, with a seal or without.
#[tactic(auto, unfolding(crate::specs::Wanted::world_of))]
pub fn world_of(bytes: &[u8]) -> For
    ensures { result ≡ spec.world_of bytes.now }
{
    let Some(((magic, (version, tag)), rest)) = head_of(bytes) else {
        return For::Nothing;
    };
    if magic != b"X3DS".as_slice() {
        return For::Nothing;
    }
    if version != 2 {
        return For::Nothing;
    }
    by_tag(tag, rest, bytes)
}
