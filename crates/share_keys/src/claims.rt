//! The viewer that a datagram to the host says it is of, and whether that viewer sealed it.

ghost use Rattle.std.specs.Prelude.{◌≡◌, ℕ, List, Some, IfSome, slice_get};
ghost use Rattle.std.specs.Option.{option_map};
ghost use Rattle.share_keys.specs.Seal.{front_of};
ghost use Rattle.share_keys.specs.Claims as spec;

use crate::sealing::{Direction, SEAL, unsealed};
use crate::table::{Keys, SEATS};
use byte_codec::{byte_of, chunk_of};

/// The magic bytes and the version.
const HEAD: &[u8] = b"X3DS\x02";

/// Returns how many bytes after the tag the viewer's number stands.
fn place_of(tag: u8) -> Option<usize>
    ensures { result ≡ spec.place_of tag }
{
    match tag {
        2 => Some(16),
        3 => Some(16),
        7 => Some(32),
        _ => None,
    }
}

fn seat_of(who: u8) -> Option<u8>
    ensures { result ≡ spec.seat_of who }
{
    if (who as usize) < SEATS {
        Some(who)
    } else {
        None
    }
}

fn byte_at(bytes: &[u8], place: usize) -> Option<u8>
    ensures { result ≡ slice_get bytes.now place }
{
    bytes.get(place).copied()
}

fn seat_at(bytes: &[u8], place: usize) -> Option<u8>
    ensures { result ≡ spec.seat_at bytes.now place }
{
    seat_of(byte_at(bytes, place)?)
}

fn claimed_after(tag: u8, rest: &[u8]) -> Option<u8>
    ensures { result ≡ spec.claimed_after tag rest.now }
{
    seat_at(rest, place_of(tag)?)
}

fn claimed_behind(rest: &[u8]) -> Option<u8>
    ensures { result ≡ spec.claimed_behind rest.now }
{
    let Some((tag, rest)) = byte_of(rest) else {
        return None;
    };
    claimed_after(tag, rest)
}

fn is_head(front: &[u8]) -> bool
    ensures { result ≡ spec.is_head front.now }
{
    front == HEAD
}

/// Returns the viewer that a datagram to the host says it is of: a Hello, an offer or an ask of
/// version 2. `None` for any other bytes, or if there is no such viewer. A datagram need not be
/// whole, and its other fields are not looked at.
pub fn claimed(datagram: &[u8]) -> Option<u8>
    ensures { result ≡ spec.claimed datagram.now }
{
    let Some((front, rest)) = chunk_of(datagram, HEAD.len()) else {
        return None;
    };
    if is_head(front) {
        claimed_behind(rest)
    } else {
        None
    }
}

/// Returns the bytes before the last 16.
fn front_of(bytes: &[u8]) -> &[u8]
    ensures { result.now ≡ front_of bytes.now }
{
    &bytes[..bytes.len().saturating_sub(SEAL)]
}

/// Returns the viewer and the datagram to the host of which these bytes are the sealed form: the
/// datagram says that it is of that viewer, and the seal is by that viewer's key. `None` if these
/// bytes are not the sealed form of such a datagram.
pub fn opened<'a>(keys: &Keys, bytes: &'a [u8]) -> Option<(u8, &'a [u8])>
    ensures found { IfSome result (λ o. spec.IsOpened keys.now o.0 o.1.now bytes.now) }
    ensures only { (who : ℕ) → (datagram : List ℕ) → spec.IsOpened keys.now who datagram bytes.now
        → option_map {U = ℕ × List ℕ} (λ o. (o.0, o.1.now)) result ≡ Some (who, datagram) }
    // The exact result.
    ensures exact { option_map {U = ℕ × List ℕ} (λ o. (o.0, o.1.now)) result
        ≡ spec.opened_in keys.now bytes.now }
{
    let Some(who) = claimed(front_of(bytes)) else {
        return None;
    };
    let Some(key) = keys.get(who) else {
        return None;
    };
    let Some(datagram) = unsealed(&key, Direction::ToHost, bytes) else {
        return None;
    };
    Some((who, datagram))
}
