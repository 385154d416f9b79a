//! Seals of datagrams by a key that a viewer shares with the host.

ghost use Rattle.std.specs.Prelude.{◌≡◌, ◌+◌, ◌≤◌, ℕ, true, List, Some, IfSome, length, take};
ghost use Rattle.std.specs.Option.{option_map};
ghost use Rattle.share_keys.specs.Seal as spec;

use crate::mac::hmac;

/// A key that the host and one viewer share.
#[derive(Clone, Copy)]
pub struct Key {
    pub bytes: [u8; 32],
}

/// Which way a datagram goes. A datagram that is sent back to its sender has a wrong seal.
#[derive(Clone, Copy)]
pub enum Direction {
    FromHost,
    ToHost,
}

/// The last 16 bytes of a sealed datagram.
pub type Seal = [u8; 16];

pub(crate) const SEAL: usize = 16;

fn direction_byte(direction: Direction) -> u8
    ensures { result ≡ spec.direction_byte direction }
{
    match direction {
        Direction::FromHost => 0,
        Direction::ToHost => 1,
    }
}

fn front_of(digest: &[u8; 32]) -> Seal
    ensures { result ≡ take 16 digest.now }
{
    let mut front = [0; SEAL];
    front.copy_from_slice(&digest[..SEAL]);
    front
}

/// Returns the seal of a datagram: the first 16 bytes of the HMAC-SHA256, by the key, of a byte for
/// the direction and the datagram.
pub fn seal(key: &Key, direction: Direction, datagram: &[u8]) -> Seal
    ensures { result ≡ spec.seal_of key.now.bytes direction datagram.now }
{
    let direction = [direction_byte(direction)];
    front_of(&hmac(key.bytes.as_slice(), direction.as_slice(), datagram))
}

/// Puts a datagram and its seal to the front of `out`, and returns their number of bytes.
pub fn sealed(key: &Key, direction: Direction, datagram: &[u8], out: &mut [u8]) -> usize
    requires { length datagram.now + 16 ≤ length out.old }
    ensures count { result ≡ length datagram.now + 16 }
    ensures front { spec.IsSealed key.now.bytes direction datagram.now (take result out.new) }
    ensures len { length out.new ≡ length out.old }
{
    let count = datagram.len();
    out[..count].copy_from_slice(datagram);
    out[count..count + SEAL].copy_from_slice(&seal(key, direction, datagram));
    count + SEAL
}

/// Reports whether two seals are equal. Looks at each byte, wherever they differ.
fn is_same(one: &Seal, other: &Seal) -> bool
    ensures same { result ≡ true → one.now ≡ other.now }
    ensures other { one.now ≡ other.now → result ≡ true }
{
    let mut differences = 0;
    for place in 0..SEAL {
        differences += (one[place] != other[place]) as u8;
    }
    differences == 0
}

/// Returns the datagram of which these bytes are the sealed form, or `None` if there is none: the
/// seal is wrong, or there are fewer than 16 bytes.
pub fn unsealed<'a>(key: &Key, direction: Direction, bytes: &'a [u8]) -> Option<&'a [u8]>
    ensures found { IfSome result
        (λ datagram. spec.IsSealed key.now.bytes direction datagram.now bytes.now) }
    ensures only { (datagram : List ℕ) → spec.IsSealed key.now.bytes direction datagram bytes.now
        → option_map (λ found. found.now) result ≡ Some datagram }
    // The exact result.
    ensures exact { option_map (λ found. found.now) result
        ≡ spec.unsealed_in key.now.bytes direction bytes.now }
{
    if bytes.len() < SEAL {
        return None;
    }
    let (datagram, last) = bytes.split_at(bytes.len() - SEAL);
    let mut given = [0; SEAL];
    given.copy_from_slice(last);
    if is_same(&given, &seal(key, direction, datagram)) {
        Some(datagram)
    } else {
        None
    }
}
