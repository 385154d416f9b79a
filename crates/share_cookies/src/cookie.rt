//! The cookie of a place.

ghost use Rattle.std.specs.Prelude.{◌≡◌, take, true};
ghost use Rattle.share_cookies.specs.Cookies as spec;

use share_keys::hmac;

/// What stands for an address, a port and a viewer by a secret.
pub type Cookie = [u8; COOKIE];

/// What cookies are made by; drawn at random.
pub type Secret = [u8; 32];

const COOKIE: usize = 8;

fn front_of(digest: &[u8; 32]) -> Cookie
    ensures { result ≡ take 8 digest.now }
{
    let mut front = [0; COOKIE];
    front.copy_from_slice(&digest[..COOKIE]);
    front
}

/// Returns the cookie of a place by a secret: the first 8 bytes of the HMAC-SHA256 of the address,
/// the port, highest byte first, and the viewer's number.
pub(crate) fn cookie_of(secret: &Secret, address: &[u8], port: u16, who: u8) -> Cookie
    ensures { result ≡ spec.cookie_of secret.now address.now port who }
{
    let place = [(port / 256) as u8, (port % 256) as u8, who];
    front_of(&hmac(secret.as_slice(), address, place.as_slice()))
}

/// Reports whether two cookies are equal. Looks at each byte, wherever they differ.
pub(crate) fn is_same(one: &Cookie, other: &Cookie) -> bool
    ensures same { result ≡ true → one.now ≡ other.now }
    ensures other { one.now ≡ other.now → result ≡ true }
{
    let mut differences = 0;
    for place in 0..COOKIE {
        differences += (one[place] != other[place]) as u8;
    }
    differences == 0
}
