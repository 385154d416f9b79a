//! A Welcome with the cookie of an address.

ghost use Rattle.std.specs.Prelude.{◌≡◌, ◌≤◌, length};
ghost use Rattle.share_guards.specs.Passing as spec;

use crate::guard::Guard;
use share_cookies::Cookie;
use share_session::{Message2, Packet2, Welcome, encode};
use std::net::SocketAddr;

fn with_cookie(welcome: &Welcome, cookie: &Cookie) -> Welcome
    ensures { result ≡ spec.with_cookie welcome.now cookie.now }
{
    let mut made = *welcome;
    let cookie = *cookie;
    made.cookie = cookie;
    made
}

/// Returns a Welcome with the cookie of an address.
pub(crate) fn welcome_at(guard: &Guard, place: &Option<SocketAddr>, welcome: &Welcome) -> Welcome
    ensures { result ≡ spec.welcome_at guard.now place.now welcome.now }
{
    match place {
        Some(place) => with_cookie(welcome, &guard.cookie(place, welcome.who.get())),
        None => *welcome,
    }
}

/// Returns the datagram of a Welcome.
pub(crate) fn packet_of(welcome: &Welcome) -> Packet2
    ensures text { result.items ≡ spec.welcome_text welcome.now }
    ensures most { length result.items ≤ 250 }
{
    encode(&Message2::Welcome(*welcome))
}
