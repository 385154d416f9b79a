//! Which addresses a host answers, and which datagrams it takes.

ghost use Rattle.std.specs.Prelude.{◌≡◌};
ghost use Rattle.share_guards.specs.Guard as spec;

use crate::kind::Kind;
use crate::known::{Known, is_same};
use crate::seats::Seats;
use share_cookies::{Cookie, Secret, Secrets};
use share_keys::hmac;
use std::alloc::{AllocError, Global};
use std::net::{IpAddr, SocketAddr};

/// An address that isn't known, whose last Hello isn't answered yet.
#[derive(Clone, Copy)]
pub struct Asked {
    place: SocketAddr,
    /// How many bytes the Hello had.
    room: usize,
}

/// Which addresses are known, since a Hello brought back their cookie, and how much was taken of
/// each seat.
#[derive(Drop)]
pub struct Guard {
    secrets: Secrets,
    /// What further secrets are made of.
    seed: Secret,
    known: Known,
    asked: Option<Asked>,
    seats: Seats,
    /// Up to 2^64 - 1.
    dropped: u64,
}

/// Returns the cookie of a viewer at an address.
fn cookie_at(secrets: &Secrets, place: &SocketAddr, who: u8) -> Cookie
    ensures { result ≡ spec.cookie_at secrets.now place.now who }
{
    match place.ip() {
        IpAddr::V4(ip) => secrets.cookie(&ip.octets(), place.port(), who),
        IpAddr::V6(ip) => secrets.cookie(&ip.octets(), place.port(), who),
    }
}

/// Reports whether a cookie is that of a viewer at an address.
fn is_known_cookie(secrets: &Secrets, cookie: &Cookie, place: &SocketAddr, who: u8) -> bool
    ensures { result ≡ spec.is_known_cookie secrets.now cookie.now place.now who }
{
    match place.ip() {
        IpAddr::V4(ip) => secrets.is_known(cookie, &ip.octets(), place.port(), who),
        IpAddr::V6(ip) => secrets.is_known(cookie, &ip.octets(), place.port(), who),
    }
}

/// Reports whether a Hello is asked of an address, which may be answered with this many bytes.
fn has_room(asked: &Option<Asked>, place: &SocketAddr, count: usize) -> bool
    ensures { result ≡ spec.has_room asked.now place.now count }
{
    match asked {
        Some(asked) => is_same(&asked.place, place) && count <= asked.room,
        None => false,
    }
}

/// Returns the secret that follows another.
fn secret_after(seed: &Secret) -> Secret
    ensures { result ≡ spec.secret_after seed.now }
{
    hmac(seed.as_slice(), b"secret", b"")
}

/// Returns the seed that follows another. A secret doesn't tell it.
fn seed_after(seed: &Secret) -> Secret
    ensures { result ≡ spec.seed_after seed.now }
{
    hmac(seed.as_slice(), b"seed", b"")
}

impl Guard {
    ghost use Rattle.std.specs.Prelude.{◌≡◌, ℕ, IfOk, None, Some, false, length};
    ghost use Rattle.share_cookies.specs.Secrets.{begun};
    ghost use Rattle.share_guards.specs.Guard as spec;
    ghost use Rattle.share_guards.specs.Places.{known_at, knows};
    ghost use Rattle.share_guards.specs.Seats.{no_seats};

    /// Returns the guard of a host that knows no address. Only peers whose numbers are below
    /// `peers` become known. The secret and the seed are drawn at random. Fails if memory is
    /// refused.
    pub fn new(
        alloc: Global,
        peers: usize,
        secret: Secret,
        seed: Secret,
    ) -> Result<Guard, AllocError>
        ensures unknown { IfOk result (λ g. (peer : ℕ) → known_at g.known peer ≡ None) }
        ensures peers { IfOk result (λ g. length g.known ≡ peers) }
        ensures asked { IfOk result (λ g. g.asked ≡ None) }
        ensures secrets { IfOk result (λ g. g.secrets ≡ begun secret) }
        ensures seed { IfOk result (λ g. g.seed ≡ seed) }
        ensures seats { IfOk result (λ g. g.seats ≡ no_seats) }
        ensures dropped { IfOk result (λ g. g.dropped ≡ 0) }
    {
        let known = Known::none(alloc, peers)?;
        Ok(Guard {
            secrets: Secrets::new(secret),
            seed,
            known,
            asked: None,
            seats: Seats::new(),
            dropped: 0,
        })
    }

    /// Returns how many datagrams were dropped, up to 2^64 - 1.
    pub fn dropped(&self) -> u64
        ensures { result ≡ self.now.dropped }
    {
        self.dropped
    }

    /// Returns the cookie of a viewer at an address.
    pub fn cookie(&self, place: &SocketAddr, who: u8) -> Cookie
        ensures { result ≡ spec.cookie_at self.now.secrets place.now who }
    {
        cookie_at(&self.secrets, place, who)
    }

    /// Forgets the last Hello: it is answered, or needn't be counted.
    fn forget(&mut self)
        ensures { self.new ≡ record self.old { asked = None } }
    {
        self.asked = None;
    }

    /// Takes a Hello of a peer at an address.
    fn greet(&mut self, peer: u16, place: &SocketAddr, who: u8, cookie: &Cookie, count: usize)
        ensures { self.new ≡ spec.greeted self.old peer place.now who cookie.now count }
    {
        if is_known_cookie(&self.secrets, cookie, place, who) {
            self.known.note(peer, place);
            self.forget();
            return;
        }
        if self.known.knows(peer, place) {
            return;
        }
        self.asked = Some(Asked {
            place: *place,
            room: count,
        });
    }

    fn drop_one(&mut self) -> bool
        ensures value { result ≡ false }
        ensures new { self.new ≡ spec.dropping self.old }
    {
        self.dropped = self.dropped.saturating_add(1);
        false
    }

    /// Takes a datagram of a seat that came from a peer at an address. Returns whether it is handed
    /// on.
    fn take(&mut self, peer: u16, place: &SocketAddr, who: u8, is_offer: bool) -> bool
        ensures value { result ≡ spec.takes self.old peer place.now who is_offer }
        ensures new { self.new ≡ spec.after_take self.old peer place.now who is_offer }
    {
        if !self.known.knows(peer, place) {
            return self.drop_one();
        }
        if self.seats.take(who, is_offer) {
            return true;
        }
        self.drop_one()
    }

    /// Takes a datagram of this kind, of `count` bytes, that came from a peer, which has this
    /// address now. Returns whether it is handed on.
    pub fn came(&mut self, peer: u16, place: &Option<SocketAddr>, kind: &Kind, count: usize) -> bool
        ensures value { result ≡ spec.hands_on self.old peer place.now kind.now }
        ensures new { self.new ≡ spec.after_came self.old peer place.now kind.now count }
    {
        let Some(place) = place else {
            return self.drop_one();
        };
        match kind {
            Kind::Greets(who, cookie) => {
                self.greet(peer, place, *who, cookie, count);
                true
            }
            Kind::Asks(who) => self.take(peer, place, *who, false),
            Kind::Offers(who) => self.take(peer, place, *who, true),
            Kind::Strange => self.drop_one(),
        }
    }

    /// Asks whether a datagram of `count` bytes may be sent to a peer, which has this address now.
    pub fn allows(
        &mut self,
        to: u16,
        place: &Option<SocketAddr>,
        is_welcome: bool,
        count: usize,
    ) -> bool
        ensures value { result ≡ spec.allows self.old to place.now is_welcome count }
        ensures new { self.new ≡ spec.after_sending self.old to place.now is_welcome count }
    {
        let Some(place) = place else {
            return false;
        };
        if self.known.knows(to, place) {
            return true;
        }
        if is_welcome && has_room(&self.asked, place, count) {
            self.forget();
            return true;
        }
        false
    }

    /// Lets milliseconds pass for the secrets. One more is made only if it is due.
    fn pass_secrets(&mut self, millis: u64)
        ensures { self.new ≡ record self.old {
          secrets = spec.secrets_passed self.old millis;
          seed = spec.seed_passed self.old millis;
        } }
    {
        if !self.secrets.is_due(millis) {
            self.secrets.pass_early(millis);
            return;
        }
        self.secrets.pass(millis, secret_after(&self.seed));
        self.seed = seed_after(&self.seed);
    }

    /// Ends a turn, after these milliseconds.
    pub fn pass(&mut self, millis: u64)
        ensures { self.new ≡ spec.passed self.old millis }
    {
        self.pass_secrets(millis);
        self.seats.pass(millis);
    }
}
