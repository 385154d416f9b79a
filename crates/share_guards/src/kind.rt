//! What a datagram is to a guard.

ghost use Rattle.std.specs.Prelude.{◌≡◌, None, Some};
ghost use Rattle.share_guards.specs.Kinds as spec;
ghost use Rattle.share_session.specs.Decoding.{decoded};

use share_session::{Body2, Hello, Message2, Welcome, decode};

/// What a datagram to a host is.
#[derive(Clone, Copy)]
pub enum Kind {
    /// A Hello of a viewer, with this cookie.
    Greets(u8, [u8; 8]),
    /// An ask of a viewer.
    Asks(u8),
    /// An offer of a viewer.
    Offers(u8),
    /// Anything else.
    Strange,
}

fn greeting(hello: &Hello) -> Kind
    ensures { result ≡ spec.greeting hello.now }
{
    let cookie = hello.cookie;
    Kind::Greets(hello.who.get(), cookie)
}

fn kind_of_body(body: &Body2) -> Kind
    ensures { result ≡ spec.kind_of_body body.now }
{
    match body {
        Body2::Input(_) => Kind::Strange,
        Body2::Offer(offer) => Kind::Offers(offer.pointer().who()),
        Body2::Ask(ask) => Kind::Asks(ask.who.get()),
        Body2::Ack(_) => Kind::Strange,
        Body2::Floor(_) => Kind::Strange,
        Body2::Piece(_) => Kind::Strange,
    }
}

fn kind_of_message(message: &Message2) -> Kind
    ensures { result ≡ spec.kind_of_message message.now }
{
    match message {
        Message2::Said(_, body) => kind_of_body(body),
        Message2::Hello(hello) => greeting(hello),
        Message2::Welcome(_) => Kind::Strange,
    }
}

/// Returns what a datagram to a host is.
pub fn kind_of(bytes: &[u8]) -> Kind
    ensures { result ≡ spec.kind_in (decoded bytes.now) }
{
    match decode(bytes) {
        Ok(message) => kind_of_message(&message),
        Err(_) => Kind::Strange,
    }
}

/// Returns the Welcome of a datagram from a host, if it is one.
pub(crate) fn welcome_of(bytes: &[u8]) -> Option<Welcome>
    ensures { result ≡ spec.welcome_in (decoded bytes.now) }
{
    match decode(bytes) {
        Ok(Message2::Welcome(welcome)) => Some(welcome),
        _ => None,
    }
}
