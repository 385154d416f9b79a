//! What a world hears of a message of version 2.

ghost use Rattle.std.specs.Prelude.{◌≡◌, None, Some, IfSome, IsTrue, if◌then◌else◌};
ghost use Rattle.x3d_values.specs.Ranges.{is_input_number};
ghost use Rattle.share_wire.specs.Messages.{is_next_number};
ghost use Rattle.share_session.specs.declared.message.Body2.TheVariants as body2;
ghost use Rattle.share_session.specs.Heard as spec;

use crate::message::{Ask2, Body2, Input2, Message2};
use crate::numbers::{Number, SeatNumber};
use crate::piece::Piece2;
use crate::run::Session;
use share_entries::Source;
use share_wire::{Ask, Body, Floor, Message, Piece};
use x3d_values::{Cause, MAX_INPUTS, Stamped};

fn cause_of(source: Source) -> Cause
    ensures { result ≡ spec.cause_of source }
{
    match source {
        Source::Clock => Cause::Clock,
        Source::Offer(offer) => Cause::Pointer(offer.pointer()),
    }
}

/// Returns the number, if an input of a world may have it.
fn input_number(number: Number) -> Option<u64>
    ensures { result ≡ (if is_input_number number then Some number else None) }
{
    let number = number.get();
    if number > MAX_INPUTS {
        return None;
    }
    Some(number)
}

/// Returns the number, if a viewer of a world may ask from it.
fn next_number(number: Number) -> Option<u64>
    ensures { result ≡ (if is_next_number number then Some number else None) }
{
    let number = number.get();
    if number > MAX_INPUTS + 1 {
        return None;
    }
    Some(number)
}

fn input_of(input: &Input2) -> Option<Body>
    ensures { result ≡ spec.as_body (body2.Input input.now) }
{
    let Some(number) = input_number(input.number) else {
        return None;
    };
    let cause = cause_of(input.entry.source());
    Some(Body::Input(Stamped::new(number, input.entry.time(), cause)))
}

fn ask_of(ask: &Ask2) -> Option<Body>
    ensures { result ≡ spec.as_body (body2.Ask ask.now) }
{
    let Some(next) = next_number(ask.next) else {
        return None;
    };
    Some(Body::Ask(Ask::new(ask.who.get(), next)))
}

fn floor_of(number: Number) -> Option<Body>
    ensures { result ≡ spec.as_body (body2.Floor number) }
{
    let Some(number) = next_number(number) else {
        return None;
    };
    Some(Body::Floor(Floor::new(number)))
}

fn piece_of(piece: &Piece2) -> Option<Body>
    ensures { result ≡ spec.as_body (body2.Piece piece.now) }
{
    let head = piece.head();
    if head.applied > MAX_INPUTS {
        return None;
    }
    let made = Piece::new(
        head.boot,
        head.applied,
        head.size,
        head.index,
        piece.bytes(),
    );
    Some(Body::Piece(made))
}

/// Makes the number of an input of a world, or of the one after the last.
fn number_of(next: u64) -> Number
    requires { IsTrue (is_next_number next) }
    ensures { result ≡ next }
{
    Number::new(next)
}

/// Returns the body of version 2 of an offer, an ask, an ack or a floor. `None` for an input and a
/// piece, which need a chain.
pub fn lifted(body: &Body) -> Option<Body2>
    ensures value { result ≡ spec.lifted body.now }
    // It is heard as the body that it was.
    ensures again { IfSome result (λ made. spec.as_body made ≡ Some body.now) }
{
    match body {
        Body::Offer(offer) => Some(Body2::Offer(*offer)),
        Body::Ask(ask) => Some(Body2::Ask(Ask2 {
            who: SeatNumber::new(ask.who()),
            next: number_of(ask.next()),
        })),
        Body::Ack(ack) => Some(Body2::Ack(*ack)),
        Body::Floor(floor) => Some(Body2::Floor(number_of(floor.number()))),
        Body::Input(_) | Body::Piece(_) => None,
    }
}

impl Body2 {
    /// Returns the body as in version 1, or `None` if a number is beyond a world's limits.
    pub fn as_body(&self) -> Option<Body>
        ensures { result ≡ spec.as_body self.now }
    {
        match self {
            Body2::Input(input) => input_of(input),
            Body2::Offer(offer) => Some(Body::Offer(*offer)),
            Body2::Ask(ask) => ask_of(ask),
            Body2::Ack(ack) => Some(Body::Ack(*ack)),
            Body2::Floor(number) => floor_of(*number),
            Body2::Piece(piece) => piece_of(piece),
        }
    }
}

impl Message2 {
    /// Returns the message as in version 1, in the scene with this mark. `None` for a Hello, a
    /// Welcome, and a body with a number beyond a world's limits.
    pub fn as_message(&self, mark: &[u8; 32]) -> Option<Message>
        ensures { result ≡ spec.as_message mark.now self.now }
    {
        let Message2::Said(_, body) = self else {
            return None;
        };
        let Some(body) = body.as_body() else {
            return None;
        };
        Some(Message { mark: *mark, body })
    }

    /// Reports whether the message was said in this session. A Hello and a Welcome are in none.
    pub fn is_of(&self, session: &Session) -> bool
        ensures { result ≡ spec.is_of session.now self.now }
    {
        match self {
            Message2::Said(other, _) => *other == *session,
            _ => false,
        }
    }
}

/// Returns what a peer of this session, in the scene with this mark, hears of a message: the
/// message as in version 1, or `None` if it is of another session or beyond a world's limits.
pub fn heard(session: &Session, mark: &[u8; 32], message: &Message2) -> Option<Message>
    ensures { result ≡ spec.heard session.now mark.now message.now }
{
    if message.is_of(session) {
        message.as_message(mark)
    } else {
        None
    }
}
