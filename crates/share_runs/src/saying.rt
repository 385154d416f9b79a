//! What a viewer of a run sends.

ghost use Rattle.std.specs.Prelude.{◌≡◌, ◌≤◌, IfSome, Some, length};
ghost use Rattle.std.specs.Option.{option_map};
ghost use Rattle.share_session.specs.Datagram.{datagram};
ghost use Rattle.share_session.specs.Heard.{as_body};
ghost use Rattle.share_wire.specs.declared.message.Body.TheVariants as body;
ghost use Rattle.share_session.specs.declared.message.Body2.TheVariants as body2;
ghost use Rattle.share_session.specs.declared.message.Message2.TheVariants.{Said};
ghost use Rattle.share_runs.specs.Saying as spec;

use crate::known::KnownList;
use share_entries::Chain;
use share_session::{Body2, Message2, Packet2, Piece2, PieceHead, Session, encode, lifted};
use share_wire::{Body, Piece};

/// Returns the piece with the chain after its snapshot's inputs.
fn with_chain(piece: &Piece, chain: &Chain) -> Piece2
    ensures value { result ≡ spec.with_chain piece.now chain.now }
    ensures again { as_body (body2.Piece result) ≡ Some (body.Piece piece.now) }
{
    let chain = *chain;
    let head = PieceHead {
        chain,
        boot: piece.boot(),
        applied: piece.applied(),
        size: piece.size(),
        index: piece.index(),
    };
    Piece2::new(head, piece.bytes())
}

fn piece_of(known: &KnownList, piece: &Piece) -> Option<Body2>
    ensures value { result ≡ spec.raised known.now (body.Piece piece.now) }
    ensures again { IfSome result (λ made. as_body made ≡ Some (body.Piece piece.now)) }
{
    let Some(chain) = known.chain_in(piece.applied()) else {
        return None;
    };
    Some(Body2::Piece(with_chain(piece, &chain)))
}

/// Returns the body of version 2 of what a viewer sends. `None` for an input, and for a piece whose
/// chain isn't known.
fn raised(known: &KnownList, body: &Body) -> Option<Body2>
    ensures value { result ≡ spec.raised known.now body.now }
    // It is heard as the body that it was.
    ensures again { IfSome result (λ made. as_body made ≡ Some body.now) }
{
    match body {
        Body::Piece(piece) => piece_of(known, piece),
        _ => lifted(body),
    }
}

/// Returns the datagram of version 2 of what a viewer sends in this session, if there is one.
pub(crate) fn said_of(session: &Session, known: &KnownList, body: &Body) -> Option<Packet2>
    ensures text { option_map (λ p. p.items) result
        ≡ option_map datagram (option_map (Said session.now) (spec.raised known.now body.now)) }
    ensures most { IfSome result (λ p. length p.items ≤ 250) }
{
    let Some(raised) = raised(known, body) else {
        return None;
    };
    Some(encode(&Message2::Said(*session, raised)))
}
