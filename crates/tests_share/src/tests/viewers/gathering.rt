//! Gathering a snapshot: pieces in any order, of several snapshots, and with little memory.

use share_core::{Pieces, gather, piece_count};
use share_law::{GatherFault, Gathered};
use share_wire::{Ask, Body, Floor, Piece, is_piece, piece_size};
use std::alloc::Global;
use std::process::Abort;
use tests_memory::{Outcome, Spared, UsedUp, is_refused_until_enough};

/// Returns the bytes of a snapshot of 392 bytes, which has three pieces.
fn bytes_of(first: u8) -> [u8; 392] {
    let mut bytes = [0; 392];
    let mut next = first;
    for byte in &mut bytes {
        *byte = next;
        next = next.wrapping_add(1);
    }
    bytes
}

/// Returns the piece of this number of these bytes, if they have one, as a snapshot of this boot
/// with `applied` inputs applied.
fn piece_of(boot: u32, applied: u64, bytes: &[u8], index: u32) -> Option<Body> {
    let size = u32::try_from(bytes.len()).ok()?;
    if !is_piece(boot, applied, size, index) {
        return None;
    }
    let rest = bytes.get(index as usize * 192..)?;
    let piece = rest.get(..piece_size(size, index) as usize)?;
    Some(Body::Piece(Piece::new(boot, applied, size, index, piece)))
}

/// Returns the answer to this piece.
fn gathers(
    alloc: Global,
    held: &mut Option<Pieces>,
    piece: Option<Body>,
) -> Option<Result<Gathered, GatherFault>> {
    Some(gather(alloc, held, &piece?))
}

/// Reports whether these bytes are held in whole.
fn holds_all(held: &Option<Pieces>, bytes: &[u8]) -> bool {
    match held {
        Some(pieces) => pieces.whole() == Some(bytes),
        None => false,
    }
}

/// The first piece of a snapshot arrives while memory is short.
struct FirstPiece;

impl Spared<Option<Pieces>> for FirstPiece {
    fn work(&self, alloc: Global, held: &mut Option<Pieces>, memory: &mut UsedUp) -> Outcome {
        let bytes = bytes_of(1);
        *held = None;
        memory.run_short();
        let answer = gathers(alloc, held, piece_of(1, 2, &bytes, 2));
        memory.come_back();
        let is_done = answer == Some(Ok(Gathered::New));
        let is_refused = answer == Some(Err(GatherFault::Memory));
        Outcome::of(is_done, is_refused).where_so(held.is_none() == is_refused)
    }
}

#[test]
fn a_first_piece_that_is_refused_memory_changes_nothing(rt: HostRuntime) {
    let mut held = None;
    let refused = is_refused_until_enough(rt.alloc(), &FirstPiece, &mut held, 20);
    drop(held);
    assert!(rt; refused);
}

/// Reports whether the pieces after the first are taken while there is no memory at all.
fn others_take_no_memory(alloc: Global) -> bool {
    let bytes = bytes_of(1);
    let mut held = None;
    let first = gathers(alloc, &mut held, piece_of(1, 2, &bytes, 2));
    let Ok(memory) = UsedUp::new(alloc) else {
        return false;
    };
    let second = gathers(alloc, &mut held, piece_of(1, 2, &bytes, 0));
    let again = gathers(alloc, &mut held, piece_of(1, 2, &bytes, 2));
    let last = gathers(alloc, &mut held, piece_of(1, 2, &bytes, 1));
    drop(memory);
    first == Some(Ok(Gathered::New))
        && second == Some(Ok(Gathered::New))
        && again == Some(Ok(Gathered::Again))
        && last == Some(Ok(Gathered::Whole))
        && holds_all(&held, &bytes)
}

#[test]
fn pieces_behind_the_first_take_no_memory(rt: HostRuntime) {
    assert!(rt; others_take_no_memory(rt.alloc()));
}

/// Reports whether a piece of another snapshot is ignored between pieces that fit.
fn is_other(alloc: Global, other: Option<Body>) -> bool {
    let bytes = bytes_of(1);
    let mut held = None;
    let first = gathers(alloc, &mut held, piece_of(1, 2, &bytes, 0));
    let between = gathers(alloc, &mut held, other);
    let second = gathers(alloc, &mut held, piece_of(1, 2, &bytes, 1));
    let last = gathers(alloc, &mut held, piece_of(1, 2, &bytes, 2));
    first == Some(Ok(Gathered::New))
        && between == Some(Ok(Gathered::Other))
        && second == Some(Ok(Gathered::New))
        && last == Some(Ok(Gathered::Whole))
        && holds_all(&held, &bytes)
}

/// The other snapshots have another boot, another number of inputs or another length.
#[test]
fn pieces_of_other_snapshots_are_not_kept(rt: HostRuntime) {
    let others = bytes_of(99);
    let boot = is_other(rt.alloc(), piece_of(2, 2, &others, 1));
    let applied = is_other(rt.alloc(), piece_of(1, 1, &others, 1));
    let size = is_other(
        rt.alloc(),
        piece_of(1, 2, others.get(..391).unwrap_or(b""), 1),
    );
    assert!(rt; boot && applied && size);
}

/// Reports whether a message that is not a piece is refused, and the held pieces stay.
fn is_no_piece(alloc: Global, body: Body) -> bool {
    let bytes = bytes_of(1);
    let mut held = None;
    let before = gather(alloc, &mut held, &body);
    let is_empty = held.is_none();
    let first = gathers(alloc, &mut held, piece_of(1, 2, &bytes, 0));
    let behind = gather(alloc, &mut held, &body);
    let second = gathers(alloc, &mut held, piece_of(1, 2, &bytes, 0));
    before == Err(GatherFault::NotPiece)
        && is_empty
        && first == Some(Ok(Gathered::New))
        && behind == Err(GatherFault::NotPiece)
        && second == Some(Ok(Gathered::Again))
}

#[test]
fn only_pieces_are_gathered(rt: HostRuntime) {
    let floor = is_no_piece(rt.alloc(), Body::Floor(Floor::new(3)));
    let ask = is_no_piece(rt.alloc(), Body::Ask(Ask::new(1, 4)));
    assert!(rt; floor && ask);
}

/// Returns 392 bytes that begin like a snapshot of boot 1 with two inputs applied.
fn beginning() -> [u8; 392] {
    let mut bytes = [0; 392];
    bytes[..5].copy_from_slice(b"X3DW\x01");
    bytes[40] = 1;
    bytes[44] = 2;
    bytes
}

/// 392 bytes are two pieces of 192 and one of 8. Bytes that don't begin like a snapshot have none.
#[test]
fn a_snapshot_has_its_pieces(rt: HostRuntime) {
    let bytes = beginning();
    assert!(rt; piece_count(&bytes) == Some(3));
    assert!(rt; piece_count(&bytes[1..]).is_none());
}
