//! The pieces of a snapshot, as they arrive.

ghost use Rattle.std.specs.Prelude.{◌≡◌, ◌≤◌, ◌<◌, ◌+◌, ◌*◌, ◌^◌, IfOk, None, Some, length, replicate};
ghost use Rattle.std.specs.Prelude.{slice_get, slice_set, true, ◌==◌, if◌then◌else◌};
ghost use Rattle.std.specs.Option.{option_map};
ghost use Rattle.share_wire.specs.Messages.{piece_count, piece_size};
ghost use Rattle.share_law.specs.Calls.{IsGather};
ghost use Rattle.share_law.specs.Pieces.{all_there, collected, is_of, joined, put};
ghost use Rattle.share_core.specs.Stored.{written};

use share_law::{GatherFault, Gathered};
use share_wire::{Body, Piece};
use std::alloc::{AllocError, Global};
use std::marker::Model;

/// The bytes of a snapshot of which some pieces have arrived: its boot, the number of inputs of its
/// world, the number of its bytes, which pieces are there, and how many are missing.
#[derive(Drop)]
pub struct Pieces {
    boot: u32,
    applied: u64,
    size: u32,
    bytes: Vec<u8>,
    there: Vec<bool>,
    missing: u32,
}

impl Model for Pieces {
    ghost use Rattle.std.specs.Prelude.{◌≡◌, ◌≤◌, ◌^◌, length};
    ghost use Rattle.share_wire.specs.Messages.{piece_count};
    ghost use Rattle.share_law.specs.Pieces.{Gathering};
    ghost use Rattle.share_core.specs.Stored.{missing_in, places_at};

    ghost Value = { Gathering };

    ghost view = { λ g. record {
      boot = g.boot;
      applied = g.applied;
      length = g.size;
      places = places_at 0 g.there.items g.bytes.items;
    } };

    ghost invariant = { λ g. (length g.bytes.items ≡ g.size)
        × (length g.there.items ≡ piece_count g.size)
        × (g.missing ≡ missing_in g.there.items) × (g.size ≤ 2 ^ 26) };
}

impl Pieces {
    /// Begins a snapshot of `size` bytes, of which no piece has arrived. Fails if memory is
    /// refused.
    pub fn begin(alloc: Global, boot: u32, applied: u64, size: u32) -> Result<Pieces, AllocError>
        requires { size ≤ 2 ^ 26 }
        ensures { IfOk result (λ g. g ≡ record {
          boot = boot;
          applied = applied;
          length = size;
          places = replicate (piece_count size) None;
        }) }
    {
        let count = (size + 191) / 192;
        let bytes = vec![in alloc; 0u8; size as usize]?;
        let there = vec![in alloc; false; count as usize]?;
        Ok(Pieces {
            boot,
            applied,
            size,
            bytes,
            there,
            missing: count,
        })
    }

    /// Puts a piece of this snapshot at its place. Returns `Again` if the piece was there, `Whole`
    /// if no piece is missing now, else `New`. Takes no memory.
    pub fn put(&mut self, index: u32, piece: &[u8]) -> Gathered
        requires within { 192 * index < self.old.length }
        requires whole { length piece.now ≡ piece_size self.old.length index }
        ensures { record { 0 = result; 1 = self.new } ≡ put self.old (record {
          boot = self.old.boot;
          applied = self.old.applied;
          length = self.old.length;
          index = index;
          bytes = piece.now;
        }) }
    {
        let place = index as usize;
        if is_there(&self.there, place) {
            return Gathered::Again;
        }
        write_at(&mut self.bytes, 192 * place, piece);
        mark(&mut self.there, place);
        self.missing -= 1;
        new_or_whole(self.missing)
    }

    /// Puts a piece at its place, like `put`. A piece of another snapshot isn't kept: returns
    /// `Other`. Takes no memory.
    pub fn take(&mut self, piece: &Piece) -> Gathered
        ensures { record { 0 = result; 1 = self.new } ≡ collected (Some self.old) piece.now }
    {
        if !self.is_of(piece) {
            return Gathered::Other;
        }
        self.put(piece.index(), piece.bytes())
    }

    fn is_of(&self, piece: &Piece) -> bool
        ensures { result ≡ is_of self.now piece.now }
    {
        piece.boot() == self.boot && (piece.applied() == self.applied && piece.size() == self.size)
    }

    /// Begins with a first piece.
    fn of(alloc: Global, piece: &Piece) -> Result<(Gathered, Pieces), AllocError>
        ensures { IfOk result (λ r. record { 0 = r.0; 1 = r.1 } ≡ collected None piece.now) }
    {
        let mut pieces = Pieces::begin(alloc, piece.boot(), piece.applied(), piece.size())?;
        let gathered = pieces.put(piece.index(), piece.bytes());
        Ok((gathered, pieces))
    }

    /// Returns the bytes of the snapshot, if no piece is missing.
    pub fn whole(&self) -> Option<&[u8]>
        ensures { option_map (λ b. b.now) result
            ≡ (if all_there self.now.places then Some (joined self.now.places) else None) }
    {
        if self.missing == 0 {
            Some(self.bytes.as_slice())
        } else {
            None
        }
    }
}

/// Reports whether the piece of this place is there.
fn is_there(there: &Vec<bool>, place: usize) -> bool
    requires { place < length there.now.items }
    ensures { slice_get there.now.items place ≡ Some result }
{
    there[place]
}

/// Notes that the piece of this place is there.
fn mark(there: &mut Vec<bool>, place: usize)
    requires { place < length there.old.items }
    ensures { there.new.items ≡ slice_set there.old.items place true }
{
    there[place] = true;
}

/// Writes the piece into `bytes` from byte `start` on.
fn write_at(bytes: &mut Vec<u8>, start: usize, piece: &[u8])
    requires { start + length piece.now ≤ length bytes.old.items }
    ensures { bytes.new.items ≡ written start bytes.old.items piece.now }
{
    bytes[start..start + piece.len()].copy_from_slice(piece);
}

/// Returns the answer to a piece after which `missing` pieces are missing.
fn new_or_whole(missing: u32) -> Gathered
    ensures { result ≡ (if missing == 0 then Gathered.Whole else Gathered.New) }
{
    if missing == 0 {
        Gathered::Whole
    } else {
        Gathered::New
    }
}

/// Adds the piece in a packet to what was gathered. The first piece begins the gathering.
///
/// Fails with `NotPiece` if the packet isn't a piece, or `Memory`, which only the first piece can.
/// A failure changes nothing.
pub fn gather(
    alloc: Global,
    held: &mut Option<Pieces>,
    body: &Body,
) -> Result<Gathered, GatherFault>
    ensures { IsGather held.old body.now result held.new }
{
    let Body::Piece(piece) = body else {
        return Err(GatherFault::NotPiece);
    };
    if let Some(pieces) = held {
        return Ok(pieces.take(piece));
    }
    match Pieces::of(alloc, piece) {
        Ok((gathered, pieces)) => {
            *held = Some(pieces);
            Ok(gathered)
        }
        Err(_) => Err(GatherFault::Memory),
    }
}
