//! A piece of a snapshot, with the chain of the snapshot's world.

ghost use Rattle.std.specs.Prelude.{◌≡◌, ◌≤◌, ◌++◌, IsTrue, drop, length};
ghost use Rattle.share_wire.specs.Messages.{padded, piece_size};
ghost use Rattle.share_session.specs.Ranges.{is_head};

use crate::numbers::MAX_NUMBER;
use share_entries::Chain;
use share_wire::{is_piece, piece_size};
use std::marker::Model;

/// Which piece of which snapshot it is.
#[derive(Clone, Copy, PartialEq, Eq)]
pub struct PieceHead {
    /// The chain after the inputs applied to the snapshot's world.
    pub chain: Chain,
    /// The boot of the viewer whose snapshot it is.
    pub boot: u32,
    /// The number of inputs applied to the snapshot's world.
    pub applied: u64,
    /// The length of the whole snapshot in bytes.
    pub size: u32,
    /// The number of the piece, from 0.
    pub index: u32,
}

impl PieceHead {
    /// Reports whether a snapshot has such a piece: as `is_piece` of share_wire, except that
    /// `applied` is at most `MAX_NUMBER`.
    pub fn fits(&self) -> bool
        ensures { result ≡ is_head self.now }
    {
        is_piece(self.boot, 0, self.size, self.index) && self.applied <= MAX_NUMBER
    }
}

/// A piece of a snapshot. Each piece but the last has 192 bytes; the last is padded with zeros.
#[derive(Clone, Copy, PartialEq, Eq)]
pub struct Piece2 {
    head: PieceHead,
    bytes: [u8; 192],
}

impl Model for Piece2 {
    ghost use Rattle.std.specs.Prelude.{◌≡◌, ℕ, IsTrue, List, take};
    ghost use Rattle.std.proofs.Common.{ap};
    ghost use Rattle.share_wire.specs.Messages.{padded, piece_size};
    ghost use Rattle.share_session.specs.Ranges.{is_head};
    ghost use Rattle.share_session.specs.Messages.{PieceView2};

    ghost Value = { PieceView2 };

    ghost view = { λ p. record {
      head = p.head;
      bytes = take (piece_size p.head.size p.head.index) p.bytes;
    } };

    ghost invariant = { λ p. IsTrue (is_head p.head)
        × (padded (take (piece_size p.head.size p.head.index) p.bytes) ≡ p.bytes) };

    ghost inverse = { λ f. record { head = f.head; bytes = padded f.bytes } };

    ghost inverse_ok = { λ a h. ap (λ (b : List ℕ). record a { bytes = b }) h.1 };
}

impl Piece2 {
    /// Makes a piece. The head must pass `fits`, and `bytes` must have `piece_size` bytes.
    pub fn new(head: PieceHead, bytes: &[u8]) -> Piece2
        requires range { IsTrue (is_head head) }
        requires whole { length bytes.now ≡ piece_size head.size head.index }
        ensures { result ≡ record { head = head; bytes = bytes.now } }
    {
        Piece2 {
            head,
            bytes: padded(bytes),
        }
    }

    /// Returns which piece it is.
    pub fn head(&self) -> PieceHead
        ensures value { result ≡ self.now.head }
        ensures fits { IsTrue (is_head result) }
    {
        self.head
    }

    /// Returns the bytes of the piece, without padding.
    pub fn bytes(&self) -> &[u8]
        ensures value { result.now ≡ self.now.bytes }
        ensures whole { length result.now ≡ piece_size self.now.head.size self.now.head.index }
        ensures most { length result.now ≤ 192 }
        ensures fits { IsTrue (is_head self.now.head) }
    {
        &self.bytes[..piece_size(self.head.size, self.head.index) as usize]
    }
}

/// Copies the bytes to the front.
fn put_front(all: &mut [u8; 192], bytes: &[u8])
    requires { length bytes.now ≤ 192 }
    ensures { all.new ≡ bytes.now ++ drop (length bytes.now) all.old }
{
    all[..bytes.len()].copy_from_slice(bytes);
}

/// Returns the bytes padded with zeros to 192.
fn padded(bytes: &[u8]) -> [u8; 192]
    requires { length bytes.now ≤ 192 }
    ensures { result ≡ padded bytes.now }
{
    let mut all = [0; 192];
    put_front(&mut all, bytes);
    all
}
