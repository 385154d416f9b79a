//! A table of addresses by number.

use crate::finding::{free_place, place_after, place_of};
use std::alloc::{AllocError, Global};
use std::marker::Model;
use std::net::SocketAddr;

/// The addresses of a socket's peers, each with a number from 0 on. Two addresses never have the
/// same number. If all numbers are taken, a new address gets that of one that isn't kept, in turn.
/// So an address that is kept has its number until as many others were kept after it as a table
/// keeps, however many addresses come.
#[derive(Drop)]
pub struct Addresses {
    places: Vec<Option<SocketAddr>>,
    next: u16,
    /// The numbers that are kept, and others than a number where none was kept yet.
    kept: Vec<u16>,
    turn: u16,
}

impl Model for Addresses {
    ghost use Rattle.std.specs.Prelude.{◌<◌, ◌^◌, length};
    ghost use Rattle.share_peers.specs.Table.{AreDistinct, Table};

    ghost Value = { Table };

    ghost view = { λ a. record {
      addresses = a.places.items;
      next = a.next;
      kept = a.kept.items;
      turn = a.turn;
    } };

    ghost invariant = { λ a. (length a.places.items < 2 ^ 16)
        × (a.next < length a.places.items)
        × (length a.kept.items < 2 ^ 16)
        × (a.turn < length a.kept.items)
        × AreDistinct a.places.items };
}

impl Addresses {
    ghost use Rattle.std.specs.Prelude.{◌≡◌, ◌<◌, ℕ, IfOk, IfSome, IfNone, None, Some, false};
    ghost use Rattle.share_peers.specs.Table.{AllKept, IsAdded, IsAt, address_at, count_of};
    ghost use Rattle.share_peers.specs.Table.{is_kept, keeping, most_kept};
    ghost use Rattle.std.specs.declared.net.socket_addr.SocketAddr.{SocketAddr as AddressOf};

    /// Returns a table without an address, of `count` numbers, which keeps `most` of them. That is
    /// at least 1, and fewer than there are. Fails if memory is refused.
    pub fn new(alloc: Global, count: u16, most: u16) -> Result<Addresses, AllocError>
        requires some { 0 < most }
        requires fewer { most < count }
        ensures none { IfOk result (λ t. (n : ℕ) → address_at t.addresses n ≡ None) }
        ensures count { IfOk result (λ t. count_of t ≡ count) }
        ensures next { IfOk result (λ t. t.next ≡ 0) }
        ensures free { IfOk result (λ t. (n : ℕ) → n < count → is_kept t.kept n ≡ false) }
        ensures most { IfOk result (λ t. most_kept t ≡ most) }
        ensures turn { IfOk result (λ t. t.turn ≡ 0) }
    {
        let places = vec![in alloc; None; count as usize]?;
        let kept = vec![in alloc; count; most as usize]?;
        Ok(Addresses {
            places,
            next: 0,
            kept,
            turn: 0,
        })
    }

    /// Returns the address that has this number, if there is one.
    pub fn address_of(&self, number: u16) -> Option<SocketAddr>
        ensures { result ≡ address_at self.now.addresses number }
    {
        match self.places.get(number as usize) {
            Some(place) => *place,
            None => None,
        }
    }

    /// Returns the number of an address, which is added if it isn't in the table. Returns `None` if
    /// there is no number for it, since all are kept.
    pub fn number_of(&mut self, address: SocketAddr) -> Option<u16>
        // An address that has a number still has it.
        ensures known { (n : ℕ) → IsAt self.old.addresses n address
            → (result ≡ Some n) × (self.new ≡ self.old) }
        ensures added { ((n : ℕ) → ¬ IsAt self.old.addresses n address)
            → IfSome result (λ n. IsAdded self.old address n self.new) }
        // The number has the address now.
        ensures at { IfSome result (λ n. IsAt self.new.addresses n address) }
        ensures none { IfNone result
            (AllKept self.old.kept (count_of self.old) × (self.new ≡ self.old)) }
    {
        if let Some(place) = place_of(&self.places, &address) {
            return Some(place as u16);
        }
        let count = self.places.len() as u16;
        let place = free_place(&self.kept, count, self.next)?;
        self.places[place as usize] = Some(address);
        self.next = place_after(place, 1, count);
        Some(place)
    }

    /// Reports whether the address with this number is kept.
    pub fn is_kept(&self, number: u16) -> bool
        ensures { result ≡ is_kept self.now.kept number }
    {
        self.kept.contains(&number)
    }

    /// Keeps the address with this number, until as many others were kept after it as the table
    /// keeps.
    pub fn keep(&mut self, number: u16)
        ensures { self.new ≡ keeping self.old number }
    {
        if self.is_kept(number) {
            return;
        }
        let most = self.kept.len() as u16;
        self.kept[self.turn as usize] = number;
        self.turn = place_after(self.turn, 1, most);
    }
}
