//! The viewers that join.

ghost use Rattle.std.specs.Prelude.{◌≡◌, None, get_or, map, slice_set};
ghost use Rattle.std.specs.List.{list_any};
ghost use Rattle.share_keeping.specs.Joiners as spec;

use std::marker::Model;

/// How many seats there are: one for each viewer's number.
const SEATS: usize = 64;

/// How long a viewer that joins may be silent, in milliseconds.
const SILENCE: u64 = 10_000;

/// A viewer that joins.
#[derive(Clone, Copy)]
pub struct Joiner {
    /// The peer that it asks from.
    pub peer: u16,
    /// The number of the piece that it gets next, from 0.
    pub next: u32,
    /// The milliseconds since its last ask.
    pub silent: u64,
}

/// Returns the piece that a peer gets next who asks from this seat: a peer goes on where it was.
fn next_of(joiner: &Option<Joiner>, peer: u16) -> u32
    ensures { result ≡ spec.next_of joiner.now peer }
{
    match joiner {
        Some(joiner) => { if joiner.peer == peer { joiner.next } else { 0 } }
        None => 0,
    }
}

/// Returns the viewer after these milliseconds, or `None` if it has been silent for too long.
fn after_time(joiner: Option<Joiner>, millis: u64) -> Option<Joiner>
    ensures { result ≡ spec.after_time millis joiner }
{
    let Some(joiner) = joiner else {
        return None;
    };
    let silent = joiner.silent.saturating_add(millis);
    if silent < SILENCE {
        Some(Joiner {
            peer: joiner.peer,
            next: joiner.next,
            silent,
        })
    } else {
        None
    }
}

/// Returns the viewer as it begins a snapshot.
fn restarted(joiner: Option<Joiner>) -> Option<Joiner>
    ensures { result ≡ spec.restarted joiner }
{
    match joiner {
        Some(joiner) => Some(Joiner {
            peer: joiner.peer,
            next: 0,
            silent: joiner.silent,
        }),
        None => None,
    }
}

/// Returns the number of a piece of `count` pieces that comes `more` after piece `next`: after the
/// last one the first ones come again.
pub(crate) fn piece_after(count: u32, next: u32, more: u32) -> u32
    ensures { result ≡ spec.piece_after count next more }
{
    if count == 0 {
        return 0;
    }
    ((u64::from(next) + u64::from(more)) % u64::from(count)) as u32
}

/// Returns the viewer after it got its next pieces of `count`.
fn advanced(joiner: Option<Joiner>, count: u32) -> Option<Joiner>
    ensures { result ≡ spec.advanced count joiner }
{
    match joiner {
        Some(joiner) => Some(Joiner {
            peer: joiner.peer,
            next: piece_after(count, joiner.next, in_a_row(count)),
            silent: joiner.silent,
        }),
        None => None,
    }
}

/// Returns how many pieces of `count` a viewer gets at a rest.
pub(crate) fn in_a_row(count: u32) -> u32
    ensures { result ≡ spec.in_a_row count }
{
    count.min(16)
}

fn is_peer(joiner: &Option<Joiner>, peer: u16) -> bool
    ensures { result ≡ spec.is_peer peer joiner.now }
{
    match joiner {
        Some(joiner) => joiner.peer == peer,
        None => false,
    }
}

/// For each seat the viewer that joins there, if one does.
#[derive(Drop)]
pub struct Joiners {
    seats: [Option<Joiner>; SEATS],
}

impl Model for Joiners {
    ghost use Rattle.std.specs.Prelude.{◌≡◌, List, Option, length};
    ghost use Rattle.share_keeping.specs.declared.joiners.Joiner.{Joiner as AJoiner};

    ghost Value = { List (Option AJoiner) };

    ghost view = { λ j. j.seats };

    ghost invariant = { λ j. length j.seats ≡ 64 };
}

fn pass_all(seats: &mut [Option<Joiner>], millis: u64)
    ensures { seats.new ≡ map (spec.after_time millis) seats.old }
{
    for seat in seats.iter_mut() {
        *seat = after_time(*seat, millis);
    }
}

fn restart_all(seats: &mut [Option<Joiner>])
    ensures { seats.new ≡ map spec.restarted seats.old }
{
    for seat in seats.iter_mut() {
        *seat = restarted(*seat);
    }
}

fn advance_all(seats: &mut [Option<Joiner>], count: u32)
    ensures { seats.new ≡ map (spec.advanced count) seats.old }
{
    for seat in seats.iter_mut() {
        *seat = advanced(*seat, count);
    }
}

/// Sets the place of a seat, if there is such a seat.
fn set_seat(seats: &mut [Option<Joiner>], who: u8, joiner: Option<Joiner>)
    ensures { seats.new ≡ slice_set seats.old who joiner }
{
    let place = who as usize;
    if place < seats.len() {
        seats[place] = joiner;
    }
}

/// Returns the viewer that joins at a seat, if one does.
fn seat_at(seats: &[Option<Joiner>], who: u8) -> Option<Joiner>
    ensures { result ≡ get_or seats.now who None }
{
    match seats.get(who as usize) {
        Some(seat) => *seat,
        None => None,
    }
}

fn has_peer(seats: &[Option<Joiner>], peer: u16) -> bool
    ensures { result ≡ list_any (spec.is_peer peer) seats.now }
{
    seats.iter().any(|seat| is_peer(seat, peer))
}

fn is_some(joiner: &Option<Joiner>) -> bool
    ensures { result ≡ spec.is_joiner joiner.now }
{
    joiner.is_some()
}

fn has_some(seats: &[Option<Joiner>]) -> bool
    ensures { result ≡ list_any spec.is_joiner seats.now }
{
    seats.iter().any(|seat| is_some(seat))
}

impl Joiners {
    ghost use Rattle.std.specs.Prelude.{◌≡◌, ◌<◌, length};
    ghost use Rattle.share_keeping.specs.Joiners as spec;

    /// Returns the seats while no viewer joins.
    pub fn none() -> Joiners
        ensures { result ≡ spec.no_joiners }
    {
        Joiners {
            seats: [None; SEATS],
        }
    }

    /// Notes that a seat, below 64, asks for input 1 from a peer.
    pub fn join(&mut self, who: u8, peer: u16)
        ensures { self.new ≡ spec.joined self.old who peer }
    {
        let next = next_of(&seat_at(&self.seats, who), peer);
        let joiner = Some(Joiner {
            peer,
            next,
            silent: 0,
        });
        set_seat(&mut self.seats, who, joiner);
    }

    /// Notes that a seat asks for a later input: it no longer joins.
    pub fn leave(&mut self, who: u8)
        ensures { self.new ≡ spec.left self.old who }
    {
        set_seat(&mut self.seats, who, None);
    }

    /// Notes that time passed, in milliseconds: who has been silent for 10 seconds no longer joins.
    pub fn pass(&mut self, millis: u64)
        ensures { self.new ≡ spec.passed millis self.old }
    {
        pass_all(&mut self.seats, millis);
    }

    /// Lets each begin a new snapshot, from piece 0.
    pub fn restart(&mut self)
        ensures { self.new ≡ spec.all_restarted self.old }
    {
        restart_all(&mut self.seats);
    }

    /// Notes that each got its next pieces of a snapshot of `count` pieces.
    pub fn advance(&mut self, count: u32)
        ensures { self.new ≡ spec.all_advanced count self.old }
    {
        advance_all(&mut self.seats, count);
    }

    /// Reports whether a viewer joins from this peer.
    pub fn is_joined(&self, peer: u16) -> bool
        ensures { result ≡ spec.joins self.now peer }
    {
        has_peer(&self.seats, peer)
    }

    /// Reports whether a viewer joins.
    pub fn are_some(&self) -> bool
        ensures { result ≡ spec.are_some self.now }
    {
        has_some(&self.seats)
    }

    /// Returns the 64 seats, in order.
    pub fn as_slice(&self) -> &[Option<Joiner>]
        ensures items { result.now ≡ self.now }
        ensures count { length result.now ≡ 64 }
    {
        &self.seats
    }
}
