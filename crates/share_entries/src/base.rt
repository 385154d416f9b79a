//! The base of a log: the payload that stands for the entries below it.

ghost use Rattle.std.specs.Prelude.{◌≡◌, ◌*◌, ◌-◌, ◌<◌, ◌≤◌, ◌&&◌, ◌==◌, IfSome, IsTrue, Some, length, nat_eq, take};
ghost use Rattle.std.specs.Int.{w64};
ghost use Rattle.std.specs.Option.{option_map};
ghost use Rattle.std.specs.Cmp.Lexicographic.{pointwise};
ghost use Rattle.byte_codec.specs.Codec.{fixed, many_at, number, pair};
ghost use Rattle.x3d_values.specs.Ranges.{is_input_time, max_inputs, max_viewers};
ghost use Rattle.share_entries.specs.Entry.{time_codec};
ghost use Rattle.share_entries.specs.Head.{is_viewer_count, sum_of};
ghost use Rattle.share_entries.specs.Base.{BaseView, base_fits, base_in, base_text, begins_base, is_base_number, seat_codec};

use crate::chain::Chain;
use crate::head::{is_viewer_count, sum_of};
use crate::reading::time_of;
use arrayvec::ArrayVec;
use byte_codec::{byte_of, chunk_of, u32_of, u64_of};
use share_rules::SeatCount;
use std::marker::Model;
use x3d_values::{MAX_INPUTS, MAX_VIEWERS};

/// The largest number of viewers of a base.
const SEATS: usize = MAX_VIEWERS as usize;

type Kept = ArrayVec<SeatCount, SEATS>;

/// What stands for the entries of a log up to one of them: what a host keeps of each viewer, the
/// number and the time of that entry, the chain after it, and the SHA-256 of a snapshot of the
/// world there.
#[derive(Drop)]
pub struct Base {
    kept: Kept,
    number: u64,
    time: i64,
    chain: Chain,
    snapshot: [u8; 32],
}

impl Model for Base {
    ghost use Rattle.std.specs.Prelude.{◌≡◌, IsTrue, length};
    ghost use Rattle.x3d_values.specs.Ranges.{is_input_time};
    ghost use Rattle.share_entries.specs.Head.{is_viewer_count};
    ghost use Rattle.share_entries.specs.Base.{BaseView, is_base_number};

    ghost Value = { BaseView };

    ghost view = { λ b. record {
      kept = b.kept.items;
      number = b.number;
      time = b.time;
      chain = b.chain;
      snapshot = b.snapshot;
    } };

    ghost invariant = { λ b. IsTrue (is_viewer_count (length b.kept.items))
        × IsTrue (is_base_number b.number) × IsTrue (is_input_time b.time)
        × (length b.chain ≡ 16) × (length b.snapshot ≡ 32) };
}

/// Reports whether a base may have this number.
pub fn is_base_number(number: u64) -> bool
    ensures { result ≡ is_base_number number }
{
    number >= 1 && number <= MAX_INPUTS
}

fn list_of(kept: &[SeatCount]) -> Kept
    requires { length kept.now ≤ max_viewers }
    ensures { result.items ≡ kept.now }
{
    let mut list = ArrayVec::new();
    let _fits = list.try_extend_from_slice(kept);
    list
}

impl Base {
    ghost use Rattle.std.specs.Prelude.{◌≡◌, ◌≤◌, IsTrue, length};
    ghost use Rattle.x3d_values.specs.Ranges.{is_input_time, max_inputs, max_viewers};
    ghost use Rattle.share_entries.specs.Head.{is_viewer_count};
    ghost use Rattle.share_entries.specs.Base.{is_base_number};

    /// Makes a base. The caller checks the number of viewers with `is_viewer_count`, the number,
    /// which is 1 to `MAX_INPUTS`, and the time with `is_input_time`.
    pub fn new(kept: &[SeatCount], number: u64, time: i64, chain: Chain, snapshot: [u8; 32]) -> Base
        requires viewers { IsTrue (is_viewer_count (length kept.now)) }
        requires number { IsTrue (is_base_number number) }
        requires time { IsTrue (is_input_time time) }
        ensures { result ≡ record {
          kept = kept.now;
          number = number;
          time = time;
          chain = chain;
          snapshot = snapshot;
        } }
    {
        Base {
            kept: list_of(kept),
            number,
            time,
            chain,
            snapshot,
        }
    }

    /// Returns what a host keeps of each viewer.
    pub fn kept(&self) -> &[SeatCount]
        ensures value { result.now ≡ self.now.kept }
        ensures some { 1 ≤ length result.now }
        ensures most { length result.now ≤ max_viewers }
    {
        self.kept.as_slice()
    }

    /// Returns the number of the last entry that the base stands for.
    pub fn number(&self) -> u64
        ensures value { result ≡ self.now.number }
        ensures some { 1 ≤ result }
        ensures most { result ≤ max_inputs }
    {
        self.number
    }

    /// Returns the time of that entry in microseconds.
    pub fn time(&self) -> i64
        ensures value { result ≡ self.now.time }
        ensures fits { IsTrue (is_input_time result) }
    {
        self.time
    }

    /// Returns the chain after that entry.
    pub fn chain(&self) -> Chain
        ensures value { result ≡ self.now.chain }
        ensures len { length result ≡ 16 }
    {
        self.chain
    }

    /// Returns the SHA-256 of a snapshot of the world after that entry.
    pub fn snapshot(&self) -> [u8; 32]
        ensures value { result ≡ self.now.snapshot }
        ensures len { length result ≡ 32 }
    {
        self.snapshot
    }
}

/// Reports whether a payload begins as that of a base does.
pub fn is_base(payload: &[u8]) -> bool
    ensures { result ≡ begins_base payload.now }
{
    match payload {
        [] => false,
        [kind, ..] => *kind == 1,
    }
}

#[tactic(auto, unfolding(crate::specs::Base::seat_codec))]
fn seat_of(bytes: &[u8]) -> Option<(SeatCount, &[u8])>
    ensures { option_map (λ r. (r.0, r.1.now)) result ≡ seat_codec.read bytes.now }
{
    let Some((boot, rest)) = u32_of(bytes) else {
        return None;
    };
    let Some((count, rest)) = u32_of(rest) else {
        return None;
    };
    Some((SeatCount { boot, count }, rest))
}

/// Reads what is kept of `count` viewers.
fn seats_of(count: u8, bytes: &[u8]) -> Option<(Kept, &[u8])>
    requires { count ≤ max_viewers }
    ensures read { option_map (λ r. (r.0.items, r.1.now)) result
        ≡ many_at seat_codec count bytes.now }
    ensures len { IfSome result (λ r. length r.0.items ≡ count) }
{
    let mut kept = ArrayVec::new();
    let mut rest = bytes;
    for _ in 0..count {
        let Some((seat, after)) = seat_of(rest) else {
            return None;
        };
        kept.push(seat);
        rest = after;
    }
    Some((kept, rest))
}

type Ends<'a> = (u64, (i64, (&'a [u8], &'a [u8])));

/// Reads what follows the viewers.
fn ends_of(bytes: &[u8]) -> Option<(Ends<'_>, &[u8])>
    ensures value { option_map (λ r. (
      (r.0.0, (r.0.1.0, (let p = r.0.1.1 in (p.0.now, p.1.now)))),
      r.1.now,
    )) result
        ≡ (pair (number w64) (pair time_codec (pair (fixed 16) (fixed 32)))).read bytes.now }
    ensures time { IfSome result (λ r. IsTrue (is_input_time r.0.1.0)) }
    ensures chain { IfSome result (λ r. length r.0.1.1.0.now ≡ 16) }
    ensures snapshot { IfSome result (λ r. length r.0.1.1.1.now ≡ 32) }
{
    let Some((number, rest)) = u64_of(bytes) else {
        return None;
    };
    let Some((time, rest)) = time_of(rest) else {
        return None;
    };
    let Some((chain, rest)) = chunk_of(rest, 16) else {
        return None;
    };
    let Some((snapshot, rest)) = chunk_of(rest, 32) else {
        return None;
    };
    Some(((number, (time, (chain, snapshot))), rest))
}

fn begins(kind: u8, viewers: u8) -> bool
    ensures { result ≡ (kind == 1 && is_viewer_count viewers) }
{
    kind == 1 && is_viewer_count(viewers)
}

/// The sum of all bytes but the last 8.
fn sum_before(bytes: &[u8]) -> [u8; 8]
    ensures { result ≡ sum_of (take (length bytes.now - 8) bytes.now) }
{
    let len = bytes.len().saturating_sub(8);
    sum_of(&bytes[..len])
}

fn is_sealed(bytes: &[u8], number: u64, sum: &[u8]) -> bool
    ensures { result ≡ (is_base_number number
        && pointwise nat_eq sum.now (sum_of (take (length bytes.now - 8) bytes.now))) }
{
    is_base_number(number) && sum == sum_before(bytes).as_slice()
}

fn base_with(kept: &[SeatCount], number: u64, time: i64, front: &[u8], digest: &[u8]) -> Base
    requires viewers { IsTrue (is_viewer_count (length kept.now)) }
    requires number { IsTrue (is_base_number number) }
    requires time { IsTrue (is_input_time time) }
    requires chain { length front.now ≡ 16 }
    requires snapshot { length digest.now ≡ 32 }
    ensures { result ≡ record {
      kept = kept.now;
      number = number;
      time = time;
      chain = front.now;
      snapshot = digest.now;
    } }
{
    let mut chain = [0; 16];
    chain.copy_from_slice(front);
    let mut snapshot = [0; 32];
    snapshot.copy_from_slice(digest);
    Base::new(kept, number, time, chain, snapshot)
}

fn base_in(bytes: &[u8]) -> Option<Base>
    ensures { result ≡ base_in bytes.now }
{
    let Some((kind, rest)) = byte_of(bytes) else {
        return None;
    };
    let Some((viewers, rest)) = byte_of(rest) else {
        return None;
    };
    if !begins(kind, viewers) {
        return None;
    }
    let Some((kept, rest)) = seats_of(viewers, rest) else {
        return None;
    };
    let Some(((number, (time, (chain, snapshot))), sum)) = ends_of(rest) else {
        return None;
    };
    if !is_sealed(bytes, number, sum) {
        return None;
    }
    Some(base_with(kept.as_slice(), number, time, chain, snapshot))
}

/// Reads a base. Returns `None` if the bytes are not those of a base. Takes no memory.
pub fn base_of(bytes: &[u8]) -> Option<Base>
    // The bytes are those of the base that was read.
    ensures found { IfSome result (λ b. (bytes.now ≡ base_text b) × IsTrue (base_fits b)) }
    // Each base is read from its bytes.
    ensures only { (b : BaseView) → IsTrue (base_fits b) → bytes.now ≡ base_text b
        → result ≡ Some b }
    // The exact result.
    ensures exact { result ≡ base_in bytes.now }
{
    base_in(bytes)
}
