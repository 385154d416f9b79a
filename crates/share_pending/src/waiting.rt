//! The entries that a host has numbered and its program hasn't stored.

ghost use Rattle.std.specs.Prelude.{◌≡◌, ◌++◌, ◌<◌, IsTrue, List, false, true};
ghost use Rattle.std.specs.Prelude.{vec_capacity, vec_len};
ghost use Rattle.share_entries.specs.Entry.{EntryView};
ghost use Rattle.share_law.specs.Calls.{IsPartClocked, IsPartTakeOf};
ghost use Rattle.share_turns.specs.HostTurn.{listed};
ghost use Rattle.share_logged.specs.Turn.{clock_entries, read_entries};
ghost use Rattle.share_pending.specs.Waiting.{IsClockAdded, IsTakeAdded, is_offer};

use crate::kept::Kept;
use crate::showing::shown_answer;
use share_core::Host;
use share_entries::Entry;
use share_law::{HostFault, HostReply, NumberFault};
use share_logged::{clock_entry, read_entry};
use share_turns::take;
use share_wire::{Body, Message, WireFault};
use std::marker::Model;

/// What a host has numbered and its program hasn't stored. The host shows nothing of it. Make every
/// call that numbers, shows or drops inputs of the host by the methods here.
#[derive(Drop)]
pub struct Waiting {
    /// The number of stored entries.
    pub(crate) stored: u64,
    /// What is kept of each viewer after the stored entries.
    pub(crate) kept: Kept,
    /// The entries that are being appended.
    pub(crate) appending: Vec<Entry>,
    /// The number of entries with those that are being appended.
    pub(crate) reached: u64,
    /// The token of the last append that began, or 0.
    pub(crate) token: u32,
    /// The entries that were numbered since that append began.
    pub(crate) pending: Vec<Entry>,
}

impl Model for Waiting {
    ghost use Rattle.std.specs.Prelude.{◌≤◌};
    ghost use Rattle.x3d_values.specs.Ranges.{max_inputs};
    ghost use Rattle.share_pending.specs.Waiting.{WaitingView};

    ghost Value = { WaitingView };

    ghost view = { λ w. record {
      stored = w.stored;
      kept = w.kept.items;
      appending = w.appending.items;
      reached = w.reached;
      token = w.token;
      pending = w.pending.items;
    } };

    ghost invariant = { λ w. (w.stored ≤ max_inputs) × (w.reached ≤ max_inputs) };
}

/// Reserves room for one more entry, and reports whether there is any.
fn has_room(list: &mut Vec<Entry>) -> bool
    ensures items { list.new.items ≡ list.old.items }
    ensures room { IsTrue result → vec_len list.new < vec_capacity list.new }
{
    list.reserve(1).is_ok()
}

/// Appends an entry, if there is one, to a list that has room for it.
fn push_listed(list: &mut Vec<Entry>, entry: Option<Entry>)
    requires { vec_len list.old < vec_capacity list.old }
    ensures { list.new.items ≡ list.old.items ++ listed entry }
{
    match entry {
        Some(entry) => list.push_reserved(entry),
        None => {}
    }
}

fn is_offer(read: &Result<Message, WireFault>) -> bool
    ensures { result ≡ is_offer read.now }
{
    match read {
        Ok(message) => matches!(message.body, Body::Offer(_)),
        Err(_) => false,
    }
}

/// Numbers a clock, and adds its entry to a list that has room for it.
fn add_clock(host: &mut Host, time: i64, list: &mut Vec<Entry>) -> Result<u64, NumberFault>
    requires { vec_len list.old < vec_capacity list.old }
    ensures mark { host.new.mark ≡ host.old.mark }
    ensures step { IsPartClocked host.old.part time result host.new.part }
    ensures entry { list.new.items ≡ list.old.items ++ clock_entries time result }
{
    let _last = host.last();
    let answer = host.clock(time);
    push_listed(list, clock_entry(time, answer));
    answer
}

/// Takes a datagram, and adds its entry, if it is an offer that is numbered, to a list that has
/// room for it.
fn add_read(
    host: &mut Host,
    read: &Result<Message, WireFault>,
    list: &mut Vec<Entry>,
) -> Result<HostReply, HostFault>
    requires { vec_len list.old < vec_capacity list.old }
    ensures mark { host.new.mark ≡ host.old.mark }
    ensures step { IsPartTakeOf host.old.mark host.old.part read.now result host.new.part }
    ensures entry { list.new.items
        ≡ list.old.items ++ read_entries host.old.part.last read.now result }
{
    let last = host.last();
    let answer = take(host, read);
    push_listed(list, read_entry(last, read, answer));
    answer
}

/// Numbers a clock, and adds its entry to a list.
fn clock_to(host: &mut Host, time: i64, list: &mut Vec<Entry>) -> Result<u64, NumberFault>
    ensures mark { host.new.mark ≡ host.old.mark }
    ensures step { IsClockAdded host.old.part list.old.items time result host.new.part
        list.new.items }
{
    if has_room(list) {
        add_clock(host, time, list)
    } else {
        Err(NumberFault::Memory)
    }
}

/// Takes an offer, and adds its entry, if it is numbered, to a list.
fn offer_to(
    host: &mut Host,
    read: &Result<Message, WireFault>,
    stored: u64,
    list: &mut Vec<Entry>,
) -> Result<HostReply, HostFault>
    requires { is_offer read.now ≡ true }
    ensures mark { host.new.mark ≡ host.old.mark }
    ensures step { IsTakeAdded host.old.mark stored host.old.part list.old.items read.now result
        host.new.part list.new.items }
{
    if has_room(list) {
        shown_answer(add_read(host, read, list), stored)
    } else {
        Err(HostFault::Number(NumberFault::Memory))
    }
}

/// Takes a datagram that is no offer.
fn other_to(
    host: &mut Host,
    read: &Result<Message, WireFault>,
    stored: u64,
) -> Result<HostReply, HostFault>
    requires { is_offer read.now ≡ false }
    ensures mark { host.new.mark ≡ host.old.mark }
    ensures step { (list : List EntryView)
        → IsTakeAdded host.old.mark stored host.old.part list read.now result host.new.part list }
{
    shown_answer(take(host, read), stored)
}

/// Takes a datagram, and adds its entry, if it is an offer that is numbered, to a list.
fn take_to(
    host: &mut Host,
    read: &Result<Message, WireFault>,
    stored: u64,
    list: &mut Vec<Entry>,
) -> Result<HostReply, HostFault>
    ensures mark { host.new.mark ≡ host.old.mark }
    ensures step { IsTakeAdded host.old.mark stored host.old.part list.old.items read.now result
        host.new.part list.new.items }
{
    if is_offer(read) {
        offer_to(host, read, stored, list)
    } else {
        other_to(host, read, stored)
    }
}

impl Waiting {
    ghost use Rattle.std.specs.Prelude.{◌≡◌};
    ghost use Rattle.share_pending.specs.Waiting.{IsClockWaiting, IsTakeWaiting};
    ghost use Rattle.share_pending.specs.Written.{StaysAhead};

    /// Numbers a clock at a time in microseconds, and returns its number. Its entry waits.
    ///
    /// Fails like `Host::clock` of share_core, and with `Memory` also if there is no memory for the
    /// entry, whatever the time is. A failure changes nothing.
    pub fn clock(&mut self, host: &mut Host, time: i64) -> Result<u64, NumberFault>
        ensures mark { host.new.mark ≡ host.old.mark }
        ensures step { IsClockWaiting host.old.part self.old time result host.new.part self.new }
        ensures log { StaysAhead host.old.part self.old host.new.part self.new }
    {
        clock_to(host, time, &mut self.pending)
    }

    /// Takes a decoded datagram, like `take` of share_turns. The entry of an offer that is numbered
    /// waits. An ask is answered by the stored entries alone.
    ///
    /// Fails like `take`, and with `Memory` also if there is no memory for the entry of an offer. A
    /// failure changes nothing.
    pub fn take(
        &mut self,
        host: &mut Host,
        read: &Result<Message, WireFault>,
    ) -> Result<HostReply, HostFault>
        ensures mark { host.new.mark ≡ host.old.mark }
        ensures step { IsTakeWaiting host.old.mark host.old.part self.old read.now result
            host.new.part self.new }
        ensures log { StaysAhead host.old.part self.old host.new.part self.new }
    {
        take_to(host, read, self.stored, &mut self.pending)
    }
}
