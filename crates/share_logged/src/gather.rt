//! What a turn takes: its clock, and the datagrams that arrived. Nothing is sent.

ghost use Rattle.std.specs.Prelude.{◌≡◌, ◌+◌, ◌<◌, ◌≤◌, ◌≤ℤ◌, [], pos, Some, Err, OnErr};
ghost use Rattle.std.specs.Prelude.{length, is_err};
ghost use Rattle.share_turns.specs.HostTurn.{failures_after, listed};
ghost use Rattle.share_turns.specs.declared.fault.TurnFault.TheVariants.{Memory};
ghost use Rattle.share_logged.specs.Notes.{AllFit, AllNumbered, HasGathered, IsNoted};
ghost use Rattle.share_logged.specs.Notes.{max_answers, max_numbered};
ghost use Rattle.share_logged.specs.Turn.{IsClockTaken, clock_entries, is_numbered};
ghost use Rattle.share_logged.specs.Turn.{offer_entries, read_entries};

use crate::pending::Pending;
use share_core::Host;
use share_entries::{Entry, Source};
use share_law::{HostFault, HostReply, NumberFault};
use share_turns::{Heard, MOST, Port, RECEIVED, TurnFault, after_clock, hear, sender_of, take};
use share_wire::{Body, Message, WireFault, decode};

/// Returns the entry of a clock at a time in microseconds, if a host numbered it.
pub fn clock_entry(time: i64, answer: Result<u64, NumberFault>) -> Option<Entry>
    requires fits { AllFit (clock_entries time answer) }
    ensures { listed result ≡ clock_entries time answer }
{
    match answer {
        Ok(_number) => Some(Entry::new(time, Source::Clock)),
        Err(_fault) => None,
    }
}

/// Numbers a clock, and adds its entry.
fn take_clock(host: &mut Host, time: i64, pending: &mut Pending) -> Result<(), TurnFault>
    requires last { pending.old.last ≡ host.old.part.last }
    requires from { pos 0 ≤ℤ pending.old.last }
    requires none { pending.old.entries ≡ [] }
    ensures mark { host.new.mark ≡ host.old.mark }
    ensures step { IsClockTaken host.old.part (Some time) (is_err result) pending.new.entries
        host.new.part }
    ensures last { pending.new.last ≡ host.new.part.last }
    ensures from { pos 0 ≤ℤ pending.new.last }
    ensures notes { pending.new.notes.items ≡ pending.old.notes.items }
    ensures few { length pending.new.entries ≤ 1 }
    ensures fault { OnErr result (result ≡ Err Memory) }
{
    let answer = host.clock(time);
    pending.add(clock_entry(time, answer));
    after_clock(answer)
}

/// Numbers the clock of a turn, if there is one, and adds its entry.
fn begin(host: &mut Host, clock: Option<i64>, pending: &mut Pending) -> Result<(), TurnFault>
    requires last { pending.old.last ≡ host.old.part.last }
    requires from { pos 0 ≤ℤ pending.old.last }
    requires none { pending.old.entries ≡ [] }
    ensures mark { host.new.mark ≡ host.old.mark }
    ensures step { IsClockTaken host.old.part clock (is_err result) pending.new.entries
        host.new.part }
    ensures last { pending.new.last ≡ host.new.part.last }
    ensures from { pos 0 ≤ℤ pending.new.last }
    ensures notes { pending.new.notes.items ≡ pending.old.notes.items }
    ensures few { length pending.new.entries ≤ 1 }
    ensures fault { OnErr result (result ≡ Err Memory) }
{
    match clock {
        Some(time) => take_clock(host, time, pending),
        None => Ok(()),
    }
}

/// Returns the entry of an offer, 1 microsecond after an input at time `last`.
fn offer_entry(last: i64, body: Body) -> Option<Entry>
    requires { AllFit (offer_entries last body) }
    ensures { listed result ≡ offer_entries last body }
{
    match body {
        Body::Offer(offer) => Some(Entry::new(last + 1, Source::Offer(offer))),
        Body::Input(_) | Body::Ask(_) | Body::Ack(_) | Body::Floor(_) | Body::Piece(_) => None,
    }
}

fn is_numbered(answer: Result<HostReply, HostFault>) -> bool
    ensures { result ≡ is_numbered answer }
{
    matches!(answer, Ok(HostReply::Numbered(_)))
}

/// Returns the entry of a decoded datagram, if it is an offer that a host numbered: 1 microsecond
/// after the host's input before, at time `last`.
pub fn read_entry(
    last: i64,
    read: &Result<Message, WireFault>,
    answer: Result<HostReply, HostFault>,
) -> Option<Entry>
    requires fits { AllFit (read_entries last read.now answer) }
    ensures { listed result ≡ read_entries last read.now answer }
{
    match read {
        Ok(message) => {
            if is_numbered(answer) {
                offer_entry(last, message.body)
            } else {
                None
            }
        }
        Err(_) => None,
    }
}

/// Takes a decoded datagram, adds the entry of its offer, if that was numbered, and notes what its
/// peer is answered.
fn take_read(
    host: &mut Host,
    from: u16,
    read: &Result<Message, WireFault>,
    pending: &mut Pending,
) -> Result<(), TurnFault>
    requires last { pending.old.last ≡ host.old.part.last }
    requires from { pos 0 ≤ℤ pending.old.last }
    requires entries { length pending.old.entries < max_numbered }
    requires notes { length pending.old.notes.items < max_answers }
    requires numbered { AllNumbered host.old.part pending.old.notes.items }
    ensures mark { host.new.mark ≡ host.old.mark }
    ensures noted { IsNoted result host.old.mark host.old.part from read.now pending.old.entries
        pending.new.entries pending.old.notes.items pending.new.notes.items host.new.part }
    ensures numbered { AllNumbered host.new.part pending.new.notes.items }
    ensures last { pending.new.last ≡ host.new.part.last }
    ensures from { pos 0 ≤ℤ pending.new.last }
    ensures few { length pending.new.entries ≤ length pending.old.entries + 1 }
    ensures fewer { length pending.new.notes.items ≤ length pending.old.notes.items + 1 }
    ensures fault { OnErr result (result ≡ Err Memory) }
{
    let answer = take(host, read);
    pending.add(read_entry(pending.last, read, answer));
    pending.note(from, sender_of(read), answer)
}

/// Numbers the clock of a turn, if there is one, and takes at most 64 datagrams. The entries of
/// what was numbered, and what is to be answered, are added to `pending`.
pub(crate) fn gather<P: Port>(
    host: &mut Host,
    clock: Option<i64>,
    heard: &mut Heard,
    pending: &mut Pending,
    port: &mut P,
) -> Result<(), TurnFault>
    requires last { pending.old.last ≡ host.old.part.last }
    requires from { pos 0 ≤ℤ pending.old.last }
    requires none { pending.old.entries ≡ [] }
    requires blank { pending.old.notes.items ≡ [] }
    ensures mark { host.new.mark ≡ host.old.mark }
    ensures gathered { HasGathered result host.old.mark clock (P.told port.old) (P.told port.new)
        host.old.part host.new.part heard.old heard.new pending.new.entries
        pending.new.notes.items }
    ensures numbered { AllNumbered host.new.part pending.new.notes.items }
    ensures last { pending.new.last ≡ host.new.part.last }
    ensures from { pos 0 ≤ℤ pending.new.last }
    ensures failures { P.failure_count port.new
        ≡ failures_after result (P.failure_count port.old) }
    ensures time { P.rested port.new ≡ P.rested port.old }
{
    let mark = host.mark();
    let viewers = host.viewers();
    begin(host, clock, pending)?;
    let mut bytes = [0; RECEIVED];
    for _datagram in 0..MOST {
        match port.receive(&mut bytes)? {
            Some((from, count)) => {
                let read = decode(&bytes[..count]);
                hear(heard, &read, &mark, viewers);
                take_read(host, from, &read, pending)?;
            }
            None => return Ok(()),
        }
    }
    Ok(())
}
