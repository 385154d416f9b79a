//! A host that was resumed: what it numbers waits until its program has stored it, and only then
//! the host shows it.

ghost use Rattle.std.specs.Prelude.{◌≡◌, None, IfErr, IfOk};
ghost use Rattle.std.specs.Option.{option_map};
ghost use Rattle.share_pending.specs.Waiting.{begun};
ghost use Rattle.embed_world.specs.Lasting as spec;
ghost use Rattle.embed_world.specs.declared.lasting.AppendFault.TheVariants as append;

use crate::host::EmbeddedHost;
use embed_entries::append_bytes;
use share_core::Host;
use share_law::{FloorFault, HostFault, HostReply, NumberFault};
use share_pending::{AppendAnswer, Waiting, goes_on};
use share_turns::{Heard, drop_passed, take};
use share_wire::{Message, Packet, WireFault};
use std::alloc::Global;
use std::fmt;
use thiserror::Error;

/// What of a host its program hasn't stored.
pub(crate) type Lasting = Waiting;

/// An append that is under way: its token, and the bytes that the program stores after those that
/// it has. Without an append there are no bytes.
#[derive(Drop)]
pub struct Append {
    pub token: u32,
    pub bytes: Vec<u8>,
}

/// Why an append wasn't begun, or an answer to it wasn't taken.
#[derive(Clone, Copy, Debug, PartialEq, Eq, Error)]
pub enum AppendFault {
    #[error("the host was not resumed")]
    NotLasting,
    #[error("no append with this token is under way")]
    NotAwaited,
    #[error("memory was refused")]
    Memory,
}

/// Numbers a clock. Its entry waits if the host has a log.
pub(crate) fn clock_by(
    host: &mut Host,
    lasting: &mut Option<Lasting>,
    time: i64,
) -> Result<u64, NumberFault>
    ensures mark { host.new.mark ≡ host.old.mark }
    ensures step { spec.IsClockedBy lasting.old host.old.part time result host.new.part
        lasting.new }
{
    if let Some(waiting) = lasting {
        return waiting.clock(host, time);
    }
    host.clock(time)
}

/// Takes a datagram that was decoded. The entry of an offer waits if the host has a log.
pub(crate) fn take_by(
    host: &mut Host,
    lasting: &mut Option<Lasting>,
    read: &Result<Message, WireFault>,
) -> Result<HostReply, HostFault>
    ensures mark { host.new.mark ≡ host.old.mark }
    ensures step { spec.IsTakenBy host.old.mark lasting.old host.old.part read.now result
        host.new.part lasting.new }
{
    if let Some(waiting) = lasting {
        return waiting.take(host, read);
    }
    take(host, read)
}

/// Returns the datagram of an input, if there is one, and it is stored if the host has a log.
pub(crate) fn packet_by(host: &Host, lasting: &Option<Lasting>, number: u64) -> Option<Packet>
    ensures { option_map (λ p. p.items) result
        ≡ spec.packet_by host.now.mark lasting.now host.now.part number }
{
    match lasting {
        Some(waiting) => waiting.packet(host, number),
        None => host.packet(number),
    }
}

/// Returns the datagram of what is kept of a viewer, if there is such a viewer.
fn ack_for(host: &Host, who: u8) -> Option<Packet>
    ensures { option_map (λ p. p.items) result
        ≡ spec.ack_by host.now.mark None host.now.part who }
{
    if who >= host.viewers() {
        return None;
    }
    Some(host.ack(who))
}

/// Returns the datagram of what is kept of a viewer, by its stored offers if the host has a log.
pub(crate) fn ack_by(host: &Host, lasting: &Option<Lasting>, who: u8) -> Option<Packet>
    ensures { option_map (λ p. p.items) result
        ≡ spec.ack_by host.now.mark lasting.now host.now.part who }
{
    match lasting {
        Some(waiting) => waiting.ack(host, who),
        None => ack_for(host, who),
    }
}

/// Drops the inputs below a number, but none that isn't stored.
pub(crate) fn drop_by(
    host: &mut Host,
    lasting: &Option<Lasting>,
    floor: u64,
) -> Result<u64, FloorFault>
    ensures mark { host.new.mark ≡ host.old.mark }
    ensures step { spec.drop_by lasting.now host.old.part floor ≡ (result, host.new.part) }
{
    match lasting {
        Some(waiting) => waiting.drop_below(host, floor),
        None => host.drop_below(floor),
    }
}

/// Drops the inputs that every viewer that asked has, except the last `count` of them, but none
/// that isn't stored.
pub(crate) fn keep_by(host: &mut Host, lasting: &Option<Lasting>, heard: &Heard, count: u64)
    ensures mark { host.new.mark ≡ host.old.mark }
    ensures part { host.new.part ≡ spec.keeping_by lasting.now count heard.now host.old.part }
{
    match lasting {
        Some(waiting) => waiting.drop_passed(host, heard, count),
        None => drop_passed(host, heard, Some(count)),
    }
}

/// Begins an append of the entries that wait, unless one is under way, and returns it with its
/// bytes.
fn begin(alloc: Global, host: &Host, waiting: &mut Lasting) -> Result<Append, AppendFault>
    ensures waiting { waiting.new ≡ begun waiting.old host.now.part.count }
    ensures append { IfOk result (spec.IsAppend host.now.mark waiting.new) }
    ensures memory { IfErr result (λ fault. fault ≡ append.Memory) }
{
    waiting.begin_append(host);
    let first = waiting.stored() + 1;
    match append_bytes(alloc, &host.mark(), first, waiting.appending()) {
        Ok(bytes) => Ok(Append {
            token: waiting.token(),
            bytes,
        }),
        Err(_refused) => Err(AppendFault::Memory),
    }
}

/// Takes an answer to the append with this token, if it is awaited, and returns whether the host
/// goes on.
fn answer(
    host: &Host,
    waiting: &mut Lasting,
    token: u32,
    given: AppendAnswer,
) -> Result<bool, AppendFault>
    ensures { spec.IsAnswered waiting.old token given result waiting.new }
{
    if !waiting.awaits(token) {
        return Err(AppendFault::NotAwaited);
    }
    if !goes_on(given) {
        return Ok(false);
    }
    let _was_awaited = waiting.store(host, token);
    Ok(true)
}

impl EmbeddedHost {
    ghost use Rattle.std.specs.Prelude.{◌≡◌};
    ghost use Rattle.embed_world.specs.Lasting.{Answers, Begins};

    /// Returns the append that is under way with its bytes. If there is none, it first begins one
    /// of all entries that wait; if none wait, there are no bytes.
    ///
    /// Fails with `NotLasting` if the host was not resumed, or with `Memory`, which changes nothing
    /// but that the append is under way: call again.
    pub fn pending(&mut self, alloc: Global) -> Result<Append, AppendFault>
        ensures { Begins self.old result self.new }
    {
        if let Some(waiting) = &mut self.lasting {
            return begin(alloc, &self.host, waiting);
        }
        Err(AppendFault::NotLasting)
    }

    /// Takes the answer of the program's log to the append with this token, and returns whether the
    /// host goes on. After `Stored` it shows the entries of that append. After another answer drop
    /// it, and begin again.
    ///
    /// Fails with `NotLasting` if the host was not resumed, or with `NotAwaited` if no append with
    /// this token is under way; nothing changes then.
    pub fn answer(&mut self, token: u32, given: AppendAnswer) -> Result<bool, AppendFault>
        ensures { Answers token given self.old result self.new }
    {
        if let Some(waiting) = &mut self.lasting {
            return answer(&self.host, waiting, token, given);
        }
        Err(AppendFault::NotLasting)
    }

    /// Returns the time of the last input that was numbered in microseconds, or 0 before the first.
    pub fn time(&self) -> i64
        ensures { result ≡ self.now.host.part.last }
    {
        self.host.last()
    }
}
