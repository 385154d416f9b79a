//! What a host shows: its stored entries alone.

ghost use Rattle.std.specs.Prelude.{◌≡◌, ◌<◌, ◌≤◌, IfSome, slice_get};
ghost use Rattle.std.specs.Option.{option_map};
ghost use Rattle.x3d_values.specs.Ranges.{max_inputs, max_viewers};
ghost use Rattle.share_law.specs.Host.{ack_of};
ghost use Rattle.share_turns.specs.HostTurn.{datagram_of};
ghost use Rattle.share_pending.specs.Showing.{ack_bytes, packet_bytes, shown_answer};
ghost use Rattle.share_pending.specs.Showing.{shown_reply, shown_run, stored_drop, stored_keeping};

use crate::kept::Kept;
use crate::waiting::Waiting;
use share_core::Host;
use share_law::{FloorFault, HostFault, HostReply};
use share_rules::SeatCount;
use share_turns::{Heard, floor_for};
use share_wire::{Ack, Body, Message, Packet, encode};

fn shown_run(stored: u64, first: u64, count: u64) -> HostReply
    ensures { result ≡ shown_run stored first count }
{
    if stored < first {
        return HostReply::NothingToDo;
    }
    if count <= stored - first {
        return HostReply::Asked { first, count };
    }
    HostReply::Asked {
        first,
        count: stored - first + 1,
    }
}

fn shown_reply(reply: HostReply, stored: u64) -> HostReply
    ensures { result ≡ shown_reply stored reply }
{
    match reply {
        HostReply::Asked { first, count } => shown_run(stored, first, count),
        _ => reply,
    }
}

/// Returns what is answered to a datagram: to an ask at most the stored inputs.
pub(crate) fn shown_answer(
    answer: Result<HostReply, HostFault>,
    stored: u64,
) -> Result<HostReply, HostFault>
    ensures { result ≡ shown_answer stored answer }
{
    match answer {
        Ok(reply) => Ok(shown_reply(reply, stored)),
        Err(fault) => Err(fault),
    }
}

/// Returns the datagram of an input, if it is one of the `stored` first.
fn packet_of(host: &Host, stored: u64, number: u64) -> Option<Packet>
    ensures { option_map (λ p. p.items) result
        ≡ packet_bytes host.now.mark stored host.now.part number }
{
    if stored < number {
        return None;
    }
    host.packet(number)
}

/// Returns the datagram of what is kept of a viewer.
fn ack_packet(mark: [u8; 32], who: u8, kept: SeatCount) -> Packet
    requires { who < max_viewers }
    ensures { result.items ≡ datagram_of mark (ack_of who kept) }
{
    encode(&Message {
        mark,
        body: Body::Ack(Ack::new(who, kept.boot, kept.count)),
    })
}

fn place_of(kept: &Kept, who: u8) -> Option<SeatCount>
    ensures { result ≡ slice_get kept.now.items who }
{
    kept.as_slice().get(who as usize).copied()
}

/// Returns what is kept of a viewer, if there is one with this number.
fn kept_of(kept: &Kept, who: u8) -> Option<SeatCount>
    ensures value { result ≡ slice_get kept.now.items who }
    ensures within { IfSome result (λ _. who < max_viewers) }
{
    let _slots = kept.as_slice();
    place_of(kept, who)
}

/// Returns the datagram of what is kept of a viewer, if there is such a viewer.
fn ack_for(mark: [u8; 32], kept: &Kept, who: u8) -> Option<Packet>
    ensures { option_map (λ p. p.items) result ≡ ack_bytes mark kept.now.items who }
{
    match kept_of(kept, who) {
        Some(kept) => Some(ack_packet(mark, who, kept)),
        None => None,
    }
}

/// Drops the inputs below a number, if all of them are of the `stored` first.
fn drop_stored(host: &mut Host, stored: u64, floor: u64) -> Result<u64, FloorFault>
    ensures mark { host.new.mark ≡ host.old.mark }
    ensures step { stored_drop stored host.old.part floor ≡ (result, host.new.part) }
{
    if stored < floor.saturating_sub(1) {
        return Err(FloorFault::FloorAhead);
    }
    host.drop_below(floor)
}

/// Drops inputs of the `stored` first, by what viewers have asked from.
fn drop_heard(host: &mut Host, stored: u64, keep: u64, heard: &Heard)
    requires { stored ≤ max_inputs }
    ensures mark { host.new.mark ≡ host.old.mark }
    ensures part { host.new.part ≡ stored_keeping stored keep heard.now host.old.part }
{
    let Some(lowest) = heard.lowest() else {
        return;
    };
    let floor = floor_for(keep, lowest, host.floor(), stored);
    let _floor = drop_stored(host, stored, floor);
}

impl Waiting {
    ghost use Rattle.std.specs.Prelude.{◌≡◌, Some};
    ghost use Rattle.std.specs.Option.{option_map};
    ghost use Rattle.share_law.specs.Parts.{part_floor_packet};
    ghost use Rattle.share_turns.specs.HostTurn.{datagram_of};
    ghost use Rattle.share_pending.specs.Showing.{ack_bytes, packet_bytes};
    ghost use Rattle.share_pending.specs.Showing.{stored_drop, stored_keeping};
    ghost use Rattle.share_pending.specs.Written.{ShowsStored, StaysAhead};

    /// Returns the datagram of the input with this number, like `Host::packet` of share_core.
    /// Returns `None` also if the input isn't stored.
    pub fn packet(&self, host: &Host, number: u64) -> Option<Packet>
        ensures bytes { option_map (λ p. p.items) result
            ≡ packet_bytes host.now.mark self.now.stored host.now.part number }
        ensures shown { ShowsStored host.now.mark host.now.part self.now
            (option_map (λ p. p.items) result) }
    {
        packet_of(host, self.stored, number)
    }

    /// Returns the datagram that reports how many offers of viewer `who` are stored. Returns `None`
    /// if there is no such viewer.
    pub fn ack(&self, host: &Host, who: u8) -> Option<Packet>
        ensures bytes { option_map (λ p. p.items) result
            ≡ ack_bytes host.now.mark self.now.kept who }
        ensures shown { ShowsStored host.now.mark host.now.part self.now
            (option_map (λ p. p.items) result) }
    {
        ack_for(host.mark(), &self.kept, who)
    }

    /// Returns the datagram that reports the floor, like `Host::floor_packet` of share_core.
    pub fn floor_packet(&self, host: &Host) -> Packet
        ensures bytes { result.items
            ≡ datagram_of host.now.mark (part_floor_packet host.now.part) }
        ensures shown { ShowsStored host.now.mark host.now.part self.now (Some result.items) }
    {
        let _stored = self.stored;
        host.floor_packet()
    }

    /// Drops the inputs below this number, like `Host::drop_below` of share_core. Fails with
    /// `FloorAhead` also if the number is above that of the first input that isn't stored.
    pub fn drop_below(&self, host: &mut Host, floor: u64) -> Result<u64, FloorFault>
        ensures mark { host.new.mark ≡ host.old.mark }
        ensures step { stored_drop self.now.stored host.old.part floor
            ≡ (result, host.new.part) }
        ensures log { StaysAhead host.old.part self.now host.new.part self.now }
    {
        drop_stored(host, self.stored, floor)
    }

    /// Drops the stored inputs that every viewer that asked has, except the last `keep` of them.
    /// Drops nothing if none has asked.
    pub fn drop_passed(&self, host: &mut Host, heard: &Heard, keep: u64)
        ensures mark { host.new.mark ≡ host.old.mark }
        ensures part { host.new.part
            ≡ stored_keeping self.now.stored keep heard.now host.old.part }
        ensures log { StaysAhead host.old.part self.now host.new.part self.now }
    {
        drop_heard(host, self.stored, keep, heard);
    }
}
