//! The host: it numbers inputs, and keeps for each viewer how many of its offers are numbered.

ghost use Rattle.std.specs.Prelude.{◌≡◌, ◌<◌, ◌≤◌, Ok, length, slice_get, slice_set};
ghost use Rattle.std.specs.Option.{option_map};
ghost use Rattle.x3d_values.specs.Ranges.{max_inputs, max_viewers};
ghost use Rattle.share_law.specs.Host.{count_for, input_packet, reply_before};
ghost use Rattle.share_wire.specs.Datagram.{datagram};
ghost use Rattle.share_wire.specs.Decoding.{decoded};

use crate::inputs::HostInputs;
use arrayvec::ArrayVec;
use share_law::{FloorFault, HostFault, HostReply, NumberFault};
use share_rules::{SeatCount, Standing, span_of, standing_of};
use share_wire::{Ack, Ask, Body, Floor, Message, Offer, Packet, decode, encode};
use std::alloc::Global;
use std::marker::Model;
use x3d_values::{Cause, MAX_VIEWERS, Stamped};

/// The largest number of viewers of a host.
const SEATS: usize = MAX_VIEWERS as usize;

/// The host of a shared world: the mark of its scene, the inputs that it numbered, from its floor
/// on, and what it keeps of each viewer.
#[derive(Drop)]
pub struct Host {
    mark: [u8; 32],
    inputs: HostInputs,
    kept: ArrayVec<SeatCount, SEATS>,
}

impl Model for Host {
    ghost use Rattle.std.specs.Prelude.{◌≡◌, ◌≤◌, length};
    ghost use Rattle.x3d_values.specs.Ranges.{max_viewers};
    ghost use Rattle.share_law.specs.HostCalls.{IsSomePart};
    ghost use Rattle.share_core.specs.Host.{HostView, part_with};

    ghost Value = { HostView };

    ghost view = { λ h. record { mark = h.mark; part = part_with h.inputs h.kept.items } };

    ghost invariant = { λ h. (length h.kept.items ≤ max_viewers) × (length h.mark ≡ 32)
        × IsSomePart (part_with h.inputs h.kept.items) };
}

/// Returns the number of numbered offers of a boot: 0 for any boot other than the kept one.
fn count_for(kept: SeatCount, boot: u32) -> u32
    ensures { result ≡ count_for kept boot }
{
    if kept.boot == boot { kept.count } else { 0 }
}

/// Returns the reply to an offer that isn't the next one of its viewer.
fn reply_before(kept: SeatCount, offer: Offer) -> Option<HostReply>
    ensures { result ≡ reply_before kept offer }
{
    let count = count_for(kept, offer.boot());
    match standing_of(kept.boot, count, offer.boot(), offer.number()) {
        Standing::OldBoot => Some(HostReply::OldBoot),
        Standing::Repeat => Some(HostReply::Repeat),
        Standing::Ahead => Some(HostReply::Ahead),
        Standing::Next => None,
    }
}

/// Returns what is kept of a viewer, if there is one with this number.
fn kept_of(kept: &ArrayVec<SeatCount, SEATS>, who: u8) -> Option<SeatCount>
    ensures { result ≡ slice_get kept.now.items who }
{
    kept.as_slice().get(who as usize).copied()
}

fn set_kept(kept: &mut ArrayVec<SeatCount, SEATS>, who: u8, now: SeatCount)
    requires { who < length kept.old.items }
    ensures { kept.new.items ≡ slice_set kept.old.items who now }
{
    kept.as_mut_slice()[who as usize] = now;
}

/// Returns what is kept of viewers, in its places.
fn places_of(kept: &[SeatCount]) -> ArrayVec<SeatCount, SEATS>
    requires { length kept.now ≤ max_viewers }
    ensures { result.items ≡ kept.now }
{
    let mut places = ArrayVec::new();
    let _fits = places.try_extend_from_slice(kept);
    places
}

/// Returns the packet of an input, if there is one.
fn packet_of(mark: [u8; 32], input: Option<Stamped>) -> Option<Packet>
    ensures bytes { option_map (λ p. p.items) result
        ≡ option_map (λ body. datagram (record { mark = mark; body = body }))
        (input_packet input) }
    ensures again { option_map (λ p. decoded p.items) result
        ≡ option_map (λ body. Ok (record { mark = mark; body = body })) (input_packet input) }
{
    match input {
        Some(input) => Some(encode(&Message {
            mark,
            body: Body::Input(input),
        })),
        None => None,
    }
}

impl Host {
    ghost use Rattle.std.specs.Prelude.{◌≡◌, ◌<◌, ◌≤◌, ◌^◌, Ok, Some, IfOk, length, slice_get};
    ghost use Rattle.std.specs.Prelude.{pos, ◌≤ℤ◌};
    ghost use Rattle.std.specs.Option.{option_map};
    ghost use Rattle.x3d_values.specs.Ranges.{max_inputs, max_time, max_viewers};
    ghost use Rattle.share_wire.specs.Datagram.{datagram};
    ghost use Rattle.share_wire.specs.Decoding.{decoded};
    ghost use Rattle.share_wire.specs.declared.message.Body.TheVariants as body;
    ghost use Rattle.share_law.specs.Host.{ack_of};
    ghost use Rattle.share_law.specs.Parts.{new_part, part_ask_came, part_behind, part_drop_below};
    ghost use Rattle.share_law.specs.Parts.{part_floor_packet, part_packet};
    ghost use Rattle.share_law.specs.Calls.{IsPartClocked, IsPartTake, IsPartTakeOf};
    ghost use Rattle.share_law.specs.HostCalls.{IsSomePart};
    ghost use Rattle.share_core.specs.Host.{AreNumbered};

    /// Creates the host of a scene with this mark, for 1 to `MAX_VIEWERS` viewers, numbered from 0.
    /// Takes no memory; its list of inputs grows with `alloc`.
    pub fn new(alloc: Global, mark: [u8; 32], viewers: u8) -> Host
        requires some { 1 ≤ viewers }
        requires most { viewers ≤ max_viewers }
        ensures { result ≡ record { mark = mark; part = new_part viewers } }
    {
        let mut kept = ArrayVec::from_array_in((), [SeatCount::default(); SEATS]);
        kept.truncate(viewers as usize);
        Host {
            mark,
            inputs: HostInputs::new(alloc),
            kept,
        }
    }

    /// Creates the host of a scene with this mark that has numbered `count` inputs, the last at a
    /// time in microseconds, and has none of them any more: its floor is the number of the next.
    /// `kept` is what it keeps of each of its 1 to `MAX_VIEWERS` viewers. Takes no memory; its list
    /// of inputs grows with `alloc`.
    pub fn behind(alloc: Global, mark: [u8; 32], kept: &[SeatCount], count: u64, last: i64) -> Host
        requires some { 1 ≤ length kept.now }
        requires most { length kept.now ≤ max_viewers }
        requires few { count ≤ max_inputs }
        requires from { pos 0 ≤ℤ last }
        requires to { last ≤ℤ pos max_time }
        requires none { count ≡ 0 → last ≡ pos 0 }
        ensures { result ≡ record { mark = mark; part = part_behind count last kept.now } }
    {
        Host {
            mark,
            inputs: HostInputs::behind(alloc, count, last),
            kept: places_of(kept),
        }
    }

    /// Numbers a clock input at a time in microseconds. Returns its number.
    ///
    /// Fails, in this order, with `WorldFull` if 2^48 - 1 inputs are numbered, `TimeNotLater` if
    /// the time isn't above that of the last input and above 0, `TimeRange` if it is above 10^18,
    /// or `Memory`. A failure changes nothing.
    pub fn clock(&mut self, time: i64) -> Result<u64, NumberFault>
        ensures mark { self.new.mark ≡ self.old.mark }
        ensures step { IsPartClocked self.old.part time result self.new.part }
    {
        self.inputs.add(time, Cause::Clock)
    }

    /// Returns the packet of the input with this number. Returns `None` if there is no such input
    /// or it is below the floor. Takes no memory.
    pub fn packet(&self, number: u64) -> Option<Packet>
        ensures bytes { option_map (λ p. p.items) result
            ≡ option_map (λ body. datagram (record { mark = self.now.mark; body = body }))
            (part_packet self.now.part number) }
        // The packet decodes to that input.
        ensures again { option_map (λ p. decoded p.items) result
            ≡ option_map (λ body. Ok (record { mark = self.now.mark; body = body }))
            (part_packet self.now.part number) }
    {
        packet_of(self.mark, self.inputs.get(number))
    }

    /// Returns the floor, the number from which on there are packets of inputs. It is 1 at first,
    /// and at most the number of the next input.
    pub fn floor(&self) -> u64
        ensures value { result ≡ self.now.part.floor }
        // Of every host: some host of the law, with its whole list, has its part.
        ensures part { IsSomePart self.now.part }
    {
        self.inputs.floor()
    }

    /// Drops the inputs below this number, and returns it. Their memory is reused or freed. Takes
    /// no memory.
    ///
    /// Fails, in this order, with `FloorBack` if the number is below the floor, or `FloorAhead` if
    /// it is above that of the next input. A failure changes nothing.
    pub fn drop_below(&mut self, floor: u64) -> Result<u64, FloorFault>
        ensures mark { self.new.mark ≡ self.old.mark }
        ensures step { part_drop_below self.old.part floor ≡ (result, self.new.part) }
    {
        if floor < self.inputs.floor() {
            return Err(FloorFault::FloorBack);
        }
        if floor > self.inputs.len() + 1 {
            return Err(FloorFault::FloorAhead);
        }
        self.inputs.drop_below(floor);
        Ok(floor)
    }

    /// Returns the packet that reports the floor. Takes no memory.
    pub fn floor_packet(&self) -> Packet
        ensures bytes { result.items
            ≡ datagram (record { mark = self.now.mark; body = part_floor_packet self.now.part }) }
        // The packet decodes to that floor.
        ensures again { decoded result.items
            ≡ Ok (record { mark = self.now.mark; body = part_floor_packet self.now.part }) }
    {
        let _count = self.inputs.len();
        encode(&Message {
            mark: self.mark,
            body: Body::Floor(Floor::new(self.inputs.floor())),
        })
    }

    /// Returns the number of numbered inputs: at most 2^48 - 1.
    pub fn len(&self) -> u64
        ensures value { result ≡ self.now.part.count }
        ensures most { result ≤ max_inputs }
    {
        self.inputs.len()
    }

    /// Returns the time of the last input in microseconds, or 0 before the first.
    pub fn last(&self) -> i64
        ensures value { result ≡ self.now.part.last }
        ensures from { pos 0 ≤ℤ self.now.part.last }
    {
        self.inputs.last()
    }

    /// Returns the mark of the host's scene.
    pub fn mark(&self) -> [u8; 32]
        ensures value { result ≡ self.now.mark }
        ensures bytes { length result ≡ 32 }
    {
        self.mark
    }

    /// Returns the number of viewers: 1 to `MAX_VIEWERS`.
    pub fn viewers(&self) -> u8
        ensures { result ≡ length self.now.part.kept }
    {
        self.kept.len() as u8
    }

    /// Returns what is kept of each viewer.
    pub fn kept(&self) -> &[SeatCount]
        ensures value { result.now ≡ self.now.part.kept }
        ensures most { length result.now ≤ max_viewers }
    {
        self.kept.as_slice()
    }

    /// Returns the packet that reports to a viewer the boot that is kept of it, and how many offers
    /// of that boot are numbered. `who` must be below `viewers`. Takes no memory.
    pub fn ack(&self, who: u8) -> Packet
        requires { who < length self.now.part.kept }
        ensures bytes { option_map
            (λ kept. datagram (record { mark = self.now.mark; body = ack_of who kept }))
            (slice_get self.now.part.kept who) ≡ Some result.items }
        // The packet decodes to that ack.
        ensures again { option_map
            (λ kept. Ok (record { mark = self.now.mark; body = ack_of who kept }))
            (slice_get self.now.part.kept who) ≡ Some (decoded result.items) }
    {
        let kept = self.kept.as_slice()[who as usize];
        encode(&Message {
            mark: self.mark,
            body: Body::Ack(Ack::new(who, kept.boot, kept.count)),
        })
    }

    /// Takes the bytes of a packet.
    ///
    /// The reply to an ask names at most 64 inputs, from the one asked for on. It is `Below` with
    /// the floor if that one is below the floor, and `NothingToDo` if that one isn't numbered yet.
    /// The next offer of a viewer is numbered, 1 microsecond after the last input. An earlier offer
    /// is a `Repeat`, a later one is `Ahead`, and one of an earlier boot is of an `OldBoot`. Of a
    /// boot above the kept one, no offer is numbered yet. Inputs, acks, floors and pieces are
    /// `NothingToDo`.
    ///
    /// Fails, in this order, with `Wire` if the bytes aren't a datagram, `WrongScene` if it has
    /// another mark, `BadViewer` for an ask or an offer of a viewer that doesn't exist, or `Number`
    /// if an offer can't be numbered. A failure changes nothing.
    pub fn take(&mut self, bytes: &[u8]) -> Result<HostReply, HostFault>
        ensures mark { self.new.mark ≡ self.old.mark }
        ensures asked { IfOk result (AreNumbered self.new.part) }
        ensures step { IsPartTakeOf self.old.mark self.old.part (decoded bytes.now) result
            self.new.part }
    {
        match decode(bytes) {
            Ok(message) => self.take_message(message),
            Err(fault) => Err(HostFault::Wire(fault)),
        }
    }

    /// Takes a decoded message, like `take` after it has decoded the bytes. The first fault is then
    /// `WrongScene`.
    pub fn take_message(&mut self, message: Message) -> Result<HostReply, HostFault>
        ensures mark { self.new.mark ≡ self.old.mark }
        ensures asked { IfOk result (AreNumbered self.new.part) }
        ensures step { IsPartTakeOf self.old.mark self.old.part (Ok message) result
            self.new.part }
    {
        if message.mark != self.mark {
            return Err(HostFault::WrongScene);
        }
        self.take_body(message.body)
    }

    fn take_body(&mut self, body: Body) -> Result<HostReply, HostFault>
        ensures mark { self.new.mark ≡ self.old.mark }
        ensures asked { IfOk result (AreNumbered self.new.part) }
        ensures step { IsPartTake self.old.part body result self.new.part }
    {
        match body {
            Body::Ask(ask) => self.take_ask(ask),
            Body::Offer(offer) => self.take_offer(offer),
            Body::Input(_) | Body::Ack(_) | Body::Floor(_) | Body::Piece(_) => {
                Ok(HostReply::NothingToDo)
            }
        }
    }

    /// Returns the reply to an ask.
    fn take_ask(&self, ask: Ask) -> Result<HostReply, HostFault>
        ensures asked { IfOk result (AreNumbered self.now.part) }
        ensures reply { result
            ≡ part_ask_came self.now.part ask.next (slice_get self.now.part.kept ask.who) }
    {
        if ask.who() as usize >= self.kept.len() {
            return Err(HostFault::BadViewer);
        }
        let floor = self.inputs.floor();
        if ask.next() < floor {
            return Ok(HostReply::Below(floor));
        }
        let count = self.inputs.len();
        if ask.next() > count {
            return Ok(HostReply::NothingToDo);
        }
        let span = span_of(ask.next(), count);
        Ok(HostReply::Asked {
            first: span.first,
            count: span.count,
        })
    }

    /// Numbers an offer, if it is the next one of its viewer.
    fn take_offer(&mut self, offer: Offer) -> Result<HostReply, HostFault>
        ensures mark { self.new.mark ≡ self.old.mark }
        ensures asked { IfOk result (AreNumbered self.new.part) }
        ensures step { IsPartTake self.old.part (body.Offer offer) result self.new.part }
    {
        let who = offer.pointer().who();
        let Some(kept) = kept_of(&self.kept, who) else {
            return Err(HostFault::BadViewer);
        };
        if let Some(reply) = reply_before(kept, offer) {
            return Ok(reply);
        }
        match self.inputs.add_next(Cause::Pointer(offer.pointer())) {
            Ok(number) => {
                let now = SeatCount {
                    boot: offer.boot(),
                    count: offer.number(),
                };
                set_kept(&mut self.kept, who, now);
                Ok(HostReply::Numbered(number))
            }
            Err(fault) => Err(HostFault::Number(fault)),
        }
    }
}
