//! The host and the viewers of a rehearsal, every packet that was made and every snapshot that was
//! taken, and how a step changes them.

ghost use Rattle.std.specs.Prelude.{◌≡◌, ◌++◌, [], ◌∷◌, length, map, slice_get, IfOk, Some, Ok};
ghost use Rattle.std.specs.Option.{option_map};
ghost use Rattle.share_law.specs.declared.step.Step.TheVariants.{HostClock, HostPacket, HostAck};
ghost use Rattle.share_law.specs.declared.step.Step.TheVariants.{HostTake, ViewerOffer};
ghost use Rattle.share_law.specs.declared.step.Step.TheVariants.{ViewerResend, ViewerAsk};
ghost use Rattle.share_law.specs.declared.step.Step.TheVariants.{ViewerTake, ViewerSave};
ghost use Rattle.share_law.specs.declared.step.Step.TheVariants.{ViewerRewind, HostDropBelow};
ghost use Rattle.share_law.specs.declared.step.Step.TheVariants.{HostFloorPacket, PiecePacket};
ghost use Rattle.share_law.specs.declared.step.Step.TheVariants.{ViewerForget, ViewerGather};
ghost use Rattle.share_law.specs.declared.step.Step.TheVariants.{ViewerJoin};
ghost use Rattle.share_rehearsal.specs.Calls.{IsCall, IsSaving, IsSent, seen};

use crate::answer::Answer;
use crate::made::Made;
use script_host::Behaviour;
use share_core::{Host, Viewer, piece_packet};
use share_law::Step;
use share_rules::seat_of;
use share_wire::Packet;
use std::alloc::{AllocError, Global};
use x3d_lists::Items;
use x3d_values::Point;

/// A snapshot and the number of the viewer that took it.
#[derive(Drop)]
pub struct Shot {
    pub viewer: u32,
    pub bytes: Items<u8>,
}

/// The nodes of a rehearsal. A packet or snapshot is numbered by its place in its list, from 0.
#[derive(Drop)]
pub(crate) struct Nodes<B: Behaviour> {
    pub(crate) host: Host,
    pub(crate) viewers: Vec<Viewer<B>>,
    pub(crate) packets: Vec<Made>,
    pub(crate) shots: Vec<Shot>,
}

/// Appends a packet to those that were made.
fn send(packet: Packet, packets: &mut Vec<Made>) -> Result<Answer, AllocError>
    ensures { IfOk result (λ a. IsSent (Some packet.items) packets.old.items a packets.new.items) }
{
    let number = packets.len();
    packets.push(Made::new(packet))?;
    Ok(Answer::Sent(Some(number)))
}

/// Appends the packet, if there is one, to those that were made.
fn send_any(packet: Option<Packet>, packets: &mut Vec<Made>) -> Result<Answer, AllocError>
    ensures { IfOk result (λ a.
        IsSent (option_map (λ p. p.items) packet) packets.old.items a packets.new.items) }
{
    match packet {
        Some(packet) => send(packet, packets),
        None => Ok(Answer::Sent(None)),
    }
}

/// Appends a snapshot to those that were taken.
fn keep(viewer: u32, bytes: Vec<u8>, shots: &mut Vec<Shot>) -> Result<Answer, AllocError>
    ensures { IfOk result (λ a. (a ≡ Answer.Saved (Ok (length shots.old.items)))
        × (shots.new.items
        ≡ shots.old.items ++ record { viewer = viewer; bytes = bytes.items } ∷ [])) }
{
    let number = shots.len();
    let bytes = Items::from_vec(bytes);
    shots.push(Shot { viewer, bytes })?;
    Ok(Answer::Saved(Ok(number)))
}

/// Takes a snapshot of a viewer.
fn save<B: Behaviour>(
    alloc: Global,
    number: u32,
    viewer: &Viewer<B>,
    shots: &mut Vec<Shot>,
) -> Result<Answer, AllocError>
    ensures { IfOk result (λ a.
        IsSaving number viewer.now shots.old.items viewer.now.state.view a shots.new.items) }
{
    let _boot = viewer.boot();
    let mut bytes = Vec::new(alloc);
    let saved = viewer.snapshot(&mut bytes);
    let _len = bytes.len();
    match saved {
        Ok(()) => keep(number, bytes, shots),
        Err(fault) => Ok(Answer::Saved(Err(fault))),
    }
}

impl<B: Behaviour> Nodes<B> {
    fn clock(&mut self, time: i64) -> Answer
        ensures { IsCall (seen self.old) (HostClock time) result (seen self.new) }
    {
        Answer::Clocked(self.host.clock(time))
    }

    fn packet(&mut self, input: u64) -> Result<Answer, AllocError>
        ensures { IfOk result (λ a. IsCall (seen self.old) (HostPacket input) a (seen self.new)) }
    {
        send_any(self.host.packet(input), &mut self.packets)
    }

    fn ack(&mut self, viewer: u32) -> Result<Answer, AllocError>
        ensures { IfOk result (λ a. IsCall (seen self.old) (HostAck viewer) a (seen self.new)) }
    {
        if viewer >= u32::from(self.host.viewers()) {
            return Ok(Answer::NoSuch);
        }
        send(self.host.ack(viewer as u8), &mut self.packets)
    }

    fn give_host(&mut self, packet: u32) -> Answer
        ensures { IsCall (seen self.old) (HostTake packet) result (seen self.new) }
    {
        match self.packets.get(packet as usize) {
            Some(packet) => Answer::HostTook(self.host.take(packet.bytes())),
            None => Answer::NoSuch,
        }
    }

    fn offer(&mut self, viewer: u32, point: Point) -> Answer
        ensures { IsCall (seen self.old) (ViewerOffer viewer point) result (seen self.new) }
    {
        let Some(seat) = seat_of(self.viewers.len(), viewer) else {
            return Answer::NoSuch;
        };
        Answer::Offered(self.viewers[seat].offer(point))
    }

    fn resend(&mut self, viewer: u32, place: u32) -> Result<Answer, AllocError>
        ensures { IfOk result (λ a.
            IsCall (seen self.old) (ViewerResend viewer place) a (seen self.new)) }
    {
        let Some(seat) = seat_of(self.viewers.len(), viewer) else {
            return Ok(Answer::NoSuch);
        };
        send_any(self.viewers[seat].resend(place), &mut self.packets)
    }

    fn ask(&mut self, viewer: u32) -> Result<Answer, AllocError>
        ensures { IfOk result (λ a. IsCall (seen self.old) (ViewerAsk viewer) a (seen self.new)) }
    {
        let Some(seat) = seat_of(self.viewers.len(), viewer) else {
            return Ok(Answer::NoSuch);
        };
        send(self.viewers[seat].ask(), &mut self.packets)
    }

    fn give(&mut self, viewer: u32, packet: u32) -> Answer
        ensures { IsCall (seen self.old) (ViewerTake viewer packet) result (seen self.new) }
    {
        let Some(seat) = seat_of(self.viewers.len(), viewer) else {
            return Answer::NoSuch;
        };
        match self.packets.get(packet as usize) {
            Some(packet) => Answer::ViewerTook(self.viewers[seat].take(packet.bytes())),
            None => Answer::NoSuch,
        }
    }

    fn save(&mut self, alloc: Global, viewer: u32) -> Result<Answer, AllocError>
        ensures { IfOk result (λ a. IsCall (seen self.old) (ViewerSave viewer) a (seen self.new)) }
    {
        let Some(seat) = seat_of(self.viewers.len(), viewer) else {
            return Ok(Answer::NoSuch);
        };
        save(alloc, viewer, &self.viewers[seat], &mut self.shots)
    }

    fn rewind(&mut self, viewer: u32, snapshot: u32, boot: u32) -> Answer
        ensures { IsCall (seen self.old) (ViewerRewind viewer snapshot boot) result
            (seen self.new) }
    {
        let Some(seat) = seat_of(self.viewers.len(), viewer) else {
            return Answer::NoSuch;
        };
        match self.shots.get(snapshot as usize) {
            None => Answer::NoSuch,
            Some(shot) => Answer::Rewound(self.viewers[seat].rewind(shot.bytes.as_slice(), boot)),
        }
    }

    fn drop_below(&mut self, floor: u64) -> Answer
        ensures { IsCall (seen self.old) (HostDropBelow floor) result (seen self.new) }
    {
        Answer::Dropped(self.host.drop_below(floor))
    }

    fn notice(&mut self) -> Result<Answer, AllocError>
        ensures { IfOk result (λ a. IsCall (seen self.old) HostFloorPacket a (seen self.new)) }
    {
        send(self.host.floor_packet(), &mut self.packets)
    }

    fn piece(&mut self, snapshot: u32, piece: u32) -> Result<Answer, AllocError>
        ensures { IfOk result (λ a.
            IsCall (seen self.old) (PiecePacket snapshot piece) a (seen self.new)) }
    {
        let mark = self.host.mark();
        match self.shots.get(snapshot as usize) {
            None => Ok(Answer::NoSuch),
            Some(shot) => send_any(
                piece_packet(mark, shot.bytes.as_slice(), piece),
                &mut self.packets,
            ),
        }
    }

    fn gather(&mut self, viewer: u32, packet: u32) -> Answer
        ensures { IsCall (seen self.old) (ViewerGather viewer packet) result (seen self.new) }
    {
        let Some(seat) = seat_of(self.viewers.len(), viewer) else {
            return Answer::NoSuch;
        };
        match self.packets.get(packet as usize) {
            Some(packet) => Answer::Collected(self.viewers[seat].gather(packet.bytes())),
            None => Answer::NoSuch,
        }
    }

    fn join(&mut self, viewer: u32, boot: u32) -> Answer
        ensures { IsCall (seen self.old) (ViewerJoin viewer boot) result (seen self.new) }
    {
        let Some(seat) = seat_of(self.viewers.len(), viewer) else {
            return Answer::NoSuch;
        };
        Answer::Joined(self.viewers[seat].join(boot))
    }

    fn forget(&mut self, viewer: u32) -> Answer
        ensures { IsCall (seen self.old) (ViewerForget viewer) result (seen self.new) }
    {
        let Some(seat) = seat_of(self.viewers.len(), viewer) else {
            return Answer::NoSuch;
        };
        self.viewers[seat].forget();
        Answer::Forgot
    }

    /// Runs a step and returns its answer. Fails only if the list of packets or the list of
    /// snapshots ran out of memory.
    pub(crate) fn go(&mut self, alloc: Global, step: Step) -> Result<Answer, AllocError>
        ensures { IfOk result (λ a. IsCall (seen self.old) step a (seen self.new)) }
    {
        match step {
            Step::HostClock { time } => Ok(self.clock(time)),
            Step::HostPacket { input } => self.packet(input),
            Step::HostAck { viewer } => self.ack(viewer),
            Step::HostTake { packet } => Ok(self.give_host(packet)),
            Step::ViewerOffer { viewer, point } => Ok(self.offer(viewer, point)),
            Step::ViewerResend { viewer, place } => self.resend(viewer, place),
            Step::ViewerAsk { viewer } => self.ask(viewer),
            Step::ViewerTake { viewer, packet } => Ok(self.give(viewer, packet)),
            Step::ViewerSave { viewer } => self.save(alloc, viewer),
            Step::ViewerRewind {
                viewer,
                snapshot,
                boot,
            } => Ok(self.rewind(viewer, snapshot, boot)),
            Step::HostDropBelow { floor } => Ok(self.drop_below(floor)),
            Step::HostFloorPacket => self.notice(),
            Step::PiecePacket { snapshot, piece } => self.piece(snapshot, piece),
            Step::ViewerGather { viewer, packet } => Ok(self.gather(viewer, packet)),
            Step::ViewerJoin { viewer, boot } => Ok(self.join(viewer, boot)),
            Step::ViewerForget { viewer } => Ok(self.forget(viewer)),
        }
    }
}
