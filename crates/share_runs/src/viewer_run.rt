//! A viewer in a run: what it hands on of the datagrams of that run, and what it keeps.

ghost use Rattle.std.specs.Prelude.{◌≡◌, [], ◌∷◌, OnErr, OnOk, filter};
ghost use Rattle.std.specs.List.{find};
ghost use Rattle.share_runs.specs.Hearing.{Holds, is_due, is_needed, kept_of};

use crate::known::KnownList;
use crate::saying::said_of;
use crate::step::{RunStep, step_for};
use share_session::{
    Body2, Input2, Message2, Packet2, Prefix, Run, Session, heard, next_chain, session_of,
};
use share_wire::{Packet, decode, encode};
use std::alloc::{AllocError, Global};

/// The most inputs that are held.
pub const MAX_HELD: usize = 64;

/// An input that came before others that the viewer lacks, and who sent it.
#[derive(Clone, Copy)]
pub struct Early {
    pub from: u16,
    pub input: Input2,
}

/// What a viewer in a run knows of its list of inputs, and the inputs that came too early.
#[derive(Drop)]
pub struct ViewerRun {
    pub(crate) mark: [u8; 32],
    pub(crate) session: Session,
    pub(crate) known: KnownList,
    pub(crate) held: Vec<Early>,
    pub(crate) is_other_list: bool,
}

/// Drops the input that came first, if more than `MAX_HELD` are held.
fn make_room(held: &mut Vec<Early>)
    ensures { held.new.items ≡ kept_of held.old.items }
{
    if held.len() > MAX_HELD {
        held.remove(0);
    }
}

/// Holds an input. If `MAX_HELD` are held, the one that came first is dropped. Fails if memory is
/// refused; then nothing changes.
fn hold(held: &mut Vec<Early>, early: Early) -> Result<(), AllocError>
    ensures ok { OnOk result (Holds held.old.items (early ∷ []) held.new.items) }
    ensures err { OnErr result (held.new.items ≡ held.old.items) }
{
    held.push(early)?;
    make_room(held);
    Ok(())
}

fn is_needed(known: &KnownList, early: &Early) -> bool
    ensures { result ≡ is_needed known.now early.now }
{
    known.is_needed(early.input.number.get())
}

/// Drops the inputs that a viewer has.
fn release(known: &KnownList, held: &mut Vec<Early>)
    ensures { held.new.items ≡ filter (is_needed known.now) held.old.items }
{
    held.retain(|early| is_needed(known, early));
}

fn is_due(known: &KnownList, early: &Early) -> bool
    ensures { result ≡ is_due known.now early.now }
{
    known.is_next(early.input.number.get())
}

/// Returns the first held input that is the next one.
fn due_of(known: &KnownList, held: &[Early]) -> Option<Early>
    ensures { result ≡ find (is_due known.now) held.now }
{
    match held {
        [] => None,
        [early, others @ ..] => {
            if is_due(known, early) {
                return Some(*early);
            }
            due_of(known, others)
        }
    }
}

impl ViewerRun {
    ghost use Rattle.std.specs.Prelude.{◌≡◌, ◌≤◌, [], ◌∷◌, length, false, IfOk, IfSome, None};
    ghost use Rattle.std.specs.List.{find};
    ghost use Rattle.std.specs.Option.{option_map};
    ghost use Rattle.share_wire.specs.Decoding.{decoded};
    ghost use Rattle.share_session.specs.Datagram.{datagram};
    ghost use Rattle.share_session.specs.Runs.{session_of};
    ghost use Rattle.share_runs.specs.Forgetting.{RunMayForget};
    ghost use Rattle.share_runs.specs.Hearing.{IsGathered, IsHeard, IsNext};
    ghost use Rattle.share_runs.specs.Hearing.{IsDue, IsDueInput, IsReleased, IsTaken, Keeps};
    ghost use Rattle.share_runs.specs.Hearing.{MayHold, early_of, is_due, text_of};
    ghost use Rattle.share_runs.specs.Saying.{IsSaid, said_of};
    ghost use Rattle.share_runs.specs.Steps.{step_of};

    /// Returns a viewer of the scene with this mark, in this run, that has heard nothing. It may
    /// start before the first input.
    pub fn new(alloc: Global, mark: [u8; 32], run: Run) -> Result<ViewerRun, AllocError>
        ensures mark { IfOk result (λ r. r.mark ≡ mark) }
        ensures session { IfOk result (λ r. r.session ≡ session_of mark run) }
        ensures chains { IfOk result (λ r. r.known.chains.items ≡ []) }
        ensures starts { IfOk result
            (λ r. r.known.starts.items ≡ record { applied = 0; chain = run } ∷ []) }
        ensures held { IfOk result (λ r. r.held.items ≡ []) }
        ensures list { IfOk result (λ r. r.is_other_list ≡ false) }
    {
        let mut starts = Vec::new(alloc);
        starts.push(Prefix {
            applied: 0,
            chain: run,
        })?;
        let known = KnownList {
            from: 0,
            chains: Vec::new(alloc),
            starts,
        };
        Ok(ViewerRun {
            mark,
            session: session_of(&mark, &run),
            known,
            held: Vec::new(alloc),
            is_other_list: false,
        })
    }

    /// Reports whether an input of another list came.
    pub fn is_other_list(&self) -> bool
        ensures { result ≡ self.now.is_other_list }
    {
        self.is_other_list
    }

    /// Returns the session.
    pub fn session(&self) -> &Session
        ensures { result.now ≡ self.now.session }
    {
        &self.session
    }

    /// Forgets old chains of the list, if there are many.
    pub(crate) fn forget_old(&mut self)
        ensures { RunMayForget self.old self.new }
    {
        self.known.forget_old();
    }

    /// Returns the datagram of version 1 of a message of this session.
    fn hand_on(&self, message: &Message2) -> Option<Packet>
        ensures { option_map (λ p. p.items) result ≡ text_of self.now message.now }
    {
        let Some(heard) = heard(&self.session, &self.mark, message) else {
            return None;
        };
        Some(encode(&heard))
    }

    /// Hands on the next input, and keeps its chain, unless memory is refused.
    fn hand_on_next(&mut self, message: &Message2) -> Option<Packet>
        ensures { IsNext self.old message.now (option_map (λ p. p.items) result) self.new }
    {
        let Message2::Said(_, Body2::Input(input)) = message else {
            return None;
        };
        let packet = self.hand_on(message)?;
        let chain = next_chain(&input.chain, input);
        match self.known.add_next(chain) {
            Ok(()) => Some(packet),
            Err(_) => None,
        }
    }

    /// Hands on a piece, and keeps that the viewer may start there, unless memory is refused.
    fn hand_on_piece(&mut self, message: &Message2) -> Option<Packet>
        ensures { IsGathered self.old message.now (option_map (λ p. p.items) result) self.new }
    {
        let Message2::Said(_, Body2::Piece(piece)) = message else {
            return None;
        };
        let packet = self.hand_on(message)?;
        let head = piece.head();
        let chain = head.chain;
        let start = Prefix {
            applied: head.applied,
            chain,
        };
        match self.known.add_start(start) {
            Ok(()) => Some(packet),
            Err(_) => None,
        }
    }

    /// Holds an input, unless memory is refused.
    fn hold(&mut self, from: u16, message: &Message2)
        ensures others { self.new ≡ record self.old { held = self.new.held } }
        ensures held { MayHold self.old.held.items (early_of from message.now)
            self.new.held.items }
    {
        let Message2::Said(_, Body2::Input(input)) = message else {
            return;
        };
        let _held = hold(
            &mut self.held,
            Early {
                from,
                input: *input,
            },
        );
    }

    fn taken(&mut self, from: u16, message: &Message2) -> Option<Packet>
        ensures { IsTaken (step_of self.old.session self.old.known message.now) self.old from
            message.now (option_map (λ p. p.items) result) self.new }
    {
        match step_for(&self.session, &self.known, message) {
            RunStep::HandOn => self.hand_on(message),
            RunStep::Next => self.hand_on_next(message),
            RunStep::Hold => {
                self.hold(from, message);
                None
            }
            RunStep::Gather => self.hand_on_piece(message),
            RunStep::OtherList => {
                self.is_other_list = true;
                None
            }
            RunStep::Drop => None,
            RunStep::OtherRun => None,
        }
    }

    /// Takes a message from a peer. Returns the datagram of version 1 that is handed on, if one is.
    pub fn take(&mut self, from: u16, message: &Message2) -> Option<Packet>
        ensures exact { IsTaken (step_of self.old.session self.old.known message.now) self.old from
            message.now (option_map (λ p. p.items) result) self.new }
        ensures heard { IfSome result (λ p. IsHeard self.old.session self.old.mark self.new.known
            message.now p.items) }
        ensures keeps { Keeps self.old from message.now self.new }
    {
        self.taken(from, message)
    }

    /// Drops the held inputs that the viewer has.
    fn release(&mut self)
        ensures { IsReleased self.old self.new }
    {
        release(&self.known, &mut self.held);
    }

    /// Hands on the next input, if it is held. It stays held.
    fn take_due(&mut self) -> Option<(u16, Packet)>
        ensures exact { IsDue (find (is_due self.old.known) self.old.held.items) self.old
            (option_map (λ h. (h.0, h.1.items)) result) self.new }
    {
        let Some(early) = due_of(&self.known, &self.held) else {
            return None;
        };
        let message = Message2::Said(self.session, Body2::Input(early.input));
        let Some(packet) = self.take(early.from, &message) else {
            return None;
        };
        Some((early.from, packet))
    }

    /// Hands on the next input, if it is held. Returns who sent it, and its datagram of version 1.
    /// Held inputs that the viewer has are dropped first.
    pub fn due(&mut self) -> Option<(u16, Packet)>
        ensures { IsDueInput self.old (option_map (λ h. (h.0, h.1.items)) result) self.new }
    {
        self.release();
        self.take_due()
    }

    /// Takes what the viewer says, as a datagram of version 1. Returns the datagram of version 2,
    /// in this session, if there is one. An ask may begin the list that the viewer knows.
    pub fn say(&mut self, bytes: &[u8]) -> Option<Packet2>
        ensures sent { option_map (λ p. p.items) result
            ≡ option_map datagram (said_of self.old (decoded bytes.now)) }
        ensures most { IfSome result (λ p. length p.items ≤ 250) }
        ensures known { IsSaid self.old (decoded bytes.now) self.new }
    {
        match decode(bytes) {
            Ok(message) => {
                let said = said_of(&self.session, &self.known, &message.body);
                self.known.note(&message.body);
                said
            }
            Err(_) => None,
        }
    }
}
