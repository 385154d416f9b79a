//! The port of a host that keeps its world.

ghost use Rattle.std.specs.Prelude.{◌≡◌, ◌⊎◌, IfErr, IfOk, None, OnOk, Some};
ghost use Rattle.cascade_core.specs.Held.{applied_of};
ghost use Rattle.share_turns.specs.Told.{one_more};
ghost use Rattle.share_keeping.specs.Applying.{after_entries, refusal_in};
ghost use Rattle.share_keeping.specs.Forgetting.{begun, forgot_as};
ghost use Rattle.share_keeping.specs.Joiners.{no_joiners};

use crate::applying::apply_all;
use crate::forgetting::{Forgetting, begin_forgetting};
use crate::giving::give;
use crate::joiners::Joiners;
use crate::said::{Said, says};
use crate::shot::{Shot, note_sent, renew, taken};
use cascade_core::{ApplyFault, Stage};
use script_host::Behaviour;
use share_entries::Entry;
use share_turns::{Port, PortFault, RECEIVED};

/// The port of a host that keeps its world: it has a stage that has applied the entries of the
/// host's log, and gives a snapshot of it to viewers that join. A viewer joins that asks for input
/// 1, until it asks for a later one or is silent for 10 seconds.
///
/// While viewers join there is a snapshot, of boot 1. It is taken at a rest, and again if the host
/// no longer has the inputs after it. At each rest each viewer that joins gets its next 16 pieces,
/// round and round. A send that fails ends that, until the next rest.
///
/// It can forget the lines of the stage's trace of all inputs but the last ones, in portions.
#[derive(Drop)]
pub struct KeepingPort<B: Behaviour, P> {
    pub(crate) port: P,
    pub(crate) stage: Stage<B>,
    mark: [u8; 32],
    pub(crate) forgetting: Forgetting,
    joiners: Joiners,
    shot: Option<Shot>,
    failed: u64,
    lost: u64,
}

impl<B: Behaviour, P: Drop> KeepingPort<B, P> {
    /// Returns the port of a host of the scene with this mark, over the port that learns the
    /// entries of its log. The stage is that of the scene without any input; it applies the entries
    /// that the log has. Fails with the fault of the first entry that it refuses, or with `Memory`
    /// if memory is refused.
    ///
    /// If `forget` is a number, the stage forgets the lines of its trace of all inputs but the last
    /// `forget`: now, and each time that 64 more inputs, or `forget` if that is more, are applied.
    pub fn begin(
        port: P,
        stage: Stage<B>,
        mark: [u8; 32],
        entries: &[Entry],
        forget: Option<u64>,
    ) -> Result<KeepingPort<B, P>, ApplyFault>
        ensures port { IfOk result (λ p. p.port ≡ port) }
        ensures stage { IfOk result (λ p. p.stage
            ≡ forgot_as forget (after_entries stage entries.now)) }
        ensures forget { IfOk result (λ p. p.forgetting
            ≡ begun forget (applied_of (after_entries stage entries.now).held)) }
        ensures mark { IfOk result (λ p. p.mark ≡ mark) }
        ensures joiners { IfOk result (λ p. p.joiners ≡ no_joiners) }
        ensures shot { IfOk result (λ p. p.shot ≡ None) }
        ensures taken { OnOk result (refusal_in stage entries.now ≡ None) }
        ensures err { IfErr result (λ fault. (fault ≡ ApplyFault.Memory)
            ⊎ (refusal_in stage entries.now ≡ Some fault)) }
    {
        let mut stage = stage;
        if let Err(fault) = apply_all(&mut stage, entries) {
            drop(stage);
            return Err(fault);
        }
        let forgetting = begin_forgetting(&mut stage, forget);
        Ok(KeepingPort {
            port,
            stage,
            mark,
            forgetting,
            joiners: Joiners::none(),
            shot: None,
            failed: 0,
            lost: 0,
        })
    }
}

impl<B: Behaviour, P> KeepingPort<B, P> {
    ghost use Rattle.std.specs.Prelude.{◌≡◌, IfSome};
    ghost use Rattle.cascade_core.specs.Held.{spoiled};
    ghost use Rattle.share_turns.specs.Told.{one_more};
    ghost use Rattle.share_wire.specs.Decoding.{decoded};
    ghost use Rattle.share_keeping.specs.Joiners.{are_some};
    ghost use Rattle.share_keeping.specs.Keeping as spec;
    ghost use Rattle.share_keeping.specs.Said.{said_in};
    ghost use Rattle.share_keeping.specs.Shots.{IsTaken};

    /// Returns the inner port.
    pub fn port(&self) -> &P
        ensures { result.now ≡ self.now.port }
    {
        &self.port
    }

    /// Returns the inner port, to be given datagrams.
    pub fn port_mut(&mut self) -> &mut P {
        &mut self.port
    }

    /// Reports whether viewers join.
    pub fn has_joiners(&self) -> bool
        ensures { result ≡ are_some self.now.joiners }
    {
        self.joiners.are_some()
    }

    /// Returns the stage, to read the world.
    pub fn stage(&self) -> &Stage<B>
        ensures { result.now ≡ self.now.stage }
    {
        &self.stage
    }

    /// Returns a snapshot of the world, of boot 1. Returns `None` if the stage is spoiled, or memory
    /// is refused.
    pub fn snapshot(&self) -> Option<Shot>
        ensures { IfSome result (IsTaken self.now.mark self.now.stage) }
    {
        taken(&self.stage, &self.mark)
    }

    /// Returns how many rests ended at a send of a piece that failed, up to 2^64 - 1.
    pub fn lost(&self) -> u64
        ensures { result ≡ self.now.lost }
    {
        self.lost
    }

    fn fail(&mut self) -> PortFault
        ensures { self.new ≡ record self.old { failed = one_more self.old.failed } }
    {
        self.failed = self.failed.saturating_add(1);
        PortFault
    }

    /// Fails, as the stage isn't that of the log any more: it is spoiled.
    pub(crate) fn give_up(&mut self) -> PortFault
        ensures { self.new ≡ record self.old {
          failed = one_more self.old.failed;
          stage = spoiled self.old.stage;
        } }
    {
        self.stage.spoil();
        self.fail()
    }

    /// Notes that a datagram came.
    fn hear(&mut self, from: u16, bytes: &[u8])
        ensures { self.new ≡ record self.old {
          joiners = spec.heard (said_in self.old.mark (decoded bytes.now)) from self.old.joiners;
        } }
    {
        match says(&self.mark, bytes) {
            Said::Joins(who) => self.joiners.join(who, from),
            Said::GoesOn(who) => self.joiners.leave(who),
            Said::HasFrom(_) => {}
            Said::Nothing => {}
        }
    }

    /// Counts a rest that a failed send ended.
    fn note_lost(&mut self, is_whole: bool)
        ensures { self.new ≡ record self.old { lost = spec.lost_after is_whole self.old.lost } }
    {
        if !is_whole {
            self.lost = self.lost.saturating_add(1);
        }
    }
}

impl<B: Behaviour, P: Port> KeepingPort<B, P> {
    ghost use Rattle.std.specs.Prelude.{◌≡◌};
    ghost use Rattle.share_keeping.specs.Joiners.{are_some};
    ghost use Rattle.share_keeping.specs.Keeping as spec;

    /// Gives pieces to those that join. Returns whether no send failed.
    fn give_pieces(&mut self) -> bool
        ensures given { spec.IsGiven self.old.mark self.old.stage result self.old.joiners
            self.new.joiners self.old.shot self.new.shot (P.told self.old.port)
            (P.told self.new.port) }
        ensures stage { self.new.stage ≡ self.old.stage }
        ensures mark { self.new.mark ≡ self.old.mark }
        ensures forget { self.new.forgetting ≡ self.old.forgetting }
        ensures failed { self.new.failed ≡ self.old.failed }
        ensures lost { self.new.lost ≡ self.old.lost }
        ensures time { P.rested self.new.port ≡ P.rested self.old.port }
    {
        renew(&self.stage, &self.mark, &mut self.shot, &mut self.joiners);
        give(&self.mark, &self.shot, &mut self.joiners, &mut self.port)
    }

    /// Gives pieces to those that join, or drops the snapshot if none does. Returns whether no
    /// send failed.
    fn give_if_joined(&mut self) -> bool
        ensures given { spec.IsRestOf (are_some self.old.joiners) self.old.mark self.old.stage
            result self.old.joiners self.new.joiners self.old.shot self.new.shot
            (P.told self.old.port) (P.told self.new.port) }
        ensures stage { self.new.stage ≡ self.old.stage }
        ensures mark { self.new.mark ≡ self.old.mark }
        ensures forget { self.new.forgetting ≡ self.old.forgetting }
        ensures failed { self.new.failed ≡ self.old.failed }
        ensures lost { self.new.lost ≡ self.old.lost }
        ensures time { P.rested self.new.port ≡ P.rested self.old.port }
    {
        if self.joiners.are_some() {
            self.give_pieces()
        } else {
            self.shot = None;
            true
        }
    }
}

impl<B: Behaviour, P: Port> Port for KeepingPort<B, P> {
    ghost use Rattle.std.specs.Prelude.{◌≡◌, ◌≤◌, ◌+◌, ◌∷◌, [], Bool, MatchOption, MatchResult};
    ghost use Rattle.std.specs.Prelude.{OnErr, OnOk, length, take};
    ghost use Rattle.share_turns.specs.Told.{Grows, counted, max_received};
    ghost use Rattle.share_turns.specs.declared.traffic.Traffic.TheVariants.{Nothing, Received};
    ghost use Rattle.share_turns.specs.declared.traffic.Traffic.TheVariants.{Sent};
    ghost use Rattle.share_wire.specs.Decoding.{decoded};
    ghost use Rattle.share_keeping.specs.Keeping as spec;
    ghost use Rattle.share_keeping.specs.Said.{said_in};

    ghost told = { λ _. spec.no_record };

    ghost failure_count = { λ p. p.failed };

    ghost rested = { λ p. P.rested p.port };

    fn send(&mut self, to: u16, bytes: &[u8]) -> Result<(), PortFault>
        requires { length bytes.now ≤ max_received }
        ensures ok { OnOk result (Grows spec.no_record spec.no_record
            (Sent (record { peer = to; bytes = bytes.now }) ∷ [])) }
        ensures err { OnErr result (Grows spec.no_record spec.no_record []) }
        ensures failures { self.new.failed ≡ counted result self.old.failed }
        ensures time { P.rested self.new.port ≡ P.rested self.old.port }
        // It is sent below.
        ensures sent { OnOk result (Grows (P.told self.old.port) (P.told self.new.port)
            (Sent (record { peer = to; bytes = bytes.now }) ∷ [])) }
        ensures unsent { OnErr result (Grows (P.told self.old.port) (P.told self.new.port) []) }
        ensures shot { self.new.shot ≡ spec.shot_after
            (said_in self.old.mark (decoded bytes.now)) to self.old.joiners self.old.shot }
        ensures joiners { self.new.joiners ≡ self.old.joiners }
        ensures stage { self.new.stage ≡ self.old.stage }
        ensures mark { self.new.mark ≡ self.old.mark }
        ensures forget { self.new.forgetting ≡ self.old.forgetting }
        ensures lost { self.new.lost ≡ self.old.lost }
    {
        note_sent(&self.mark, to, bytes, &self.joiners, &mut self.shot);
        match self.port.send(to, bytes) {
            Ok(()) => Ok(()),
            Err(_failed) => Err(self.fail()),
        }
    }

    fn receive(&mut self, into: &mut [u8; RECEIVED]) -> Result<Option<(u16, usize)>, PortFault>
        ensures got { MatchResult result
            (λ came. MatchOption came (Grows spec.no_record spec.no_record (Nothing ∷ []))
            (λ r. (r.1 ≤ max_received) × Grows spec.no_record spec.no_record
            (Received (record { peer = r.0; bytes = take r.1 into.new }) ∷ [])))
            (λ _. Grows spec.no_record spec.no_record []) }
        ensures failures { self.new.failed ≡ counted result self.old.failed }
        ensures time { P.rested self.new.port ≡ P.rested self.old.port }
        // What is handed on came below.
        ensures came { MatchResult result
            (λ came. MatchOption came
            (Grows (P.told self.old.port) (P.told self.new.port) (Nothing ∷ []))
            (λ r. Grows (P.told self.old.port) (P.told self.new.port)
            (Received (record { peer = r.0; bytes = take r.1 into.new }) ∷ [])))
            (λ _. Grows (P.told self.old.port) (P.told self.new.port) []) }
        ensures joiners { MatchResult result
            (λ came. MatchOption came (self.new.joiners ≡ self.old.joiners)
            (λ r. self.new.joiners ≡ spec.heard
            (said_in self.old.mark (decoded (take r.1 into.new))) r.0 self.old.joiners))
            (λ _. self.new.joiners ≡ self.old.joiners) }
        ensures shot { self.new.shot ≡ self.old.shot }
        ensures stage { self.new.stage ≡ self.old.stage }
        ensures mark { self.new.mark ≡ self.old.mark }
        ensures forget { self.new.forgetting ≡ self.old.forgetting }
        ensures lost { self.new.lost ≡ self.old.lost }
    {
        match self.port.receive(into) {
            Ok(Some((from, count))) => {
                self.hear(from, &into[..count]);
                Ok(Some((from, count)))
            }
            Ok(None) => Ok(None),
            Err(_failed) => Err(self.fail()),
        }
    }

    fn failures(&self) -> u64 {
        self.failed
    }

    fn rest(&mut self, is_new: bool) -> u64
        ensures told { spec.no_record ≡ spec.no_record }
        ensures count { self.new.failed ≡ self.old.failed }
        ensures time { P.rested self.new.port ≡ P.rested self.old.port + result }
        // What is sent below, and of which snapshot.
        ensures given { (whole : Bool)
            × spec.IsRest self.old.mark self.old.stage result whole self.old.joiners
            self.new.joiners self.old.shot self.new.shot (P.told self.old.port)
            (P.told self.new.port) × (self.new.lost ≡ spec.lost_after whole self.old.lost) }
        ensures stage { self.new.stage ≡ self.old.stage }
        ensures mark { self.new.mark ≡ self.old.mark }
        ensures forget { self.new.forgetting ≡ self.old.forgetting }
    {
        let millis = self.port.rest(is_new);
        self.joiners.pass(millis);
        let is_whole = self.give_if_joined();
        self.note_lost(is_whole);
        millis
    }

    fn wait(&mut self, millis: u32)
        ensures told { spec.no_record ≡ spec.no_record }
        ensures count { self.new.failed ≡ self.old.failed }
        ensures time { P.rested self.new.port ≡ P.rested self.old.port }
        ensures below { P.told self.new.port ≡ P.told self.old.port }
        ensures same { self.new ≡ record self.old { port = self.new.port } }
    {
        self.port.wait(millis);
    }
}
