//! What the port of a host learns: the next entries of its log.

use crate::applying::apply_all;
use crate::forgetting::forget_if_due;
use crate::port::KeepingPort;
use script_host::Behaviour;
use share_entries::Entry;
use share_logged::Learns;
use share_turns::PortFault;

impl<B: Behaviour, P: Learns> Learns for KeepingPort<B, P> {
    ghost use Rattle.std.specs.Prelude.{◌≡◌, MatchResult, None, OnErr, OnOk, true};
    ghost use Rattle.cascade_core.specs.Held.{is_spoiled};
    ghost use Rattle.share_turns.specs.Told.{counted};
    ghost use Rattle.share_keeping.specs.Applying.{after_entries, refusal_in};
    ghost use Rattle.share_keeping.specs.Forgetting.{due_next, forgot_if_due};
    ghost use Rattle.share_keeping.specs.Keeping as spec;

    fn learn(&mut self, entries: &[Entry]) -> Result<(), PortFault>
        ensures told { spec.no_record ≡ spec.no_record }
        ensures failures { self.new.failed ≡ counted result self.old.failed }
        ensures time { P.rested self.new.port ≡ P.rested self.old.port }
        ensures below { P.told self.new.port ≡ P.told self.old.port }
        ensures stage { OnOk result (self.new.stage
            ≡ forgot_if_due self.old.forgetting (after_entries self.old.stage entries.now)) }
        ensures forget { MatchResult result
            (λ _. self.new.forgetting
            ≡ due_next self.old.forgetting (after_entries self.old.stage entries.now))
            (λ _. self.new.forgetting ≡ self.old.forgetting) }
        ensures last { self.new.forgetting.last ≡ self.old.forgetting.last }
        ensures taken { OnOk result (refusal_in self.old.stage entries.now ≡ None) }
        // A stage that isn't that of the log gives no snapshot and applies nothing.
        ensures spoiled { OnErr result (is_spoiled self.new.stage.held ≡ true) }
        ensures joiners { self.new.joiners ≡ self.old.joiners }
        ensures shot { self.new.shot ≡ self.old.shot }
        ensures mark { self.new.mark ≡ self.old.mark }
        ensures lost { self.new.lost ≡ self.old.lost }
    {
        if self.port.learn(entries).is_err() {
            return Err(self.give_up());
        }
        if apply_all(&mut self.stage, entries).is_err() {
            return Err(self.give_up());
        }
        forget_if_due(&mut self.stage, &mut self.forgetting);
        Ok(())
    }

    fn drop_below(&mut self, floor: u64)
        ensures told { spec.no_record ≡ spec.no_record }
        ensures failures { self.new.failed ≡ self.old.failed }
        ensures time { P.rested self.new.port ≡ P.rested self.old.port }
        ensures below { P.told self.new.port ≡ P.told self.old.port }
        // Nothing else changes.
        ensures others { self.new ≡ record self.old { port = self.new.port } }
    {
        self.port.drop_below(floor);
    }
}
