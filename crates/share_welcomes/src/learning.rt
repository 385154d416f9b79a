//! What the port of a host learns, and what it drops: entries of its log.

use crate::port::HostPort;
use share_entries::Entry;
use share_logged::Learns;
use share_turns::{Port, PortFault};

impl<P: Port> Learns for HostPort<P> {
    ghost use Rattle.std.specs.Prelude.{◌≡◌, ◌⊎◌, ◌<◌, ℕ, OnErr, OnOk, length, take};
    ghost use Rattle.share_turns.specs.Told.{counted};
    ghost use Rattle.share_welcomes.specs.Learned.{dropped_below, learned_more};
    ghost use Rattle.share_welcomes.specs.Passing.{told_in_one};

    fn learn(&mut self, entries: &[Entry]) -> Result<(), PortFault>
        ensures told { told_in_one self.new.run (P.told self.new.port)
            ≡ told_in_one self.old.run (P.told self.old.port) }
        ensures failures { self.new.failed ≡ counted result self.old.failed }
        ensures time { P.rested self.new.port ≡ P.rested self.old.port }
        ensures learned { OnOk result
            (self.new.learned ≡ learned_more self.old.learned entries.now) }
        // It failed in the middle: it lacks at least the last one.
        ensures refused { OnErr result ((count : ℕ) × (count < length entries.now)
            × (self.new.learned ≡ learned_more self.old.learned (take count entries.now))) }
        ensures run { self.new.run ≡ self.old.run }
        ensures versions { self.new.versions ≡ self.old.versions }
    {
        match self.learned.learn(entries) {
            Ok(()) => Ok(()),
            Err(_refused) => Err(self.fail()),
        }
    }

    fn drop_below(&mut self, floor: u64)
        ensures told { told_in_one self.new.run (P.told self.new.port)
            ≡ told_in_one self.old.run (P.told self.old.port) }
        ensures failures { self.new.failed ≡ self.old.failed }
        ensures time { P.rested self.new.port ≡ P.rested self.old.port }
        // If memory is refused all stay, until it is called again.
        ensures learned { (self.new.learned ≡ dropped_below floor self.old.learned)
            ⊎ (self.new.learned ≡ self.old.learned) }
        ensures below { self.new.port ≡ self.old.port }
        ensures run { self.new.run ≡ self.old.run }
        ensures versions { self.new.versions ≡ self.old.versions }
    {
        let _refused = self.learned.drop_below(floor);
    }
}
