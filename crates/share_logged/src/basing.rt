//! A host that goes on from the base of a log.

ghost use Rattle.std.specs.Prelude.{◌≡◌, ◌++◌, ℕ, List, IfErr, IfOk};
ghost use Rattle.share_entries.specs.Entry.{EntryView};
ghost use Rattle.share_turns.specs.Attendance.{none_heard};
ghost use Rattle.share_logged.specs.Bases.{BasesStandForEntries, IsBaseOf, base_of, part_from};
ghost use Rattle.share_logged.specs.Following.{PartsMake, StopsAt};
ghost use Rattle.share_logged.specs.Making.{IsOfLog};

use crate::fault::ResumeFault;
use crate::following::follow;
use crate::hosting::LoggedHost;
use share_core::Host;
use share_entries::{Base, Chain, Entry, is_base_number, is_viewer_count};
use share_turns::Attendance;
use std::alloc::Global;
use x3d_values::is_input_time;

/// A host that goes on from a base is the host that all entries of the log make.
pub fn bases_stand_for_entries()
    ensures { BasesStandForEntries }
{}

/// Creates the host of a scene with this mark that goes on from a base with the entries after it,
/// for the base's viewers. It has the inputs after the base, and has heard of no viewer.
///
/// Fails with `NotALog` and the number of the first entry that no host of these viewers wrote
/// there, or with `Memory`.
pub fn resume_from(
    alloc: Global,
    mark: [u8; 32],
    base: &Base,
    entries: &[Entry],
) -> Result<LoggedHost, ResumeFault>
    ensures mark { IfOk result (λ h. h.mark ≡ mark) }
    ensures attendance { IfOk result (λ h. h.attendance ≡ none_heard) }
    ensures made { IfOk result (λ h. PartsMake (part_from base.now) entries.now h.part) }
    // It is the host of each log of which this is a base and these are the entries after it.
    ensures log { IfOk result (λ h. (run : List ℕ) (viewers : ℕ) (below : List EntryView)
        → IsBaseOf run viewers below base.now → IsOfLog viewers (below ++ entries.now) h.part) }
    ensures why { IfErr result (λ fault. StopsAt (part_from base.now) entries.now fault) }
{
    let begun = LoggedHost {
        host: Host::behind(alloc, mark, base.kept(), base.number(), base.time()),
        attendance: Attendance::new(),
        last: base.time(),
        rested: 0,
    };
    follow(begun, entries)
}

impl LoggedHost {
    ghost use Rattle.std.specs.Prelude.{◌≡◌, ◌≤◌, ℕ, List, IfSome, is_some, length, true};
    ghost use Rattle.x3d_values.specs.Ranges.{max_viewers};
    ghost use Rattle.share_entries.specs.Chain.{chain_after};
    ghost use Rattle.share_entries.specs.Entry.{EntryView};
    ghost use Rattle.share_logged.specs.Bases.{IsBaseOf, base_of};
    ghost use Rattle.share_logged.specs.Making.{IsOfLog};

    /// Returns the base of the log of this host, which has this chain after its last entry, with
    /// the SHA-256 of a snapshot of the world there. Returns `None` before the first entry.
    pub fn base(&self, chain: Chain, snapshot: [u8; 32]) -> Option<Base>
        ensures value { result ≡ base_of self.now.part chain snapshot }
        ensures of_log { IfSome result (λ b. (run : List ℕ) (viewers : ℕ)
            (entries : List EntryView) → IsOfLog viewers entries self.now.part
            → chain ≡ chain_after run entries → IsBaseOf run viewers entries b) }
        // The host of a log with an entry has one.
        ensures some { (viewers : ℕ) (entries : List EntryView)
            → IsOfLog viewers entries self.now.part → 1 ≤ viewers → viewers ≤ max_viewers
            → 1 ≤ length entries → is_some result ≡ true }
    {
        let kept = self.host.kept();
        let number = self.host.len();
        if !is_viewer_count(kept.len() as u8) || !is_base_number(number) {
            return None;
        }
        if !is_input_time(self.last) {
            return None;
        }
        Some(Base::new(kept, number, self.last, chain, snapshot))
    }
}
